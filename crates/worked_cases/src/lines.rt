// The line of a case.
use std::io;
use types::answer::{Answer, number, shown};

// The case and a number.
pub(crate) fn number_line(rt: &impl Print, name: &str, n: u64) -> io::Result<()> {
    println!(rt; "{name} {n}")
}

// The case, document 01's number, and the value or amount in hexadecimal.
pub(crate) fn answer_line(rt: &impl Print, name: &str, answer: Answer) -> io::Result<()> {
    let number = number(answer);
    let shown = shown(answer);
    println!(rt; "{name} {number} {shown:016x}")
}
