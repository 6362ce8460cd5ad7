// Operation lines on standard input, each run through records in lent lists on buffers that are full of other cells than 0 before: one
// answer line for each on standard output, and after them the cells of every memory and table.
#![tactic(auto)]

mod cells;
mod failure;
mod host;

ghost use Rattle.std.specs.Prelude.{◌≤◌, length, IfOk};

use failure::Failure;
use host::Host;
use std::io;
use std::io::Read;

// Reads until the row is full or the input ends; answers how many bytes came, which `read_exact` would lose. `edges` has it too: no library stands below both.
fn read_full(from: &mut impl Read, row: &mut [u8]) -> io::Result<usize>
    ensures { IfOk result (λ n. n ≤ length row.new) }
{
    let mut done = 0;
    while done < row.len() {
        match from.read(&mut row[done..])? {
            0 => break,
            n => done += n,
        }
    }
    Ok(done)
}

// How many bytes the input has, where all of it is in the row.
fn read_whole(from: &mut impl Read, row: &mut [u8]) -> Result<usize, Failure>
    ensures { IfOk result (λ n. n ≤ length row.new) }
{
    let got = read_full(from, row).map_err(Failure::Unread)?;
    match from.read(&mut [0; 1]).map_err(Failure::Unread)? {
        0 => Ok(got),
        _ => Err(Failure::TooLong),
    }
}

// The answers to all of the input, then the cells; nothing where the input is not whole.
fn run(rt: &impl Print, from: &mut impl Read) -> Result<(), Failure> {
    let mut row = [0; 262144];
    let got = read_whole(from, &mut row)?;
    let mut host = Host::new();
    host.answer(rt, &row[..got]).map_err(Failure::Unanswered)?;
    host.show(rt).map_err(Failure::Unshown)
}

fn main(rt: HostRuntime) {
    if let Err(failure) = run(&rt, &mut rt.stdin()) {
        let _ = eprintln!(rt; "{failure}");
    }
}
