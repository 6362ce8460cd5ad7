// The cases of a section, which are about a memory or a table.
use super::settings::Means;
use super::text::{MOST, cut, order};
use std::io;
use types::answer::{Answer, Value, number, shown};

// What an operation that gives no value answers.
pub(crate) const DONE: Answer = Ok(Value::Number(0));

// A memory or a table, with its cells: what each kind says in its own way.
pub(crate) trait Subject {
    // What a word asks for with these numbers, or nothing.
    fn act(&mut self, means: &mut Means, word: &[u8], numbers: &[u64]) -> Option<Answer>;

    fn size(&self) -> u64;

    // The end of a case's line, from the space before the cells.
    fn print_cells(&self, rt: &impl Print) -> io::Result<()>;
}

#[derive(Clone, Copy)]
pub(crate) struct Cases<S> {
    subject: S,
    means: Means,
}

impl<S: Subject> Cases<S> {
    pub(crate) fn about(subject: S) -> Cases<S> {
        Cases {
            subject,
            means: Means::new(),
        }
    }

    // Fuel and limiter for the lines that follow, the word that memories and tables share.
    fn settle(&mut self, word: &[u8], numbers: &[u64]) -> Option<Answer> {
        let (b"with", [fuel, per_unit, metering, script @ ..]) = (word, numbers) else {
            return None;
        };
        self.means = Means::given(*fuel, *per_unit, *metering, script)?;
        Some(DONE)
    }

    fn act(&mut self, word: &[u8], numbers: &[u64]) -> Option<Answer> {
        let done = self.subject.act(&mut self.means, word, numbers);
        done.or_else(|| self.settle(word, numbers))
    }

    // One line: what is malformed prints its name and `?`, and a line without a name prints nothing else.
    pub(crate) fn obey(&mut self, rt: &impl Print, line: &[u8]) -> io::Result<()> {
        let mut row = [0u64; MOST];
        let (name, text) = cut(line);
        let answer = order(text, &mut row).and_then(|(word, numbers)| self.act(word, numbers));
        let Some(answer) = answer else {
            rt.write_all(name)?;
            return rt.write_all(b" ?\n");
        };
        if name.is_empty() {
            return Ok(());
        }
        self.print(rt, name, answer)
    }

    fn print(&self, rt: &impl Print, name: &[u8], answer: Answer) -> io::Result<()> {
        let number = number(answer);
        let shown = shown(answer);
        let size = self.subject.size();
        let fuel = self.means.fuel.remaining;
        let place = self.means.limiter.at;
        rt.write_all(name)?;
        print!(rt; " {number} {shown:016x} {size} {fuel} {place}")?;
        self.subject.print_cells(rt)
    }
}
