// Memories and tables at their edges, over cells that are full of a5 before. The cases are lines on standard input, whose head says
// how they read; a case prints its name, document 01's number, the value or amount in 16 hexadecimal digits, the size, the fuel
// left, the script's place, and the cells: a memory's bytes, or the low 16 bits of each of a table's cells.
#![tactic(auto)]

mod case;
mod memories;
mod settings;
mod tables;
mod text;

ghost use Rattle.std.specs.Prelude.{◌≤◌, length, IfOk, IfSome};

use case::Cases;
use memories::MemoryCase;
use std::io;
use std::io::Read;
use tables::TableCase;

// Which of the two is read: neither is a value that may be missing.
#[derive(Clone, Copy)]
enum Section {
    Memory(Cases<MemoryCase>),
    Table(Cases<TableCase>),
}

impl Section {
    fn obey(&mut self, rt: &impl Print, line: &[u8]) -> io::Result<()> {
        match self {
            Section::Memory(cases) => cases.obey(rt, line),
            Section::Table(cases) => cases.obey(rt, line),
        }
    }
}

// All sections: a line that starts with M or T begins one, of a memory or a table, and the first line one of a memory.
fn sections(rt: &impl Print, input: &[u8]) -> io::Result<()> {
    let mut section = Section::Memory(Cases::about(MemoryCase::new()));
    for line in input.split(|b| *b == b'\n') {
        match line.first() {
            None | Some(b'#') => {}
            Some(b'M') => section = Section::Memory(Cases::about(MemoryCase::new())),
            Some(b'T') => section = Section::Table(Cases::about(TableCase::new())),
            Some(_) => section.obey(rt, line)?,
        }
    }
    Ok(())
}

// Reads until the row is full or the input ends; answers how many bytes came, which `read_exact` would lose.
fn read_full(from: &mut impl Read, row: &mut [u8]) -> io::Result<usize>
    ensures { IfOk result (λ n. n ≤ length row.new) }
{
    let mut done = 0;
    while done < row.len() {
        match from.read(&mut row[done..])? {
            0 => break,
            n => done += n,
        }
    }
    Ok(done)
}

// How many bytes the input has, where all of it is in the row.
fn read_whole(from: &mut impl Read, row: &mut [u8]) -> io::Result<Option<usize>>
    ensures { IfOk result (λ all. IfSome all (λ n. n ≤ length row.new)) }
{
    let got = read_full(from, row)?;
    let over = from.read(&mut [0u8; 1])?;
    Ok(if over == 0 { Some(got) } else { None })
}

// All of the input, or nothing where it is not whole.
fn run(rt: &(impl Print + Eprint), from: &mut impl Read, input: &mut [u8]) -> io::Result<()> {
    match read_whole(from, input) {
        Ok(Some(0)) => eprintln!(rt; "edges: the input is empty"),
        Ok(Some(got)) => sections(rt, &input[..got]),
        Ok(None) => eprintln!(rt; "edges: the input has more than 32768 bytes"),
        Err(error) => eprintln!(rt; "edges: standard input cannot be read: {error}"),
    }
}

fn main(rt: HostRuntime) -> io::Result<()> {
    let mut input = [0u8; 32768];
    run(&rt, &mut rt.stdin(), &mut input)
}
