// The cells of a machine's memories and tables, in hexadecimal.
use machine::records::Machine;
use memory::memory::Memory;
use std::{fmt, io};
use table::table::Table;

// The bytes of one line.
const LINE: usize = 32;

const DIGITS: [u8; 16] = *b"0123456789abcdef";

// Bytes in lines of 32, two digits each. A line at a time: each byte by itself through the formatter takes twice the time of a run.
#[derive(Drop)]
struct Hex<'a>(&'a [u8]);

impl fmt::Display for Hex<'_> {
    fn fmt<W: fmt::Write>(&self, f: &mut fmt::Formatter<W>) -> fmt::Result {
        for line in self.0.chunks(LINE) {
            let mut row = [b'\n'; 2 * LINE + 1];
            for (pair, b) in row.chunks_exact_mut(2).zip(line) {
                pair[0] = DIGITS[(*b / 16) as usize];
                pair[1] = DIGITS[(*b % 16) as usize];
            }
            let text = &row[..=2 * line.len().min(LINE)];
            f.write_str(str::from_utf8(text).map_err(|_| fmt::Error)?)?;
        }
        Ok(())
    }
}

// The cells of a record in their buffer, which has them all on every machine of a replay.
fn cells_of<T>(buffer: &[T], start: usize, size: u64) -> io::Result<&[T]> {
    let rest = buffer.get(start..).unwrap_or(&[]);
    rest.get(..size as usize)
        .ok_or(io::Error::from(io::ErrorKind::InvalidData))
}

// A memory's bytes in lines of 32.
fn show_memory(rt: &impl Print, number: usize, memory: &Memory, bytes: &[u8]) -> io::Result<()> {
    let size = memory.size;
    let part = cells_of(bytes, memory.start, size)?;
    println!(rt; "memory {number:x} {size:016x}")?;
    rt.print(Hex(part))
}

// A table's references in a line each.
fn show_table(rt: &impl Print, number: usize, table: &Table, cells: &[u64]) -> io::Result<()> {
    let size = table.size;
    let part = cells_of(cells, table.start, size)?;
    println!(rt; "table {number:x} {size:016x}")?;
    for cell in part {
        println!(rt; "{cell:016x}")?;
    }
    Ok(())
}

// Every memory, then every table.
pub(crate) fn show(
    rt: &impl Print,
    machine: &Machine,
    bytes: &[u8],
    cells: &[u64],
) -> io::Result<()> {
    let counts = machine.counts;
    for (number, memory) in machine.memories.iter().take(counts.memories).enumerate() {
        show_memory(rt, number, memory, bytes)?;
    }
    for (number, table) in machine.tables.iter().take(counts.tables).enumerate() {
        show_table(rt, number, table, cells)?;
    }
    Ok(())
}
