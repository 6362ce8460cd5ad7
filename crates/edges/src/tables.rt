// A table's cases.
use super::case::{DONE, Subject};
use super::settings::Means;
use std::io;
use table::element::ElementSegment;
use table::new::new_table;
use table::table::Table;
use types::answer::Answer;
use types::grant::Spanned;
use types::index_ty::IndexType;
use types::limits::Limits;
use types::raw::{RawRef, RefType, TypedRawRef};
use types::span::{CopySpan, FillSpan};
use types::table_ty::{TableType, WantedTable};

// A table and its cells, and the items of its segments.
#[derive(Clone, Copy)]
pub(crate) struct TableCase {
    table: Table,
    cells: [u64; 20],
    items: [u64; 5],
}

// A number of the script: 0 is functions, and any other is not refused, as a conversion would.
fn kind(n: u64) -> RefType {
    if n == 0 {
        RefType::Func
    } else {
        RefType::Extern
    }
}

fn reference(bits: u64, n: u64) -> TypedRawRef {
    TypedRawRef {
        raw: RawRef { bits },
        ty: kind(n),
    }
}

// A 32-bit table's record without a maximum, sound or not.
fn record_of(n: u64, minimum: u64, start: u64, room: u64, size: u64) -> Table {
    Table {
        ty: TableType {
            element: kind(n),
            index: IndexType::I32,
            limits: Limits {
                minimum,
                bounded: false,
                maximum: 0,
            },
        },
        start: start as usize,
        room,
        size,
    }
}

fn segment_of(n: u64, start: u64, places: u64, size: u64) -> ElementSegment {
    ElementSegment {
        ty: kind(n),
        start: start as usize,
        places,
        size,
    }
}

fn span_of(to: u64, from: u64, len: u64) -> CopySpan {
    CopySpan { to, from, len }
}

impl TableCase {
    // Dirty cells, of which none is in use, and five items: 41 to 43 at the places from 1 on, beside dirty ones.
    pub(crate) fn new() -> TableCase {
        let mut items = [0xa5a5_a5a5_a5a5_a5a5; 5];
        let _ = ElementSegment::new(RefType::Func, 1, &mut items, &[41, 42, 43]);
        TableCase {
            table: record_of(0, 0, 0, 0, 0),
            cells: [0xa5a5_a5a5_a5a5_a5a5; 20],
            items,
        }
    }

    // A creation that is refused leaves no cells in use. Each parameter is a word's number: a struct of them would be made here alone.
    fn create(
        &mut self,
        means: &mut Means,
        limits: Limits,
        initial: TypedRawRef,
        start: u64,
        room: u64,
    ) -> Answer {
        let wanted = WantedTable {
            element: RefType::Func,
            wide: false,
            limits,
        };
        let done = new_table(
            wanted,
            initial,
            start as usize,
            room,
            &mut self.cells,
            means.limiter,
        );
        means.limiter = done.limiter;
        match done.made {
            Ok(table) => {
                self.table = table;
                DONE
            }
            Err(refusal) => {
                self.table.size = 0;
                Err(refusal)
            }
        }
    }

    fn grow(&mut self, means: &mut Means, count: u64, value: TypedRawRef) -> Answer {
        let grown = self
            .table
            .grow(&mut self.cells, count, value, means.fuel, means.limiter);
        self.table = grown.table;
        *means = Means {
            fuel: grown.fuel,
            limiter: grown.limiter,
        };
        grown.answer
    }

    // An init from a segment.
    fn init(&mut self, means: &mut Means, from: ElementSegment, span: CopySpan) -> Option<Answer> {
        let table = self.table;
        spanned(
            means,
            table.init(from, &mut self.cells, &self.items, span, means.fuel),
        )
    }
}

// The answer of a span of cells, whose fuel is paid.
fn spanned(means: &mut Means, done: Spanned) -> Option<Answer> {
    means.fuel = done.fuel;
    Some(done.answer)
}

impl Subject for TableCase {
    fn act(&mut self, means: &mut Means, word: &[u8], numbers: &[u64]) -> Option<Answer> {
        let table = self.table;
        let cells = &mut self.cells;
        match (word, numbers) {
            (b"new", [minimum, bounded, maximum, bits, of, start, room]) => {
                let limits = Limits {
                    minimum: *minimum,
                    bounded: *bounded != 0,
                    maximum: *maximum,
                };
                Some(self.create(means, limits, reference(*bits, *of), *start, *room))
            }
            (b"record", [of, minimum, start, room, size]) => {
                self.table = record_of(*of, *minimum, *start, *room, *size);
                Some(DONE)
            }
            (b"grow", [count, bits, of]) => Some(self.grow(means, *count, reference(*bits, *of))),
            (b"get", [index]) => Some(table.get(cells, *index)),
            (b"set", [index, bits, of]) => Some(table.set(cells, *index, reference(*bits, *of))),
            (b"fill", [start, bits, of, len]) => {
                let span = FillSpan {
                    start: *start,
                    len: *len,
                };
                spanned(
                    means,
                    table.fill(cells, span, reference(*bits, *of), means.fuel),
                )
            }
            (b"within", [to, from, len]) => {
                let span = span_of(*to, *from, *len);
                spanned(means, table.copy(table, cells, span, means.fuel))
            }
            (b"copy", [to, from, len, of, start, room, size]) => {
                let source = record_of(*of, 0, *start, *room, *size);
                let span = span_of(*to, *from, *len);
                spanned(means, table.copy(source, cells, span, means.fuel))
            }
            (b"init", [to, from, len, of, start, places, size]) => {
                let segment = segment_of(*of, *start, *places, *size);
                self.init(means, segment, span_of(*to, *from, *len))
            }
            (b"dropped", [to, from, len, of, start, places, size]) => {
                let segment = segment_of(*of, *start, *places, *size).drop_items();
                self.init(means, segment, span_of(*to, *from, *len))
            }
            _ => None,
        }
    }

    fn size(&self) -> u64 {
        self.table.size
    }

    // The low 16 bits of each cell, four digits each.
    fn print_cells(&self, rt: &impl Print) -> io::Result<()> {
        for cell in &self.cells {
            let low = *cell % 65536;
            print!(rt; " {low:04x}")?;
        }
        println!(rt)
    }
}
