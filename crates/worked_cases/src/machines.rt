// The cases that run on a machine.
use super::lines::answer_line;
use super::numbers::costs;
use machine::operation::{FuelOp, Items, MemoryOp, Operation};
use machine::row;
use memory::access::{LoadKind, StoreKind};
use std::io;
use types::answer::Answer;
use types::limits::Limits;
use types::memory_ty::WantedMemory;
use types::raw::{RawRef, RefType, TypedRawRef};
use types::span::CopySpan;
use types::table_ty::WantedTable;

// A machine in place: its row and its buffers.
#[derive(Drop)]
struct Host {
    words: [u64; 186],
    bytes: [u8; 8],
    cells: [u64; 4],
    items: [u64; 4],
}

impl Host {
    // Metering is on.
    fn new(copied: u32) -> Host {
        let mut words = [0; 186];
        row::fresh(&mut words, true, costs(copied));
        Host {
            words,
            bytes: [0; 8],
            cells: [0; 4],
            items: [0; 4],
        }
    }

    fn operate(&mut self, op: Operation) -> Answer {
        row::operate(
            &mut self.words,
            &mut self.bytes,
            &mut self.cells,
            &mut self.items,
            op,
        )
    }

    // One operation whose answer is shown.
    fn show(&mut self, rt: &impl Print, name: &str, op: Operation) -> io::Result<()> {
        answer_line(rt, name, self.operate(op))
    }

    // A table of two cells and a segment of two items.
    fn add_table_and_segment(&mut self) {
        let _ = self.operate(Operation::NewTable {
            room: 2,
            wanted: WantedTable {
                element: RefType::Func,
                wide: false,
                limits: at_least(2),
            },
            initial: TypedRawRef {
                raw: RawRef { bits: 0 },
                ty: RefType::Func,
            },
        });
        let _ = self.operate(Operation::NewSegment {
            element: RefType::Func,
            items: Items {
                count: 2,
                first: 7,
                second: 8,
                third: 0,
                fourth: 0,
            },
        });
    }
}

// No maximum.
fn at_least(minimum: u64) -> Limits {
    Limits {
        minimum,
        bounded: false,
        maximum: 0,
    }
}

fn new_memory(room: u64, wide: bool, minimum: u64, exponent: u8) -> Operation {
    Operation::NewMemory {
        room,
        wanted: WantedMemory {
            wide,
            limits: at_least(minimum),
            exponent,
        },
    }
}

fn empty_span(to: u64) -> CopySpan {
    CopySpan {
        to,
        from: 0,
        len: 0,
    }
}

fn empty_init(to: u64) -> Operation {
    Operation::TableInit {
        table: 0,
        segment: 0,
        span: empty_span(to),
    }
}

fn load(kind: LoadKind, pointer: u64, offset: u64) -> Operation {
    Operation::Memory {
        number: 0,
        op: MemoryOp::Load {
            kind,
            pointer,
            offset,
        },
    }
}

// P6: a minimum of 2^64 bytes.
pub(crate) fn minimum_of_all(rt: &impl Print) -> io::Result<()> {
    Host::new(64).show(rt, "P6 creation", new_memory(0, true, 1 << 48, 16))
}

// P7: init of length 0 at the size, and one further.
pub(crate) fn init_at_the_size(rt: &impl Print) -> io::Result<()> {
    let mut host = Host::new(64);
    host.add_table_and_segment();
    host.show(rt, "P7 at the size", empty_init(2))?;
    host.show(rt, "P7 one further", empty_init(3))
}

// P8: B 0 and fuel 5: a copy and an init of length 0.
pub(crate) fn length_zero_with_b_zero(rt: &impl Print) -> io::Result<()> {
    let mut host = Host::new(0);
    let _ = host.operate(Operation::Fuel {
        op: FuelOp::SetFuel { amount: 5 },
    });
    host.add_table_and_segment();
    let copy = Operation::TableCopy {
        into: 0,
        source: 0,
        span: empty_span(0),
    };
    host.show(rt, "P8 copy", copy)?;
    host.show(rt, "P8 init", empty_init(0))
}

// P9 and P10, in a memory of one byte that holds ff.
pub(crate) fn byte_ff(rt: &impl Print) -> io::Result<()> {
    let mut host = Host::new(64);
    let _ = host.operate(new_memory(1, false, 1, 0));
    let _ = host.operate(Operation::Memory {
        number: 0,
        op: MemoryOp::Store {
            kind: StoreKind::I32To8,
            pointer: 0,
            offset: 0,
            bits: 255,
        },
    });
    host.show(rt, "P9 i32 from 8s", load(LoadKind::I32From8S, 0, 0))?;
    host.show(rt, "P9 i64 from 8u", load(LoadKind::I64From8U, 0, 0))?;
    let far = load(LoadKind::I32From8U, u64::MAX, 1);
    host.show(rt, "P10 pointer 2^64-1, offset 1", far)
}
