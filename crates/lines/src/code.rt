// What a line's numbers say, by code, number of fields and their ranges.
#![tactic(auto, using(types::proofs::Picks::cases), unfolding(types::specs::Pick::pick, types::specs::Pick::both, crate::specs::Code::taken, crate::specs::Code::by_code, crate::specs::Code::operation_of, crate::specs::Code::read_line))]

ghost use Rattle.std.specs.Prelude.{◌≡◌, Some};
ghost use Rattle.lines.specs.Code.{operation_of, read_line};

use super::line::Line;
use super::{fields, line};
use machine::operation::{FuelOp, Items, MemoryOp, Operation, Script, TableOp};
use types::span::CopySpan;

// What a line says.
#[derive(Clone, Copy)]
pub enum Read {
    Operation(Operation),
    Making { metering: bool, copied: u32 },
}

fn on_fuel(op: FuelOp) -> Option<Read>
    ensures { result ≡ Some (Read.Operation (Operation.Fuel op)) }
{
    Some(Read::Operation(Operation::Fuel { op }))
}

// One of a memory and one of a table: their operations are of two types, and a trait for these two lines would be longer.
fn on_memory(number: u64, op: MemoryOp) -> Option<Read>
    ensures { result ≡ Some (Read.Operation (Operation.Memory number op)) }
{
    Some(Read::Operation(Operation::Memory { number, op }))
}

fn on_table(number: u64, op: TableOp) -> Option<Read>
    ensures { result ≡ Some (Read.Operation (Operation.Table number op)) }
{
    Some(Read::Operation(Operation::Table { number, op }))
}

// What a line's numbers say, where there is a line: the one place where 18 is decided of codes and fields.
pub fn operation_of(line: Option<Line>) -> Option<Read>
    ensures { result ≡ operation_of line }
{
    let line = line?;
    let [a, b, c, d, e, f, g, h] = line.list;
    match (line.code, line.count) {
        (0x00, 2) => Some(Read::Making {
            metering: fields::yes(a)?,
            copied: u32::try_from(b).ok()?,
        }),
        (0x01, 1) => on_fuel(FuelOp::SetFuel { amount: a }),
        (0x02, 0) => on_fuel(FuelOp::GetFuel),
        (0x03, 1) => on_fuel(FuelOp::Charge { units: a }),
        (0x04, 2) => on_fuel(FuelOp::SetLimiter {
            script: Script {
                count: a,
                digits: b,
            },
        }),
        (0x10, 6) => Some(Read::Operation(Operation::NewMemory {
            room: a,
            wanted: fields::memory_type(b, c, d, e, f)?,
        })),
        (0x11, 2) => on_memory(a, MemoryOp::Grow { pages: b }),
        (0x12, 1) => on_memory(a, MemoryOp::Size),
        (0x13, 4) => on_memory(
            a,
            MemoryOp::Load {
                kind: fields::load_kind(b)?,
                pointer: c,
                offset: d,
            },
        ),
        (0x14, 5) => on_memory(
            a,
            MemoryOp::Store {
                kind: fields::store_kind(b)?,
                pointer: c,
                offset: d,
                bits: e,
            },
        ),
        (0x20, 8) => Some(Read::Operation(Operation::NewTable {
            room: a,
            wanted: fields::table_type(b, c, d, e, f)?,
            initial: fields::reference(g, h)?,
        })),
        (0x21, 4) => on_table(
            a,
            TableOp::Grow {
                cells: b,
                value: fields::reference(c, d)?,
            },
        ),
        (0x22, 1) => on_table(a, TableOp::Size),
        (0x23, 2) => on_table(a, TableOp::Get { index: b }),
        (0x24, 4) => on_table(
            a,
            TableOp::Set {
                index: b,
                value: fields::reference(c, d)?,
            },
        ),
        (0x25, 5) => on_table(
            a,
            TableOp::Fill {
                start: b,
                value: fields::reference(c, d)?,
                len: e,
            },
        ),
        (0x26, 5) => Some(Read::Operation(Operation::TableCopy {
            into: a,
            source: c,
            span: CopySpan {
                to: b,
                from: d,
                len: e,
            },
        })),
        (0x27, 5) => Some(Read::Operation(Operation::TableInit {
            table: a,
            segment: b,
            span: CopySpan {
                to: c,
                from: d,
                len: e,
            },
        })),
        (0x28, 1) => Some(Read::Operation(Operation::DropSegment { segment: a })),
        (0x29, n) if b <= 4 && n == 2 + b as usize => {
            Some(Read::Operation(Operation::NewSegment {
                element: fields::kind(a)?,
                items: Items {
                    count: b,
                    first: c,
                    second: d,
                    third: e,
                    fourth: f,
                },
            }))
        }
        (0x30, 6) => on_memory(
            a,
            MemoryOp::LinkCheck {
                wanted: fields::memory_type(b, c, d, e, f)?,
            },
        ),
        _ => None,
    }
}

// What a line of text says.
pub fn read_line(s: &[u8]) -> Option<Read>
    ensures { result ≡ read_line s.now }
{
    operation_of(line::read(s))
}
