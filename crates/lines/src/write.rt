// Operations as lines: the way back from what a line says.
#![tactic(auto, unfolding(crate::specs::Writing::numbers_of, crate::specs::Writing::write_line, crate::specs::Writing::write_making))]

ghost use Rattle.std.specs.Prelude.{◌∷◌, ◌≡◌};
ghost use Rattle.types.specs.Done.{done};
ghost use Rattle.lines.specs.Fields.{memory_fields};
ghost use Rattle.lines.specs.Line.{line_text, wrote_of};
ghost use Rattle.lines.specs.Writing.{write_line, write_making};

use super::line::put_line;
use machine::operation::{FuelOp, Items, MemoryOp, Operation, TableOp};
use types::memory_ty::WantedMemory;
use types::raw::{RefType, TypedRawRef};
use types::table_ty::WantedTable;

fn write_fuel(op: FuelOp, out: &mut [u8]) -> Option<usize>
    ensures { done result out.new ≡ wrote_of out.old (write_line (Operation.Fuel op)) }
{
    match op {
        FuelOp::SetFuel { amount } => put_line(out, 0x01, &[amount]),
        FuelOp::GetFuel => put_line(out, 0x02, &[]),
        FuelOp::Charge { units } => put_line(out, 0x03, &[units]),
        FuelOp::SetLimiter { script } => put_line(out, 0x04, &[script.count, script.digits]),
    }
}

// A memory's type behind a room or a memory's number.
fn write_wanted(code: u64, first: u64, wanted: WantedMemory, out: &mut [u8]) -> Option<usize>
    ensures { done result out.new ≡ wrote_of out.old (line_text code (first ∷ memory_fields wanted)) }
{
    let limits = wanted.limits;
    put_line(
        out,
        code,
        &[
            first,
            u64::from(wanted.wide),
            u64::from(limits.bounded),
            limits.minimum,
            limits.maximum,
            u64::from(wanted.exponent),
        ],
    )
}

fn write_memory(number: u64, op: MemoryOp, out: &mut [u8]) -> Option<usize>
    ensures { done result out.new ≡ wrote_of out.old (write_line (Operation.Memory number op)) }
{
    match op {
        MemoryOp::Grow { pages } => put_line(out, 0x11, &[number, pages]),
        MemoryOp::Size => put_line(out, 0x12, &[number]),
        MemoryOp::Load {
            kind,
            pointer,
            offset,
        } => put_line(out, 0x13, &[number, kind as u64, pointer, offset]),
        MemoryOp::Store {
            kind,
            pointer,
            offset,
            bits,
        } => put_line(out, 0x14, &[number, kind as u64, pointer, offset, bits]),
        MemoryOp::LinkCheck { wanted } => write_wanted(0x30, number, wanted, out),
    }
}

fn write_new_table(
    room: u64,
    wanted: WantedTable,
    initial: TypedRawRef,
    out: &mut [u8],
) -> Option<usize>
    ensures { done result out.new ≡ wrote_of out.old (write_line (Operation.NewTable room wanted initial)) }
{
    let limits = wanted.limits;
    put_line(
        out,
        0x20,
        &[
            room,
            wanted.element as u64,
            u64::from(wanted.wide),
            u64::from(limits.bounded),
            limits.minimum,
            limits.maximum,
            initial.ty as u64,
            initial.raw.bits,
        ],
    )
}

fn write_table(number: u64, op: TableOp, out: &mut [u8]) -> Option<usize>
    ensures { done result out.new ≡ wrote_of out.old (write_line (Operation.Table number op)) }
{
    match op {
        TableOp::Grow { cells, value } => {
            put_line(out, 0x21, &[number, cells, value.ty as u64, value.raw.bits])
        }
        TableOp::Size => put_line(out, 0x22, &[number]),
        TableOp::Get { index } => put_line(out, 0x23, &[number, index]),
        TableOp::Set { index, value } => {
            put_line(out, 0x24, &[number, index, value.ty as u64, value.raw.bits])
        }
        TableOp::Fill { start, value, len } => put_line(
            out,
            0x25,
            &[number, start, value.ty as u64, value.raw.bits, len],
        ),
    }
}

// As many items as the count says, up to 4.
fn write_segment(element: RefType, items: Items, out: &mut [u8]) -> Option<usize>
    ensures { done result out.new ≡ wrote_of out.old (write_line (Operation.NewSegment element items)) }
{
    let fields = [
        element as u64,
        items.count,
        items.first,
        items.second,
        items.third,
        items.fourth,
    ];
    put_line(out, 0x29, &fields[..2 + items.count.min(4) as usize])
}

// An operation as a line of text, at the start of a buffer, and its length, where the buffer has room for it. 138 bytes are always enough.
pub fn write_line(op: Operation, out: &mut [u8]) -> Option<usize>
    ensures { done result out.new ≡ wrote_of out.old (write_line op) }
{
    match op {
        Operation::Fuel { op } => write_fuel(op, out),
        Operation::NewMemory { room, wanted } => write_wanted(0x10, room, wanted, out),
        Operation::Memory { number, op } => write_memory(number, op, out),
        Operation::NewTable {
            room,
            wanted,
            initial,
        } => write_new_table(room, wanted, initial, out),
        Operation::Table { number, op } => write_table(number, op, out),
        Operation::TableCopy { into, source, span } => {
            put_line(out, 0x26, &[into, span.to, source, span.from, span.len])
        }
        Operation::TableInit {
            table,
            segment,
            span,
        } => put_line(out, 0x27, &[table, segment, span.to, span.from, span.len]),
        Operation::DropSegment { segment } => put_line(out, 0x28, &[segment]),
        Operation::NewSegment { element, items } => write_segment(element, items, out),
    }
}

// The making of a machine as a line of text, likewise.
pub fn write_making(metering: bool, copied: u32, out: &mut [u8]) -> Option<usize>
    ensures { done result out.new ≡ wrote_of out.old (write_making metering copied) }
{
    put_line(out, 0x00, &[u64::from(metering), u64::from(copied)])
}
