// What one operation on a machine gives back: 18, 19, then 16 or 17, then the operation's own checks.
#![tactic(auto, using(types::proofs::Picks::cases), unfolding(crate::specs::Step::perform, crate::specs::Step::decide))]

ghost use Rattle.std.specs.Prelude.{◌≡◌, ◌≤◌, length};
ghost use Rattle.types.specs.Raw.{raw_bytes};
ghost use Rattle.machine.specs.Machine.{buffers};
ghost use Rattle.machine.specs.Words.{row_length, machine_from};
ghost use Rattle.machine.specs.stages.Rows.{Inside};
ghost use Rattle.machine.specs.Step.{performed, perform, decide};

use super::operation::Operation;
use super::outcome::Outcome;
use super::records::Machine;
use super::{fueling, memories, outcome, segments, sound, tables, words};
use types::answer::Reason;

// 16 or 17, then the operation's own checks.
pub(crate) fn perform(
    words: &[u64],
    bytes: &mut [u8],
    cells: &mut [u64],
    items: &mut [u64],
    op: Operation,
) -> Outcome
    requires { (row_length ≤ length words.now) × Inside (machine_from words.now) (length bytes.old) (length cells.old) (length items.old) }
    ensures { performed result bytes.new cells.new items.new ≡ perform raw_bytes (machine_from words.now) (buffers bytes.old cells.old items.old) op }
{
    match op {
        Operation::Fuel { op: what } => fueling::on_fuel(words, what),
        Operation::NewMemory { room, wanted } => memories::new_memory(words, bytes, room, wanted),
        Operation::Memory { number, op: what } => memories::on_memory(words, bytes, number, what),
        Operation::NewTable {
            room,
            wanted,
            initial,
        } => tables::new_table(words, cells, room, wanted, initial),
        Operation::Table { number, op: what } => tables::on_table(words, cells, number, what),
        Operation::TableCopy { into, source, span } => tables::table_copy(
            words, cells, into, source, span,
        ),
        Operation::TableInit {
            table,
            segment,
            span,
        } => segments::table_init(words, cells, items, table, segment, span),
        Operation::DropSegment { segment } => segments::drop_segment(words, segment),
        Operation::NewSegment {
            element,
            items: given,
        } => segments::new_segment(words, items, element, given),
    }
}

// The outcome of an operation: 18, 19, then the rest.
pub(crate) fn decide(
    words: &[u64],
    bytes: &mut [u8],
    cells: &mut [u64],
    items: &mut [u64],
    op: Operation,
) -> Outcome
    requires { row_length ≤ length words.now }
    ensures { performed result bytes.new cells.new items.new ≡ decide raw_bytes (machine_from words.now) (buffers bytes.old cells.old items.old) op }
{
    if !op.is_well_formed() {
        return outcome::refuses(words, Reason::Malformed);
    }
    if !sound::is_sound(words, bytes.len(), cells.len(), items.len()) {
        return outcome::refuses(words, Reason::Unsound);
    }
    perform(words, bytes, cells, items, op)
}

impl Machine {
    // The outcome of an operation on a machine that goes by value.
    pub fn decide(
        self,
        bytes: &mut [u8],
        cells: &mut [u64],
        items: &mut [u64],
        op: Operation,
    ) -> Outcome
        ensures { performed result bytes.new cells.new items.new ≡ decide raw_bytes self (buffers bytes.old cells.old items.old) op }
    {
        let row = words::row_of(self);
        decide(&row, bytes, cells, items, op)
    }
}
