// One operation on records that stand in lent lists, with the fuel record lent: one record changes at most.
#![tactic(auto, using(types::proofs::Picks::cases), unfolding(crate::specs::Records::unfit, crate::specs::Records::long_enough))]

ghost use Rattle.std.specs.Prelude.{◌≡◌, ◌≤◌, true, false, length, MatchOption};
ghost use Rattle.types.specs.Raw.{raw_bytes};
ghost use Rattle.types.specs.declared.fuel.Fuel.{Fuel};
ghost use Rattle.machine.specs.Machine.{capacity, buffers};
ghost use Rattle.machine.specs.Outcome.{changed};
ghost use Rattle.machine.specs.Step.{stepped, step};
ghost use Rattle.lent.specs.Records.{lent, gathered, machine_of, placed, unfit, Operates};
ghost use Rattle.lent.specs.declared.operate.Standing.{Standing};

use super::places;
use machine::operation::Operation;
use machine::outcome::Change;
use machine::records::{Counts, Machine};
use memory::memory::Memory;
use table::element::ElementSegment;
use table::table::Table;
use types::answer::{Answer, Reason, Refusal};
use types::fuel::Fuel;
use types::limiter::Limiter;

// How many instances there are, and the limiter.
#[derive(Clone, Copy)]
pub struct Standing {
    pub counts: Counts,
    pub limiter: Limiter,
}

// An answer, and the machine after it.
#[derive(Clone, Copy)]
pub struct Operated {
    pub answer: Answer,
    pub machine: Machine,
}

// The machine of the first 8 places of each list, where each has them.
fn machine_of(
    memories: &[Memory],
    tables: &[Table],
    segments: &[ElementSegment],
    standing: Standing,
    fuel: Fuel,
) -> Option<Machine>
    ensures { let l = lent memories.now tables.now segments.now standing fuel in
        MatchOption result (placed l ≡ false) (λ m. (placed l ≡ true) × (m ≡ machine_of l)) }
{
    Some(Machine {
        memories: places::first_eight(memories)?,
        tables: places::first_eight(tables)?,
        segments: places::first_eight(segments)?,
        counts: standing.counts,
        fuel,
        limiter: standing.limiter,
    })
}

// The answer where a list has too few places.
fn unfit(op: Operation) -> Answer
    ensures { result ≡ unfit op }
{
    let reason = if op.is_well_formed() {
        Reason::Unsound
    } else {
        Reason::Malformed
    };
    Err(Refusal::from(reason))
}

// The record that changed goes to its place.
fn put_change(
    memories: &mut [Memory],
    tables: &mut [Table],
    segments: &mut [ElementSegment],
    change: Change,
)
    requires { (capacity ≤ length memories.old) × (capacity ≤ length tables.old) × (capacity ≤ length segments.old) }
    ensures { (s : Standing) (f : Fuel) → gathered memories.new tables.new segments.new s f
        ≡ changed change (gathered memories.old tables.old segments.old s f) }
{
    match change {
        Change::Nothing => {}
        Change::Memory(i, memory) => places::put(memories, i, memory),
        Change::Table(i, table) => places::put(tables, i, table),
        Change::Segment(i, segment) => places::put(segments, i, segment),
    }
}

// One operation on what is lent; a list with too few places is refused.
// Nine parameters: the contract and the theorem `operate_lent_one` name each thing that is lent by itself.
pub fn operate_lent(
    memories: &mut [Memory],
    tables: &mut [Table],
    segments: &mut [ElementSegment],
    standing: &mut Standing,
    fuel: &mut Fuel,
    bytes: &mut [u8],
    cells: &mut [u64],
    items: &mut [u64],
    op: Operation,
) -> Answer
    ensures { Operates raw_bytes (lent memories.old tables.old segments.old standing.old fuel.old) (buffers bytes.old cells.old items.old) op
        result memories.new tables.new segments.new standing.new fuel.new bytes.new cells.new items.new }
{
    let Some(machine) = machine_of(memories, tables, segments, *standing, *fuel) else {
        return unfit(op);
    };
    let outcome = machine.decide(bytes, cells, items, op);
    put_change(memories, tables, segments, outcome.change);
    *standing = Standing {
        counts: outcome.counts,
        limiter: outcome.limiter,
    };
    *fuel = outcome.fuel;
    outcome.answer
}

// One operation over lists and a fuel record that are lent: whoever calls it has the machine by value.
pub fn operate_kept(
    before: Machine,
    bytes: &mut [u8],
    cells: &mut [u64],
    items: &mut [u64],
    op: Operation,
) -> Operated
    ensures { stepped result.answer result.machine bytes.new cells.new items.new ≡ step raw_bytes before (buffers bytes.old cells.old items.old) op }
{
    let mut machine = before;
    let mut standing = Standing {
        counts: before.counts,
        limiter: before.limiter,
    };
    let answer = operate_lent(
        &mut machine.memories,
        &mut machine.tables,
        &mut machine.segments,
        &mut standing,
        &mut machine.fuel,
        bytes,
        cells,
        items,
        op,
    );
    machine.counts = standing.counts;
    machine.limiter = standing.limiter;
    Operated { answer, machine }
}
