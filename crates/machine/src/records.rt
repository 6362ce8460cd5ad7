// The machine's records by number, and where the next room starts.
#![tactic(auto, using(types::proofs::Picks::cases), unfolding(crate::specs::Machine::fresh_machine))]

ghost use Rattle.std.specs.Prelude.{◌≡◌, leb, ltb, get_or};
ghost use Rattle.types.specs.Pick.{both};
ghost use Rattle.machine.specs.Machine.{capacity, no_limits, memory_at, table_at, segment_at, fresh_machine};

use super::record::Record;
use memory::memory::Memory;
use table::element::ElementSegment;
use table::table::Table;
use types::fuel::{Fuel, FuelCosts};
use types::limiter::Limiter;
use types::limits::Limits;

// The places for memories, for tables and for segments.
pub const CAPACITY: usize = 8;

// How many instances there are.
#[derive(Clone, Copy)]
pub struct Counts {
    pub memories: usize,
    pub tables: usize,
    pub segments: usize,
}

#[derive(Clone, Copy)]
pub struct Machine {
    pub memories: [Memory; CAPACITY],
    pub tables: [Table; CAPACITY],
    pub segments: [ElementSegment; CAPACITY],
    pub counts: Counts,
    pub fuel: Fuel,
    pub limiter: Limiter,
}

pub(crate) fn no_limits() -> Limits
    ensures { result ≡ no_limits }
{
    Limits {
        minimum: 0,
        bounded: false,
        maximum: 0,
    }
}

// Whether one more instance finds a number and its room; else 17.
pub(crate) fn finds_room(count: usize, room: u64, left: usize) -> bool
    ensures { result ≡ both (ltb count capacity) (leb room left) }
{
    count < CAPACITY && room <= left as u64
}

// The record at a place.
fn record_at<R: Record>(records: &[R], i: usize) -> R
    ensures { result ≡ get_or records.now i R.none }
{
    if i < records.len() {
        records[i]
    } else {
        R::none()
    }
}

impl Machine {
    // A machine with fuel 0, no limiter and no instances.
    pub fn new(metering: bool, costs: FuelCosts) -> Machine
        ensures { result ≡ fresh_machine metering costs }
    {
        Machine {
            memories: [Memory::none(); CAPACITY],
            tables: [Table::none(); CAPACITY],
            segments: [ElementSegment::none(); CAPACITY],
            counts: Counts {
                memories: 0,
                tables: 0,
                segments: 0,
            },
            fuel: Fuel::new(metering, costs),
            limiter: Limiter::none(),
        }
    }

    // Three names over one body, `record_at`: they are public, and so are their definitions.
    // The record of a memory.
    pub fn memory_at(self, i: usize) -> Memory
        ensures { result ≡ memory_at self i }
    {
        record_at(&self.memories, i)
    }

    // The record of a table.
    pub fn table_at(self, i: usize) -> Table
        ensures { result ≡ table_at self i }
    {
        record_at(&self.tables, i)
    }

    // The record of a segment.
    pub fn segment_at(self, i: usize) -> ElementSegment
        ensures { result ≡ segment_at self i }
    {
        record_at(&self.segments, i)
    }
}
