// Growth of one memory of a lent list.
#![tactic(auto, unfolding(crate::specs::stages::Growth::sound_memories_over, crate::specs::Memories::grow_memory_at, crate::specs::Memories::sound_memory_list))]

ghost use Rattle.std.specs.Prelude.{◌≡◌};
ghost use Rattle.machine.specs.Machine.{no_memory};
ghost use Rattle.lent.specs.Growth.{lending};
ghost use Rattle.lent.specs.Memories.{GrowsMemory};
ghost use Rattle.lent.specs.stages.Growth.{sound_memories_over, memory_regrown};
ghost use Rattle.lent.specs.stages.Listed.{memory_placed};

use super::growth::Grows;
use super::{growth, places};
use machine::records::{Counts, Machine};
use memory::memory::Memory;
use types::answer::Answer;
use types::fuel::{Fuel, FuelCosts};
use types::limiter::Limiter;

impl Grows for Memory {
    type Cell = u8;
    // Pages.
    type By = u64;

    ghost none = { no_memory };

    ghost sound = { sound_memories_over };

    ghost grown = { memory_regrown };

    // A machine that has these memories alone is sound where the list is.
    fn is_sound(count: usize, list: &[Memory], cells: usize) -> bool {
        let Some(memories) = places::first_eight(list) else {
            return false;
        };
        let counts = Counts {
            memories: count,
            tables: 0,
            segments: 0,
        };
        let costs = FuelCosts::default_costs();
        let machine = Machine {
            memories,
            counts,
            ..Machine::new(false, costs)
        };
        machine.is_sound(cells, 0, 0)
    }

    fn regrow(
        &mut self,
        cells: &mut [u8],
        by: u64,
        fuel: &mut Fuel,
        limiter: &mut Limiter,
    ) -> Answer {
        let grown = self.grow(cells, by, *fuel, *limiter);
        *self = grown.memory;
        *fuel = grown.fuel;
        *limiter = grown.limiter;
        grown.answer
    }

    ghost placed = { memory_placed };
}

// Growth of memory `i`, of `count` in use: 19 where the list is unsound, 16 where there is no such memory.
// Its contract names each of the seven parameters by itself.
pub fn grow(
    memories: &mut [Memory],
    count: usize,
    i: usize,
    bytes: &mut [u8],
    pages: u64,
    fuel: &mut Fuel,
    limiter: &mut Limiter,
) -> Answer
    ensures { GrowsMemory count i pages (lending memories.old bytes.old fuel.old limiter.old)
        result memories.new bytes.new fuel.new limiter.new }
{
    growth::grow(memories, count, i, bytes, pages, fuel, limiter)
}
