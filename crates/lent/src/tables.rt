// Growth of one table of a lent list.
#![tactic(auto, unfolding(crate::specs::stages::Growth::sound_tables_over, crate::specs::Tables::grow_table_at, crate::specs::Tables::sound_table_list))]

ghost use Rattle.std.specs.Prelude.{◌≡◌};
ghost use Rattle.types.specs.Raw.{raw_bytes};
ghost use Rattle.machine.specs.Machine.{no_table};
ghost use Rattle.lent.specs.Growth.{lending};
ghost use Rattle.lent.specs.Tables.{GrowsTable};
ghost use Rattle.lent.specs.stages.Growth.{sound_tables_over, table_regrown};
ghost use Rattle.lent.specs.stages.Listed.{table_placed};

use super::growth::Grows;
use super::{growth, places};
use machine::records::{Counts, Machine};
use table::table::Table;
use types::answer::Answer;
use types::fuel::{Fuel, FuelCosts};
use types::limiter::Limiter;
use types::raw::TypedRawRef;

impl Grows for Table {
    type Cell = u64;
    // Cells, and the reference that they hold.
    type By = (u64, TypedRawRef);

    ghost none = { no_table };

    ghost sound = { sound_tables_over };

    ghost grown = { table_regrown };

    // A machine that has these tables alone is sound where the list is.
    fn is_sound(count: usize, list: &[Table], cells: usize) -> bool {
        let Some(tables) = places::first_eight(list) else {
            return false;
        };
        let counts = Counts {
            memories: 0,
            tables: count,
            segments: 0,
        };
        let costs = FuelCosts::default_costs();
        let machine = Machine {
            tables,
            counts,
            ..Machine::new(false, costs)
        };
        machine.is_sound(0, cells, 0)
    }

    fn regrow(
        &mut self,
        cells: &mut [u64],
        by: (u64, TypedRawRef),
        fuel: &mut Fuel,
        limiter: &mut Limiter,
    ) -> Answer {
        let (delta, value) = by;
        let grown = self.grow(cells, delta, value, *fuel, *limiter);
        *self = grown.table;
        *fuel = grown.fuel;
        *limiter = grown.limiter;
        grown.answer
    }

    ghost placed = { table_placed };
}

// Growth of table `i`, of `count` in use: 19 where the list is unsound, 16 where there is no such table.
// Its contract names each of the eight parameters by itself.
pub fn grow(
    tables: &mut [Table],
    count: usize,
    i: usize,
    cells: &mut [u64],
    delta: u64,
    value: TypedRawRef,
    fuel: &mut Fuel,
    limiter: &mut Limiter,
) -> Answer
    ensures { GrowsTable raw_bytes count i delta value (lending tables.old cells.old fuel.old limiter.old)
        result tables.new cells.new fuel.new limiter.new }
{
    growth::grow(tables, count, i, cells, (delta, value), fuel, limiter)
}
