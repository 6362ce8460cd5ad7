// Growing a table, in the order of checks of document 01: the limiter is asked before the maximum.
#![tactic(auto, using(types::proofs::Picks::cases, types::proofs::Dones::done_as, types::proofs::Halves::whole_halves, crate::proofs::Growths::grows_past, crate::proofs::Readings::grow_reads, crate::proofs::Sounds::tested_room), unfolding(crate::specs::stages::Grow::grow_to, crate::specs::stages::Grow::grant_of, crate::specs::stages::Grow::grow_some, crate::specs::stages::Grow::grow_sound, crate::specs::stages::Grow::enlarged_by))]

ghost use Rattle.std.specs.Prelude.{◌≡◌, ◌≤◌, ltb, length};
ghost use Rattle.types.specs.Answer.{refuse, number_for};
ghost use Rattle.types.specs.Done.{done};
ghost use Rattle.types.specs.IndexType.{max_size};
ghost use Rattle.types.specs.Raw.{raw_bytes};
ghost use Rattle.table.specs.stages.Facts.{Roomed};
ghost use Rattle.table.specs.Grow.{answered, grow_table};
ghost use Rattle.table.specs.stages.Grow.{grant_of, grow_to, grow_some};

use super::cells;
use super::table::Table;
use types::answer::{Answer, Reason, Refusal, Value};
use types::fuel::Fuel;
use types::grant::Growth;
use types::index_ty::IndexType;
use types::limiter::Limiter;
use types::raw::{RawRef, TypedRawRef};

#[derive(Clone, Copy)]
pub struct GrownTable {
    pub answer: Answer,
    pub table: Table,
    pub fuel: Fuel,
    pub limiter: Limiter,
}

// Not one with a memory's: each makes its own public record, whose fields the public definitions `answered` name.
fn answered_with(answer: Answer, table: Table, fuel: Fuel, limiter: Limiter) -> GrownTable
    ensures { result ≡ answered answer table fuel limiter }
{
    GrownTable {
        answer,
        table,
        fuel,
        limiter,
    }
}

fn refused(reason: Reason, table: Table, fuel: Fuel, limiter: Limiter) -> GrownTable
    ensures { result ≡ answered (refuse (number_for reason) 0) table fuel limiter }
{
    answered_with(Err(Refusal::from(reason)), table, fuel, limiter)
}

// The limiter's question, the maximum, the fuel step and the room.
fn grant(table: Table, size: u64, fuel: Fuel, limiter: Limiter) -> Growth
    requires { table.size ≤ size }
    ensures { result ≡ grant_of raw_bytes table size fuel limiter }
{
    let price = fuel
        .costs
        .fuel_for_copying_values(size - table.size, RawRef::size());
    let admits = table.ty.limits.admits(size);
    types::grant::grant_growth(limiter, fuel, admits, price, size <= table.room)
}

// The growth to a size: what is granted becomes the reference.
// Its parameters are those of the public `grow`, whose definition names each by itself; so are those of `grow_some`.
fn grow_to(
    table: Table,
    cells: &mut [u64],
    size: u64,
    bits: u64,
    fuel: Fuel,
    limiter: Limiter,
) -> GrownTable
    requires { Roomed table (length cells.old) × (table.size ≤ size) }
    ensures { done result cells.new ≡ grow_to raw_bytes table cells.old size bits fuel limiter }
{
    let growth = grant(table, size, fuel, limiter);
    match growth.permit {
        Err(refusal) => { answered_with(Err(refusal), table, growth.fuel, growth.limiter) }
        Ok(()) => {
            let from = table.start + (table.size as usize);
            cells::fill_cells(cells, from, bits, (size - table.size) as usize);
            answered_with(
                Ok(Value::Number(table.size)),
                Table { size, ..table },
                growth.fuel,
                growth.limiter,
            )
        }
    }
}

// Whether a size is below the index type's largest.
fn below_largest(index: IndexType, size: u64) -> bool
    ensures { result ≡ ltb size (max_size index) }
{
    let largest = index.max_size();
    largest.exceeds(size)
}

// The new size stays below the index type's largest.
fn grow_some(
    table: Table,
    cells: &mut [u64],
    delta: u64,
    bits: u64,
    fuel: Fuel,
    limiter: Limiter,
) -> GrownTable
    requires { Roomed table (length cells.old) }
    ensures { done result cells.new ≡ grow_some raw_bytes table cells.old delta bits fuel limiter }
{
    if u64::MAX - table.size < delta {
        return refused(Reason::GrowthDenied, table, fuel, limiter);
    }
    let size = table.size + delta;
    if below_largest(table.ty.index, size) {
        return grow_to(table, cells, size, bits, fuel, limiter);
    }
    refused(Reason::GrowthDenied, table, fuel, limiter)
}

impl Table {
    // Growth by a number of cells: 14, 6, the limiter's 6 or 4, then 6 above the maximum, 7 and 8 with notice; 19 where the record is unsound.
    // The definition `grow_table` names each parameter by itself.
    pub fn grow(
        self,
        cells: &mut [u64],
        delta: u64,
        value: TypedRawRef,
        fuel: Fuel,
        limiter: Limiter,
    ) -> GrownTable
        ensures { done result cells.new ≡ grow_table raw_bytes self cells.old delta value fuel limiter }
    {
        if !self.is_sound(cells.len()) {
            return refused(Reason::Unsound, self, fuel, limiter);
        }
        if !self.ty.element_matches(value.ty) {
            return refused(Reason::KindsDiffer, self, fuel, limiter);
        }
        if delta == 0 {
            return answered_with(Ok(Value::Number(self.size)), self, fuel, limiter);
        }
        grow_some(self, cells, delta, value.raw.bits, fuel, limiter)
    }
}
