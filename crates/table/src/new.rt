// Making a table in a room of the buffer, in the order of checks of document 01.
#![tactic(auto, using(types::proofs::Picks::cases, types::proofs::Dones::done_as, crate::proofs::Readings::new_reads, crate::proofs::Readings::plan_stops, crate::proofs::Readings::plan_goes), unfolding(crate::specs::stages::New::made_by, crate::specs::stages::New::made_of))]

ghost use Rattle.std.specs.Prelude.{◌≡◌, length};
ghost use Rattle.types.specs.Done.{done};
ghost use Rattle.types.specs.TableType.{build_table};
ghost use Rattle.table.specs.stages.Facts.{Roomed};
ghost use Rattle.table.specs.New.{refused, new_table};
ghost use Rattle.table.specs.stages.New.{made_of, planned};

use super::table::Table;
use super::{cells, table};
use types::answer::{Reason, Refusal};
use types::limiter::Limiter;
use types::raw::TypedRawRef;
use types::table_ty::{TableType, WantedTable};

#[derive(Clone, Copy)]
pub struct CreatedTable {
    pub made: Result<Table, Refusal>,
    pub limiter: Limiter,
}

// Not one with `no_memory`: each makes its own public record, whose fields the public definitions `refused` name.
fn no_table(limiter: Limiter, refusal: Refusal) -> CreatedTable
    ensures { result ≡ refused limiter refusal }
{
    CreatedTable {
        made: Err(refusal),
        limiter,
    }
}

// The table that is wanted, of its minimum's size: 1, 14.
#[tactic(auto, using(types::proofs::Picks::cases), unfolding(crate::specs::stages::New::planned))]
fn planned(
    wanted: WantedTable,
    initial: TypedRawRef,
    start: usize,
    room: u64,
) -> Result<Table, Refusal>
    ensures { result ≡ planned (build_table wanted.element wanted.wide wanted.limits) initial start room }
{
    let ty = TableType::build(wanted.element, wanted.wide, wanted.limits)?;
    if !ty.element_matches(initial.ty) {
        return Err(Refusal::from(Reason::KindsDiffer));
    }
    Ok(Table {
        ty,
        start,
        room,
        size: ty.limits.minimum,
    })
}

// The limiter's question and the room; a table that is granted is filled with the initial reference.
fn make(table: Table, bits: u64, cells: &mut [u64], limiter: Limiter) -> CreatedTable
    requires { Roomed table (length cells.old) }
    ensures { done result cells.new ≡ made_of limiter table bits cells.old }
{
    let asked = types::grant::grant_creation(limiter, table.size <= table.room);
    match asked.permit {
        Err(refusal) => no_table(asked.limiter, refusal),
        Ok(()) => {
            cells::fill_cells(cells, table.start, bits, table.size as usize);
            CreatedTable {
                made: Ok(table),
                limiter: asked.limiter,
            }
        }
    }
}

// A new table in the `room` cells from `start` on: 1, 14, the limiter's 3 or 4, 5 with notice; 19 where the room is not inside the buffer.
// The definition `new_table` names each parameter by itself.
pub fn new_table(
    wanted: WantedTable,
    initial: TypedRawRef,
    start: usize,
    room: u64,
    cells: &mut [u64],
    limiter: Limiter,
) -> CreatedTable
    ensures { done result cells.new ≡ new_table wanted initial start room cells.old limiter }
{
    if !table::sound_buffer(start, room, cells.len()) {
        return no_table(limiter, Refusal::from(Reason::Unsound));
    }
    match planned(wanted, initial, start, room) {
        Err(refusal) => no_table(limiter, refusal),
        Ok(table) => make(table, initial.raw.bits, cells, limiter),
    }
}
