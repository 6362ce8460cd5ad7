// A table's record: size, soundness, get and set.
#![tactic(auto, using(types::proofs::Picks::cases, types::proofs::Dones::done_as, types::proofs::Halves::whole_halves, types::proofs::Held::held_free, types::proofs::Held::held_above, types::proofs::Held::held_by, crate::proofs::Sounds::size_past, crate::proofs::Sounds::size_by, crate::proofs::Sounds::tested_within, crate::proofs::Sounds::cell_within), unfolding(crate::specs::stages::Spans::paid_by, crate::specs::Table::sound_buffer, crate::specs::Table::sound_table, crate::specs::Table::get_table, crate::specs::Table::set_sound, crate::specs::Table::set_table))]

ghost use Rattle.std.specs.Prelude.{◌≡◌, leb, length};
ghost use Rattle.types.specs.Answer.{refuse, number_for};
ghost use Rattle.types.specs.Done.{done, span_of};
ghost use Rattle.types.specs.Pick.{both};
ghost use Rattle.types.specs.Span.{inside};
ghost use Rattle.types.specs.TableType.{table_bound, valid_table};
ghost use Rattle.types.specs.stages.Held.{held};
ghost use Rattle.table.specs.stages.Facts.{Within};
ghost use Rattle.table.specs.stages.Spans.{paid_by};
ghost use Rattle.table.specs.Table.{sound_buffer, sound_size, sound_table, get_table, set_sound, set_table};

use super::cells;
use types::answer::{Answer, Reason, Refusal, Value};
use types::fuel::Fuel;
use types::grant::Spanned;
use types::raw::TypedRawRef;
use types::table_ty::TableType;
use types::wide::WORD32;

// `size` cells in use of a room of `room` cells, which starts at `start` in the buffer.
#[derive(Clone, Copy)]
pub struct Table {
    pub ty: TableType,
    pub start: usize,
    pub room: u64,
    pub size: u64,
}

// A span operation that is refused: fuel and cells stay.
pub(crate) fn not_spanned(reason: Reason, fuel: Fuel) -> Spanned
    ensures { result ≡ span_of (refuse (number_for reason) 0) fuel }
{
    Spanned {
        answer: Err(Refusal::from(reason)),
        fuel,
    }
}

// A span operation by its fuel step: refused, the fuel stays; paid, the answer is 0.
pub(crate) fn spanned(step: Result<Fuel, Refusal>, fuel: Fuel) -> Spanned
    ensures { result ≡ paid_by step fuel }
{
    match step {
        Err(refusal) => Spanned {
            answer: Err(refusal),
            fuel,
        },
        Ok(left) => Spanned {
            answer: Ok(Value::Number(0)),
            fuel: left,
        },
    }
}

// Whether places lie inside a buffer of `len` references, which has at most 2^32.
pub(crate) fn sound_buffer(start: usize, places: u64, len: usize) -> bool
    ensures { result ≡ sound_buffer start places len }
{
    len as u64 <= WORD32 && types::span::within(start as u64, places, len as u64)
}

// Whether `n` cells lie within sizes `a` from `i` on and `b` from `j` on.
pub(crate) fn both_within(i: u64, a: u64, j: u64, b: u64, n: u64) -> bool
    ensures { result ≡ both (inside i n a) (inside j n b) }
{
    types::span::within(i, n, a) && types::span::within(j, n, b)
}

// Whether a table of this type may have so many cells by its index type.
fn within_bound(ty: TableType, size: u64) -> bool
    ensures { result ≡ leb size (table_bound ty) }
{
    let bound = ty.absolute_max();
    bound.covers(size)
}

// Whether the type is valid and has so many cells, as for a memory.
// Not one with `sound_pages`: a bound as two halves costs short accesses of a memory more, and one as a closure asks a `requires` of a public function.
fn sound_cells(ty: TableType, size: u64) -> bool
    ensures { result ≡ held ty.limits (table_bound ty) size }
{
    let limits = ty.limits;
    if size < limits.minimum || !within_bound(ty, size) {
        return false;
    }
    if !limits.bounded {
        return true;
    }
    size <= limits.maximum && within_bound(ty, limits.maximum)
}

impl Table {
    // Whether the type is valid, and the size within type and room.
    fn sound_size(self) -> bool
        ensures { result ≡ both (valid_table self.ty) (sound_size self) }
    {
        if self.room < self.size {
            return false;
        }
        sound_cells(self.ty, self.size)
    }

    // Whether the record is sound over a buffer of `len` references.
    pub fn is_sound(self, len: usize) -> bool
        ensures { result ≡ sound_table self len }
    {
        sound_buffer(self.start, self.room, len) && self.sound_size()
    }

    // The reference at an index: 9 outside.
    pub fn get(self, cells: &[u64], index: u64) -> Answer
        ensures { result ≡ get_table self cells.now index }
    {
        let len = cells.len();
        if !self.is_sound(len) {
            return Err(Refusal::from(Reason::Unsound));
        }
        if self.size <= index {
            return Err(Refusal::from(Reason::AccessOutside));
        }
        let at = self.start + (index as usize);
        let cell = cells[at];
        Ok(Value::Number(cell))
    }

    // The cell at an index becomes the reference: 14, 10 outside.
    pub fn set(self, cells: &mut [u64], index: u64, value: TypedRawRef) -> Answer
        ensures { done result cells.new ≡ set_table self cells.old index value }
    {
        let len = cells.len();
        if self.is_sound(len) {
            return set_sound(self, cells, index, value);
        }
        Err(Refusal::from(Reason::Unsound))
    }
}

fn set_sound(table: Table, cells: &mut [u64], index: u64, value: TypedRawRef) -> Answer
    requires { Within table (length cells.old) }
    ensures { done result cells.new ≡ set_sound table cells.old index value }
{
    let ty = table.ty;
    let kind = value.ty;
    if !ty.element_matches(kind) {
        return Err(Refusal::from(Reason::KindsDiffer));
    }
    if table.size <= index {
        return Err(Refusal::from(Reason::SetOutside));
    }
    let at = table.start + (index as usize);
    cells::fill_cells(cells, at, value.raw.bits, 1);
    Ok(Value::Number(0))
}
