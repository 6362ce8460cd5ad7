// Copying cells between two tables, which may be one, in the order of checks of document 01.
#![tactic(auto, using(types::proofs::Picks::cases, types::proofs::Dones::done_as), unfolding(crate::specs::stages::Spans::paid_by, types::specs::stages::Grant::spanned, types::specs::Span::inside, crate::specs::Copy::same_table, crate::specs::Copy::rooms_apart, crate::specs::Copy::sound_two, crate::specs::stages::Spans::copy_bounds))]

ghost use Rattle.std.specs.Prelude.{◌≡◌, length};
ghost use Rattle.types.specs.Done.{done};
ghost use Rattle.types.specs.Raw.{raw_bytes};
ghost use Rattle.table.specs.stages.Facts.{Within};
ghost use Rattle.table.specs.Copy.{same_table, rooms_apart, sound_two, copy_table};
ghost use Rattle.table.specs.stages.Spans.{copy_bounds};

use super::table::Table;
use super::{cells, table};
use types::answer::Reason;
use types::fuel::Fuel;
use types::grant::Spanned;
use types::raw::RawRef;
use types::span::CopySpan;

// Bounds 12 in both tables, then the fuel step.
fn copy_bounds(into: Table, source: Table, cells: &mut [u64], span: CopySpan, fuel: Fuel) -> Spanned
    requires { Within into (length cells.old) × Within source (length cells.old) }
    ensures { done result cells.new ≡ copy_bounds raw_bytes into source cells.old span fuel }
{
    let ok = table::both_within(span.to, into.size, span.from, source.size, span.len);
    let price = fuel.costs.fuel_for_copying_values(span.len, RawRef::size());
    let step = types::grant::grant_span(fuel, ok, Reason::CopyOutside as u8, price);
    if let Ok(_) = step {
        let there = into.start + (span.to as usize);
        let here = source.start + (span.from as usize);
        cells::move_cells(cells, there, here, span.len as usize);
    }
    table::spanned(step, fuel)
}

// Whether two records are of one table.
fn same_table(into: Table, source: Table) -> bool
    ensures { result ≡ same_table into source }
{
    if into.start != source.start {
        return false;
    }
    if into.room != source.room {
        return false;
    }
    into.size == source.size
}

// Whether the rooms of two tables follow each other.
fn rooms_apart(into: Table, source: Table) -> bool
    ensures { result ≡ rooms_apart into source }
{
    if types::span::within(into.start as u64, into.room, source.start as u64) {
        return true;
    }
    types::span::within(source.start as u64, source.room, into.start as u64)
}

fn sound_two(into: Table, source: Table, len: usize) -> bool
    ensures { result ≡ sound_two into source len }
{
    if !into.is_sound(len) || !source.is_sound(len) {
        return false;
    }
    same_table(into, source) || rooms_apart(into, source)
}

impl Table {
    // Cells of a table, this one or another, go to this one, read as they were before: 14, 12 outside, 7; 19 where a record is unsound
    // or the rooms of two tables meet.
    #[tactic(auto, using(types::proofs::Picks::cases, types::proofs::Dones::done_as, crate::proofs::Readings::copy_reads), unfolding(crate::specs::stages::Spans::copy_kinds))]
    pub fn copy(self, source: Table, cells: &mut [u64], span: CopySpan, fuel: Fuel) -> Spanned
        ensures { done result cells.new ≡ copy_table raw_bytes self source cells.old span fuel }
    {
        if !sound_two(self, source, cells.len()) {
            return table::not_spanned(Reason::Unsound, fuel);
        }
        if !self.ty.element_matches(source.ty.element) {
            return table::not_spanned(Reason::KindsDiffer, fuel);
        }
        copy_bounds(self, source, cells, span, fuel)
    }
}
