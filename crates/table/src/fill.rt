// Filling cells of a table, in the order of checks of document 01.
#![tactic(auto, using(types::proofs::Picks::cases, types::proofs::Dones::done_as), unfolding(crate::specs::stages::Spans::paid_by, types::specs::stages::Grant::spanned, crate::specs::stages::Spans::fill_kind))]

ghost use Rattle.std.specs.Prelude.{◌≡◌, length};
ghost use Rattle.types.specs.Done.{done};
ghost use Rattle.types.specs.Raw.{raw_bytes};
ghost use Rattle.table.specs.stages.Facts.{Within};
ghost use Rattle.table.specs.Fill.{fill_table};
ghost use Rattle.table.specs.stages.Spans.{fill_kind};

use super::table::Table;
use super::{cells, table};
use types::answer::Reason;
use types::fuel::Fuel;
use types::grant::Spanned;
use types::raw::{RawRef, TypedRawRef};
use types::span::FillSpan;

// Bounds 11, then the fuel step, at length 0 too.
fn fill_kind(table: Table, cells: &mut [u64], span: FillSpan, bits: u64, fuel: Fuel) -> Spanned
    requires { Within table (length cells.old) }
    ensures { done result cells.new ≡ fill_kind raw_bytes table cells.old span bits fuel }
{
    let in_bounds = types::span::within(span.start, span.len, table.size);
    let price = fuel.costs.fuel_for_copying_values(span.len, RawRef::size());
    let step = types::grant::grant_span(fuel, in_bounds, Reason::FillOutside as u8, price);
    if let Ok(_) = step {
        let at = table.start + (span.start as usize);
        cells::fill_cells(cells, at, bits, span.len as usize);
    }
    table::spanned(step, fuel)
}

impl Table {
    // The cells of the span become the reference: 14, 11 outside, 7; 19 where the record is unsound.
    #[tactic(auto, using(types::proofs::Picks::cases, types::proofs::Dones::done_as, crate::proofs::Readings::fill_reads, crate::proofs::Sounds::tested_within), unfolding(crate::specs::stages::Spans::fill_sound))]
    pub fn fill(self, cells: &mut [u64], span: FillSpan, value: TypedRawRef, fuel: Fuel) -> Spanned
        ensures { done result cells.new ≡ fill_table raw_bytes self cells.old span value fuel }
    {
        if !self.is_sound(cells.len()) {
            return table::not_spanned(Reason::Unsound, fuel);
        }
        if !self.ty.element_matches(value.ty) {
            return table::not_spanned(Reason::KindsDiffer, fuel);
        }
        fill_kind(self, cells, span, value.raw.bits, fuel)
    }
}
