// Writing a segment's items into a table, in the order of checks of document 01.
#![tactic(auto, using(types::proofs::Picks::cases, types::proofs::Dones::done_as), unfolding(crate::specs::stages::Spans::paid_by, types::specs::stages::Grant::spanned, crate::specs::stages::Spans::init_some, crate::specs::stages::Spans::init_bounds))]

ghost use Rattle.std.specs.Prelude.{◌≡◌, ◌+◌, ◌≤◌, length};
ghost use Rattle.types.specs.Pick.{both};
ghost use Rattle.types.specs.Done.{done};
ghost use Rattle.types.specs.Raw.{raw_bytes};
ghost use Rattle.table.specs.stages.Facts.{Within, Places};
ghost use Rattle.table.specs.Table.{sound_table};
ghost use Rattle.table.specs.Element.{sound_segment};
ghost use Rattle.table.specs.Init.{init_table};
ghost use Rattle.table.specs.stages.Spans.{init_some, init_bounds};

use super::element::ElementSegment;
use super::table::Table;
use super::{cells, table};
use types::answer::{Reason, Value};
use types::fuel::Fuel;
use types::grant::Spanned;
use types::raw::RawRef;
use types::span::CopySpan;

// The fuel step of a length above 0.
// Its parameters are those of the public `init`, whose definition names each by itself; so are those of `init_bounds`.
fn init_some(
    table: Table,
    segment: ElementSegment,
    cells: &mut [u64],
    items: &[u64],
    span: CopySpan,
    fuel: Fuel,
) -> Spanned
    requires { (table.start + (span.to + span.len) ≤ length cells.old) × (segment.start + (span.from + span.len) ≤ length items.now) }
    ensures { done result cells.new ≡ init_some raw_bytes table segment cells.old items.now span fuel }
{
    let price = fuel.costs.fuel_for_copying_values(span.len, RawRef::size());
    let step = fuel.consume_fuel_if(price);
    if let Ok(_) = step {
        let there = table.start + (span.to as usize);
        let here = segment.start + (span.from as usize);
        cells::init_cells(cells, there, items, here, span.len as usize);
    }
    table::spanned(step, fuel)
}

fn init_bounds(
    table: Table,
    segment: ElementSegment,
    cells: &mut [u64],
    items: &[u64],
    span: CopySpan,
    fuel: Fuel,
) -> Spanned
    requires { Within table (length cells.old) × Places segment (length items.now) }
    ensures { done result cells.new ≡ init_bounds raw_bytes table segment cells.old items.now span fuel }
{
    if !table::both_within(span.to, table.size, span.from, segment.size, span.len) {
        return table::not_spanned(Reason::InitOutside, fuel);
    }
    if span.len == 0 {
        return Spanned {
            answer: Ok(Value::Number(0)),
            fuel,
        };
    }
    init_some(table, segment, cells, items, span, fuel)
}

impl Table {
    // Items of a segment go to cells of the table: 14, 13 outside, length 0 is free, 7; 19 where a record is unsound.
    // The definition `init_table` names each parameter by itself.
    #[tactic(auto, using(types::proofs::Picks::cases, types::proofs::Dones::done_as, crate::proofs::Readings::init_reads, crate::proofs::Sounds::tested_pair), unfolding(crate::specs::stages::Spans::init_kinds))]
    pub fn init(
        self,
        segment: ElementSegment,
        cells: &mut [u64],
        items: &[u64],
        span: CopySpan,
        fuel: Fuel,
    ) -> Spanned
        ensures { done result cells.new ≡ init_table raw_bytes self segment cells.old items.now span fuel }
    {
        if !sound_pair(self, segment, cells.len(), items.len()) {
            return table::not_spanned(Reason::Unsound, fuel);
        }
        if !self.ty.element_matches(segment.ty) {
            return table::not_spanned(Reason::KindsDiffer, fuel);
        }
        init_bounds(self, segment, cells, items, span, fuel)
    }
}

// Whether table and segment are both sound, each over its buffer.
fn sound_pair(table: Table, segment: ElementSegment, len: usize, count: usize) -> bool
    ensures { result ≡ both (sound_table table len) (sound_segment segment count) }
{
    table.is_sound(len) && segment.is_sound(count)
}
