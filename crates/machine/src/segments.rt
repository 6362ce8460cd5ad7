// Operations on segments: 27 to 29.
#![tactic(auto, using(types::proofs::Picks::cases), unfolding(crate::specs::Machine::next_item, crate::specs::Segments::init_on, crate::specs::Segments::drop_on, crate::specs::Segments::made_segment, crate::specs::Segments::new_segment_on))]

ghost use Rattle.std.specs.Prelude.{◌≡◌, ◌≤◌, length};
ghost use Rattle.types.specs.Done.{done};
ghost use Rattle.types.specs.Raw.{raw_bytes};
ghost use Rattle.machine.specs.Machine.{capacity, next_item};
ghost use Rattle.machine.specs.Words.{row_length, machine_from};
ghost use Rattle.machine.specs.Operation.{items_of};
ghost use Rattle.machine.specs.Segments.{init_on, drop_on, new_segment_on};

use super::operation::Items;
use super::outcome::{Change, Outcome};
use super::records::finds_room;
use super::{outcome, row, tables, words};
use table::element::ElementSegment;
use table::table::Table;
use types::answer::{Reason, Value};
use types::raw::RefType;
use types::span::CopySpan;

// 27: 16, then an init.
// Six parameters: the definition `init_on`, which the public ones cite, names each by itself.
pub(crate) fn table_init(
    words: &[u64],
    cells: &mut [u64],
    items: &[u64],
    number: u64,
    segment: u64,
    span: CopySpan,
) -> Outcome
    requires { (row_length ≤ length words.now) × ((machine_from words.now).counts.tables ≤ capacity) × ((machine_from words.now).counts.segments ≤ capacity) }
    ensures { done result cells.new ≡ init_on raw_bytes (machine_from words.now) cells.old items.now number segment span }
{
    let counts = words::counts_from(words);
    let i = number as usize;
    let j = segment as usize;
    if counts.tables <= i || counts.segments <= j {
        return outcome::refuses(words, Reason::NumberUnknown);
    }
    let table: Table = row::record_at(words, i);
    let given = row::record_at(words, j);
    tables::spanned(
        words,
        table.init(given, cells, items, span, words::fuel_from(words)),
    )
}

// 28: 16, then the segment becomes empty.
pub(crate) fn drop_segment(words: &[u64], number: u64) -> Outcome
    requires { (row_length ≤ length words.now) × ((machine_from words.now).counts.segments ≤ capacity) }
    ensures { result ≡ drop_on (machine_from words.now) number }
{
    let counts = words::counts_from(words);
    let i = number as usize;
    if counts.segments <= i {
        return outcome::refuses(words, Reason::NumberUnknown);
    }
    let segment: ElementSegment = row::record_at(words, i);
    Outcome {
        answer: Ok(Value::Number(0)),
        change: Change::Segment(i, segment.drop_items()),
        counts,
        fuel: words::fuel_from(words),
        limiter: words::limiter_from(words),
    }
}

fn add_items(words: &[u64], items: &mut [u64], element: RefType, given: &[u64]) -> Outcome
    requires { (row_length ≤ length words.now) × ((machine_from words.now).counts.segments ≤ capacity) × (next_item (machine_from words.now) ≤ length items.old) }
    ensures { done result items.new ≡ new_segment_on (machine_from words.now) items.old element given.now }
{
    let counts = words::counts_from(words);
    let start = row::next_room::<ElementSegment>(words);
    if !finds_room(counts.segments, given.len() as u64, items.len() - start) {
        return outcome::refuses(words, Reason::NoPlace);
    }
    let created = ElementSegment::new(element, start, items, given);
    outcome::made(words, created, words::limiter_from(words))
}

// 29: 17, then a segment of its items.
pub(crate) fn new_segment(
    words: &[u64],
    items: &mut [u64],
    element: RefType,
    given: Items,
) -> Outcome
    requires { (row_length ≤ length words.now) × ((machine_from words.now).counts.segments ≤ capacity) × (next_item (machine_from words.now) ≤ length items.old) }
    ensures { done result items.new ≡ new_segment_on (machine_from words.now) items.old element (items_of given) }
{
    let row = [given.first, given.second, given.third, given.fourth];
    let count = row.len().min(given.count as usize);
    add_items(words, items, element, &row[..count])
}
