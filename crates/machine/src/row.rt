// The records of a row by number, where the next room starts, and one operation on a machine in place.
#![tactic(auto, using(types::proofs::Picks::cases, crate::proofs::Formed::form_long), unfolding(crate::specs::stages::Records::known, crate::specs::stages::Records::next_room, crate::specs::stages::Records::end_of, crate::specs::Machine::next_byte, crate::specs::Machine::next_cell, crate::specs::Machine::next_item, crate::specs::Row::fresh_row, crate::specs::Row::fuel_of, crate::specs::Row::row_pages, crate::specs::Row::row_cells, crate::specs::stages::Rows::ends_inside, crate::specs::stages::Rows::changed_row))]

ghost use Rattle.std.specs.Prelude.{◌≡◌, ◌+◌, ◌*◌, ◌≤◌, ◌<◌, ◌^◌, leb, ltb, length, get_or};
ghost use Rattle.types.specs.Pick.{pick, both};
ghost use Rattle.types.specs.Raw.{raw_bytes};
ghost use Rattle.types.specs.Span.{over};
ghost use Rattle.machine.specs.Machine.{capacity, buffers};
ghost use Rattle.machine.specs.Words.{row_length, machine_from, in_form};
ghost use Rattle.machine.specs.Row.{rowed, fresh_row, in_row, operate_row, fuel_of, row_pages, row_cells};
ghost use Rattle.machine.specs.Sound.{sound_machine};
ghost use Rattle.machine.specs.stages.Rows.{Inside, ends_inside, changed_row, Settles, Goes, Proceeds};
ghost use Rattle.machine.specs.stages.Records.{end_of, next_room, known};

use super::operation::{Operation, Writes};
use super::outcome::{Change, Outcome};
use super::record::Record;
use super::records::{CAPACITY, Machine};
use super::words::ROW;
use super::{form, operate, sound, words};
use memory::memory::Memory;
use table::element::ElementSegment;
use table::table::Table;
use types::answer::{Answer, Reason, Refusal, Value};
use types::fuel::{Fuel, FuelCosts};

// The record with a number.
pub(crate) fn record_at<R: Record>(words: &[u64], i: usize) -> R
    requires { (row_length ≤ length words.now) × (i < capacity) }
    ensures { result ≡ get_or (R.listed (machine_from words.now)) i R.none }
{
    R::read(words, R::PLACE + R::WIDTH * i)
}

// Where the next room of a kind starts.
// 0 is a place here, and no sign: the first room of a kind starts there.
pub(crate) fn next_room<R: Record>(words: &[u64]) -> usize
    requires { (row_length ≤ length words.now) × (R.used (machine_from words.now).counts ≤ capacity)
        × (next_room (end_of R.start R.room) R.none (R.used (machine_from words.now).counts) (R.listed (machine_from words.now)) < 2 ^ 64) }
    ensures { result
        ≡ next_room (end_of R.start R.room) R.none (R.used (machine_from words.now).counts) (R.listed (machine_from words.now)) }
{
    let used = R::used(words::counts_from(words));
    if used == 0 {
        return 0;
    }
    let last: R = record_at(words, used - 1);
    last.start() + (last.room() as usize)
}

// Whether no count passes the places, and the next rooms start inside buffers of these lengths.
fn ends_inside(words: &[u64], bytes: usize, cells: usize, items: usize) -> bool
    requires { row_length ≤ length words.now }
    ensures { result ≡ ends_inside (machine_from words.now) bytes cells items }
{
    kind_inside::<Memory>(words, bytes)
        && kind_inside::<Table>(words, cells)
        && kind_inside::<ElementSegment>(words, items)
}

// Whether a room ends within so many cells; the sum may pass 2^64.
fn room_inside(start: usize, room: u64, len: usize) -> bool
    ensures { result ≡ leb (start + room) len }
{
    start <= len && room <= (len - start) as u64
}

// The same of one kind.
fn kind_inside<R: Record>(words: &[u64], len: usize) -> bool
    requires { row_length ≤ length words.now }
    ensures { result
        ≡ both (leb (R.used (machine_from words.now).counts) capacity)
        (leb (next_room (end_of R.start R.room) R.none (R.used (machine_from words.now).counts) (R.listed (machine_from words.now))) len) }
{
    let used = R::used(words::counts_from(words));
    if CAPACITY < used {
        return false;
    }
    if used == 0 {
        return true;
    }
    let last: R = record_at(words, used - 1);
    room_inside(last.start(), last.room(), len)
}

fn put_record<R: Record>(words: &mut [u64], i: usize, instance: R)
    requires { row_length ≤ length words.old }
    ensures { words.new
        ≡ pick (ltb i capacity) (over words.old (R.PLACE + R.WIDTH * i) (R.written instance)) words.old }
{
    if i < CAPACITY {
        instance.write(words, R::PLACE + R::WIDTH * i);
    }
}

// The record that changed goes back to its place.
fn put_change(words: &mut [u64], change: Change)
    requires { row_length ≤ length words.old }
    ensures { words.new ≡ changed_row words.old change }
{
    match change {
        Change::Nothing => {}
        Change::Memory(i, memory) => put_record(words, i, memory),
        Change::Table(i, table) => put_record(words, i, table),
        Change::Segment(i, segment) => put_record(words, i, segment),
    }
}

// The row after an operation: only what it may have changed.
fn settle(words: &mut [u64], outcome: Outcome, writes: Writes)
    requires { row_length ≤ length words.old }
    ensures { Settles words.old writes outcome words.new }
{
    let Outcome {
        change,
        counts,
        fuel,
        limiter,
        ..
    } = outcome;
    match writes {
        Writes::Nothing => words::put_left(words, fuel.remaining),
        Writes::Record => {
            put_change(words, change);
            words::put_standing(words, counts, fuel, limiter)
        }
        Writes::Script => words::put_state(words, counts, fuel, limiter),
    }
}

// The operation's own checks, and what it changed. The four slices go one by one, as `proceed` and `operate` take them and their promises name them.
fn go(
    words: &mut [u64],
    bytes: &mut [u8],
    cells: &mut [u64],
    items: &mut [u64],
    op: Operation,
) -> Answer
    requires { (row_length ≤ length words.old) × Inside (machine_from words.old) (length bytes.old) (length cells.old) (length items.old) }
    ensures { Goes words.old (buffers bytes.old cells.old items.old) op
        (in_row result words.new bytes.new cells.new items.new) }
{
    let outcome = operate::perform(words, bytes, cells, items, op);
    settle(words, outcome, op.writes());
    outcome.answer
}

// One operation on a row whose form and soundness the caller carries from call to call: only its length, the counts and the next rooms' starts are tested.
#[tactic(auto, using(types::proofs::Picks::cases, crate::proofs::Settling::tested_inside))]
pub fn proceed(
    words: &mut [u64],
    bytes: &mut [u8],
    cells: &mut [u64],
    items: &mut [u64],
    op: Operation,
) -> Answer
    ensures { Proceeds words.old (buffers bytes.old cells.old items.old) op
        (in_row result words.new bytes.new cells.new items.new) }
{
    if !op.is_well_formed() {
        return Err(Refusal::from(Reason::Malformed));
    }
    if words.len() < ROW || !ends_inside(words, bytes.len(), cells.len(), items.len()) {
        return Err(Refusal::from(Reason::Unsound));
    }
    go(words, bytes, cells, items, op)
}

// One operation on a machine in place: 18, 19 for a row out of form or unsound, then the rest.
#[tactic(auto, using(types::proofs::Picks::cases, crate::proofs::Settling::operates_malformed, crate::proofs::Settling::operates_unready, crate::proofs::Settling::operates_goes))]
pub fn operate(
    words: &mut [u64],
    bytes: &mut [u8],
    cells: &mut [u64],
    items: &mut [u64],
    op: Operation,
) -> Answer
    ensures { in_row result words.new bytes.new cells.new items.new
        ≡ operate_row raw_bytes words.old (buffers bytes.old cells.old items.old) op }
{
    if !op.is_well_formed() {
        return Err(Refusal::from(Reason::Malformed));
    }
    if !is_ready(words, bytes.len(), cells.len(), items.len()) {
        return Err(Refusal::from(Reason::Unsound));
    }
    go(words, bytes, cells, items, op)
}

// Whether a row is in form and its records are sound over buffers of these lengths.
pub fn is_ready(words: &[u64], bytes: usize, cells: usize, items: usize) -> bool
    ensures { result ≡ both (in_form words.now) (sound_machine (machine_from words.now) bytes cells items) }
{
    form::in_form(words) && sound::is_sound(words, bytes, cells, items)
}

// A fresh machine in place: 0, or 19 where the row is too short. A number, since `fresh_row` promises one and the C interface answers it as it is.
pub fn fresh(words: &mut [u64], metering: bool, costs: FuelCosts) -> u8
    ensures { rowed result words.new ≡ fresh_row words.old metering costs }
{
    if words.len() < ROW {
        return 19;
    }
    words::put_machine(words, Machine::new(metering, costs));
    0
}

// The fuel of a row; a row that is too short has none.
pub fn fuel_of(words: &[u64]) -> Fuel
    ensures { result ≡ fuel_of words.now }
{
    if words.len() < ROW {
        return Fuel::new(
            false,
            FuelCosts {
                copied: 0,
                translated: 0,
                validated: 0,
            },
        );
    }
    words::fuel_from(words)
}

// The record of a number in use, over buffers of these lengths: of the row's form that record's flags alone are tested.
fn known<R: Record>(
    words: &[u64],
    bytes: usize,
    cells: usize,
    items: usize,
    number: u64,
) -> Result<R, Refusal>
    ensures { result
        ≡ known R.used R.in_form R.PLACE R.WIDTH R.listed R.none words.now bytes cells items number }
{
    if words.len() < ROW || !sound::is_sound(words, bytes, cells, items) {
        return Err(Refusal::from(Reason::Unsound));
    }
    let used = R::used(words::counts_from(words));
    if (used as u64) <= number {
        return Err(Refusal::from(Reason::NumberUnknown));
    }
    let i = number as usize;
    if !R::in_form(words, R::PLACE + R::WIDTH * i) {
        return Err(Refusal::from(Reason::Unsound));
    }
    Ok(record_at(words, i))
}

// A memory's size in pages, over buffers of these lengths: 12's answer on a row in form, of which that record's flags alone are tested here.
pub fn memory_pages(words: &[u64], bytes: usize, cells: usize, items: usize, number: u64) -> Answer
    ensures { result ≡ row_pages words.now bytes cells items number }
{
    let memory: Memory = known(words, bytes, cells, items, number)?;
    Ok(Value::Number(memory.pages()))
}

// A table's size in cells, likewise 22's.
pub fn table_cells(words: &[u64], bytes: usize, cells: usize, items: usize, number: u64) -> Answer
    ensures { result ≡ row_cells words.now bytes cells items number }
{
    let table: Table = known(words, bytes, cells, items, number)?;
    Ok(Value::Number(table.size))
}
