// Operations on tables: 20 to 26.
#![tactic(auto, using(types::proofs::Picks::cases), unfolding(crate::specs::Machine::next_cell, crate::specs::Tables::perform_table, crate::specs::Tables::on_table, crate::specs::Tables::copy_on, crate::specs::Tables::made_table, crate::specs::Tables::new_table_on))]

ghost use Rattle.std.specs.Prelude.{◌≡◌, ◌≤◌, ◌<◌, length};
ghost use Rattle.types.specs.Done.{done};
ghost use Rattle.types.specs.Raw.{raw_bytes};
ghost use Rattle.machine.specs.Machine.{capacity, next_cell};
ghost use Rattle.machine.specs.Words.{row_length, machine_from};
ghost use Rattle.machine.specs.Tables.{perform_table, on_table, spanned_out, copy_on, new_table_on};

use super::operation::TableOp;
use super::outcome::{Change, Outcome};
use super::records::finds_room;
use super::{outcome, row, words};
use table::grow::GrownTable;
use table::table::Table;
use types::answer::{Reason, Value};
use types::fuel::Fuel;
use types::grant::Spanned;
use types::limiter::Limiter;
use types::raw::TypedRawRef;
use types::span::{CopySpan, FillSpan};
use types::table_ty::WantedTable;

// One operation on one table.
pub fn perform(
    table: Table,
    cells: &mut [u64],
    fuel: Fuel,
    limiter: Limiter,
    op: TableOp,
) -> GrownTable
    ensures { done result cells.new ≡ perform_table raw_bytes table cells.old fuel limiter op }
{
    let (answer, fuel) = match op {
        TableOp::Grow { cells: n, value } => return table.grow(cells, n, value, fuel, limiter),
        TableOp::Size => (Ok(Value::Number(table.size)), fuel),
        TableOp::Get { index } => (table.get(cells, index), fuel),
        TableOp::Set { index, value } => (table.set(cells, index, value), fuel),
        TableOp::Fill { start, value, len } => {
            let filled = table.fill(cells, FillSpan { start, len }, value, fuel);
            (filled.answer, filled.fuel)
        }
    };
    GrownTable {
        answer,
        table,
        fuel,
        limiter,
    }
}

// 21 to 25: 16, then the table's own operation.
// Not one with `on_memory`: a trait over operation, buffer and grown record would be longer than both bodies.
pub(crate) fn on_table(words: &[u64], cells: &mut [u64], number: u64, op: TableOp) -> Outcome
    requires { (row_length ≤ length words.now) × ((machine_from words.now).counts.tables ≤ capacity) }
    ensures { done result cells.new ≡ on_table raw_bytes (machine_from words.now) cells.old number op }
{
    let counts = words::counts_from(words);
    let i = number as usize;
    if counts.tables <= i {
        return outcome::refuses(words, Reason::NumberUnknown);
    }
    let grown = perform(
        row::record_at(words, i),
        cells,
        words::fuel_from(words),
        words::limiter_from(words),
        op,
    );
    Outcome {
        answer: grown.answer,
        change: Change::Table(i, grown.table),
        counts,
        fuel: grown.fuel,
        limiter: grown.limiter,
    }
}

// A span operation's outcome: no record changes.
pub(crate) fn spanned(words: &[u64], span: Spanned) -> Outcome
    requires { row_length ≤ length words.now }
    ensures { result ≡ spanned_out (machine_from words.now) span }
{
    outcome::leaves(words, span.answer, span.fuel, words::limiter_from(words))
}

// 26: 16, then a copy; the numbers may be one.
pub(crate) fn table_copy(
    words: &[u64],
    cells: &mut [u64],
    into: u64,
    source: u64,
    span: CopySpan,
) -> Outcome
    requires { (row_length ≤ length words.now) × ((machine_from words.now).counts.tables ≤ capacity) }
    ensures { done result cells.new ≡ copy_on raw_bytes (machine_from words.now) cells.old into source span }
{
    let count = words::counts_from(words).tables as u64;
    if count <= into || count <= source {
        return outcome::refuses(words, Reason::NumberUnknown);
    }
    let table: Table = row::record_at(words, into as usize);
    let other = row::record_at(words, source as usize);
    spanned(
        words,
        table.copy(other, cells, span, words::fuel_from(words)),
    )
}

// 20: 17, then a new table in the next room.
pub(crate) fn new_table(
    words: &[u64],
    cells: &mut [u64],
    room: u64,
    wanted: WantedTable,
    initial: TypedRawRef,
) -> Outcome
    requires { (row_length ≤ length words.now) × ((machine_from words.now).counts.tables ≤ capacity) × (next_cell (machine_from words.now) ≤ length cells.old) }
    ensures { done result cells.new ≡ new_table_on (machine_from words.now) cells.old room wanted initial }
{
    let counts = words::counts_from(words);
    let start = row::next_room::<Table>(words);
    if !finds_room(counts.tables, room, cells.len() - start) {
        return outcome::refuses(words, Reason::NoPlace);
    }
    let created = table::new::new_table(
        wanted,
        initial,
        start,
        room,
        cells,
        words::limiter_from(words),
    );
    outcome::made(words, created.made, created.limiter)
}
