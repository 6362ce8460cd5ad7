// When a row is in form: long enough, each flag 0 or 1, each cost below 2^32, each answer of the script at most 2.
// No test hangs on another, so that all of them become one row of loads and a few branches.
#![tactic(auto, using(crate::proofs::Places::all_none, crate::proofs::Places::all_next, crate::proofs::Places::all_done, types::proofs::Picks::cases), unfolding(crate::specs::Words::record_in_form, crate::specs::Words::fuel_in_form, crate::specs::Words::in_form, types::specs::Pick::both))]

ghost use Rattle.std.specs.Prelude.{◌≡◌, ◌+◌, ◌≤◌, length};
ghost use Rattle.types.specs.Limiter.{longest_script};
ghost use Rattle.machine.specs.Machine.{capacity};
ghost use Rattle.machine.specs.Words.{record_length, script_at, row_length, all_at, answer_at, record_in_form, fuel_in_form, in_form};

use super::record::Record;
use super::records::CAPACITY;
use super::words::{FUEL, ROW, SCRIPT};
use memory::memory::Memory;
use table::element::ElementSegment;
use table::table::Table;
use types::limiter::LONGEST_SCRIPT;
use types::wide::WORD32;

// The three flags of a memory's or table's record.
pub(crate) fn record_in_form(words: &[u64], at: usize) -> bool
    requires { at + record_length ≤ length words.now }
    ensures { result ≡ record_in_form words.now at }
{
    (words[at] <= 1) & ((words[at + 1] <= 1) & (words[at + 3] <= 1))
}

// All records of one kind.
fn records_in_form<R: Record>(words: &[u64]) -> bool
    requires { row_length ≤ length words.now }
    ensures { result ≡ all_at R.in_form R.WIDTH words.now R.PLACE capacity }
{
    let mut fine = true;
    // Not `all`, which stops at the first that is out of form, a branch each.
    for i in 0..CAPACITY {
        fine &= R::in_form(words, R::PLACE + R::WIDTH * i);
    }
    fine
}

fn script_in_form(words: &[u64]) -> bool
    requires { row_length ≤ length words.now }
    ensures { result ≡ all_at answer_at 1 words.now script_at longest_script }
{
    let mut fine = true;
    // Not `all`, as above.
    for i in 0..LONGEST_SCRIPT {
        fine &= words[SCRIPT + i] <= 2;
    }
    fine
}

fn fuel_in_form(words: &[u64]) -> bool
    requires { row_length ≤ length words.now }
    ensures { result ≡ fuel_in_form words.now }
{
    (words[FUEL + 1] <= 1)
        & ((words[FUEL + 2] < WORD32) & ((words[FUEL + 3] < WORD32) & (words[FUEL + 4] < WORD32)))
}

// Whether a row is in form.
pub(crate) fn in_form(words: &[u64]) -> bool
    ensures { result ≡ in_form words.now }
{
    if words.len() < ROW {
        return false;
    }
    records_in_form::<Memory>(words)
        & (records_in_form::<Table>(words)
            & (records_in_form::<ElementSegment>(words)
                & (fuel_in_form(words) & script_in_form(words))))
}
