// A machine in place: the words of its records, the record that stands at a place of a row, and the row of a machine that goes by value.
#![tactic(auto, using(types::proofs::Picks::cases, types::proofs::Moves::put_part, crate::proofs::Rows::then_over, crate::proofs::Rows::length_both, crate::proofs::Rows::put_none, crate::proofs::Rows::then_both), unfolding(crate::specs::Words::words_of, crate::specs::Words::count_words, crate::specs::Words::fuel_words, crate::specs::Words::place_words, crate::specs::Words::limits_from, crate::specs::Words::counts_from, crate::specs::Words::fuel_from, crate::specs::Words::limiter_from))]

ghost use Rattle.std.specs.Prelude.{◌≡◌, ◌+◌, ◌-◌, ◌*◌, ◌≤◌, [], ◌∷◌, length};
ghost use Rattle.types.specs.Span.{over};
ghost use Rattle.machine.specs.Machine.{capacity};
ghost use Rattle.machine.specs.Words.{counts_at, fuel_at, row_length};
ghost use Rattle.machine.specs.Words.{count_words, fuel_words, place_words, rows_of, instance_words, standing_words, state_words, words_of};
ghost use Rattle.machine.specs.Words.{limits_from, counts_from, cost_from, fuel_from, limiter_from, machine_from};

use super::record::Record;
use super::records::{CAPACITY, Counts, Machine};
use types::fuel::{Fuel, FuelCosts};
use types::limiter::{LONGEST_SCRIPT, Limiter};
use types::limits::Limits;
use types::wide::WORD32;

// The words of a memory's or table's record, and of a segment's.
pub(crate) const RECORD: usize = 8;

pub(crate) const SEGMENT: usize = 4;

// Where each part of a row starts, and how many words it has.
pub(crate) const TABLES: usize = CAPACITY * RECORD;

pub(crate) const SEGMENTS: usize = TABLES + CAPACITY * RECORD;

pub(crate) const COUNTS: usize = SEGMENTS + CAPACITY * SEGMENT;

pub(crate) const FUEL: usize = COUNTS + 3;

pub(crate) const LIMITER: usize = FUEL + 5;

pub(crate) const SCRIPT: usize = LIMITER + 2;

pub const ROW: usize = SCRIPT + LONGEST_SCRIPT;

fn count_words(counts: Counts) -> [u64; 3]
    ensures { result ≡ count_words counts }
{
    [
        counts.memories as u64,
        counts.tables as u64,
        counts.segments as u64,
    ]
}

fn fuel_words(fuel: Fuel) -> [u64; 5]
    ensures { result ≡ fuel_words fuel }
{
    let costs = fuel.costs;
    [
        fuel.remaining,
        u64::from(fuel.enabled),
        u64::from(costs.copied),
        u64::from(costs.translated),
        u64::from(costs.validated),
    ]
}

fn place_words(limiter: Limiter) -> [u64; 2]
    ensures { result ≡ place_words limiter }
{
    [limiter.count as u64, limiter.at as u64]
}

// The words from a place on become those of a row.
pub(crate) fn put(words: &mut [u64], at: usize, row: &[u64])
    requires { at + length row.now ≤ length words.old }
    ensures { words.new ≡ over words.old at row.now }
{
    words[at..at + row.len()].copy_from_slice(row);
}

// The same from bytes, a word each.
fn put_bytes(words: &mut [u64], at: usize, row: &[u8])
    requires { at + length row.now ≤ length words.old }
    ensures { words.new ≡ over words.old at row.now }
{
    // By index: once an `iter_mut` is over, a proof knows the row's length alone.
    for i in 0..row.len() {
        words[at + i] = u64::from(row[i]);
    }
}

// All records of a kind.
fn put_records<R: Record>(words: &mut [u64], records: &[R; CAPACITY])
    requires { R.PLACE + capacity * R.WIDTH ≤ length words.old }
    ensures { (words.new ≡ over words.old R.PLACE (rows_of R.written records.now)) × (length (rows_of R.written records.now) ≡ capacity * R.WIDTH) }
{
    for i in 0..CAPACITY {
        records[i].write(words, R::PLACE + R::WIDTH * i);
    }
}

fn put_instances(words: &mut [u64], machine: Machine)
    requires { row_length ≤ length words.old }
    ensures { (words.new ≡ over words.old 0 (instance_words machine)) × (length (instance_words machine) ≡ counts_at) }
{
    put_records(words, &machine.memories);
    put_records(words, &machine.tables);
    put_records(words, &machine.segments);
}

// The fuel left.
pub(crate) fn put_left(words: &mut [u64], left: u64)
    requires { row_length ≤ length words.old }
    ensures { words.new ≡ over words.old fuel_at (left ∷ []) }
{
    put(words, FUEL, &[left]);
}

// The numbers in use, fuel and the script's place.
pub(crate) fn put_standing(words: &mut [u64], counts: Counts, fuel: Fuel, limiter: Limiter)
    requires { row_length ≤ length words.old }
    ensures { words.new ≡ over words.old counts_at (standing_words counts fuel limiter) }
{
    put(words, COUNTS, &count_words(counts));
    put(words, FUEL, &fuel_words(fuel));
    put(words, LIMITER, &place_words(limiter));
}

// The same with the script's answers.
pub(crate) fn put_state(words: &mut [u64], counts: Counts, fuel: Fuel, limiter: Limiter)
    requires { row_length ≤ length words.old }
    ensures { (words.new ≡ over words.old counts_at (state_words counts fuel limiter)) × (length (state_words counts fuel limiter) ≡ row_length - counts_at) }
{
    put_standing(words, counts, fuel, limiter);
    put_bytes(words, SCRIPT, &limiter.script);
}

// The first words of a row become a machine's.
pub(crate) fn put_machine(words: &mut [u64], machine: Machine)
    requires { row_length ≤ length words.old }
    ensures { (words.new ≡ over words.old 0 (words_of machine)) × (length (words_of machine) ≡ row_length) }
{
    put_instances(words, machine);
    put_state(words, machine.counts, machine.fuel, machine.limiter);
}

pub(crate) fn limits_from(words: &[u64], at: usize) -> Limits
    requires { at + 3 ≤ length words.now }
    ensures { result ≡ limits_from words.now at }
{
    Limits {
        minimum: words[at],
        bounded: words[at + 1] == 1,
        maximum: words[at + 2],
    }
}

pub(crate) fn counts_from(words: &[u64]) -> Counts
    requires { row_length ≤ length words.now }
    ensures { result ≡ counts_from words.now }
{
    Counts {
        memories: words[COUNTS] as usize,
        tables: words[COUNTS + 1] as usize,
        segments: words[COUNTS + 2] as usize,
    }
}

fn cost_from(word: u64) -> u32
    ensures { result ≡ cost_from word }
{
    (word % WORD32) as u32
}

pub(crate) fn fuel_from(words: &[u64]) -> Fuel
    requires { row_length ≤ length words.now }
    ensures { result ≡ fuel_from words.now }
{
    Fuel {
        remaining: words[FUEL],
        enabled: words[FUEL + 1] == 1,
        costs: FuelCosts {
            copied: cost_from(words[FUEL + 2]),
            translated: cost_from(words[FUEL + 3]),
            validated: cost_from(words[FUEL + 4]),
        },
    }
}

fn script_from(words: &[u64]) -> [u8; LONGEST_SCRIPT]
    requires { row_length ≤ length words.now }
    ensures { result ≡ (limiter_from words.now).script }
{
    let mut script = [0u8; LONGEST_SCRIPT];
    // By index, as in `put_bytes`.
    for i in 0..LONGEST_SCRIPT {
        script[i] = (words[SCRIPT + i] % 256) as u8;
    }
    script
}

pub(crate) fn limiter_from(words: &[u64]) -> Limiter
    requires { row_length ≤ length words.now }
    ensures { result ≡ limiter_from words.now }
{
    Limiter {
        script: script_from(words),
        count: words[LIMITER] as usize,
        at: words[LIMITER + 1] as usize,
    }
}

// The row of a machine that goes by value.
pub(crate) fn row_of(machine: Machine) -> [u64; ROW]
    ensures { (result ≡ words_of machine) × (machine_from result ≡ machine) }
{
    let mut row = [0u64; ROW];
    put_machine(&mut row, machine);
    row
}
