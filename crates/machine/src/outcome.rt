// What an operation gives back: one record changes at most.
ghost use Rattle.std.specs.Prelude.{◌≡◌, ◌≤◌, ◌<◌, length};
ghost use Rattle.types.specs.Answer.{refuse, number_for};
ghost use Rattle.machine.specs.Machine.{capacity};
ghost use Rattle.machine.specs.Words.{row_length, machine_from};
ghost use Rattle.machine.specs.Outcome.{leaves, keeps, made};

use super::record::Record;
use super::records::Counts;
use super::words;
use memory::memory::Memory;
use table::element::ElementSegment;
use table::table::Table;
use types::answer::{Answer, Reason, Refusal, Value};
use types::fuel::Fuel;
use types::limiter::Limiter;

// The record at a place; a new one stands at the next free place.
#[derive(Clone, Copy)]
pub enum Change {
    Nothing,
    Memory(usize, Memory),
    Table(usize, Table),
    Segment(usize, ElementSegment),
}

#[derive(Clone, Copy)]
pub struct Outcome {
    pub answer: Answer,
    pub change: Change,
    pub counts: Counts,
    pub fuel: Fuel,
    pub limiter: Limiter,
}

// An answer that changes no record, with the fuel and the limiter after it.
pub(crate) fn leaves(words: &[u64], answer: Answer, fuel: Fuel, limiter: Limiter) -> Outcome
    requires { row_length ≤ length words.now }
    ensures { result ≡ leaves (machine_from words.now) answer fuel limiter }
{
    Outcome {
        answer,
        change: Change::Nothing,
        counts: words::counts_from(words),
        fuel,
        limiter,
    }
}

// An answer that leaves fuel and limiter too.
pub(crate) fn keeps(words: &[u64], answer: Answer) -> Outcome
    requires { row_length ≤ length words.now }
    ensures { result ≡ keeps (machine_from words.now) answer }
{
    leaves(
        words,
        answer,
        words::fuel_from(words),
        words::limiter_from(words),
    )
}

pub(crate) fn refuses(words: &[u64], reason: Reason) -> Outcome
    requires { row_length ≤ length words.now }
    ensures { result ≡ keeps (machine_from words.now) (refuse (number_for reason) 0) }
{
    keeps(words, Err(Refusal::from(reason)))
}

// A creation's outcome: the new number, or a refusal that takes neither number nor room.
pub(crate) fn made<R: Record>(
    words: &[u64],
    created: Result<R, Refusal>,
    limiter: Limiter,
) -> Outcome
    requires { (row_length ≤ length words.now) × (R.used (machine_from words.now).counts < capacity) }
    ensures { result ≡ made R.used R.more R.change (machine_from words.now) created limiter }
{
    let fuel = words::fuel_from(words);
    match created {
        Err(refusal) => leaves(words, Err(refusal), fuel, limiter),
        Ok(record) => {
            let counts = words::counts_from(words);
            let number = R::used(counts);
            Outcome {
                answer: Ok(Value::Number(number as u64)),
                change: record.change(number),
                counts: R::one_more(counts),
                fuel,
                limiter,
            }
        }
    }
}
