// Answer lines: the number, the value or amount, and the fuel left.
#![tactic(auto, using(types::proofs::Picks::cases, crate::proofs::Writing::room_for), unfolding(crate::specs::AnswerLine::fuel_shown, crate::specs::AnswerLine::answer_line, crate::specs::AnswerLine::answered_of))]

ghost use Rattle.std.specs.Prelude.{◌+◌, ◌≤◌, ◌≡◌, length};
ghost use Rattle.types.specs.Done.{done};
ghost use Rattle.types.specs.Span.{over};
ghost use Rattle.lines.specs.AnswerLine.{answer_bytes, answer_text, fuel_shown, answer_line, answered_of};

use super::{field, line};
use types::answer::Answer;
use types::fuel::Fuel;

// The bytes of an answer line, LF among them.
pub(crate) const ANSWER: usize = 37;

// The three columns of an answer line.
fn write_answer(out: &mut [u8], at: usize, number: u8, shown: u64, fuel: u64)
    requires { at + answer_bytes ≤ length out.old }
    ensures { out.new ≡ over out.old at (answer_text number shown fuel) }
{
    field::put_hex(out, at, 2, u64::from(number));
    out[at + 2] = line::SPACE;
    field::put_hex(out, at + 3, 16, shown);
    out[at + 19] = line::SPACE;
    field::put_hex(out, at + 20, 16, fuel);
    out[at + 36] = line::LF;
}

// The fuel column: 0 where metering is off.
pub fn fuel_shown(fuel: Fuel) -> u64
    ensures { result ≡ fuel_shown fuel }
{
    if fuel.enabled { fuel.remaining } else { 0 }
}

// An answer's line at a place.
pub(crate) fn put_answer(out: &mut [u8], at: usize, answer: Answer, fuel: Fuel)
    requires { at + answer_bytes ≤ length out.old }
    ensures { out.new ≡ over out.old at (answer_line answer fuel) }
{
    write_answer(
        out,
        at,
        types::answer::number(answer),
        types::answer::shown(answer),
        fuel_shown(fuel),
    );
}

// An answer's line at the start of a buffer; nothing where it has less room.
pub fn write_answer_line(out: &mut [u8], answer: Answer, fuel: Fuel) -> bool
    ensures { done result out.new ≡ answered_of out.old answer fuel }
{
    if out.len() < ANSWER {
        return false;
    }
    put_answer(out, 0, answer, fuel);
    true
}
