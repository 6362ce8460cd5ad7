// Operation lines: one read and answered at once, and a whole session over lines in one buffer.
#![tactic(auto, unfolding(crate::specs::Text::echo_of, crate::specs::Text::session_on, crate::specs::Text::written_by))]

ghost use Rattle.std.specs.Prelude.{◌≡◌, true};
ghost use Rattle.types.specs.Fuel.{new_fuel, default_costs};
ghost use Rattle.machine.specs.Machine.{buffers};
ghost use Rattle.lines.specs.Code.{read_line};
ghost use Rattle.types.specs.Done.{done};
ghost use Rattle.lines.specs.AnswerLine.{answered_of};
ghost use Rattle.timing.specs.Text.{echo_of, session_on, Sent};

use lines::answer_line::write_answer_line;
use lines::code::{Read, read_line};
use lines::session::{Session, piece};
use machine::row;
use types::answer::{Answer, Reason, Refusal, Value};
use types::fuel::{Fuel, FuelCosts};

// Whether a line is an operation's.
fn echo(parsed: Option<Read>) -> Answer
    ensures { result ≡ echo_of parsed }
{
    match parsed {
        Some(Read::Operation(_)) => Ok(Value::Number(0)),
        _ => Err(Refusal::from(Reason::Malformed)),
    }
}

// A line is read, and an answer line written.
#[unsafe(no_mangle)]
pub extern "C" fn rounds_line(line: &[u8], out: &mut [u8]) -> bool
    ensures { done result out.new ≡ answered_of out.old (echo_of (read_line line.now)) (new_fuel true default_costs) }
{
    let fuel = Fuel::new(true, FuelCosts::default_costs());
    write_answer_line(out, echo(read_line(line)), fuel)
}

// A session on a fresh machine over one piece: how many bytes of answers it wrote.
#[unsafe(no_mangle)]
pub extern "C" fn rounds_session(
    bytes: &mut [u8],
    cells: &mut [u64],
    items: &mut [u64],
    input: &[u8],
    out: &mut [u8],
) -> usize
    ensures { Sent (session_on (buffers bytes.old cells.old items.old) input.now out.old)
        result bytes.new cells.new items.new out.new }
{
    let mut words = [0; 186];
    row::fresh(&mut words, true, FuelCosts::default_costs());
    piece(Session::new(), &mut words, bytes, cells, items, input, out).map_or(0, |p| p.wrote)
}
