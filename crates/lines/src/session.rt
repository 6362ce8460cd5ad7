// A session: lines of input to lines of answers, a piece at a time.
ghost use Rattle.std.specs.Prelude.{◌+◌, ◌/◌, ◌≤◌, ◌<◌, ◌≡◌, true, false, length, MatchOption};
ghost use Rattle.types.specs.Numbers.{word32};
ghost use Rattle.types.specs.Raw.{raw_bytes};
ghost use Rattle.machine.specs.Machine.{buffers};
ghost use Rattle.machine.specs.Row.{rowed, fresh_row};
ghost use Rattle.machine.specs.Words.{machine_from};
ghost use Rattle.lines.specs.AnswerLine.{answer_bytes};
ghost use Rattle.lines.specs.Session.{costs_of};
ghost use Rattle.lines.specs.Pieces.{lf_at, piece_of};
ghost use Rattle.lines.specs.Progress.{progressed, piece_in};
ghost use Rattle.lines.specs.stages.Runs.{held_on, ran, run_of, Ready, Turned, WholeRan, closed_of};

use super::answer_line::ANSWER;
use super::code::Read;
use super::{answer_line, code, line};
use machine::row;
use types::answer::{Answer, Reason, Refusal, Value};
use types::fuel::FuelCosts;

// A line of more bytes is malformed, whatever it holds.
const LONGEST: usize = 160;

// Whether the next line is the first, and whether the input is inside a line that is too long already; the machine stands in a row of words.
// Two facts, not one state: all four pairs of them occur.
#[derive(Clone, Copy)]
pub struct Session {
    pub first: bool,
    pub skip: bool,
}

// The session after a piece, how much of the input it used, and how much of the output it wrote.
#[derive(Clone, Copy)]
pub struct Progress {
    pub session: Session,
    pub used: usize,
    pub wrote: usize,
}

impl Session {
    // A session before its first line.
    pub fn new() -> Session
        ensures { result ≡ record { first = true; skip = false } }
    {
        Session {
            first: true,
            skip: false,
        }
    }
}

// The machine that 00 makes, in place.
fn make(words: &mut [u64], metering: bool, copied: u32) -> u8
    ensures { (rowed result words.new ≡ fresh_row words.old metering (costs_of copied)) × (copied < word32) }
{
    row::fresh(
        words,
        metering,
        FuelCosts {
            copied,
            ..FuelCosts::default_costs()
        },
    )
}

// What a line gives: one operation, a machine made anew by the first, or 18.
// The row and its buffers stay apart: `piece` and `row::proceed` take them one by one, and a struct would only be made and taken apart between them.
fn turn(
    first: bool,
    words: &mut [u64],
    bytes: &mut [u8],
    cells: &mut [u64],
    items: &mut [u64],
    said: Option<Read>,
) -> Answer
    requires { Ready words.old (buffers bytes.old cells.old items.old) }
    ensures { Turned first words.old (buffers bytes.old cells.old items.old) said result
        words.new (buffers bytes.new cells.new items.new) }
{
    match said {
        Some(Read::Operation(op)) => row::proceed(words, bytes, cells, items, op),
        Some(Read::Making { metering, copied }) => {
            if !first {
                return Err(Refusal::from(Reason::Malformed));
            }
            make(words, metering, copied);
            Ok(Value::Number(0))
        }
        None => Err(Refusal::from(Reason::Malformed)),
    }
}

// How many bytes a text has before its first LF.
fn line_end(s: &[u8]) -> Option<usize>
    ensures { MatchOption result (lf_at s.now ≡ length s.now) (λ n. (n ≡ lf_at s.now) × (n < length s.now)) }
{
    s.iter().position(|b| *b == line::LF)
}

// How far a run is, when it stops.
fn stopped(first: bool, used: usize, wrote: usize) -> Progress
    ensures { result ≡ record { session = record { first = first; skip = false }; used = used; wrote = wrote } }
{
    Progress {
        session: Session { first, skip: false },
        used,
        wrote,
    }
}

// The whole lines of a piece from a place on, while there is room for their answers.
fn whole_lines(
    begun: bool,
    words: &mut [u64],
    bytes: &mut [u8],
    cells: &mut [u64],
    items: &mut [u64],
    input: &[u8],
    out: &mut [u8],
    from: usize,
    put: usize,
) -> Progress
    requires { (from ≤ length input.now) × (put ≤ length out.old) × Ready words.old (buffers bytes.old cells.old items.old) }
    ensures { WholeRan (ran result words.new bytes.new cells.new items.new out.new) words.old
        from put (held_on (machine_from words.old) begun bytes.old cells.old items.old) out.old input.now }
{
    let mut first = begun;
    let mut used = from;
    let mut wrote = put;
    // both places move by what a line takes and gives, so that no iterator counts them
    while ANSWER <= out.len() - wrote {
        let Some(n) = line_end(&input[used..]) else {
            return stopped(first, used, wrote);
        };
        let said = code::read_line(&input[used..used + n]);
        let answer = turn(first, words, bytes, cells, items, said);
        answer_line::put_answer(out, wrote, answer, row::fuel_of(words));
        first = false;
        used += n + 1;
        wrote += ANSWER;
    }
    stopped(first, used, wrote)
}

// A run is over: what it left, if that is a line that is too long already, is passed over.
fn close(input: &[u8], p: Progress) -> Progress
    requires { p.used ≤ length input.now }
    ensures { result ≡ closed_of input.now p }
{
    let rest = &input[p.used..];
    if rest.len() <= LONGEST || line_end(rest).is_some() {
        return p;
    }
    Progress {
        session: Session {
            skip: true,
            ..p.session
        },
        used: input.len(),
        ..p
    }
}

// A piece that starts at the start of a line, or inside one.
fn go_on(
    session: Session,
    words: &mut [u64],
    bytes: &mut [u8],
    cells: &mut [u64],
    items: &mut [u64],
    input: &[u8],
    out: &mut [u8],
) -> Progress
    requires { Ready words.old (buffers bytes.old cells.old items.old) }
    ensures { ran result words.new bytes.new cells.new items.new out.new
        ≡ run_of words.old out.old
        (piece_of (length out.old / answer_bytes) false raw_bytes
        (held_on (machine_from words.old) session.first bytes.old cells.old items.old) input.now) }
{
    let p = whole_lines(session.first, words, bytes, cells, items, input, out, 0, 0);
    close(input, p)
}

// A piece that starts inside a line that is too long.
fn skip_on(
    session: Session,
    words: &mut [u64],
    bytes: &mut [u8],
    cells: &mut [u64],
    items: &mut [u64],
    input: &[u8],
    out: &mut [u8],
) -> Progress
    requires { Ready words.old (buffers bytes.old cells.old items.old) }
    ensures { ran result words.new bytes.new cells.new items.new out.new
        ≡ run_of words.old out.old
        (piece_of (length out.old / answer_bytes) true raw_bytes
        (held_on (machine_from words.old) session.first bytes.old cells.old items.old) input.now) }
{
    let still = Progress {
        session: Session {
            skip: true,
            ..session
        },
        used: 0,
        wrote: 0,
    };
    if out.len() < ANSWER {
        return still;
    }
    let Some(n) = line_end(input) else {
        return Progress {
            used: input.len(),
            ..still
        };
    };
    let malformed = Err(Refusal::from(Reason::Malformed));
    answer_line::put_answer(out, 0, malformed, row::fuel_of(words));
    let p = whole_lines(false, words, bytes, cells, items, input, out, n + 1, ANSWER);
    close(input, p)
}

// A piece of a session on the machine of a row: at most as many of its lines as there is room for answers, of any length.
// Form and soundness of the row are tested once; a row without them is 19, and nothing changes.
pub fn piece(
    session: Session,
    words: &mut [u64],
    bytes: &mut [u8],
    cells: &mut [u64],
    items: &mut [u64],
    input: &[u8],
    out: &mut [u8],
) -> Result<Progress, Refusal>
    ensures { progressed result words.new bytes.new cells.new items.new out.new
        ≡ piece_in session words.old (buffers bytes.old cells.old items.old) input.now out.old }
{
    if !row::is_ready(words, bytes.len(), cells.len(), items.len()) {
        return Err(Refusal::from(Reason::Unsound));
    }
    if session.skip {
        return Ok(skip_on(session, words, bytes, cells, items, input, out));
    }
    Ok(go_on(session, words, bytes, cells, items, input, out))
}
