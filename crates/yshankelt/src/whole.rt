// A whole machine in a row of words that the host owns: made, operated, and asked for its sizes.
#![tactic(auto, using(types::proofs::Picks::cases), unfolding(crate::specs::Whole::line_from, crate::specs::Whole::answered, crate::specs::Whole::told, crate::specs::Whole::operate_of, lines::specs::AnswerLine::fuel_shown))]

ghost use Rattle.std.specs.Prelude.{◌≡◌, ◌≤◌, length, get_or, replicate};
ghost use Rattle.types.specs.Span.{over};
ghost use Rattle.machine.specs.Machine.{Buffers, buffers};
ghost use Rattle.machine.specs.Words.{row_length};
ghost use Rattle.machine.specs.Row.{rowed, fresh_row, in_row, row_pages, row_cells};
ghost use Rattle.lines.specs.Code.{operation_of};
ghost use Rattle.lines.specs.Line.{most_fields};
ghost use Rattle.lines.specs.Session.{costs_of};
ghost use Rattle.yshankelt.specs.Face.{Given};
ghost use Rattle.yshankelt.specs.Whole.{line_from, answered, call, told, operate_of};

use super::{costs, deliver};
use lines::code::Read;
use lines::line::{Line, MOST_FIELDS};
use lines::{answer_line, code};
use machine::row;
use machine::words::ROW;
use types::answer::{Answer, Reason, Refusal};

// How many words a machine takes.
#[unsafe(no_mangle)]
pub extern "C" fn ysh_machine_words() -> usize
    ensures { result ≡ row_length }
{
    ROW
}

// A fresh machine: 0 and its words, or 19 where there are fewer than that.
#[unsafe(no_mangle)]
pub extern "C" fn ysh_machine_new(words: &mut [u64], metering: bool, copied: u32) -> u8
    ensures { rowed result words.new ≡ fresh_row words.old metering (costs_of copied) }
{
    row::fresh(words, metering, costs(copied))
}

// A field, 0 past the last.
fn field(fields: &[u64], i: usize) -> u64
    ensures { result ≡ get_or fields.now i 0 }
{
    fields.get(i).copied().unwrap_or(0)
}

// The fields, and zeros behind them. Place by place: a copy by length is a call, 1.5 ns of an operation's 47.
fn padded(fields: &[u64]) -> [u64; MOST_FIELDS]
    requires { length fields.now ≤ most_fields }
    ensures { result ≡ over (replicate most_fields 0) 0 fields.now }
{
    [
        field(fields, 0),
        field(fields, 1),
        field(fields, 2),
        field(fields, 3),
        field(fields, 4),
        field(fields, 5),
        field(fields, 6),
        field(fields, 7),
    ]
}

// A code and its fields as a line's numbers, where there are at most as many as a line has.
fn line_from(code: u8, fields: &[u64]) -> Option<Line>
    ensures { result ≡ line_from code fields.now }
{
    let count = fields.len();
    if MOST_FIELDS < count {
        return None;
    }
    Some(Line {
        code: code as u64,
        count,
        list: padded(fields),
    })
}

// What they say.
fn said_of(code: u8, fields: &[u64]) -> Option<Read>
    ensures { result ≡ operation_of (line_from code fields.now) }
{
    code::operation_of(line_from(code, fields))
}

// One operation, or 18: making a machine is no operation.
fn answered(
    words: &mut [u64],
    bytes: &mut [u8],
    cells: &mut [u64],
    items: &mut [u64],
    said: Option<Read>,
) -> Answer
    ensures { in_row result words.new bytes.new cells.new items.new
        ≡ answered said words.old (buffers bytes.old cells.old items.old) }
{
    match said {
        Some(Read::Operation(op)) => row::operate(words, bytes, cells, items, op),
        Some(Read::Making { .. }) | None => Err(Refusal::from(Reason::Malformed)),
    }
}

// The columns of the answer; 19 tells nothing else.
fn tell(words: &[u64], answer: Answer, value: &mut u64, fuel: &mut u64) -> u8
    ensures { (b : Buffers) → call result value.new fuel.new words.now b
        ≡ told value.old fuel.old (record { answer = answer; words = words.now; buffers = b }) }
{
    let number = types::answer::number(answer);
    if number != Reason::Unsound as u8 {
        *value = types::answer::shown(answer);
        *fuel = answer_line::fuel_shown(row::fuel_of(words));
    }
    number
}

// One operation on the machine of a row. 18 for what is no operation, then 19 for a row or buffers that do not hold a machine, which changes nothing.
#[unsafe(no_mangle)]
pub extern "C" fn ysh_operate(
    words: &mut [u64],
    bytes: &mut [u8],
    cells: &mut [u64],
    items: &mut [u64],
    code: u8,
    fields: &[u64],
    value: &mut u64,
    fuel: &mut u64,
) -> u8
    ensures { call result value.new fuel.new words.new (buffers bytes.new cells.new items.new)
        ≡ operate_of words.old (buffers bytes.old cells.old items.old)
        (line_from code fields.now) value.old fuel.old }
{
    let answer = answered(words, bytes, cells, items, said_of(code, fields));
    tell(words, answer, value, fuel)
}

// A memory's size in pages, over buffers of these lengths: 12's answer on a row in form. Of the form that record's flags alone are tested. C has a name for each of the two sizes.
#[unsafe(no_mangle)]
pub extern "C" fn ysh_memory_pages(
    words: &[u64],
    bytes: usize,
    cells: usize,
    items: usize,
    memory: u64,
    value: &mut u64,
) -> u8
    ensures { Given (row_pages words.now bytes cells items memory) value.old result value.new }
{
    deliver(row::memory_pages(words, bytes, cells, items, memory), value)
}

// A table's size in cells, likewise 22's.
#[unsafe(no_mangle)]
pub extern "C" fn ysh_table_cells(
    words: &[u64],
    bytes: usize,
    cells: usize,
    items: usize,
    table: u64,
    value: &mut u64,
) -> u8
    ensures { Given (row_cells words.now bytes cells items table) value.old result value.new }
{
    deliver(row::table_cells(words, bytes, cells, items, table), value)
}
