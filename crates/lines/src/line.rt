// A line as numbers: its code and its fields, before it is known what they mean.
ghost use Rattle.std.specs.Prelude.{◌+◌, ◌*◌, ◌≤◌, ◌≡◌, length, replicate};
ghost use Rattle.types.specs.Done.{done};
ghost use Rattle.types.specs.Span.{over};
ghost use Rattle.lines.specs.stages.Back.{filled};
ghost use Rattle.lines.specs.Line.{most_fields, no_line, fields_of, line_of, fields_text, line_text, wrote_of};

use super::field;

// A space stands before each field, and LF ends a line.
pub(crate) const SPACE: u8 = b' ';

pub(crate) const LF: u8 = b'\n';

// The most fields that a line has.
pub const MOST_FIELDS: usize = 8;

// A field's bytes: a space and 16 digits.
const FIELD: usize = 17;

// No heap: the fields stand in a row that is as long as a line can be, with their number beside it.
#[derive(Clone, Copy)]
pub struct Line {
    pub code: u64,
    pub count: usize,
    // The fields, and zeros behind them.
    pub list: [u64; MOST_FIELDS],
}

// What a text that is no line is read as, by a name that docs/PROMISES.md has a law of (`no_line_one`).
pub fn no_line() -> Option<Line>
    ensures { result ≡ no_line }
{
    None
}

// The fields behind a line's code.
fn read_fields(code: u64, s: &[u8]) -> Option<Line>
    ensures { result ≡ filled code 0 (replicate most_fields 0) (fields_of most_fields s.now) }
{
    let mut list = [0; MOST_FIELDS];
    let mut count = 0;
    for part in s.chunks(FIELD) {
        if count == MOST_FIELDS || part.len() < FIELD || part[0] != SPACE {
            return None;
        }
        list[count] = field::hex(&part[1..FIELD])?;
        count += 1;
    }
    Some(Line { code, count, list })
}

// A line's numbers, where it is a code and fields.
pub(crate) fn read(s: &[u8]) -> Option<Line>
    ensures { result ≡ line_of s.now }
{
    if s.len() < 2 {
        return None;
    }
    read_fields(field::hex(&s[..2])?, &s[2..])
}

// Fields behind a line's code, each behind a space.
fn put_fields(out: &mut [u8], fields: &[u64])
    requires { (length fields.now ≤ most_fields) × (2 + 17 * length fields.now ≤ length out.old) }
    ensures { out.new ≡ over out.old 2 (fields_text fields.now) }
{
    let mut at = 2;
    for v in fields {
        out[at] = SPACE;
        field::put_hex(out, at + 1, 16, *v);
        at += FIELD;
    }
}

// The text of a code and fields, at the start of a buffer, and its length, where the buffer has room for it.
pub(crate) fn put_line(out: &mut [u8], code: u64, fields: &[u64]) -> Option<usize>
    requires { length fields.now ≤ most_fields }
    ensures { done result out.new ≡ wrote_of out.old (line_text code fields.now) }
{
    let size = 2 + FIELD * fields.len();
    if out.len() < size {
        return None;
    }
    field::put_hex(out, 0, 2, code);
    put_fields(out, fields);
    Some(size)
}
