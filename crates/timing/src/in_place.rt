// One operation line again and again on a machine in place, in a row that is lent.
#![tactic(auto, using(types::proofs::Prelude::pick_true, types::proofs::Prelude::pick_false, crate::proofs::InPlaceLaws::round), unfolding(crate::specs::InPlace::again, crate::specs::InPlace::timed_in))]

ghost use Rattle.std.specs.Prelude.{◌≡◌};
ghost use Rattle.lines.specs.Code.{read_line};
ghost use Rattle.timing.specs.InPlace.{rowing, again, timed_in, Rounded};

use lines::code::{Read, read_line};
use machine::operation::Operation;
use machine::row;

// One operation: with every test, or without those of the row's form and soundness.
fn once(
    words: &mut [u64],
    bytes: &mut [u8],
    cells: &mut [u64],
    items: &mut [u64],
    tested: bool,
    op: Operation,
)
    ensures { rowing words.new bytes.new cells.new items.new
        ≡ again tested 1 (rowing words.old bytes.old cells.old items.old) op }
{
    // C says which by a flag; a closure's contract over four lent slices would be longer than the two calls.
    if tested {
        let _ = row::operate(words, bytes, cells, items, op);
    } else {
        let _ = row::proceed(words, bytes, cells, items, op);
    }
}

// So many rounds of what a line says; what is no operation does nothing. The parameters are the export's.
fn repeat(
    words: &mut [u64],
    bytes: &mut [u8],
    cells: &mut [u64],
    items: &mut [u64],
    tested: bool,
    said: Option<Read>,
    rounds: u64,
)
    ensures { rowing words.new bytes.new cells.new items.new
        ≡ timed_in tested rounds (rowing words.old bytes.old cells.old items.old) said }
{
    if let Some(Read::Operation(op)) = said {
        for _ in 0..rounds {
            once(words, bytes, cells, items, tested, op);
        }
    }
}

// So many rounds of the line's operation on the machine of a row. The result is the fuel left.
#[unsafe(no_mangle)]
pub extern "C" fn rounds_in_place(
    words: &mut [u64],
    bytes: &mut [u8],
    cells: &mut [u64],
    items: &mut [u64],
    tested: bool,
    line: &[u8],
    rounds: u64,
) -> u64
    ensures { Rounded (timed_in tested rounds (rowing words.old bytes.old cells.old items.old) (read_line line.now))
        result words.new bytes.new cells.new items.new }
{
    repeat(words, bytes, cells, items, tested, read_line(line), rounds);
    row::fuel_of(words).remaining
}
