// What a host does with its input between two pieces, and at the end.
#![tactic(auto, using(types::proofs::Picks::cases), unfolding(crate::specs::Input::kept_of, crate::specs::Input::unended, crate::specs::Input::ended_of))]

ghost use Rattle.std.specs.Prelude.{◌≡◌};
ghost use Rattle.types.specs.Done.{done};
ghost use Rattle.lines.specs.Input.{kept_of, unended, ended_of};

use super::line;
use super::session::Session;

// What is left of the first `end` bytes, from `from` on, comes to the start; answers how many bytes that are.
pub fn keep(input: &mut [u8], from: usize, end: usize) -> usize
    ensures { done result input.new ≡ kept_of input.old from end }
{
    let end = end.min(input.len());
    let from = from.min(end);
    input.copy_within(from..end, 0);
    end - from
}

// Whether a last line lacks its LF: bytes are kept, or a line is being passed over.
fn lacks_lf(session: Session, kept: usize) -> bool
    ensures { result ≡ unended session.skip kept }
{
    session.skip || kept != 0
}

// A last line that lacks its LF gets it behind the bytes kept; answers how many bytes there are then, and nothing where no line lacks it, or where the input is full,
// which one of more than 160 bytes never is, since a piece that is as long uses something.
pub fn end_line(session: Session, input: &mut [u8], kept: usize) -> Option<usize>
    ensures { done result input.new ≡ ended_of session.skip input.old kept }
{
    if !lacks_lf(session, kept) || input.len() <= kept {
        return None;
    }
    input[kept] = line::LF;
    Some(kept + 1)
}
