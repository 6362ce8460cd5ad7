// Growth of one record of a lent list, of whatever kind: the record is read, grown, and stored where it stands.
#![tactic(auto, using(types::proofs::Picks::cases), unfolding(crate::specs::Growth::grow_at))]

ghost use Rattle.std.specs.Prelude.{◌≡◌, ◌<◌, ℕ, Bool, true, List, ltb, length, get_or, set};
ghost use Rattle.types.specs.declared.fuel.Fuel.{Fuel};
ghost use Rattle.types.specs.declared.limiter.Limiter.{Limiter};
ghost use Rattle.lent.specs.Growth.{lending, grew, grow_at};
ghost use Rattle.lent.specs.stages.Growth.{Regrown, regrown, put_back};

use types::answer::{Answer, Reason, Refusal};
use types::fuel::Fuel;
use types::limiter::Limiter;

// A record that grows in a lent list, over the cells of a buffer.
pub(crate) trait Grows: Copy {
    type Cell;
    // How much it grows by, and with what.
    type By: Copy;

    // What stands where no record does.
    ghost none: { Self };

    // The first n records of a list are sound over so many cells, and their rooms follow each other.
    ghost sound: { ℕ → List Self → ℕ → Bool };

    // The growth of a record: its answer, and record, cells, fuel and limiter after it.
    ghost grown: { Self → List Self.Cell → Self.By → Fuel → Limiter → Regrown Self Self.Cell };

    fn is_sound(count: usize, list: &[Self], cells: usize) -> bool
        ensures { result ≡ sound count list.now cells };

    fn regrow(
        &mut self,
        cells: &mut [Self::Cell],
        by: Self::By,
        fuel: &mut Fuel,
        limiter: &mut Limiter,
    ) -> Answer
        ensures { regrown result self.new cells.new fuel.new limiter.new ≡ grown self.old cells.old by fuel.old limiter.old };

    // A sound list has a place for each record in use.
    ghost placed: { (n i cells : ℕ) (list : List Self) → sound n list cells ≡ true → ltb i n ≡ true → i < length list };
}

// Growth of record `i`, of `count` in use: 19 where the list is unsound, 16 where there is no such record.
// Its parameters are those of the public `grow` of a memory and of a table, whose contracts name each by itself.
pub(crate) fn grow<T: Grows>(
    list: &mut [T],
    count: usize,
    i: usize,
    cells: &mut [T::Cell],
    by: T::By,
    fuel: &mut Fuel,
    limiter: &mut Limiter,
) -> Answer
    ensures { grew result (lending list.new cells.new fuel.new limiter.new)
        ≡ grow_at (T.sound count list.old (length cells.old)) (ltb i count) (lending list.old cells.old fuel.old limiter.old)
        (put_back list.old i (T.grown (get_or list.old i T.none) cells.old by fuel.old limiter.old)) }
{
    if !T::is_sound(count, list, cells.len()) {
        return Err(Refusal::from(Reason::Unsound));
    }
    if count <= i {
        return Err(Refusal::from(Reason::NumberUnknown));
    }
    list[i].regrow(cells, by, fuel, limiter)
}
