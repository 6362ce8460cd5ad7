// The places of a lent list: the first 8 are read, and one of them is stored to.
ghost use Rattle.std.specs.Prelude.{◌≡◌, ◌<◌, ◌≤◌, ltb, length, take, set, MatchOption};
ghost use Rattle.types.specs.Pick.{pick};
ghost use Rattle.machine.specs.Machine.{capacity};

use machine::records::CAPACITY;

// The records of the first 8 places, if there are so many.
pub(crate) fn first_eight<T: Copy>(list: &[T]) -> Option<[T; CAPACITY]>
    ensures { MatchOption result (length list.now < capacity) (λ first. (capacity ≤ length list.now) × (first ≡ take capacity list.now)) }
{
    list.first_chunk().copied()
}

// A record for one of the first 8 places; past the eighth there is none.
#[tactic(auto, using(types::proofs::Picks::cases))]
pub(crate) fn put<T: Copy>(list: &mut [T], i: usize, item: T)
    requires { capacity ≤ length list.old }
    ensures { list.new ≡ pick (ltb i capacity) (set list.old i item) list.old }
{
    if i < CAPACITY {
        list[i] = item;
    }
}
