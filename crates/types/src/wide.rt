// Bounds that do not fit 64 bits, as two halves: document 01 wants no number of 128 bits here.
#![tactic(auto, using(crate::proofs::Picks::cases, crate::proofs::Halves::halved), unfolding(crate::specs::Wide::whole))]

ghost use Rattle.std.specs.Prelude.{◌≡◌, leb, ltb};
ghost use Rattle.types.specs.Wide.{whole};

// How many numbers of 32 bits there are.
pub const WORD32: u64 = 1 << 32;

#[derive(Clone, Copy, PartialEq, Eq)]
pub struct Wide {
    pub high: u64,
    pub low: u64,
}

impl Wide {
    // Whether `n` is at most this number.
    pub fn covers(self, n: u64) -> bool
        ensures { result ≡ leb n (whole self) }
    {
        0 < self.high || n <= self.low
    }

    // Whether `n` is below this number.
    pub fn exceeds(self, n: u64) -> bool
        ensures { result ≡ ltb n (whole self) }
    {
        0 < self.high || n < self.low
    }
}
