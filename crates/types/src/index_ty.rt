// The index type of memories and tables.
#![tactic(auto, using(crate::proofs::Picks::cases), unfolding(crate::specs::Wide::halves))]

ghost use Rattle.std.specs.Prelude.{◌≡◌};
ghost use Rattle.types.specs.IndexType.{is64, index_of, same_index, smaller, max_size};
ghost use Rattle.types.specs.Wide.{halves};

use super::wide::{WORD32, Wide};

// The smaller one stands first.
#[derive(Clone, Copy, PartialEq, Eq, PartialOrd, Ord)]
pub enum IndexType {
    I32,
    I64,
}

impl IndexType {
    // The index type of a type that is 64-bit or not: `from` a bool would not say which.
    pub fn of(is_64: bool) -> IndexType
        ensures { result ≡ index_of is_64 }
    {
        if is_64 {
            IndexType::I64
        } else {
            IndexType::I32
        }
    }

    pub fn is_64(self) -> bool
        ensures { result ≡ is64 self }
    {
        matches!(self, IndexType::I64)
    }

    pub fn same(self, other: IndexType) -> bool
        ensures { result ≡ same_index self other }
    {
        self == other
    }

    // The smaller of two index types: a name of its own, for its law (`index_type_min_one`).
    pub fn min(self, other: IndexType) -> IndexType
        ensures { result ≡ smaller self other }
    {
        Ord::min(self, other)
    }

    // The largest size, 2^32 or 2^64.
    pub fn max_size(self) -> Wide
        ensures { result ≡ halves (max_size self) }
    {
        match self {
            IndexType::I32 => Wide {
                high: 0,
                low: WORD32,
            },
            IndexType::I64 => Wide { high: 1, low: 0 },
        }
    }
}
