// Memory types: validity, sizes in bytes, subtyping, the dynamic type.
#![tactic(auto, using(crate::proofs::Picks::cases, crate::proofs::Sizes::sizes, crate::proofs::Built::built, crate::proofs::Halves::halved), unfolding(crate::specs::Wide::halves, crate::specs::MemoryType::page_bound, crate::specs::MemoryType::valid_memory, crate::specs::MemoryType::validated, crate::specs::MemoryType::byte_size, crate::specs::MemoryType::minimum_bytes, crate::specs::MemoryType::maximum_bytes, crate::specs::MemoryType::match_memory, crate::specs::MemoryType::dynamic_memory))]

ghost use Rattle.std.specs.Prelude.{◌≡◌, ◌*◌};
ghost use Rattle.types.specs.MemoryType.{log2_of, page_bytes, page_bound, memory_type, valid_memory, build_memory, validated, byte_size, minimum_bytes, maximum_bytes, match_memory, dynamic_memory, same_page};
ghost use Rattle.types.specs.Wide.{halves};

use super::answer::{Reason, Refusal};
use super::index_ty::IndexType;
use super::limits::Limits;
use super::wide::Wide;

// Pages of one byte, or of 64 KiB.
#[derive(Clone, Copy, PartialEq, Eq)]
pub enum PageSize {
    One,
    Wasm,
}

#[derive(Clone, Copy)]
pub struct MemoryType {
    pub index: IndexType,
    pub page: PageSize,
    pub limits: Limits,
}

// A memory type that is asked for, before it is built.
#[derive(Clone, Copy)]
pub struct WantedMemory {
    // A yes/no field, as a line has it; `IndexType::of` reads it where the type is built.
    pub wide: bool,
    pub limits: Limits,
    pub exponent: u8,
}

impl PageSize {
    pub fn page_size_log2(self) -> u8
        ensures { result ≡ log2_of self }
    {
        match self {
            PageSize::One => 0,
            PageSize::Wasm => 16,
        }
    }

    pub fn page_size(self) -> u64
        ensures { result ≡ page_bytes self }
    {
        1 << self.page_size_log2()
    }

    pub fn same(self, other: PageSize) -> bool
        ensures { result ≡ same_page self other }
    {
        self == other
    }

    // The bytes of a number of pages.
    pub fn byte_size(self, pages: u64) -> Option<u64>
        ensures { result ≡ byte_size (pages * page_bytes self) }
    {
        pages.checked_mul(self.page_size())
    }
}

impl MemoryType {
    // The type of these fields, or refusal 1.
    pub fn build(is_64: bool, limits: Limits, exponent: u8) -> Result<MemoryType, Refusal>
        ensures { result ≡ build_memory is_64 limits exponent }
    {
        let page = match exponent {
            0 => PageSize::One,
            16 => PageSize::Wasm,
            _ => return Err(Refusal::from(Reason::TypeInvalid)),
        };
        let ty = MemoryType {
            index: IndexType::of(is_64),
            page,
            limits,
        };
        ty.validated()
    }

    // This type where it is valid, or refusal 1. A trait over memory and table types would be longer than these two bodies.
    pub fn validated(self) -> Result<MemoryType, Refusal>
        ensures { result ≡ validated self }
    {
        if !self.is_valid() {
            return Err(Refusal::from(Reason::TypeInvalid));
        }
        Ok(self)
    }

    pub fn is_valid(self) -> bool
        ensures { result ≡ valid_memory self }
    {
        self.limits.valid_within(self.absolute_max())
    }

    // The page bound: 2^32 or 2^64 bytes, in pages of 2^0 or 2^16.
    pub fn absolute_max(self) -> Wide
        ensures { result ≡ halves (page_bound self) }
    {
        match (self.index, self.page) {
            (IndexType::I32, PageSize::One) => Wide {
                high: 0,
                low: 1 << 32,
            },
            (IndexType::I32, PageSize::Wasm) => Wide {
                high: 0,
                low: 1 << 16,
            },
            // 2^64 is 2^0 in the high half.
            (IndexType::I64, PageSize::One) => Wide {
                high: 1 << 0,
                low: 0,
            },
            (IndexType::I64, PageSize::Wasm) => Wide {
                high: 0,
                low: 1 << 48,
            },
        }
    }

    pub fn minimum_byte_size(self) -> Option<u64>
        ensures { result ≡ minimum_bytes self }
    {
        self.page.byte_size(self.limits.minimum)
    }

    // The bytes of the maximum, or of the page bound where there is none.
    pub fn maximum_byte_size(self) -> Option<u64>
        ensures { result ≡ maximum_bytes self }
    {
        if self.limits.bounded {
            return self.page.byte_size(self.limits.maximum);
        }
        match self.index {
            IndexType::I32 => Some(1 << 32),
            IndexType::I64 => None,
        }
    }

    pub fn is_subtype_of(self, other: MemoryType) -> bool
        ensures { result ≡ match_memory self other }
    {
        self.index == other.index && self.page == other.page && self.limits.matches(other.limits)
    }

    // The type of a memory of this type that has `pages` pages now.
    pub fn dynamic_ty(self, pages: u64) -> MemoryType
        ensures { result ≡ dynamic_memory self pages }
    {
        MemoryType {
            limits: self.limits.from(pages),
            ..self
        }
    }
}
