// The fields of operation lines: what their numbers stand for where they are in range.
#![tactic(auto, using(types::proofs::Picks::cases), unfolding(types::specs::Pick::pick, types::specs::Pick::both, crate::specs::Fields::kind_of, crate::specs::Fields::absent_as_zero, crate::specs::Fields::limit_ranges, crate::specs::Fields::load_kind_of, crate::specs::Fields::store_kind_of))]

ghost use Rattle.std.specs.Prelude.{◌≡◌};
ghost use Rattle.lines.specs.Fields.{binary, yes, kind_of, reference_of, limit_ranges, limits_of, load_kind_of, store_kind_of};
ghost use Rattle.lines.specs.stages.Codes.{in_range, load_in, store_in, memory_ranges, wanted_memory, table_ranges, wanted_table};

use memory::access::{LoadKind, StoreKind};
use types::limits::Limits;
use types::memory_ty::WantedMemory;
use types::raw::{RawRef, RefType, TypedRawRef};
use types::table_ty::WantedTable;

// The load kinds by their numbers.
const LOAD_KINDS: [LoadKind; 14] = [
    LoadKind::I32,
    LoadKind::I64,
    LoadKind::F32,
    LoadKind::F64,
    LoadKind::I32From8S,
    LoadKind::I32From8U,
    LoadKind::I32From16S,
    LoadKind::I32From16U,
    LoadKind::I64From8S,
    LoadKind::I64From8U,
    LoadKind::I64From16S,
    LoadKind::I64From16U,
    LoadKind::I64From32S,
    LoadKind::I64From32U,
];

// The store kinds by their numbers.
const STORE_KINDS: [StoreKind; 9] = [
    StoreKind::I32,
    StoreKind::I64,
    StoreKind::F32,
    StoreKind::F64,
    StoreKind::I32To8,
    StoreKind::I32To16,
    StoreKind::I64To8,
    StoreKind::I64To16,
    StoreKind::I64To32,
];

// A yes/no field.
pub(crate) fn yes(n: u64) -> Option<bool>
    ensures { result ≡ in_range (binary n) (yes n) }
{
    (n < 2).then_some(n == 1)
}

// An element kind.
pub(crate) fn kind(n: u64) -> Option<RefType>
    ensures { result ≡ in_range (binary n) (kind_of n) }
{
    match n {
        0 => Some(RefType::Func),
        1 => Some(RefType::Extern),
        _ => None,
    }
}

// A reference's kind and bits.
pub(crate) fn reference(kind_number: u64, bits: u64) -> Option<TypedRawRef>
    ensures { result ≡ in_range (binary kind_number) (reference_of kind_number bits) }
{
    Some(TypedRawRef {
        raw: RawRef { bits },
        ty: kind(kind_number)?,
    })
}

// Limits, whose absent maximum is written 0.
fn limits(bounded: u64, minimum: u64, maximum: u64) -> Option<Limits>
    ensures { result ≡ in_range (limit_ranges bounded maximum) (limits_of bounded minimum maximum) }
{
    let bounded = yes(bounded)?;
    if !bounded && maximum != 0 {
        return None;
    }
    Some(Limits {
        minimum,
        bounded,
        maximum,
    })
}

// A memory's type.
pub(crate) fn memory_type(
    wide: u64,
    bounded: u64,
    minimum: u64,
    maximum: u64,
    exponent: u64,
) -> Option<WantedMemory>
    ensures { result ≡ in_range (memory_ranges wide bounded maximum exponent) (wanted_memory wide bounded minimum maximum exponent) }
{
    Some(WantedMemory {
        wide: yes(wide)?,
        limits: limits(bounded, minimum, maximum)?,
        exponent: u8::try_from(exponent).ok()?,
    })
}

// A table's type.
pub(crate) fn table_type(
    kind_number: u64,
    wide: u64,
    bounded: u64,
    minimum: u64,
    maximum: u64,
) -> Option<WantedTable>
    ensures { result ≡ in_range (table_ranges kind_number wide bounded maximum) (wanted_table kind_number wide bounded minimum maximum) }
{
    Some(WantedTable {
        element: kind(kind_number)?,
        wide: yes(wide)?,
        limits: limits(bounded, minimum, maximum)?,
    })
}

// A load's kind and a store's: two arrays, each with its own test; one function over both would take the array and its length.
pub(crate) fn load_kind(n: u64) -> Option<LoadKind>
    ensures { result ≡ in_range (load_in n) (load_kind_of n) }
{
    if 13 < n {
        return None;
    }
    Some(LOAD_KINDS[n as usize])
}

pub(crate) fn store_kind(n: u64) -> Option<StoreKind>
    ensures { result ≡ in_range (store_in n) (store_kind_of n) }
{
    if 8 < n {
        return None;
    }
    Some(STORE_KINDS[n as usize])
}
