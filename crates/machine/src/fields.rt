// What an operation can still say wrongly where every field has its type: a script's digits, items past the count, wide numbers.
#![tactic(auto, using(crate::proofs::Digits::digits_end, crate::proofs::Digits::leading_bad, crate::proofs::Digits::leading_more, crate::proofs::Digits::leading_end, types::proofs::Picks::cases), unfolding(crate::specs::Operation::narrow_store, crate::specs::Operation::store_fields, crate::specs::Operation::most_of, crate::specs::Operation::script_fields, crate::specs::Operation::item_field, crate::specs::Operation::item_fields, crate::specs::Operation::init_fields))]

ghost use Rattle.std.specs.Prelude.{◌≡◌, ◌-◌, take};
ghost use Rattle.types.specs.Limiter.{hand_over};
ghost use Rattle.machine.specs.Operation.{narrow_store, store_fields, digits_of, most_of, leading, script_fields, item_field, item_fields, init_fields, script_of};

use super::operation::{Items, Script};
use memory::access::StoreKind;
use types::limiter::{HandedOver, LONGEST_SCRIPT, Limiter};
use types::span::CopySpan;
use types::wide::WORD32;

// Store kinds whose value has 32 bits.
// A set of four kinds, and no equality that a derive could give.
fn narrow_store(kind: StoreKind) -> bool
    ensures { result ≡ narrow_store kind }
{
    matches!(
        kind,
        StoreKind::I32 | StoreKind::F32 | StoreKind::I32To8 | StoreKind::I32To16
    )
}

pub(crate) fn store_fields(kind: StoreKind, bits: u64) -> bool
    ensures { result ≡ store_fields kind bits }
{
    !narrow_store(kind) || bits < WORD32
}

// The 16 hexadecimal digits of a field, the highest first.
fn digits_of(field: u64) -> [u8; LONGEST_SCRIPT]
    ensures { result ≡ digits_of 16 field }
{
    let mut row = [0u8; LONGEST_SCRIPT];
    let mut rest = field;
    // By index: a proof knows a row written by `iter_mut` by its length alone.
    for i in 0..LONGEST_SCRIPT {
        row[LONGEST_SCRIPT - 1 - i] = (rest % 16) as u8;
        rest /= 16;
    }
    row
}

// A script's answers, its leading digits, are handed over.
pub fn hand_script(limiter: Limiter, script: Script) -> HandedOver
    ensures { result ≡ hand_over limiter (script_of script) }
{
    let row = digits_of(script.digits);
    let count = row.len().min(script.count as usize);
    limiter.hand_over(&row[..count])
}

// The largest digit there may be with so many answers left.
fn most(left: u64) -> u8
    ensures { result ≡ most_of left }
{
    if left == 0 { 0 } else { 2 }
}

// The first digits are answers, the rest 0.
fn leading(count: u64, digits: &[u8]) -> bool
    ensures { result ≡ leading count digits.now }
{
    let mut left = count;
    for digit in digits {
        if most(left) < *digit {
            return false;
        }
        left = left.saturating_sub(1);
    }
    true
}

pub(crate) fn script_fields(script: Script) -> bool
    ensures { result ≡ script_fields script }
{
    script.count <= 16 && leading(script.count, &digits_of(script.digits))
}

// An item past the count is 0.
fn item_field(count: u64, place: u64, item: u64) -> bool
    ensures { result ≡ item_field count place item }
{
    place < count || item == 0
}

pub(crate) fn item_fields(items: Items) -> bool
    ensures { result ≡ item_fields items }
{
    items.count <= 4
        && item_field(items.count, 0, items.first)
        && item_field(items.count, 1, items.second)
        && item_field(items.count, 2, items.third)
        && item_field(items.count, 3, items.fourth)
}

pub(crate) fn init_fields(span: CopySpan) -> bool
    ensures { result ≡ init_fields span }
{
    span.from < WORD32 && span.len < WORD32
}
