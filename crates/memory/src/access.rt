// Little-endian loads and stores: one routine over a byte count each, and the typed ones above them.
#![tactic(auto, using(types::proofs::Picks::cases, types::proofs::Dones::done_as, crate::proofs::Bytes::first_bytes, crate::proofs::Bytes::length_bytes, crate::proofs::Copies::put_list, crate::proofs::Copies::part_cut), unfolding(crate::specs::Access::load_at, crate::specs::Access::load_found, crate::specs::Access::loaded_of, crate::specs::Access::store_at, crate::specs::Access::store_found))]

ghost use Rattle.std.specs.Prelude.{◌≡◌, ◌+◌, ◌*◌, ◌^◌, ◌≤◌, ◌<◌, length};
ghost use Rattle.types.specs.Done.{done};
ghost use Rattle.types.specs.Span.{over};
ghost use Rattle.memory.specs.LittleEndian.{le_bytes};
ghost use Rattle.memory.specs.stages.Facts.{Read, Reach};
ghost use Rattle.memory.specs.Access.{address_of, width_bytes, load_width, extend, load_at, load, store_width, store_at, store};

use types::answer::{Answer, Reason, Refusal, Value};

// How many bytes an access has.
#[derive(Clone, Copy)]
pub enum Width {
    W8,
    W16,
    W32,
    W64,
}

#[derive(Clone, Copy)]
pub enum LoadKind {
    I32,
    I64,
    F32,
    F64,
    I32From8S,
    I32From8U,
    I32From16S,
    I32From16U,
    I64From8S,
    I64From8U,
    I64From16S,
    I64From16U,
    I64From32S,
    I64From32U,
}

#[derive(Clone, Copy)]
pub enum StoreKind {
    I32,
    I64,
    F32,
    F64,
    I32To8,
    I32To16,
    I64To8,
    I64To16,
    I64To32,
}

impl Width {
    pub fn bytes(self) -> u64
        ensures { result ≡ width_bytes self }
    {
        match self {
            Width::W8 => 1,
            Width::W16 => 2,
            Width::W32 => 4,
            Width::W64 => 8,
        }
    }
}

impl LoadKind {
    pub fn width(self) -> Width
        ensures { result ≡ load_width self }
    {
        match self {
            LoadKind::I32 => Width::W32,
            LoadKind::I64 => Width::W64,
            LoadKind::F32 => Width::W32,
            LoadKind::F64 => Width::W64,
            LoadKind::I32From8S => Width::W8,
            LoadKind::I32From8U => Width::W8,
            LoadKind::I32From16S => Width::W16,
            LoadKind::I32From16U => Width::W16,
            LoadKind::I64From8S => Width::W8,
            LoadKind::I64From8U => Width::W8,
            LoadKind::I64From16S => Width::W16,
            LoadKind::I64From16U => Width::W16,
            LoadKind::I64From32S => Width::W32,
            LoadKind::I64From32U => Width::W32,
        }
    }
}

impl StoreKind {
    pub fn width(self) -> Width
        ensures { result ≡ store_width self }
    {
        match self {
            StoreKind::I32 => Width::W32,
            StoreKind::I64 => Width::W64,
            StoreKind::F32 => Width::W32,
            StoreKind::F64 => Width::W64,
            StoreKind::I32To8 => Width::W8,
            StoreKind::I32To16 => Width::W16,
            StoreKind::I64To8 => Width::W8,
            StoreKind::I64To16 => Width::W16,
            StoreKind::I64To32 => Width::W32,
        }
    }
}

// The address of an access of `n` bytes within `size` bytes: the sum fits, and so do the bytes behind it.
#[tactic(auto, using(crate::proofs::Accesses::address_over, crate::proofs::Accesses::address_at, crate::proofs::Accesses::address_past, types::proofs::Picks::known_test))]
pub fn locate(size: u64, ptr: u64, offset: u64, n: u64) -> Option<u64>
    ensures { result ≡ address_of size ptr offset n }
{
    let at = ptr.checked_add(offset)?;
    if types::span::within(at, n, size) {
        return Some(at);
    }
    None
}

// The number of `n` bytes.
fn load_n(bytes: &[u8], at: usize, n: usize) -> u64
    requires { Reach at n (length bytes.now) }
    ensures { Read bytes.now at n result }
{
    let mut row = [0u8; 8];
    row[..n].copy_from_slice(&bytes[at..at + n]);
    u64::from_le_bytes(row)
}

// The number of the bytes of a width: a literal count is one load in the machine code.
fn load_width(bytes: &[u8], at: usize, width: Width) -> u64
    requires { at + width_bytes width ≤ length bytes.now }
    ensures { Read bytes.now at (width_bytes width) result }
{
    match width {
        Width::W8 => load_n(bytes, at, 1),
        Width::W16 => load_n(bytes, at, 2),
        Width::W32 => load_n(bytes, at, 4),
        Width::W64 => load_n(bytes, at, 8),
    }
}

// The value of the bits that a load read.
#[tactic(auto, using(std::proofs::lemmas::Int::ints), unfolding(crate::specs::Access::extend))]
fn value(kind: LoadKind, bits: u64) -> Value
    requires { bits < 2 ^ (8 * width_bytes (load_width kind)) }
    ensures { result ≡ extend kind bits }
{
    match kind {
        LoadKind::I32 => Value::I32((bits as u32).cast_signed()),
        LoadKind::I64 => Value::I64(bits.cast_signed()),
        LoadKind::F32 => Value::from_f32_bits(bits as u32),
        LoadKind::F64 => Value::from_f64_bits(bits),
        LoadKind::I32From8S => Value::I32(i32::from((bits as u8).cast_signed())),
        LoadKind::I32From8U => Value::I32(bits as i32),
        LoadKind::I32From16S => Value::I32(i32::from((bits as u16).cast_signed())),
        LoadKind::I32From16U => Value::I32(bits as i32),
        LoadKind::I64From8S => Value::I64(i64::from((bits as u8).cast_signed())),
        LoadKind::I64From8U => Value::I64(bits as i64),
        LoadKind::I64From16S => Value::I64(i64::from((bits as u16).cast_signed())),
        LoadKind::I64From16U => Value::I64(bits as i64),
        LoadKind::I64From32S => Value::I64(i64::from((bits as u32).cast_signed())),
        LoadKind::I64From32U => Value::I64(bits as i64),
    }
}

// A load from the `size` bytes from `base` on.
// The definition `load_at`, which `load` and `load_memory` cite, names each parameter by itself.
pub(crate) fn load_at(
    bytes: &[u8],
    base: usize,
    size: u64,
    kind: LoadKind,
    ptr: u64,
    offset: u64,
) -> Answer
    requires { base + size ≤ length bytes.now }
    ensures { result ≡ load_at kind bytes.now base size ptr offset }
{
    let width = kind.width();
    let Some(at) = locate(size, ptr, offset, width.bytes()) else {
        return Err(Refusal::from(Reason::AccessOutside));
    };
    let bits = load_width(bytes, base + (at as usize), width);
    Ok(value(kind, bits))
}

// A load from a memory that has all the bytes.
pub fn load(bytes: &[u8], kind: LoadKind, ptr: u64, offset: u64) -> Answer
    ensures { result ≡ load kind bytes.now ptr offset }
{
    load_at(bytes, 0, bytes.len() as u64, kind, ptr, offset)
}

// The low `n` bytes of a number, at most 8, go to a place.
fn store_n(bytes: &mut [u8], at: usize, n: usize, bits: u64)
    requires { Reach at n (length bytes.old) }
    ensures { bytes.new ≡ over bytes.old at (le_bytes n bits) }
{
    bytes[at..at + n].copy_from_slice(&bits.to_le_bytes()[..n]);
}

// The low bytes of a number go to the part of a width: a literal count is one store in the machine code.
fn store_width(bytes: &mut [u8], at: usize, width: Width, bits: u64)
    requires { at + width_bytes width ≤ length bytes.old }
    ensures { bytes.new ≡ over bytes.old at (le_bytes (width_bytes width) bits) }
{
    match width {
        Width::W8 => store_n(bytes, at, 1, bits),
        Width::W16 => store_n(bytes, at, 2, bits),
        Width::W32 => store_n(bytes, at, 4, bits),
        Width::W64 => store_n(bytes, at, 8, bits),
    }
}

// A store to the `size` bytes from `base` on.
// The definition `store_at`, which `store` and `store_memory` cite, names each parameter by itself.
pub(crate) fn store_at(
    bytes: &mut [u8],
    base: usize,
    size: u64,
    kind: StoreKind,
    ptr: u64,
    offset: u64,
    bits: u64,
) -> Answer
    requires { base + size ≤ length bytes.old }
    ensures { done result bytes.new ≡ store_at kind bytes.old base size ptr offset bits }
{
    let width = kind.width();
    let Some(at) = locate(size, ptr, offset, width.bytes()) else {
        return Err(Refusal::from(Reason::AccessOutside));
    };
    store_width(bytes, base + (at as usize), width, bits);
    Ok(Value::Number(0))
}

// A store to a memory that has all the bytes.
pub fn store(bytes: &mut [u8], kind: StoreKind, ptr: u64, offset: u64, bits: u64) -> Answer
    ensures { done result bytes.new ≡ store kind bytes.old ptr offset bits }
{
    let size = bytes.len() as u64;
    store_at(bytes, 0, size, kind, ptr, offset, bits)
}
