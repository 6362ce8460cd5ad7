// Exports for the benches only: each builds the records of one operation from numbers, which are C's parameters, and leaves what a host would keep.
#![tactic(auto, unfolding(crate::specs::Timing::page_of, crate::specs::Timing::memory_of, crate::specs::Timing::fuel_of, crate::specs::Timing::table_of, crate::specs::Timing::ref_of, crate::specs::Timing::segment_of, crate::specs::Timing::step_number, crate::specs::Timing::step_left))]

pub mod in_place;
pub mod text;

ghost use Rattle.std.specs.Prelude.{◌≡◌, length};
ghost use Rattle.types.specs.Fuel.{consume};
ghost use Rattle.types.specs.Limiter.{no_limiter};
ghost use Rattle.types.specs.Raw.{raw_bytes};
ghost use Rattle.memory.specs.Grow.{grow_memory};
ghost use Rattle.memory.specs.Host.{read_memory, write_memory};
ghost use Rattle.table.specs.Table.{get_table, set_table};
ghost use Rattle.table.specs.Fill.{fill_table};
ghost use Rattle.table.specs.Copy.{copy_table};
ghost use Rattle.table.specs.Init.{init_table};
ghost use Rattle.types.specs.Answer.{number_of};
ghost use Rattle.timing.specs.Timing.{memory_of, fuel_of, table_of, ref_of, segment_of, fill_span, copy_span, Grew, Took, Charged, Got, Wrote, Spans};

use memory::memory::Memory;
use table::element::ElementSegment;
use table::table::Table;
use types::answer::{number, shown};
use types::fuel::{Fuel, FuelCosts};
use types::grant::Spanned;
use types::index_ty::IndexType;
use types::limiter::Limiter;
use types::limits::Limits;
use types::memory_ty::{MemoryType, PageSize};
use types::raw::{RawRef, RefType, TypedRawRef};
use types::span::{CopySpan, FillSpan};
use types::table_ty::TableType;

const NO_LIMITS: Limits = Limits {
    minimum: 0,
    bounded: false,
    maximum: 0,
};

// A memory at the start of its buffer, with no maximum. The two flags come from C.
fn memory_of(wide: bool, wasm: bool, room: u64, size: u64) -> Memory
    ensures { result ≡ memory_of wide wasm room size }
{
    let page = if wasm { PageSize::Wasm } else { PageSize::One };
    Memory {
        ty: MemoryType {
            index: IndexType::of(wide),
            page,
            limits: NO_LIMITS,
        },
        start: 0,
        room,
        size,
    }
}

fn fuel_of(metered: bool, remaining: u64, per_unit: u32) -> Fuel
    ensures { result ≡ fuel_of metered remaining per_unit }
{
    Fuel {
        remaining,
        enabled: metered,
        costs: FuelCosts {
            copied: per_unit,
            ..FuelCosts::default_costs()
        },
    }
}

// A table of function references whose room is its size, with no maximum.
fn table_of(wide: bool, start: usize, size: u64) -> Table
    ensures { result ≡ table_of wide start size }
{
    Table {
        ty: TableType {
            element: RefType::Func,
            index: IndexType::of(wide),
            limits: NO_LIMITS,
        },
        start,
        room: size,
        size,
    }
}

fn ref_of(bits: u64) -> TypedRawRef
    ensures { result ≡ ref_of bits }
{
    TypedRawRef {
        raw: RawRef { bits },
        ty: RefType::Func,
    }
}

// A segment of the first items.
fn segment_of(size: u64) -> ElementSegment
    ensures { result ≡ segment_of size }
{
    ElementSegment {
        ty: RefType::Func,
        start: 0,
        places: size,
        size,
    }
}

// A growth by pages. The size and the fuel left stand where the host keeps them.
#[unsafe(no_mangle)]
pub extern "C" fn timing_grow(
    bytes: &mut [u8],
    wide: bool,
    wasm: bool,
    size: &mut u64,
    additional: u64,
    metered: bool,
    left: &mut u64,
    per_unit: u32,
) -> u8
    ensures { Grew (grow_memory (memory_of wide wasm (length bytes.old) size.old) bytes.old additional (fuel_of metered left.old per_unit) no_limiter) result bytes.new size.new left.new }
{
    let memory = memory_of(wide, wasm, bytes.len() as u64, *size);
    let fuel = fuel_of(metered, *left, per_unit);
    let grown = memory.grow(bytes, additional, fuel, Limiter::none());
    *size = grown.memory.size;
    *left = grown.fuel.remaining;
    number(grown.answer)
}

// A host read of as many bytes as the caller's buffer has.
#[unsafe(no_mangle)]
pub extern "C" fn timing_read(
    bytes: &[u8],
    wide: bool,
    wasm: bool,
    size: u64,
    offset: u64,
    to: &mut [u8],
) -> u8
    ensures { Took (read_memory (memory_of wide wasm (length bytes.now) size) bytes.now offset to.old) result to.new }
{
    let memory = memory_of(wide, wasm, bytes.len() as u64, size);
    number(memory.read(bytes, offset, to))
}

// A host write of the caller's buffer.
#[unsafe(no_mangle)]
pub extern "C" fn timing_write(
    bytes: &mut [u8],
    wide: bool,
    wasm: bool,
    size: u64,
    offset: u64,
    from: &[u8],
) -> u8
    ensures { Took (write_memory (memory_of wide wasm (length bytes.old) size) bytes.old offset from.now) result bytes.new }
{
    let memory = memory_of(wide, wasm, bytes.len() as u64, size);
    number(memory.write(bytes, offset, from))
}

// A charge. The fuel left stands where the host keeps it.
#[unsafe(no_mangle)]
pub extern "C" fn timing_charge(metered: bool, left: &mut u64, price: u64) -> u8
    ensures { Charged (consume (fuel_of metered left.old 64) price) left.old result left.new }
{
    match fuel_of(metered, *left, 64).consume_fuel(price) {
        Ok(fuel) => {
            *left = fuel.remaining;
            0
        }
        Err(refusal) => refusal.number,
    }
}

// One cell of a table, through an out parameter.
#[unsafe(no_mangle)]
pub extern "C" fn timing_get(
    cells: &[u64],
    wide: bool,
    size: u64,
    index: u64,
    value: &mut u64,
) -> u8
    ensures { Got (get_table (table_of wide 0 size) cells.now index) result value.new }
{
    let answer = table_of(wide, 0, size).get(cells, index);
    *value = shown(answer);
    number(answer)
}

// One cell of a table is set.
#[unsafe(no_mangle)]
pub extern "C" fn timing_set(cells: &mut [u64], wide: bool, size: u64, index: u64, bits: u64) -> u8
    ensures { Wrote (set_table (table_of wide 0 size) cells.old index (ref_of bits)) result cells.new }
{
    number(table_of(wide, 0, size).set(cells, index, ref_of(bits)))
}

// The fuel that a span leaves goes where the host keeps it, and its number is answered.
fn settle(done: Spanned, left: &mut u64) -> u8
    ensures { (result ≡ number_of done.answer) × (left.new ≡ done.fuel.remaining) }
{
    *left = done.fuel.remaining;
    number(done.answer)
}

// A fill of the table that has all the buffer's first cells.
#[unsafe(no_mangle)]
pub extern "C" fn timing_fill(
    cells: &mut [u64],
    wide: bool,
    size: u64,
    to: u64,
    bits: u64,
    count: u64,
    metered: bool,
    left: &mut u64,
    per_unit: u32,
) -> u8
    ensures { Spans (fill_table raw_bytes (table_of wide 0 size) cells.old (fill_span to count) (ref_of bits) (fuel_of metered left.old per_unit)) result cells.new left.new }
{
    let fuel = fuel_of(metered, *left, per_unit);
    let span = FillSpan {
        start: to,
        len: count,
    };
    let done = table_of(wide, 0, size).fill(cells, span, ref_of(bits), fuel);
    settle(done, left)
}

// A copy to the table of the first `size` cells from that of as many from `start` on, which may be the same.
#[unsafe(no_mangle)]
pub extern "C" fn timing_copy(
    cells: &mut [u64],
    wide: bool,
    size: u64,
    to: u64,
    from: u64,
    count: u64,
    start: usize,
    metered: bool,
    left: &mut u64,
    per_unit: u32,
) -> u8
    ensures { Spans (copy_table raw_bytes (table_of wide 0 size) (table_of wide start size) cells.old (copy_span to from count) (fuel_of metered left.old per_unit)) result cells.new left.new }
{
    let source = table_of(wide, start, size);
    let fuel = fuel_of(metered, *left, per_unit);
    let span = CopySpan {
        to,
        from,
        len: count,
    };
    let done = table_of(wide, 0, size).copy(source, cells, span, fuel);
    settle(done, left)
}

// An init from a segment of the first `places` items.
#[unsafe(no_mangle)]
pub extern "C" fn timing_init(
    cells: &mut [u64],
    items: &[u64],
    places: u64,
    wide: bool,
    size: u64,
    to: u64,
    from: u64,
    count: u64,
    metered: bool,
    left: &mut u64,
    per_unit: u32,
) -> u8
    ensures { Spans (init_table raw_bytes (table_of wide 0 size) (segment_of places) cells.old items.now (copy_span to from count) (fuel_of metered left.old per_unit)) result cells.new left.new }
{
    let segment = segment_of(places);
    let fuel = fuel_of(metered, *left, per_unit);
    let span = CopySpan {
        to,
        from,
        len: count,
    };
    let done = table_of(wide, 0, size).init(segment, cells, items, span, fuel);
    settle(done, left)
}
