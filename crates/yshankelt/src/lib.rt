// What C calls: the typed loads and stores on a memory's bytes, and the price; `whole` has machines. The result is document 01's number.
#![tactic(auto, unfolding(types::specs::Answer::number_of, crate::specs::Face::delivered))]

pub mod whole;

ghost use Rattle.std.specs.Prelude.{◌≡◌, ◌*◌};
ghost use Rattle.types.specs.Price.{price};
ghost use Rattle.memory.specs.Access.{load, store};
ghost use Rattle.memory.specs.declared.access.LoadKind.{LoadKind};
ghost use Rattle.memory.specs.declared.access.StoreKind.{StoreKind};
ghost use Rattle.lines.specs.Session.{costs_of};
ghost use Rattle.yshankelt.specs.Face.{Given, Taken};

use memory::access;
use memory::access::{LoadKind, StoreKind};
use types::answer::Answer;
use types::fuel::FuelCosts;

// The value goes to `out`; a refusal leaves `out` alone.
fn deliver(answer: Answer, out: &mut u64) -> u8
    ensures { Given answer out.old result out.new }
{
    match answer {
        Ok(v) => {
            *out = v.bits();
            0
        }
        Err(refusal) => refusal.number,
    }
}

fn load_to(bytes: &[u8], kind: LoadKind, ptr: u64, offset: u64, out: &mut u64) -> u8
    ensures { Given (load kind bytes.now ptr offset) out.old result out.new }
{
    deliver(access::load(bytes, kind, ptr, offset), out)
}

fn store_from(bytes: &mut [u8], kind: StoreKind, ptr: u64, offset: u64, bits: u64) -> u8
    ensures { Taken (store kind bytes.old ptr offset bits) result bytes.new }
{
    types::answer::number(access::store(bytes, kind, ptr, offset, bits))
}

// An export for each kind and width, as the C interface has them (include/yshankelt.h); what they do is `load_to` and `store_from`.
#[unsafe(no_mangle)]
pub extern "C" fn ysh_load_i32(bytes: &[u8], ptr: u64, offset: u64, out: &mut u64) -> u8
    ensures { Given (load LoadKind.I32 bytes.now ptr offset) out.old result out.new }
{
    load_to(bytes, LoadKind::I32, ptr, offset, out)
}

#[unsafe(no_mangle)]
pub extern "C" fn ysh_load_i64(bytes: &[u8], ptr: u64, offset: u64, out: &mut u64) -> u8
    ensures { Given (load LoadKind.I64 bytes.now ptr offset) out.old result out.new }
{
    load_to(bytes, LoadKind::I64, ptr, offset, out)
}

#[unsafe(no_mangle)]
pub extern "C" fn ysh_load_f32(bytes: &[u8], ptr: u64, offset: u64, out: &mut u64) -> u8
    ensures { Given (load LoadKind.I64From32U bytes.now ptr offset) out.old result out.new }
{
    load_to(bytes, LoadKind::I64From32U, ptr, offset, out)
}

#[unsafe(no_mangle)]
pub extern "C" fn ysh_load_f64(bytes: &[u8], ptr: u64, offset: u64, out: &mut u64) -> u8
    ensures { Given (load LoadKind.I64 bytes.now ptr offset) out.old result out.new }
{
    load_to(bytes, LoadKind::I64, ptr, offset, out)
}

#[unsafe(no_mangle)]
pub extern "C" fn ysh_load_i32_8s(bytes: &[u8], ptr: u64, offset: u64, out: &mut u64) -> u8
    ensures { Given (load LoadKind.I32From8S bytes.now ptr offset) out.old result out.new }
{
    load_to(bytes, LoadKind::I32From8S, ptr, offset, out)
}

#[unsafe(no_mangle)]
pub extern "C" fn ysh_load_i32_8u(bytes: &[u8], ptr: u64, offset: u64, out: &mut u64) -> u8
    ensures { Given (load LoadKind.I32From8U bytes.now ptr offset) out.old result out.new }
{
    load_to(bytes, LoadKind::I32From8U, ptr, offset, out)
}

#[unsafe(no_mangle)]
pub extern "C" fn ysh_load_i32_16s(bytes: &[u8], ptr: u64, offset: u64, out: &mut u64) -> u8
    ensures { Given (load LoadKind.I32From16S bytes.now ptr offset) out.old result out.new }
{
    load_to(bytes, LoadKind::I32From16S, ptr, offset, out)
}

#[unsafe(no_mangle)]
pub extern "C" fn ysh_load_i32_16u(bytes: &[u8], ptr: u64, offset: u64, out: &mut u64) -> u8
    ensures { Given (load LoadKind.I32From16U bytes.now ptr offset) out.old result out.new }
{
    load_to(bytes, LoadKind::I32From16U, ptr, offset, out)
}

#[unsafe(no_mangle)]
pub extern "C" fn ysh_load_i64_8s(bytes: &[u8], ptr: u64, offset: u64, out: &mut u64) -> u8
    ensures { Given (load LoadKind.I64From8S bytes.now ptr offset) out.old result out.new }
{
    load_to(bytes, LoadKind::I64From8S, ptr, offset, out)
}

#[unsafe(no_mangle)]
pub extern "C" fn ysh_load_i64_8u(bytes: &[u8], ptr: u64, offset: u64, out: &mut u64) -> u8
    ensures { Given (load LoadKind.I64From8U bytes.now ptr offset) out.old result out.new }
{
    load_to(bytes, LoadKind::I64From8U, ptr, offset, out)
}

#[unsafe(no_mangle)]
pub extern "C" fn ysh_load_i64_16s(bytes: &[u8], ptr: u64, offset: u64, out: &mut u64) -> u8
    ensures { Given (load LoadKind.I64From16S bytes.now ptr offset) out.old result out.new }
{
    load_to(bytes, LoadKind::I64From16S, ptr, offset, out)
}

#[unsafe(no_mangle)]
pub extern "C" fn ysh_load_i64_16u(bytes: &[u8], ptr: u64, offset: u64, out: &mut u64) -> u8
    ensures { Given (load LoadKind.I64From16U bytes.now ptr offset) out.old result out.new }
{
    load_to(bytes, LoadKind::I64From16U, ptr, offset, out)
}

#[unsafe(no_mangle)]
pub extern "C" fn ysh_load_i64_32s(bytes: &[u8], ptr: u64, offset: u64, out: &mut u64) -> u8
    ensures { Given (load LoadKind.I64From32S bytes.now ptr offset) out.old result out.new }
{
    load_to(bytes, LoadKind::I64From32S, ptr, offset, out)
}

#[unsafe(no_mangle)]
pub extern "C" fn ysh_load_i64_32u(bytes: &[u8], ptr: u64, offset: u64, out: &mut u64) -> u8
    ensures { Given (load LoadKind.I64From32U bytes.now ptr offset) out.old result out.new }
{
    load_to(bytes, LoadKind::I64From32U, ptr, offset, out)
}

#[unsafe(no_mangle)]
pub extern "C" fn ysh_store_i32(bytes: &mut [u8], ptr: u64, offset: u64, bits: u32) -> u8
    ensures { Taken (store StoreKind.I32 bytes.old ptr offset bits) result bytes.new }
{
    store_from(bytes, StoreKind::I32, ptr, offset, bits as u64)
}

#[unsafe(no_mangle)]
pub extern "C" fn ysh_store_i64(bytes: &mut [u8], ptr: u64, offset: u64, bits: u64) -> u8
    ensures { Taken (store StoreKind.I64 bytes.old ptr offset bits) result bytes.new }
{
    store_from(bytes, StoreKind::I64, ptr, offset, bits)
}

#[unsafe(no_mangle)]
pub extern "C" fn ysh_store_f32(bytes: &mut [u8], ptr: u64, offset: u64, bits: u32) -> u8
    ensures { Taken (store StoreKind.F32 bytes.old ptr offset bits) result bytes.new }
{
    store_from(bytes, StoreKind::F32, ptr, offset, bits as u64)
}

#[unsafe(no_mangle)]
pub extern "C" fn ysh_store_f64(bytes: &mut [u8], ptr: u64, offset: u64, bits: u64) -> u8
    ensures { Taken (store StoreKind.F64 bytes.old ptr offset bits) result bytes.new }
{
    store_from(bytes, StoreKind::F64, ptr, offset, bits)
}

#[unsafe(no_mangle)]
pub extern "C" fn ysh_store_i32_8(bytes: &mut [u8], ptr: u64, offset: u64, bits: u32) -> u8
    ensures { Taken (store StoreKind.I32To8 bytes.old ptr offset bits) result bytes.new }
{
    store_from(bytes, StoreKind::I32To8, ptr, offset, bits as u64)
}

#[unsafe(no_mangle)]
pub extern "C" fn ysh_store_i32_16(bytes: &mut [u8], ptr: u64, offset: u64, bits: u32) -> u8
    ensures { Taken (store StoreKind.I32To16 bytes.old ptr offset bits) result bytes.new }
{
    store_from(bytes, StoreKind::I32To16, ptr, offset, bits as u64)
}

#[unsafe(no_mangle)]
pub extern "C" fn ysh_store_i64_8(bytes: &mut [u8], ptr: u64, offset: u64, bits: u64) -> u8
    ensures { Taken (store StoreKind.I64To8 bytes.old ptr offset bits) result bytes.new }
{
    store_from(bytes, StoreKind::I64To8, ptr, offset, bits)
}

#[unsafe(no_mangle)]
pub extern "C" fn ysh_store_i64_16(bytes: &mut [u8], ptr: u64, offset: u64, bits: u64) -> u8
    ensures { Taken (store StoreKind.I64To16 bytes.old ptr offset bits) result bytes.new }
{
    store_from(bytes, StoreKind::I64To16, ptr, offset, bits)
}

#[unsafe(no_mangle)]
pub extern "C" fn ysh_store_i64_32(bytes: &mut [u8], ptr: u64, offset: u64, bits: u64) -> u8
    ensures { Taken (store StoreKind.I64To32 bytes.old ptr offset bits) result bytes.new }
{
    store_from(bytes, StoreKind::I64To32, ptr, offset, bits)
}

// The price of copying a length in bytes, at `per_unit` bytes for a unit.
#[unsafe(no_mangle)]
pub extern "C" fn ysh_price(len: u64, per_unit: u32) -> u64
    ensures { result ≡ price per_unit len }
{
    costs(per_unit).fuel_for_copying_bytes(len)
}

// The price of copying `len` values of `size` bytes.
#[unsafe(no_mangle)]
pub extern "C" fn ysh_price_values(len: u64, size: u64, per_unit: u32) -> u64
    ensures { result ≡ price per_unit (len * size) }
{
    costs(per_unit).fuel_for_copying_values(len, size)
}

// Costs with this one given, and the others as they are by default.
fn costs(copied: u32) -> FuelCosts
    ensures { result ≡ costs_of copied }
{
    FuelCosts {
        copied,
        ..FuelCosts::default_costs()
    }
}
