// The cases that need no machine: prices, types, and the bound of a table.
use super::lines::number_line;
use std::io;
use types::fuel::FuelCosts;
use types::index_ty::IndexType;
use types::limits::Limits;
use types::memory_ty::MemoryType;

pub(crate) fn costs(copied: u32) -> FuelCosts {
    FuelCosts {
        copied,
        ..FuelCosts::default_costs()
    }
}

// P1, P2 at R 8, and P3.
pub(crate) fn prices(rt: &impl Print) -> io::Result<()> {
    let c = costs(64);
    number_line(rt, "P1 63 bytes cost", c.fuel_for_copying_bytes(63))?;
    number_line(rt, "P1 64 bytes cost", c.fuel_for_copying_bytes(64))?;
    number_line(
        rt,
        "P2 7 references of 8 cost",
        c.fuel_for_copying_values(7, 8),
    )?;
    number_line(
        rt,
        "P2 8 references of 8 cost",
        c.fuel_for_copying_values(8, 8),
    )?;
    number_line(
        rt,
        "P3 B 0, 0 bytes cost",
        costs(0).fuel_for_copying_bytes(0),
    )
}

// The number that building a type gives.
fn built(is_64: bool, minimum: u64, maximum: Option<u64>, exponent: u8) -> u64 {
    let limits = Limits {
        minimum,
        bounded: maximum.is_some(),
        maximum: maximum.unwrap_or(0),
    };
    MemoryType::build(is_64, limits, exponent)
        .err()
        .map_or(0, |refusal| u64::from(refusal.number))
}

// P4, P5, and the type of P6.
pub(crate) fn types(rt: &impl Print) -> io::Result<()> {
    number_line(rt, "P4 minimum 65536", built(false, 65536, None, 16))?;
    number_line(rt, "P4 minimum 65537", built(false, 65537, None, 16))?;
    number_line(rt, "P5 maximum 2^32", built(false, 0, Some(1 << 32), 0))?;
    number_line(
        rt,
        "P5 maximum 2^32+1",
        built(false, 0, Some((1 << 32) + 1), 0),
    )?;
    number_line(rt, "P6 minimum 2^48", built(true, 1 << 48, None, 16))
}

// 6 where a 32-bit table of 2^32-2 cells may not grow by so many.
fn grown(delta: u8) -> u64 {
    let largest = IndexType::I32.max_size();
    if largest.exceeds((1 << 32) - 2 + u64::from(delta)) {
        0
    } else {
        6
    }
}

// P11.
pub(crate) fn table_bound(rt: &impl Print) -> io::Result<()> {
    number_line(rt, "P11 2^32-2 plus 1", grown(1))?;
    number_line(rt, "P11 2^32-2 plus 2", grown(2))
}
