// What operations are given besides their cells.
use types::fuel::{Fuel, FuelCosts};
use types::limiter::{LONGEST_SCRIPT, Limiter};

#[derive(Clone, Copy)]
pub(crate) struct Means {
    pub(crate) fuel: Fuel,
    pub(crate) limiter: Limiter,
}

// Numbers as bytes, 255 from there on, and zeros behind them.
pub(crate) fn bytes_of(numbers: &[u64]) -> [u8; LONGEST_SCRIPT] {
    std::array::from_fn(|i| {
        let n = numbers.get(i).copied().unwrap_or(0);
        u8::try_from(n).unwrap_or(u8::MAX)
    })
}

impl Means {
    // No fuel, metered, and no limiter.
    pub(crate) fn new() -> Means {
        Means {
            fuel: Fuel::new(true, FuelCosts::default_costs()),
            limiter: Limiter::none(),
        }
    }

    // Fuel, bytes a unit, metering and the limiter's script, if it is not too long; bytes that are no script are no limiter.
    pub(crate) fn given(fuel: u64, per_unit: u64, metering: u64, script: &[u64]) -> Option<Means> {
        let row = bytes_of(script);
        let over = Limiter::none().hand_over(row.get(..script.len())?);
        Some(Means {
            fuel: Fuel {
                remaining: fuel,
                enabled: metering != 0,
                costs: FuelCosts {
                    copied: u32::try_from(per_unit).unwrap_or(u32::MAX),
                    ..FuelCosts::default_costs()
                },
            },
            limiter: over.limiter,
        })
    }
}
