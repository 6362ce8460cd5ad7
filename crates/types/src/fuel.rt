// Fuel: the three costs, prices, and the record that is charged.
#![tactic(auto, using(crate::proofs::Picks::cases, crate::proofs::Prices::priced), unfolding(crate::specs::Price::capped, crate::specs::Fuel::set_fuel, crate::specs::Fuel::get_fuel, crate::specs::Fuel::consume_unchecked, crate::specs::Fuel::consume, crate::specs::Fuel::consume_if))]

ghost use Rattle.std.specs.Prelude.{◌≡◌, ◌*◌};
ghost use Rattle.types.specs.Price.{capped, price};
ghost use Rattle.types.specs.Fuel.{default_costs, new_fuel, set_fuel, get_fuel, consume_unchecked, consume_if, consume};

use super::answer::{Answer, Reason, Refusal, Value};

#[derive(Clone, Copy)]
pub struct FuelCosts {
    // Bytes copied for one unit.
    pub copied: u32,
    // Units for a byte translated.
    pub translated: u32,
    // Units for a byte validated.
    pub validated: u32,
}

#[derive(Clone, Copy)]
pub struct Fuel {
    pub remaining: u64,
    // What is left counts with metering off too: an unchecked charge takes it.
    pub enabled: bool,
    pub costs: FuelCosts,
}

// The product, or the largest number where it is larger.
pub fn saturating_mul(a: u64, b: u64) -> u64
    ensures { result ≡ capped (a * b) }
{
    a.saturating_mul(b)
}

impl FuelCosts {
    pub fn default_costs() -> FuelCosts
        ensures { result ≡ default_costs }
    {
        FuelCosts {
            copied: 64,
            translated: 7,
            validated: 2,
        }
    }

    // The price of copying a length in bytes.
    pub fn fuel_for_copying_bytes(self, len: u64) -> u64
        ensures { result ≡ price self.copied len }
    {
        if self.copied == 0 {
            return u64::MAX;
        }
        len / u64::from(self.copied)
    }

    // The price of copying `len` values of `size` bytes.
    pub fn fuel_for_copying_values(self, len: u64, size: u64) -> u64
        ensures { result ≡ price self.copied (len * size) }
    {
        self.fuel_for_copying_bytes(saturating_mul(len, size))
    }

    pub fn fuel_for_translating_bytes(self, len: u64) -> u64
        ensures { result ≡ capped (len * self.translated) }
    {
        saturating_mul(len, u64::from(self.translated))
    }

    pub fn fuel_for_validating_bytes(self, len: u64) -> u64
        ensures { result ≡ capped (len * self.validated) }
    {
        saturating_mul(len, u64::from(self.validated))
    }
}

impl Fuel {
    pub fn new(enabled: bool, costs: FuelCosts) -> Fuel
        ensures { result ≡ new_fuel enabled costs }
    {
        Fuel {
            remaining: 0,
            enabled,
            costs,
        }
    }

    // Sets what is left; 15 with metering off.
    pub fn set_fuel(self, fuel: u64) -> Result<Fuel, Refusal>
        ensures { result ≡ set_fuel self fuel }
    {
        if !self.enabled {
            return Err(Refusal::from(Reason::MeteringOff));
        }
        Ok(Fuel {
            remaining: fuel,
            ..self
        })
    }

    // What is left; 15 with metering off.
    pub fn get_fuel(self) -> Answer
        ensures { result ≡ get_fuel self }
    {
        if !self.enabled {
            return Err(Refusal::from(Reason::MeteringOff));
        }
        Ok(Value::Number(self.remaining))
    }

    // Charges, whether metering is on or not; 7 with the whole price where too little is left.
    pub fn consume_fuel_unchecked(self, price: u64) -> Result<Fuel, Refusal>
        ensures { result ≡ consume_unchecked self price }
    {
        let Some(remaining) = self.remaining.checked_sub(price) else {
            return Err(Refusal {
                number: Reason::FuelShort as u8,
                amount: price,
            });
        };
        Ok(Fuel { remaining, ..self })
    }

    // Charges; 15 with metering off.
    pub fn consume_fuel(self, price: u64) -> Result<Fuel, Refusal>
        ensures { result ≡ consume self price }
    {
        if !self.enabled {
            return Err(Refusal::from(Reason::MeteringOff));
        }
        self.consume_fuel_unchecked(price)
    }

    // Charges where metering is on.
    pub fn consume_fuel_if(self, price: u64) -> Result<Fuel, Refusal>
        ensures { result ≡ consume_if self price }
    {
        if !self.enabled {
            return Ok(self);
        }
        self.consume_fuel_unchecked(price)
    }
}
