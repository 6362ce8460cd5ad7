// The fuel record, lent and charged where it stands.
#![tactic(auto, unfolding(crate::specs::Fuel::set_by, crate::specs::Fuel::charged_by, crate::specs::Fuel::requested))]

ghost use Rattle.lent.specs.Fuel.{Requests};

use types::answer::{Answer, Value};
use types::fuel::Fuel;

// What the fuel record is asked for.
#[derive(Clone, Copy)]
pub enum FuelRequest {
    Set(u64),
    Get,
    Charge(u64),
    ChargeIf(u64),
    ChargeUnchecked(u64),
}

// A request to the record where it stands: a setting answers 0, a charge what is left, and a refusal leaves the record.
pub fn request(fuel: &mut Fuel, request: FuelRequest) -> Answer
    ensures { Requests fuel.old request result fuel.new }
{
    match request {
        FuelRequest::Set(amount) => {
            *fuel = fuel.set_fuel(amount)?;
            return Ok(Value::Number(0));
        }
        FuelRequest::Get => return fuel.get_fuel(),
        FuelRequest::Charge(price) => *fuel = fuel.consume_fuel(price)?,
        FuelRequest::ChargeIf(price) => *fuel = fuel.consume_fuel_if(price)?,
        FuelRequest::ChargeUnchecked(price) => *fuel = fuel.consume_fuel_unchecked(price)?,
    }
    Ok(Value::Number(fuel.remaining))
}
