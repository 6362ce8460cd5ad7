// The steps that memories and tables share, from the limiter's question to the room.
#![tactic(auto, using(crate::proofs::Picks::cases), unfolding(crate::specs::stages::Grant::told, crate::specs::stages::Grant::creation_room, crate::specs::stages::Grant::creation_permit, crate::specs::stages::Grant::grant_creation, crate::specs::stages::Grant::growth_room, crate::specs::stages::Grant::growth_paid, crate::specs::stages::Grant::growth_fuel, crate::specs::stages::Grant::growth_permit, crate::specs::stages::Grant::grant_growth, crate::specs::stages::Grant::grant_span))]

ghost use Rattle.std.specs.Prelude.{◌≡◌};
ghost use Rattle.types.specs.stages.Grant.{told, grant_creation, growth_of, grant_growth, grant_span};

use super::answer::{Answer, Reason, Refusal};
use super::fuel::Fuel;
use super::limiter::{Asked, Limiter};

// What a growth's checks leave: the permit, and fuel and limiter after them.
#[derive(Clone, Copy)]
pub struct Growth {
    pub permit: Result<(), Refusal>,
    pub fuel: Fuel,
    pub limiter: Limiter,
}

// What a span operation gives back beside its cells.
#[derive(Clone, Copy)]
pub struct Spanned {
    pub answer: Answer,
    pub fuel: Fuel,
}

// A refusal of which the limiter is told.
fn tell(limiter: Limiter, refusal: Refusal) -> Asked
    ensures { result ≡ told limiter refusal }
{
    let noticed = limiter.notify(refusal);
    Asked {
        permit: Err(noticed.refusal),
        limiter: noticed.limiter,
    }
}

// A growth that is refused after its limiter was told.
fn growth_told(limiter: Limiter, fuel: Fuel, refusal: Refusal) -> Growth
    ensures { result ≡ growth_of (told limiter refusal) fuel }
{
    let asked = tell(limiter, refusal);
    Growth {
        permit: asked.permit,
        fuel,
        limiter: asked.limiter,
    }
}

// Whether a creation may go on: the limiter's question, then the room.
pub fn grant_creation(limiter: Limiter, fits: bool) -> Asked
    ensures { result ≡ grant_creation limiter fits }
{
    let asked = limiter.ask(Reason::CreationDenied as u8);
    if asked.permit.is_err() || fits {
        return asked;
    }
    tell(asked.limiter, Refusal::from(Reason::RoomTooSmall))
}

// Whether a growth may go on: the limiter's question, the maximum, the fuel step, the room. `admits` and `fits` are tests' answers: no code hangs on them but the refusals.
pub fn grant_growth(limiter: Limiter, fuel: Fuel, admits: bool, price: u64, fits: bool) -> Growth
    ensures { result ≡ grant_growth limiter fuel admits price fits }
{
    let Asked { permit, limiter } = limiter.ask(Reason::GrowthDenied as u8);
    if permit.is_err() {
        return Growth {
            permit,
            fuel,
            limiter,
        };
    }
    if !admits {
        return growth_told(limiter, fuel, Refusal::from(Reason::GrowthDenied));
    }
    match fuel.consume_fuel_if(price) {
        Err(refusal) => growth_told(limiter, fuel, refusal),
        Ok(fuel) if fits => Growth {
            permit,
            fuel,
            limiter,
        },
        Ok(fuel) => growth_told(limiter, fuel, Refusal::from(Reason::BeyondRoom)),
    }
}

// Whether a span operation may go on: its bounds, then the fuel step. The number stays a number: `grant_span` promises what it does of any.
pub fn grant_span(fuel: Fuel, in_bounds: bool, number: u8, price: u64) -> Result<Fuel, Refusal>
    ensures { result ≡ grant_span fuel in_bounds number price }
{
    if !in_bounds {
        return Err(Refusal { number, amount: 0 });
    }
    fuel.consume_fuel_if(price)
}
