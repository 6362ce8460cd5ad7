// Operations on fuel and limiter: 01 to 04.
#![tactic(auto, unfolding(crate::specs::Fueling::set_by, crate::specs::Fueling::charged_by, crate::specs::Fueling::perform_fuel, crate::specs::Fueling::on_fuel))]

ghost use Rattle.std.specs.Prelude.{◌≡◌, ◌≤◌, length};
ghost use Rattle.machine.specs.Words.{row_length, machine_from};
ghost use Rattle.machine.specs.Fueling.{perform_fuel, on_fuel};

use super::operation::FuelOp;
use super::outcome::Outcome;
use super::{fields, outcome, words};
use types::answer::{Answer, Value};
use types::fuel::Fuel;
use types::limiter::Limiter;

// An answer, fuel and limiter after it.
#[derive(Clone, Copy)]
pub struct Fueled {
    pub answer: Answer,
    pub fuel: Fuel,
    pub limiter: Limiter,
}

// One operation on fuel and limiter.
pub fn perform(fuel: Fuel, limiter: Limiter, op: FuelOp) -> Fueled
    ensures { result ≡ perform_fuel fuel limiter op }
{
    match op {
        FuelOp::SetFuel { amount } => {
            let step = fuel.set_fuel(amount);
            Fueled {
                answer: step.map(|_| Value::Number(0)),
                fuel: step.unwrap_or(fuel),
                limiter,
            }
        }
        FuelOp::GetFuel => Fueled {
            answer: fuel.get_fuel(),
            fuel,
            limiter,
        },
        FuelOp::Charge { units } => {
            let step = fuel.consume_fuel(units);
            Fueled {
                answer: step.map(|left| Value::Number(left.remaining)),
                fuel: step.unwrap_or(fuel),
                limiter,
            }
        }
        FuelOp::SetLimiter { script } => {
            let handed = fields::hand_script(limiter, script);
            Fueled {
                answer: handed.answer,
                fuel,
                limiter: handed.limiter,
            }
        }
    }
}

// 01 to 04.
pub(crate) fn on_fuel(words: &[u64], op: FuelOp) -> Outcome
    requires { row_length ≤ length words.now }
    ensures { result ≡ on_fuel (machine_from words.now) op }
{
    let done = perform(words::fuel_from(words), words::limiter_from(words), op);
    outcome::leaves(words, done.answer, done.fuel, done.limiter)
}
