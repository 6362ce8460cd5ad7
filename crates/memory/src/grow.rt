// Growing a memory, in the order of checks of document 01.
#![tactic(auto, using(types::proofs::Picks::cases, types::proofs::Dones::done_as, crate::proofs::Growths::may_by, crate::proofs::Growths::may_not, crate::proofs::Readings::grow_staged, crate::proofs::Growths::reach_held), unfolding(crate::specs::stages::Grow::grow_to, crate::specs::stages::Grow::grant_of, crate::specs::stages::Grow::grow_sound, crate::specs::stages::Grow::by_reach, crate::specs::stages::Grow::enlarged_by))]

ghost use Rattle.std.specs.Prelude.{◌≡◌, true, ◌≤◌, length};
ghost use Rattle.types.specs.Answer.{refuse, accept, number_for};
ghost use Rattle.types.specs.Done.{done};
ghost use Rattle.memory.specs.Memory.{pages_of, sound_memory};
ghost use Rattle.memory.specs.stages.Facts.{Held};
ghost use Rattle.memory.specs.Grow.{answered, may_have, grow_memory};
ghost use Rattle.memory.specs.stages.Grow.{reach_of, grant_of, grow_to};

use super::memory::Memory;
use super::{memory, new};
use types::answer::{Answer, Reason, Refusal, Value};
use types::fuel::Fuel;
use types::grant::Growth;
use types::limiter::Limiter;
use types::memory_ty::MemoryType;

#[derive(Clone, Copy)]
pub struct GrownMemory {
    pub answer: Answer,
    pub memory: Memory,
    pub fuel: Fuel,
    pub limiter: Limiter,
}

// Not one with a table's: each makes its own public record, whose fields the public definitions `answered` name.
fn answered_with(answer: Answer, memory: Memory, fuel: Fuel, limiter: Limiter) -> GrownMemory
    ensures { result ≡ answered answer memory fuel limiter }
{
    GrownMemory {
        answer,
        memory,
        fuel,
        limiter,
    }
}

fn refused(reason: Reason, memory: Memory, fuel: Fuel, limiter: Limiter) -> GrownMemory
    ensures { result ≡ answered (refuse (number_for reason) 0) memory fuel limiter }
{
    answered_with(Err(Refusal::from(reason)), memory, fuel, limiter)
}

// Whether a memory of this type may have so many pages.
fn may_have(ty: MemoryType, pages: u64) -> bool
    ensures { result ≡ may_have ty pages }
{
    memory::admits_pages(ty, pages) && pages <= u64::MAX / ty.page.page_size()
}

// The size in bytes that a growth reaches, if it may.
#[tactic(auto, using(crate::proofs::Growths::reach_past, crate::proofs::Growths::reach_some, crate::proofs::Growths::reach_none, types::proofs::Picks::cases))]
fn reach(memory: Memory, additional: u64) -> Option<u64>
    ensures { result ≡ reach_of memory additional }
{
    let pages = memory.pages().checked_add(additional)?;
    if !may_have(memory.ty, pages) {
        return None;
    }
    memory.ty.page.byte_size(pages)
}

// The limiter's question, the fuel step and the room.
fn grant(memory: Memory, size: u64, fuel: Fuel, limiter: Limiter) -> Growth
    requires { memory.size ≤ size }
    ensures { result ≡ grant_of memory size fuel limiter }
{
    let price = fuel.costs.fuel_for_copying_bytes(size - memory.size);
    types::grant::grant_growth(limiter, fuel, true, price, size <= memory.room)
}

// The growth to a size: what is granted becomes 0.
fn grow_to(memory: Memory, bytes: &mut [u8], size: u64, fuel: Fuel, limiter: Limiter) -> GrownMemory
    requires { Held memory size (length bytes.old) }
    ensures { done result bytes.new ≡ grow_to memory bytes.old size fuel limiter }
{
    let growth = grant(memory, size, fuel, limiter);
    match growth.permit {
        Err(refusal) => { answered_with(Err(refusal), memory, growth.fuel, growth.limiter) }
        Ok(()) => {
            let from = memory.start + (memory.size as usize);
            new::zero(bytes, from, (size - memory.size) as usize);
            let answer = Ok(Value::Number(memory.pages()));
            answered_with(
                answer,
                Memory { size, ..memory },
                growth.fuel,
                growth.limiter,
            )
        }
    }
}

impl Memory {
    // Growth by a number of pages: 6 beyond the bounds, the limiter's 6 or 4, 7 and 8 with notice; 19 where the record is unsound.
    pub fn grow(
        self,
        bytes: &mut [u8],
        additional: u64,
        fuel: Fuel,
        limiter: Limiter,
    ) -> GrownMemory
        ensures { done result bytes.new ≡ grow_memory self bytes.old additional fuel limiter }
    {
        if !self.is_sound(bytes.len()) {
            return refused(Reason::Unsound, self, fuel, limiter);
        }
        if additional == 0 {
            return answered_with(Ok(Value::Number(self.pages())), self, fuel, limiter);
        }
        let Some(size) = reach(self, additional) else {
            return refused(Reason::GrowthDenied, self, fuel, limiter);
        };
        grow_to(self, bytes, size, fuel, limiter)
    }
}
