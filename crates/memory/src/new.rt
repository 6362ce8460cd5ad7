// Making a memory in a room of the buffer, in the order of checks of document 01.
#![tactic(auto, using(types::proofs::Picks::cases, types::proofs::Dones::done_as, types::proofs::Moves::put_fill, crate::proofs::Readings::new_staged, crate::proofs::Readings::new_refused, crate::proofs::Readings::new_made), unfolding(types::specs::Span::inside, crate::specs::stages::New::made_by, crate::specs::stages::New::made_of))]

ghost use Rattle.std.specs.Prelude.{◌≡◌, ◌+◌, ◌≤◌, length, replicate};
ghost use Rattle.types.specs.Answer.{refusal};
ghost use Rattle.types.specs.Done.{done};
ghost use Rattle.types.specs.MemoryType.{build_memory};
ghost use Rattle.types.specs.Span.{over};
ghost use Rattle.memory.specs.New.{refused, new_memory};
ghost use Rattle.memory.specs.stages.New.{made_of, planned};

use super::memory::Memory;
use types::answer::{Reason, Refusal};
use types::limiter::Limiter;
use types::memory_ty::{MemoryType, WantedMemory};

#[derive(Clone, Copy)]
pub struct CreatedMemory {
    pub made: Result<Memory, Refusal>,
    pub limiter: Limiter,
}

// Not one with `no_table`: each makes its own public record, whose fields the public definitions `refused` name.
fn no_memory(limiter: Limiter, refusal: Refusal) -> CreatedMemory
    ensures { result ≡ refused limiter refusal }
{
    CreatedMemory {
        made: Err(refusal),
        limiter,
    }
}

// The span of the new bytes is lent on and becomes 0.
pub(crate) fn zero(bytes: &mut [u8], from: usize, n: usize)
    requires { from + n ≤ length bytes.old }
    ensures { bytes.new ≡ over bytes.old from (replicate n 0) }
{
    bytes[from..from + n].fill(0);
}

// The memory that is wanted, of its minimum's size: 1, 2.
#[tactic(auto, using(types::proofs::Picks::cases), unfolding(crate::specs::stages::New::planned, crate::specs::stages::New::sized))]
fn planned(wanted: WantedMemory, start: usize, room: u64) -> Result<Memory, Refusal>
    ensures { result ≡ planned (build_memory wanted.wide wanted.limits wanted.exponent) start room }
{
    let ty = MemoryType::build(wanted.wide, wanted.limits, wanted.exponent)?;
    let Some(size) = ty.minimum_byte_size() else {
        return Err(Refusal::from(Reason::MinimumTooLarge));
    };
    Ok(Memory {
        ty,
        start,
        room,
        size,
    })
}

// The limiter's question and the room; a memory that is granted is zeroed.
fn make(memory: Memory, bytes: &mut [u8], limiter: Limiter) -> CreatedMemory
    requires { memory.start + memory.room ≤ length bytes.old }
    ensures { done result bytes.new ≡ made_of limiter memory bytes.old }
{
    let asked = types::grant::grant_creation(limiter, memory.size <= memory.room);
    match asked.permit {
        Err(refusal) => no_memory(asked.limiter, refusal),
        Ok(()) => {
            zero(bytes, memory.start, memory.size as usize);
            CreatedMemory {
                made: Ok(memory),
                limiter: asked.limiter,
            }
        }
    }
}

// A new memory in the `room` bytes from `start` on: 1, 2, the limiter's 3 or 4, 5 with notice; 19 where the room is not inside the buffer.
pub fn new_memory(
    wanted: WantedMemory,
    start: usize,
    room: u64,
    bytes: &mut [u8],
    limiter: Limiter,
) -> CreatedMemory
    ensures { done result bytes.new ≡ new_memory wanted start room bytes.old limiter }
{
    if !types::span::within(start as u64, room, bytes.len() as u64) {
        return no_memory(limiter, Refusal::from(Reason::Unsound));
    }
    match planned(wanted, start, room) {
        Err(refusal) => no_memory(limiter, refusal),
        Ok(memory) => make(memory, bytes, limiter),
    }
}
