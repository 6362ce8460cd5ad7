// Operations on memories: 10 to 14, and the link check 30.
#![tactic(auto, using(types::proofs::Picks::cases), unfolding(crate::specs::Machine::next_byte, crate::specs::Memories::linked, crate::specs::Memories::link_to, crate::specs::Memories::perform_memory, crate::specs::Memories::on_memory, crate::specs::Memories::made_memory, crate::specs::Memories::new_memory_on))]

ghost use Rattle.std.specs.Prelude.{◌≡◌, ◌≤◌, ◌<◌, length};
ghost use Rattle.types.specs.Done.{done};
ghost use Rattle.machine.specs.Machine.{capacity, next_byte};
ghost use Rattle.machine.specs.Words.{row_length, machine_from};
ghost use Rattle.machine.specs.Memories.{link_to, perform_memory, on_memory, new_memory_on};

use super::operation::MemoryOp;
use super::outcome::{Change, Outcome};
use super::records::finds_room;
use super::{outcome, row, words};
use memory::grow::GrownMemory;
use memory::memory::Memory;
use types::answer::{Answer, Reason, Value};
use types::fuel::Fuel;
use types::limiter::Limiter;
use types::memory_ty::{MemoryType, WantedMemory};

// 1 exactly when the declared type is a subtype of the wanted one.
fn link(memory: Memory, wanted: WantedMemory) -> Answer
    ensures { result ≡ link_to memory wanted }
{
    let other = MemoryType::build(wanted.wide, wanted.limits, wanted.exponent)?;
    Ok(Value::Number(u64::from(memory.ty.is_subtype_of(other))))
}

// One operation on one memory.
pub fn perform(
    memory: Memory,
    bytes: &mut [u8],
    fuel: Fuel,
    limiter: Limiter,
    op: MemoryOp,
) -> GrownMemory
    ensures { done result bytes.new ≡ perform_memory memory bytes.old fuel limiter op }
{
    let answer = match op {
        MemoryOp::Grow { pages } => return memory.grow(bytes, pages, fuel, limiter),
        MemoryOp::Size => Ok(Value::Number(memory.pages())),
        MemoryOp::Load {
            kind,
            pointer,
            offset,
        } => memory.load(bytes, kind, pointer, offset),
        MemoryOp::Store {
            kind,
            pointer,
            offset,
            bits,
        } => memory.store(bytes, kind, pointer, offset, bits),
        MemoryOp::LinkCheck { wanted } => link(memory, wanted),
    };
    GrownMemory {
        answer,
        memory,
        fuel,
        limiter,
    }
}

// 11 to 14, 30: 16, then the memory's own operation.
// Not one with `on_table`: a trait over operation, buffer and grown record would be longer than both bodies.
pub(crate) fn on_memory(words: &[u64], bytes: &mut [u8], number: u64, op: MemoryOp) -> Outcome
    requires { (row_length ≤ length words.now) × ((machine_from words.now).counts.memories ≤ capacity) }
    ensures { done result bytes.new ≡ on_memory (machine_from words.now) bytes.old number op }
{
    let counts = words::counts_from(words);
    let i = number as usize;
    if counts.memories <= i {
        return outcome::refuses(words, Reason::NumberUnknown);
    }
    let grown = perform(
        row::record_at(words, i),
        bytes,
        words::fuel_from(words),
        words::limiter_from(words),
        op,
    );
    Outcome {
        answer: grown.answer,
        change: Change::Memory(i, grown.memory),
        counts,
        fuel: grown.fuel,
        limiter: grown.limiter,
    }
}

// 10: 17, then a new memory in the next room.
pub(crate) fn new_memory(
    words: &[u64],
    bytes: &mut [u8],
    room: u64,
    wanted: WantedMemory,
) -> Outcome
    requires { (row_length ≤ length words.now) × ((machine_from words.now).counts.memories ≤ capacity) × (next_byte (machine_from words.now) ≤ length bytes.old) }
    ensures { done result bytes.new ≡ new_memory_on (machine_from words.now) bytes.old room wanted }
{
    let counts = words::counts_from(words);
    let start = row::next_room::<Memory>(words);
    if !finds_room(counts.memories, room, bytes.len() - start) {
        return outcome::refuses(words, Reason::NoPlace);
    }
    let created = memory::new::new_memory(wanted, start, room, bytes, words::limiter_from(words));
    outcome::made(words, created.made, created.limiter)
}
