// A memory's record: size, soundness, loads and stores, host reads and writes.
#![tactic(auto, using(types::proofs::Picks::cases, types::proofs::Dones::done_as, types::proofs::Held::held_free, types::proofs::Held::held_above, types::proofs::Held::held_by, crate::proofs::Sounds::size_broken, crate::proofs::Sounds::size_by, crate::proofs::Sounds::size_bytes, crate::proofs::Copies::put_list, crate::proofs::Copies::part_cut, crate::proofs::Copies::cut_empty, crate::proofs::Copies::over_empty), unfolding(types::specs::Span::inside, crate::specs::Memory::sound_room, crate::specs::Memory::load_memory, crate::specs::Memory::store_memory, crate::specs::Host::read_memory, crate::specs::Host::read_used, crate::specs::Host::write_memory, crate::specs::Host::write_used, crate::specs::Memory::pages_of, crate::specs::Memory::dynamic_of, crate::specs::Memory::sound_memory))]

ghost use Rattle.std.specs.Prelude.{◌≡◌, ◌+◌, ◌≤◌, length, leb};
ghost use Rattle.types.specs.Pick.{both};
ghost use Rattle.types.specs.Limits.{admits_of};
ghost use Rattle.types.specs.MemoryType.{page_bound, valid_memory};
ghost use Rattle.types.specs.stages.Held.{held};
ghost use Rattle.types.specs.Answer.{refuse};
ghost use Rattle.types.specs.Done.{done};
ghost use Rattle.memory.specs.Memory.{pages_of, dynamic_of, sound_room, sound_size, sound_memory, load_memory, store_memory};
ghost use Rattle.memory.specs.Host.{read_used, read_memory, write_used, write_memory};

use super::access;
use super::access::{LoadKind, StoreKind};
use types::answer::{Answer, Reason, Refusal, Value};
use types::index_ty::IndexType;
use types::memory_ty::{MemoryType, PageSize};

// `size` bytes in use of a room of `room` bytes, which starts at `start` in the buffer.
#[derive(Clone, Copy)]
pub struct Memory {
    pub ty: MemoryType,
    pub start: usize,
    pub room: u64,
    pub size: u64,
}

// Whether so many pages are within the page bound. By cases: the bound as one number costs short accesses more.
#[tactic(auto, using(types::proofs::Picks::cases, crate::proofs::Sounds::bound_all), unfolding(types::specs::MemoryType::page_bound, types::specs::IndexType::max_size, types::specs::MemoryType::page_bytes))]
fn within_bound(ty: MemoryType, pages: u64) -> bool
    ensures { result ≡ leb pages (page_bound ty) }
{
    match (ty.index, ty.page) {
        (IndexType::I32, PageSize::One) => pages <= 4294967296,
        (IndexType::I32, PageSize::Wasm) => pages <= 65536,
        (IndexType::I64, PageSize::One) => true,
        (IndexType::I64, PageSize::Wasm) => pages <= 281474976710656,
    }
}

// Whether so many pages are within the page bound and the maximum.
pub(crate) fn admits_pages(ty: MemoryType, pages: u64) -> bool
    ensures { result ≡ both (leb pages (page_bound ty)) (admits_of ty.limits pages) }
{
    within_bound(ty, pages) && ty.limits.admits(pages)
}

// Whether the type is valid and has so many pages. A size between the minimum and the bound shows that the minimum is within it: only a maximum is left.
fn sound_pages(ty: MemoryType, pages: u64) -> bool
    ensures { result ≡ held ty.limits (page_bound ty) pages }
{
    let limits = ty.limits;
    if pages < limits.minimum || !within_bound(ty, pages) {
        return false;
    }
    if !limits.bounded {
        return true;
    }
    pages <= limits.maximum && within_bound(ty, limits.maximum)
}

impl Memory {
    // The size in pages.
    pub fn pages(self) -> u64
        ensures { result ≡ pages_of self }
    {
        self.size / self.ty.page.page_size()
    }

    // The type now, for import matching: its minimum is the present size.
    pub fn dynamic_ty(self) -> MemoryType
        ensures { result ≡ dynamic_of self }
    {
        self.ty.dynamic_ty(self.pages())
    }

    // Whether the room lies inside a buffer of `len` bytes, and the size within the room.
    fn sound_room(self, len: usize) -> bool
        ensures { result ≡ sound_room self len }
    {
        types::span::within(self.start as u64, self.room, len as u64) && self.size <= self.room
    }

    // Whether the type is valid, and the size of whole pages and within it.
    fn sound_size(self) -> bool
        ensures { result ≡ both (valid_memory self.ty) (sound_size self) }
    {
        match self.ty.page {
            PageSize::One => sound_pages(self.ty, self.size),
            PageSize::Wasm => self.size % 65536 == 0 && sound_pages(self.ty, self.size / 65536),
        }
    }

    // Whether the record is sound over a buffer of `len` bytes.
    pub fn is_sound(self, len: usize) -> bool
        ensures { result ≡ sound_memory self len }
    {
        self.sound_room(len) && self.sound_size()
    }

    // A load: 9 outside, 19 where the record is unsound.
    pub fn load(self, bytes: &[u8], kind: LoadKind, ptr: u64, offset: u64) -> Answer
        ensures { result ≡ load_memory kind self bytes.now ptr offset }
    {
        if !self.is_sound(bytes.len()) {
            return Err(Refusal::from(Reason::Unsound));
        }
        access::load_at(bytes, self.start, self.size, kind, ptr, offset)
    }

    // A store: 9 outside, 19 where the record is unsound.
    // Its public definition `store_memory` names each parameter by itself.
    pub fn store(
        self,
        bytes: &mut [u8],
        kind: StoreKind,
        ptr: u64,
        offset: u64,
        bits: u64,
    ) -> Answer
        ensures { done result bytes.new ≡ store_memory kind self bytes.old ptr offset bits }
    {
        if !self.is_sound(bytes.len()) {
            return Err(Refusal::from(Reason::Unsound));
        }
        access::store_at(bytes, self.start, self.size, kind, ptr, offset, bits)
    }

    // A host read into the caller's buffer, which a refusal leaves: 9 outside, 19 where the record is unsound.
    pub fn read(self, bytes: &[u8], offset: u64, to: &mut [u8]) -> Answer
        ensures { done result to.new ≡ read_memory self bytes.now offset to.old }
    {
        if !self.is_sound(bytes.len()) {
            return Err(Refusal::from(Reason::Unsound));
        }
        if !types::span::within(offset, to.len() as u64, self.size) {
            return Err(Refusal::from(Reason::AccessOutside));
        }
        // A copy of nothing would still be a call.
        if !to.is_empty() {
            let at = self.start + (offset as usize);
            to.copy_from_slice(&bytes[at..at + to.len()]);
        }
        Ok(Value::Number(0))
    }

    // A host write from the caller's buffer: 9 outside, 19 where the record is unsound.
    pub fn write(self, bytes: &mut [u8], offset: u64, from: &[u8]) -> Answer
        ensures { done result bytes.new ≡ write_memory self bytes.old offset from.now }
    {
        if !self.is_sound(bytes.len()) {
            return Err(Refusal::from(Reason::Unsound));
        }
        if !types::span::within(offset, from.len() as u64, self.size) {
            return Err(Refusal::from(Reason::AccessOutside));
        }
        if !from.is_empty() {
            let at = self.start + (offset as usize);
            bytes[at..at + from.len()].copy_from_slice(from);
        }
        Ok(Value::Number(0))
    }
}
