// A memory's cases.
use super::case::{DONE, Subject};
use super::settings::{Means, bytes_of};
use memory::access::{LoadKind, StoreKind};
use memory::memory::Memory;
use memory::new::new_memory;
use std::io;
use types::answer::{Answer, Value};
use types::index_ty::IndexType;
use types::limits::Limits;
use types::memory_ty::{MemoryType, PageSize, WantedMemory};

const LOADS: [LoadKind; 14] = [
    LoadKind::I32,
    LoadKind::I64,
    LoadKind::F32,
    LoadKind::F64,
    LoadKind::I32From8S,
    LoadKind::I32From8U,
    LoadKind::I32From16S,
    LoadKind::I32From16U,
    LoadKind::I64From8S,
    LoadKind::I64From8U,
    LoadKind::I64From16S,
    LoadKind::I64From16U,
    LoadKind::I64From32S,
    LoadKind::I64From32U,
];

const STORES: [StoreKind; 9] = [
    StoreKind::I32,
    StoreKind::I64,
    StoreKind::F32,
    StoreKind::F64,
    StoreKind::I32To8,
    StoreKind::I32To16,
    StoreKind::I64To8,
    StoreKind::I64To16,
    StoreKind::I64To32,
];

// A memory and its bytes, and the caller's four bytes where the last line read to them.
#[derive(Clone, Copy)]
pub(crate) struct MemoryCase {
    memory: Memory,
    bytes: [u8; 40],
    caller: Option<[u8; 4]>,
}

// A 32-bit memory's record, sound or not.
fn record_of(page: PageSize, limits: Limits, start: u64, room: u64, size: u64) -> Memory {
    Memory {
        ty: MemoryType {
            index: IndexType::I32,
            page,
            limits,
        },
        start: start as usize,
        room,
        size,
    }
}

fn limits_of(minimum: u64, bounded: u64, maximum: u64) -> Limits {
    Limits {
        minimum,
        bounded: bounded != 0,
        maximum,
    }
}

impl MemoryCase {
    // Dirty bytes, of which none is in use.
    pub(crate) fn new() -> MemoryCase {
        MemoryCase {
            memory: record_of(PageSize::One, limits_of(0, 0, 0), 0, 0, 0),
            bytes: [0xa5; 40],
            caller: None,
        }
    }

    // A creation that is refused leaves no bytes in use.
    fn create(&mut self, means: &mut Means, wanted: WantedMemory, start: u64, room: u64) -> Answer {
        let done = new_memory(wanted, start as usize, room, &mut self.bytes, means.limiter);
        means.limiter = done.limiter;
        match done.made {
            Ok(memory) => {
                self.memory = memory;
                DONE
            }
            Err(refusal) => {
                self.memory.size = 0;
                Err(refusal)
            }
        }
    }

    fn grow(&mut self, means: &mut Means, pages: u64) -> Answer {
        let grown = self
            .memory
            .grow(&mut self.bytes, pages, means.fuel, means.limiter);
        self.memory = grown.memory;
        *means = Means {
            fuel: grown.fuel,
            limiter: grown.limiter,
        };
        grown.answer
    }

    // A host read of at most four bytes.
    fn read(&mut self, offset: u64, len: u64) -> Option<Answer> {
        let mut to = [0xa5u8; 4];
        let part = to.get_mut(..len as usize)?;
        let answer = self.memory.read(&self.bytes, offset, part);
        self.caller = Some(to);
        Some(answer)
    }
}

impl Subject for MemoryCase {
    fn act(&mut self, means: &mut Means, word: &[u8], numbers: &[u64]) -> Option<Answer> {
        self.caller = None;
        match (word, numbers) {
            (b"new", [wide, exponent, minimum, bounded, maximum, start, room]) => {
                let wanted = WantedMemory {
                    wide: *wide != 0,
                    limits: limits_of(*minimum, *bounded, *maximum),
                    exponent: u8::try_from(*exponent).unwrap_or(u8::MAX),
                };
                Some(self.create(means, wanted, *start, *room))
            }
            (b"record", [wasm, minimum, bounded, maximum, start, room, size]) => {
                let page = if *wasm == 0 {
                    PageSize::One
                } else {
                    PageSize::Wasm
                };
                let limits = limits_of(*minimum, *bounded, *maximum);
                self.memory = record_of(page, limits, *start, *room, *size);
                Some(DONE)
            }
            (b"grow", [pages]) => Some(self.grow(means, *pages)),
            (b"pages", []) => Some(Ok(Value::Number(self.memory.pages()))),
            (b"load", [kind, pointer, offset]) => {
                let kind = *LOADS.get(*kind as usize)?;
                Some(self.memory.load(&self.bytes, kind, *pointer, *offset))
            }
            (b"store", [kind, pointer, offset, bits]) => {
                let kind = *STORES.get(*kind as usize)?;
                Some(
                    self.memory
                        .store(&mut self.bytes, kind, *pointer, *offset, *bits),
                )
            }
            (b"write", [offset, bytes @ ..]) => {
                let row = bytes_of(bytes);
                let part = row.get(..bytes.len())?;
                Some(self.memory.write(&mut self.bytes, *offset, part))
            }
            (b"read", [offset, len]) => self.read(*offset, *len),
            _ => None,
        }
    }

    fn size(&self) -> u64 {
        self.memory.size
    }

    // Two digits for each byte, of the caller's where the line read to them.
    fn print_cells(&self, rt: &impl Print) -> io::Result<()> {
        match &self.caller {
            Some(bytes) => print_bytes(rt, bytes),
            None => print_bytes(rt, &self.bytes),
        }
    }
}

fn print_bytes(rt: &impl Print, bytes: &[u8]) -> io::Result<()> {
    print!(rt; " ")?;
    for b in bytes {
        print!(rt; "{b:02x}")?;
    }
    println!(rt)
}
