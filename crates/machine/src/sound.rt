// When a machine's records and buffers are sound: one test, at the entry.
#![tactic(auto, using(types::proofs::Picks::cases), unfolding(crate::specs::Sound::sound_references, crate::specs::Sound::sound_machine, crate::specs::Sound::sound_memories, crate::specs::Sound::sound_tables, crate::specs::Sound::sound_segments))]

ghost use Rattle.std.specs.Prelude.{◌≡◌, ◌≤◌, length};
ghost use Rattle.machine.specs.Words.{row_length, machine_from};
ghost use Rattle.machine.specs.Sound.{sound_list, sound_references, sound_machine};
ghost use Rattle.machine.specs.stages.Records.{end_of};

use super::record::Record;
use super::records::{CAPACITY, Machine};
use super::{row, words};
use memory::memory::Memory;
use table::element::ElementSegment;
use table::table::Table;
use types::wide::WORD32;

// Whether each record of a kind in use is sound and starts where the one before it ends.
fn sound_records<R: Record>(words: &[u64], len: usize) -> bool
    requires { row_length ≤ length words.now }
    ensures { result
        ≡ sound_list (R.sound len) R.start (end_of R.start R.room) (R.used (machine_from words.now).counts) (R.listed (machine_from words.now)) }
{
    let used = R::used(words::counts_from(words));
    if CAPACITY < used {
        return false;
    }
    let mut from = 0;
    for i in 0..used {
        let record: R = row::record_at(words, i);
        if record.start() != from || !record.sound_in(len) {
            return false;
        }
        from = record.start() + (record.room() as usize);
    }
    true
}

// Buffers of references have at most 2^32 cells.
fn sound_references(cells: usize, items: usize) -> bool
    ensures { result ≡ sound_references cells items }
{
    cells as u64 <= WORD32 && items as u64 <= WORD32
}

// Whether all records of a row are sound over buffers of these lengths.
pub(crate) fn is_sound(words: &[u64], bytes: usize, cells: usize, items: usize) -> bool
    requires { row_length ≤ length words.now }
    ensures { result ≡ sound_machine (machine_from words.now) bytes cells items }
{
    sound_references(cells, items)
        && sound_records::<Memory>(words, bytes)
        && sound_records::<Table>(words, cells)
        && sound_records::<ElementSegment>(words, items)
}

impl Machine {
    // Whether all records are sound over buffers of these lengths.
    pub fn is_sound(self, bytes: usize, cells: usize, items: usize) -> bool
        ensures { result ≡ sound_machine self bytes cells items }
    {
        is_sound(&words::row_of(self), bytes, cells, items)
    }
}
