// What memories, tables and segments have in common: records of one width that stand in a row one after another, whose rooms follow each other.
#![tactic(auto, unfolding(crate::specs::Words::memory_words, crate::specs::Words::table_words, crate::specs::Words::segment_words, crate::specs::Words::memory_from, crate::specs::Words::table_from, crate::specs::Words::segment_from, crate::specs::Words::limits_from))]

ghost use Rattle.std.specs.Prelude.{◌≡◌, ℕ, ◌+◌, ◌*◌, ◌≤◌, ◌<◌, Bool, true, List, length};
ghost use Rattle.types.specs.Span.{over};
ghost use Rattle.memory.specs.Memory.{sound_memory};
ghost use Rattle.memory.specs.declared.memory.Memory.{Memory};
ghost use Rattle.table.specs.Table.{sound_table};
ghost use Rattle.table.specs.Element.{sound_segment};
ghost use Rattle.table.specs.declared.table.Table.{Table};
ghost use Rattle.table.specs.declared.element.ElementSegment.{ElementSegment};
ghost use Rattle.machine.specs.Machine.{capacity, no_memory, no_table, no_segment};
ghost use Rattle.machine.specs.Sound.{sound_machine};
ghost use Rattle.machine.specs.Outcome.{one_memory_more, one_table_more, one_segment_more};
ghost use Rattle.machine.specs.Words.{record_length, segment_length, tables_at, segments_at, row_length, machine_from, records_from, flag_at, record_in_form};
ghost use Rattle.machine.specs.Words.{memory_words, table_words, segment_words, memory_from, table_from, segment_from, element_of};
ghost use Rattle.machine.specs.declared.records.Machine.{Machine};
ghost use Rattle.machine.specs.declared.records.Counts.{Counts};
ghost use Rattle.machine.specs.declared.outcome.Change.{Change};
ghost use Rattle.machine.specs.declared.outcome.Change.TheVariants as change;
ghost use Rattle.machine.specs.stages.Laws.{length_memory, length_table, length_segment};
ghost use Rattle.machine.specs.stages.Laws.{memories_inside, tables_inside, segments_inside, memories_stand, tables_stand, segments_stand, memories_few, tables_few, segments_few, memory_ends, table_ends, segment_ends};

use super::outcome::Change;
use super::records::Counts;
use super::words::{self, RECORD, SEGMENT, SEGMENTS, TABLES};
use super::{form, records};
use memory::memory::Memory;
use table::element::ElementSegment;
use table::table::Table;
use types::index_ty::IndexType;
use types::memory_ty::{MemoryType, PageSize};
use types::raw::RefType;
use types::table_ty::TableType;

pub(crate) trait Record: Copy {
    // The words of a record, and where the first one stands.
    const WIDTH: usize;

    const PLACE: usize;

    ghost WIDTH: { ℕ };

    ghost PLACE: { ℕ };

    ghost none: { Self };

    ghost written: { Self → List ℕ };

    ghost read: { List ℕ → ℕ → Self };

    ghost in_form: { List ℕ → ℕ → Bool };

    ghost start: { Self → ℕ };

    ghost room: { Self → ℕ };

    ghost sound: { ℕ → Self → Bool };

    ghost used: { Counts → ℕ };

    ghost more: { Counts → Counts };

    ghost listed: { Machine → List Self };

    ghost change: { ℕ → Self → Change };

    // What stands where no instance does.
    fn none() -> Self
        ensures { result ≡ none };

    fn write(self, words: &mut [u64], at: usize)
        requires { at + WIDTH ≤ length words.old }
        ensures { words.new ≡ over words.old at (written self) };

    fn read(words: &[u64], at: usize) -> Self
        requires { at + WIDTH ≤ length words.now }
        ensures { result ≡ read words.now at };

    // Whether its flags are 0 or 1.
    // A memory's and a table's are one call; as a default it would be a segment's too, whose form is another.
    fn in_form(words: &[u64], at: usize) -> bool
        requires { at + WIDTH ≤ length words.now }
        ensures { result ≡ in_form words.now at };

    fn start(self) -> usize
        ensures { result ≡ start self };

    fn room(self) -> u64
        ensures { result ≡ room self };

    fn sound_in(self, len: usize) -> bool
        ensures { result ≡ sound len self };

    // How many are in use.
    fn used(counts: Counts) -> usize
        ensures { result ≡ used counts };

    // Each kind counts its own field of `Counts`, which the public definitions name.
    fn one_more(counts: Counts) -> Counts
        requires { used counts < capacity }
        ensures { result ≡ more counts };

    fn change(self, i: usize) -> Change
        ensures { result ≡ change i self };

    ghost inside: { PLACE + capacity * WIDTH ≤ row_length };

    ghost long: { (r : Self) → length (written r) ≡ WIDTH };

    ghost stands: { (l : List ℕ) → listed (machine_from l)
        ≡ records_from read WIDTH l PLACE capacity };

    ghost few: { (m : Machine) (bytes cells items : ℕ) → sound_machine m bytes cells items ≡ true
        → used m.counts ≤ capacity };

    ghost ends: { (len : ℕ) (r : Self) → sound len r ≡ true → start r + room r ≤ len };
}

impl Record for Memory {
    const WIDTH: usize = RECORD;

    const PLACE: usize = 0;

    ghost WIDTH = { record_length };

    ghost PLACE = { 0 };

    ghost none = { no_memory };

    ghost written = { memory_words };

    ghost read = { memory_from };

    ghost in_form = { record_in_form };

    ghost start = { λ r. r.start };

    ghost room = { λ r. r.room };

    ghost sound = { λ len r. sound_memory r len };

    ghost used = { λ k. k.memories };

    ghost more = { one_memory_more };

    ghost listed = { λ m. m.memories };

    ghost change = { change.Memory };

    fn none() -> Memory {
        Memory {
            ty: MemoryType {
                index: IndexType::I32,
                page: PageSize::One,
                limits: records::no_limits(),
            },
            start: 0,
            room: 0,
            size: 0,
        }
    }

    fn write(self, words: &mut [u64], at: usize) {
        let limits = self.ty.limits;
        words::put(
            words,
            at,
            &[
                u64::from(self.ty.index.is_64()),
                u64::from(matches!(self.ty.page, PageSize::Wasm)),
                limits.minimum,
                u64::from(limits.bounded),
                limits.maximum,
                self.start as u64,
                self.room,
                self.size,
            ],
        );
    }

    fn read(words: &[u64], at: usize) -> Memory {
        Memory {
            ty: MemoryType {
                index: IndexType::of(words[at] == 1),
                page: if words[at + 1] == 1 {
                    PageSize::Wasm
                } else {
                    PageSize::One
                },
                limits: words::limits_from(words, at + 2),
            },
            start: words[at + 5] as usize,
            room: words[at + 6],
            size: words[at + 7],
        }
    }

    fn in_form(words: &[u64], at: usize) -> bool {
        form::record_in_form(words, at)
    }

    fn start(self) -> usize {
        self.start
    }

    fn room(self) -> u64 {
        self.room
    }

    fn sound_in(self, len: usize) -> bool {
        self.is_sound(len)
    }

    fn used(counts: Counts) -> usize {
        counts.memories
    }

    fn one_more(counts: Counts) -> Counts {
        Counts {
            memories: counts.memories + 1,
            ..counts
        }
    }

    fn change(self, i: usize) -> Change {
        Change::Memory(i, self)
    }

    ghost inside = { memories_inside };

    ghost long = { length_memory };

    ghost stands = { memories_stand };

    ghost few = { memories_few };

    ghost ends = { memory_ends };
}

impl Record for Table {
    const WIDTH: usize = RECORD;

    const PLACE: usize = TABLES;

    ghost WIDTH = { record_length };

    ghost PLACE = { tables_at };

    ghost none = { no_table };

    ghost written = { table_words };

    ghost read = { table_from };

    ghost in_form = { record_in_form };

    ghost start = { λ r. r.start };

    ghost room = { λ r. r.room };

    ghost sound = { λ len r. sound_table r len };

    ghost used = { λ k. k.tables };

    ghost more = { one_table_more };

    ghost listed = { λ m. m.tables };

    ghost change = { change.Table };

    fn none() -> Table {
        Table {
            ty: TableType {
                element: RefType::Func,
                index: IndexType::I32,
                limits: records::no_limits(),
            },
            start: 0,
            room: 0,
            size: 0,
        }
    }

    fn write(self, words: &mut [u64], at: usize) {
        let limits = self.ty.limits;
        words::put(
            words,
            at,
            &[
                u64::from(matches!(self.ty.element, RefType::Extern)),
                u64::from(self.ty.index.is_64()),
                limits.minimum,
                u64::from(limits.bounded),
                limits.maximum,
                self.start as u64,
                self.room,
                self.size,
            ],
        );
    }

    fn read(words: &[u64], at: usize) -> Table {
        Table {
            ty: TableType {
                element: element_of(words[at] == 1),
                index: IndexType::of(words[at + 1] == 1),
                limits: words::limits_from(words, at + 2),
            },
            start: words[at + 5] as usize,
            room: words[at + 6],
            size: words[at + 7],
        }
    }

    fn in_form(words: &[u64], at: usize) -> bool {
        form::record_in_form(words, at)
    }

    fn start(self) -> usize {
        self.start
    }

    fn room(self) -> u64 {
        self.room
    }

    fn sound_in(self, len: usize) -> bool {
        self.is_sound(len)
    }

    fn used(counts: Counts) -> usize {
        counts.tables
    }

    fn one_more(counts: Counts) -> Counts {
        Counts {
            tables: counts.tables + 1,
            ..counts
        }
    }

    fn change(self, i: usize) -> Change {
        Change::Table(i, self)
    }

    ghost inside = { tables_inside };

    ghost long = { length_table };

    ghost stands = { tables_stand };

    ghost few = { tables_few };

    ghost ends = { table_ends };
}

impl Record for ElementSegment {
    const WIDTH: usize = SEGMENT;

    const PLACE: usize = SEGMENTS;

    ghost WIDTH = { segment_length };

    ghost PLACE = { segments_at };

    ghost none = { no_segment };

    ghost written = { segment_words };

    ghost read = { segment_from };

    ghost in_form = { flag_at };

    ghost start = { λ r. r.start };

    ghost room = { λ r. r.places };

    ghost sound = { λ len r. sound_segment r len };

    ghost used = { λ k. k.segments };

    ghost more = { one_segment_more };

    ghost listed = { λ m. m.segments };

    ghost change = { change.Segment };

    fn none() -> ElementSegment {
        ElementSegment {
            ty: RefType::Func,
            start: 0,
            places: 0,
            size: 0,
        }
    }

    fn write(self, words: &mut [u64], at: usize) {
        words::put(
            words,
            at,
            &[
                u64::from(matches!(self.ty, RefType::Extern)),
                self.start as u64,
                self.places,
                self.size,
            ],
        );
    }

    fn read(words: &[u64], at: usize) -> ElementSegment {
        ElementSegment {
            ty: element_of(words[at] == 1),
            start: words[at + 1] as usize,
            places: words[at + 2],
            size: words[at + 3],
        }
    }

    fn in_form(words: &[u64], at: usize) -> bool {
        words[at] <= 1
    }

    fn start(self) -> usize {
        self.start
    }

    fn room(self) -> u64 {
        self.places
    }

    fn sound_in(self, len: usize) -> bool {
        self.is_sound(len)
    }

    fn used(counts: Counts) -> usize {
        counts.segments
    }

    fn one_more(counts: Counts) -> Counts {
        Counts {
            segments: counts.segments + 1,
            ..counts
        }
    }

    fn change(self, i: usize) -> Change {
        Change::Segment(i, self)
    }

    ghost inside = { segments_inside };

    ghost long = { length_segment };

    ghost stands = { segments_stand };

    ghost few = { segments_few };

    ghost ends = { segment_ends };
}

// Not `From<bool>`: it would not say which kind `true` is, as the parameter's name does.
fn element_of(external: bool) -> RefType
    ensures { result ≡ element_of external }
{
    if external {
        RefType::Extern
    } else {
        RefType::Func
    }
}
