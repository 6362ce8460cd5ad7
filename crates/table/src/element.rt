// Element segments: a kind, and items at places of a lent buffer.
#![tactic(auto, using(types::proofs::Picks::cases, types::proofs::Dones::done_as, crate::proofs::Puts::cut_all, crate::proofs::Sounds::tested_buffer, crate::proofs::Sounds::item_within), unfolding(crate::specs::Element::sound_segment, crate::specs::Element::item_of, crate::specs::Element::new_segment))]

ghost use Rattle.std.specs.Prelude.{◌≡◌};
ghost use Rattle.types.specs.Done.{done};
ghost use Rattle.table.specs.Element.{sound_segment, dropped, item_of, new_segment};

use super::{cells, table};
use types::answer::{Answer, Reason, Refusal, Value};
use types::raw::RefType;

// `size` items at the `places` places from `start` on.
#[derive(Clone, Copy)]
pub struct ElementSegment {
    pub ty: RefType,
    pub start: usize,
    pub places: u64,
    pub size: u64,
}

impl ElementSegment {
    // A segment of the given items, which go to the places from `start` on; 19 where these are not inside the buffer.
    pub fn new(
        ty: RefType,
        start: usize,
        items: &mut [u64],
        given: &[u64],
    ) -> Result<ElementSegment, Refusal>
        ensures { done result items.new ≡ new_segment ty start items.old given.now }
    {
        let n = given.len();
        if !table::sound_buffer(start, n as u64, items.len()) {
            return Err(Refusal::from(Reason::Unsound));
        }
        cells::init_cells(items, start, given, 0, n);
        Ok(ElementSegment {
            ty,
            start,
            places: n as u64,
            size: n as u64,
        })
    }

    // Whether the record is sound over a buffer of `len` items.
    pub fn is_sound(self, len: usize) -> bool
        ensures { result ≡ sound_segment self len }
    {
        table::sound_buffer(self.start, self.places, len) && self.size <= self.places
    }

    // An item: 9 outside.
    pub fn item(self, items: &[u64], index: u64) -> Answer
        ensures { result ≡ item_of self items.now index }
    {
        let len = items.len();
        if !self.is_sound(len) {
            return Err(Refusal::from(Reason::Unsound));
        }
        if self.size <= index {
            return Err(Refusal::from(Reason::AccessOutside));
        }
        let at = self.start + (index as usize);
        let cell = items[at];
        Ok(Value::Number(cell))
    }

    // The segment becomes empty, again too.
    pub fn drop_items(self) -> ElementSegment
        ensures { result ≡ dropped self }
    {
        ElementSegment { size: 0, ..self }
    }
}
