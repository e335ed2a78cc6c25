//! Where a definition may be, by the number of its name: the place that is looked at before a search by halving.
ghost use Rattle.std.specs.Prelude.{◌<◌};

use crate::earlier::{code_number, tag_number};
use edi_tables::{Code, ElementDef, SegmentDef, Tag};

// How many places are kept. By a prime number of them few names of a real directory share one.
const SLOTS: usize = 2039;

/// A place for each remainder of a number, perhaps a wrong one: whoever takes a place looks at what is there.
#[derive(Clone, Copy)]
pub(crate) struct Hints {
    places: [u16; SLOTS],
}

impl Hints {
    /// The first place for each number.
    pub fn none() -> Hints {
        Hints { places: [0; SLOTS] }
    }

    /// The places of data elements, by their codes.
    pub fn of_elements(elements: &[ElementDef]) -> Hints {
        let mut hints = Hints::none();
        for (element, place) in elements.iter().zip(0..u16::MAX) {
            hints.keep(code_number(element.code), place);
        }
        hints
    }

    /// The places of segments, by their tags.
    pub fn of_segments(segments: &[SegmentDef]) -> Hints {
        let mut hints = Hints::none();
        for (segment, place) in segments.iter().zip(0..u16::MAX) {
            hints.keep(tag_number(segment.tag), place);
        }
        hints
    }

    // Keeps a place for a number, and drops the one that was kept for its remainder.
    fn keep(&mut self, number: u32, place: u16) {
        self.places[slot_of(number)] = place;
    }

    /// The place that is kept for a data element of this code.
    #[inline]
    pub fn of_code(&self, code: Code) -> usize {
        usize::from(self.places[slot_of(code_number(code))])
    }

    /// The place that is kept for a segment of this tag.
    #[inline]
    pub fn of_tag(&self, tag: Tag) -> usize {
        usize::from(self.places[slot_of(tag_number(tag))])
    }
}

// The remainder of a number.
#[inline]
fn slot_of(number: u32) -> usize
    ensures { result < 2039 }
{
    number as usize % SLOTS
}
