//! The segments of a text as they are asked for one at a time, however they are kept.
ghost use Rattle.std.specs.Prelude.{◌≡◌, ◌<◌, List, length, slice_get};
ghost use Rattle.envelope_check.specs.declared.head.SegmentMark.{SegmentMark};

use crate::head::SegmentMark;

/// The first octet and the tag of each segment of a text, asked for one at a time.
pub trait SegmentMarks {
    /// Those of all segments, in order.
    ghost marks: { Self → List SegmentMark };

    /// That of the segment at place `i`, from 0. Callers ask in ascending order of places.
    fn mark(&mut self, i: u32) -> SegmentMark
        requires { i < length (marks self.old) }
        ensures is { slice_get (marks self.old) i ≡ Some result }
        ensures same { marks self.new ≡ marks self.old };
}

/// The marks of all segments in one slice.
#[derive(Clone, Copy, Debug)]
pub struct MarkList<'a> {
    pub marks: &'a [SegmentMark],
}

impl SegmentMarks for MarkList<'_> {
    ghost marks = { λ s. s.marks.now };

    fn mark(&mut self, i: u32) -> SegmentMark {
        self.marks[i as usize]
    }
}
