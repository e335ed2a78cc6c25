//! The errors of a segment, as lines of the error list.
ghost use Rattle.std.specs.Prelude.{◌≡◌};
ghost use Rattle.segment_records.specs.Errors.{error_with};
ghost use Rattle.segment_records.specs.Line.{seen_error};
ghost use Rattle.segment_records.specs.Look.{seen_of};

use crate::walked_segment::WalkedSegment;
use envelope_check::SegmentMark;
use error_ledger::{ErrorLine, Kind};

/// An error of segment `k`, from 1, which has this mark, at a component of an element, both from 1: 0 is the
/// whole segment, or the whole element. An error of the text itself is of segment 0.
pub fn error_with(k: u32, mark: SegmentMark, element: u32, component: u32, kind: Kind) -> ErrorLine
    ensures { result ≡ error_with k mark element component kind }
{
    ErrorLine {
        segment: k,
        start: mark.start,
        tag: mark.tag,
        element,
        component,
        kind,
        node: 0,
        missing: None,
    }
}

impl WalkedSegment<'_> {
    /// An error of the segment at a component of an element.
    pub fn error(&self, element: u32, component: u32, kind: Kind) -> ErrorLine
        ensures { result ≡ seen_error (seen_of self.now) element component kind }
    {
        let mark = SegmentMark {
            start: self.start(),
            tag: self.record.tag(),
        };
        error_with(self.number, mark, element, component, kind)
    }
}
