//! The first octet and the tag of each segment of a text, as the rules on envelopes ask for them.
ghost use Rattle.std.specs.Prelude.{◌≡◌, ◌+◌, ◌<◌, ◌≤◌, Some, drop, length, slice_get};
ghost use Rattle.dir_compile.specs.Directory.{IsDirectory};
ghost use Rattle.seg_lexer.specs.Context.{context_of};
ghost use Rattle.seg_lexer.specs.Segments.{boundaries_of};
ghost use Rattle.segment_records.specs.Count.{segment_count_of};
ghost use Rattle.segment_records.specs.Heads.{marks_of};
ghost use Rattle.segment_records.specs.Segments.{segments_of_text};
ghost use Rattle.segment_records.specs.WalkedSegments.{seen_in};
ghost use Rattle.edi_octets.specs.declared.octets.TheConstants.{LONGEST_TEXT};

use edi_octets::Flat;
use envelope_check::{SegmentMark, SegmentMarks};
use kept_text::KeptText;
use seg_lexer::{Context, Lexed, Service, next_segment, read_tag};
use segment_records::Segments;
use std::marker::Brand;
use std::sync::ledger::{Blank, Ledger};
use step_counter::Steps;

/// The marks of the segments of a text. A walk over the segments gives them one after the other; where another one than the
/// next is asked for, a new walk begins there.
#[derive(Drop)]
pub(crate) struct KeptMarks<'k, 'd> {
    kept: &'k KeptText<'d>,
    walk: Segments<'k>,
    // The place, from 0, of the segment that the walk gives next.
    place: u32,
    ghost walked: { walk ≡ drop place (seen_in kept.now.directory kept.now.text) },
    ghost few: { length (seen_in kept.now.directory kept.now.text) ≤ LONGEST_TEXT },
    ghost lawful: { IsDirectory kept.now.directory },
}

impl<'k, 'd> KeptMarks<'k, 'd> {
    /// Those of the segments of a text.
    pub(crate) fn of(kept: &'k KeptText<'d>) -> KeptMarks<'k, 'd>
        ensures { result.kept.now ≡ kept.now }
    {
        KeptMarks {
            kept,
            walk: kept.segments(),
            place: 0,
        }
    }

    // Begins a new walk at a place, unless the walk is there.
    fn go_to(&mut self, place: u32)
        requires { place ≤ segment_count_of self.old.kept.now.text }
        ensures there { self.new.place ≡ place }
        ensures same { self.new.kept.now ≡ self.old.kept.now }
    {
        if place != self.place {
            self.walk = self.kept.segments_after(place);
            self.place = place;
        }
    }
}

impl SegmentMarks for KeptMarks<'_, '_> {
    ghost marks = { λ s. marks_of (segments_of_text s.kept.now.text) };

    fn mark(&mut self, i: u32) -> SegmentMark {
        self.go_to(i);
        let Some(seen) = self.walk.next() else {
            unreachable!();
        };
        self.place += 1;
        SegmentMark {
            start: seen.start(),
            tag: seen.record.tag(),
        }
    }
}

/// The marks of the segments of octets, which are found in the octets: one after the other, and from the first on again where an
/// earlier one than the next is asked for.
#[derive(Drop)]
pub(crate) struct TextMarks<'t> {
    octets: &'t [u8],
    service: Service,
    // The place, from 0, of the segment that is found next, and the boundary before it.
    place: u32,
    from: usize,
    ghost short: { length octets.now ≤ LONGEST_TEXT },
    ghost read_by: { service ≡ (context_of octets.now).service },
    ghost bound: { slice_get (boundaries_of service octets.now) place ≡ Some from },
}

impl<'t> TextMarks<'t> {
    /// Those of octets that have this context.
    pub(crate) fn of(octets: &'t [u8], context: &Context) -> TextMarks<'t>
        requires short { length octets.now ≤ LONGEST_TEXT }
        requires context { context.now ≡ context_of octets.now }
        ensures { result.octets.now ≡ octets.now }
    {
        TextMarks {
            octets,
            service: context.service,
            place: 0,
            from: context.service.body,
        }
    }

    // The mark of the next segment.
    fn next_mark<L: Ledger>(&mut self, blank: Blank) -> SegmentMark
        requires within { self.old.place
            < length (marks_of (segments_of_text self.old.octets.now)) }
        requires name { blank.name ≡ L.name }
        requires parts { blank.parts ≡ L.parts }
        requires some { 0 < blank.parts }
        ensures is { slice_get (marks_of (segments_of_text self.old.octets.now)) self.old.place
            ≡ Some result }
        ensures passed { self.new.place ≡ self.old.place + 1 }
        ensures same { self.new.octets.now ≡ self.old.octets.now }
    {
        let text = Flat {
            octets: self.octets,
        };
        let mut lexed = Steps::<L>::start(blank);
        let found = next_segment(&text, &self.service, self.from, &mut lexed);
        let Lexed::Ended { start, end } = found else {
            unreachable!();
        };
        let tag = read_tag(&text, &self.service, start, end);
        self.from = end + 1;
        self.place += 1;
        SegmentMark {
            start: start as u32,
            tag,
        }
    }

    // Goes back to the first segment, unless the one at a place is still to be found.
    fn go_back(&mut self, place: u32)
        ensures reached { self.new.place ≤ place }
        ensures same { self.new.octets.now ≡ self.old.octets.now }
    {
        if place < self.place {
            self.from = self.service.body;
            self.place = 0;
        }
    }
}

impl SegmentMarks for TextMarks<'_> {
    ghost marks = { λ s. marks_of (segments_of_text s.octets.now) };

    fn mark(&mut self, i: u32) -> SegmentMark {
        self.go_back(i);
        while self.place < i {
            let _passed = self.next_mark::<Brand>(Blank::new(1));
        }
        self.next_mark::<Brand>(Blank::new(1))
    }
}
