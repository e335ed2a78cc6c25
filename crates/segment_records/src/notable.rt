//! The segments of a text of which something is to be said: those between them are never looked at.
ghost use Rattle.std.specs.Prelude.{◌≡◌, ◌+◌, ◌*◌, ◌^◌, ◌<◌, ◌≤◌, ℕ, [], ◌∷◌, length, take, filter, slice_get, slice_range, IfNone, IfSome, Some};
ghost use Rattle.std.specs.Option.{option_copied};
ghost use Rattle.segment_records.specs.Look.{seen_of};
ghost use Rattle.segment_records.specs.Notable.{is_notable};
ghost use Rattle.segment_records.specs.WalkedSegments.{AreStretches, mode_left, octets_in, seen_from};

use crate::mode::Mode;
use crate::record::Record;
use crate::tags::bounds_message;
use crate::walked_segment::WalkedSegment;
use seq_tree::{MarkedItems, Seq};
use std::marker::{Brand, Model};
use std::sync::ledger::{Blank, Ledger};
use step_counter::Steps;

/// The notable segments of a text in order, seen as those that are to come and the number of all segments. It takes no memory.
///
/// A segment is notable if its record is marked, or if its message ends with it.
#[derive(Drop)]
pub struct NotableSegments<'e> {
    records: &'e Seq<Record>,
    // The boundary before the first segment, and the mode there.
    from: u32,
    before: &'e Mode,
    // How many segments are done with, and how many of them are marked.
    done: usize,
    marked: u32,
    // The way to those of the others.
    way: MarkedItems<'e, Record>,
}

impl<'e> Model for NotableSegments<'e> {
    ghost use Rattle.std.specs.Prelude.{List, ℕ};
    ghost use Rattle.segment_records.specs.WalkedSegments.{SeenSegment};

    ghost Value = { List SeenSegment × ℕ };

    ghost use Rattle.segment_records.specs.NotableWalk.{IsNotableWalk, notable_left};

    ghost view = { notable_left };

    ghost invariant = { IsNotableWalk };
}

impl<'e> NotableSegments<'e> {
    /// Those of the segments of which these records are kept: the first is number 1, after the boundary `from`, in octets from 0,
    /// and after this mode.
    pub fn of(records: &'e Seq<Record>, from: u32, before: &'e Mode) -> NotableSegments<'e>
        requires { AreStretches 1 from records.now }
        ensures notable { result.0 ≡ filter is_notable (seen_from 1 from before.now records.now) }
        ensures count { result.1 ≡ length records.now }
    {
        NotableSegments {
            records,
            from,
            before,
            done: 0,
            marked: 0,
            way: records.marked_items(),
        }
    }

    /// The next one. Each node of the tree of records that is visited counts once.
    #[inline(always)]
    pub fn next_counted<L: Ledger>(&mut self, visited: &mut Steps<L>) -> Option<WalkedSegment<'e>>
        ensures next { IfSome result (λ seen. self.old.0 ≡ seen_of seen ∷ self.new.0) }
        ensures end { IfNone result ((self.old.0 ≡ []) × (self.new.0 ≡ [])) }
        ensures count { self.new.1 ≡ self.old.1 }
        ensures cost { (b : ℕ)
            → self.old.1 < 2 ^ b
            → visited.new ≤ visited.old + 4 * (2 * b + 2) }
    {
        let records = self.records;
        if self.marked == records.marks() {
            // None of those that are left is marked, but the last segment is notable.
            if self.done == records.len() {
                return None;
            }
            self.done = records.len();
            let near = Nearby {
                records,
                from: self.from,
                before: self.before,
                leaf: &[],
                first: 0,
            };
            return Some(near.segment_at(self.done - 1, records.total(), visited));
        }
        let marked = self.way.find(self.marked, visited);
        let near = Nearby {
            records,
            from: self.from,
            before: self.before,
            leaf: marked.leaf,
            first: marked.first,
        };
        if marked.place > self.done && bounds_message(marked.item.tag()) {
            // A message ends with the segment before it.
            self.done = marked.place;
            return Some(near.segment_at(marked.place - 1, marked.before, visited));
        }
        self.done = marked.place + 1;
        self.marked += 1;
        let end = marked.before + u64::from(marked.item.octets());
        Some(near.segment_at(marked.place, end, visited))
    }
}

impl<'e> Iterator for NotableSegments<'e> {
    type Item = WalkedSegment<'e>;

    ghost use Rattle.std.specs.Iterator.{YieldsFirstBy, item_count};
    ghost use Rattle.segment_records.specs.Look.{seen_of};

    ghost next_gives = { YieldsFirstBy seen_of (λ walk. walk.0) };

    ghost remaining = { item_count (λ walk. walk.0) };

    #[inline(always)]
    fn next(&mut self) -> Option<WalkedSegment<'e>> {
        next_uncounted::<Brand>(self, Blank::new(1))
    }
}

// The next one, by a counter that nobody reads.
#[inline(always)]
fn next_uncounted<'e, L: Ledger>(
    segments: &mut NotableSegments<'e>,
    blank: Blank,
) -> Option<WalkedSegment<'e>>
    requires name { blank.name ≡ L.name }
    requires parts { blank.parts ≡ L.parts }
    requires some { 0 < blank.parts }
    ensures next { IfSome result (λ seen. segments.old.0 ≡ seen_of seen ∷ segments.new.0) }
    ensures end { IfNone result ((segments.old.0 ≡ []) × (segments.new.0 ≡ [])) }
    ensures count { segments.new.1 ≡ segments.old.1 }
{
    segments.next_counted(&mut Steps::<L>::start(blank))
}

// The records of a text, with the boundary before the first and the mode there. Those of one leaf, from place `first` on, are at
// hand; the others are found by a way down.
#[derive(Clone, Copy)]
struct Nearby<'e> {
    records: &'e Seq<Record>,
    from: u32,
    before: &'e Mode,
    leaf: &'e [Record],
    first: usize,
    ghost stretches: { AreStretches 1 from records.now },
    ghost lies: { slice_range records.now first (first + length leaf.now) ≡ leaf.now },
}

impl<'e> Nearby<'e> {
    // The record at a place.
    fn record_at<L: Ledger>(&self, place: usize, visited: &mut Steps<L>) -> &'e Record
        requires within { place < length self.now.records.now }
        ensures is { slice_get self.now.records.now place ≡ Some result.now }
        ensures cost { (b : ℕ)
            → length self.now.records.now < 2 ^ b
            → visited.new ≤ visited.old + (2 * b + 2) }
    {
        if place >= self.first && place - self.first < self.leaf.len() {
            return &self.leaf[place - self.first];
        }
        self.records.at(place, visited)
    }

    // The record after that at a place, if there is one.
    fn record_after<L: Ledger>(&self, place: usize, visited: &mut Steps<L>) -> Option<&'e Record>
        requires within { place < length self.now.records.now }
        ensures is { option_copied result ≡ slice_get self.now.records.now (place + 1) }
        ensures cost { (b : ℕ)
            → length self.now.records.now < 2 ^ b
            → visited.new ≤ visited.old + (2 * b + 2) }
    {
        if place + 1 == self.records.len() {
            return None;
        }
        Some(self.record_at(place + 1, visited))
    }

    // The mode before the segment at a place.
    fn mode_before<L: Ledger>(&self, place: usize, visited: &mut Steps<L>) -> &'e Mode
        requires within { place < length self.now.records.now }
        ensures is { result.now ≡ mode_left self.now.before.now (take place self.now.records.now) }
        ensures cost { (b : ℕ)
            → length self.now.records.now < 2 ^ b
            → visited.new ≤ visited.old + (2 * b + 2) }
    {
        if place == 0 {
            return self.before;
        }
        self.record_at(place - 1, visited).mode()
    }

    // The segment at a place, before whose end there are so many octets. At most three ways down are gone.
    #[inline(always)]
    fn segment_at<L: Ledger>(
        &self,
        place: usize,
        end: u64,
        visited: &mut Steps<L>,
    ) -> WalkedSegment<'e>
        requires within { place < length self.now.records.now }
        requires end { end ≡ octets_in (take (place + 1) self.now.records.now) }
        ensures is { slice_get
            (seen_from 1 self.now.from self.now.before.now self.now.records.now) place
            ≡ Some (seen_of result) }
        ensures cost { (b : ℕ)
            → length self.now.records.now < 2 ^ b
            → visited.new ≤ visited.old + 3 * (2 * b + 2) }
    {
        let before = self.mode_before(place, visited);
        let record = self.record_at(place, visited);
        let next = self.record_after(place, visited);
        WalkedSegment {
            number: place as u32 + 1,
            from: self.from + (end - u64::from(record.octets())) as u32,
            before,
            record,
            next,
        }
    }
}
