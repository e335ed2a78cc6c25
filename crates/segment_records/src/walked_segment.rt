//! The records of a text with what is worked out of them: numbers, places, and the mode before each.
ghost use Rattle.std.specs.Prelude.{◌≡◌, ◌+◌, ◌-◌, ◌<◌, ◌≤◌, drop, length, take};
ghost use Rattle.edi_octets.specs.declared.octets.TheConstants.{LONGEST_TEXT};
ghost use Rattle.segment_records.specs.WalkedSegments.{mode_left, octets_in};

use crate::mode::Mode;
use crate::record::Record;
use edi_octets::Octets;
use seg_lexer::{Fields, Service, fields};
use seq_tree::{Iter, Seq};
use std::marker::{Brand, Model};
use std::sync::ledger::{Blank, Ledger};
use step_counter::Steps;

/// A segment of a text: its number, from 1, the boundary before it, in octets from 0, the mode before it, what is kept of it,
/// and of the one after it, if there is one. The boundary is where the segment before it ends; line ends in front of its
/// tag are after it.
#[derive(Clone, Copy)]
pub struct WalkedSegment<'e> {
    pub number: u32,
    pub from: u32,
    pub before: &'e Mode,
    pub record: &'e Record,
    pub next: Option<&'e Record>,
    pub ghost filled: { record.now.breaks < record.now.octets },
    pub ghost within: { from + record.now.octets ≤ LONGEST_TEXT },
    pub ghost numbered: { number ≤ from + 1 },
}

impl WalkedSegment<'_> {
    ghost use Rattle.seg_lexer.specs.Left.{components_left};
    ghost use Rattle.seg_lexer.specs.Service.{IsUsable};
    ghost use Rattle.segment_records.specs.Look.{seen_of};
    ghost use Rattle.segment_records.specs.Told.{components_seen};

    /// The place of its first octet, from 0.
    pub fn start(&self) -> u32
        ensures { result ≡ self.now.from + self.now.record.now.breaks }
    {
        self.from + self.record.breaks()
    }

    /// The place of its terminator, from 0.
    pub(crate) fn end(&self) -> u32
        ensures { result ≡ self.now.from + (self.now.record.now.octets - 1) }
    {
        self.from + (self.record.octets() - 1)
    }

    /// Its components, in its text.
    pub fn components<'t, O: Octets>(&self, text: &'t O, service: &Service) -> Fields<'t, O>
        requires usable { IsUsable service.now (O.octets text.now) }
        requires short { length (O.octets text.now) ≤ LONGEST_TEXT }
        requires within { self.now.from + self.now.record.now.octets
            ≤ length (O.octets text.now) }
        ensures { components_left result
            ≡ components_seen service.now (O.octets text.now) (seen_of self.now) }
    {
        fields(text, service, self.start() as usize, self.end() as usize)
    }
}

/// The segments of a text in order, seen as those that are to come. It takes no memory.
#[derive(Drop)]
pub struct Segments<'e> {
    number: u32,
    from: u32,
    before: &'e Mode,
    current: Option<&'e Record>,
    rest: Iter<'e, Record>,
}

impl<'e> Model for Segments<'e> {
    ghost use Rattle.std.specs.Prelude.{List};
    ghost use Rattle.segment_records.specs.WalkedSegments.{SeenSegment};

    ghost Value = { List SeenSegment };

    ghost use Rattle.segment_records.specs.Walked.{IsWalk, segments_left};

    ghost view = { segments_left };

    ghost invariant = { IsWalk };
}

impl<'e> Segments<'e> {
    ghost use Rattle.segment_records.specs.WalkedSegments.{AreStretches, seen_from};

    /// Those of which these records are kept: the first is number 1, after the boundary `from`, in octets from 0, and after
    /// this mode.
    pub fn of(records: &'e Seq<Record>, from: u32, before: &'e Mode) -> Segments<'e>
        requires { AreStretches 1 from records.now }
        ensures { result ≡ seen_from 1 from before.now records.now }
    {
        let mut rest = records.iter();
        let current = rest.next();
        Segments {
            number: 1,
            from,
            before,
            current,
            rest,
        }
    }

    /// Those from place `count` on, counted from 0, of all of which these records are kept: the first of all is number 1, after
    /// the boundary `from` and after the mode `before`.
    pub fn after(
        records: &'e Seq<Record>,
        count: usize,
        from: u32,
        before: &'e Mode,
    ) -> Segments<'e>
        requires within { count ≤ length records.now }
        requires stretches { AreStretches 1 from records.now }
        ensures { result ≡ drop count (seen_from 1 from before.now records.now) }
    {
        let octets = octets_before::<Brand>(records, count, Blank::new(1));
        let before = mode_after::<Brand>(records, count, before, Blank::new(1));
        let mut rest = records.iter_from(count);
        let current = rest.next();
        Segments {
            number: count as u32 + 1,
            from: from + octets as u32,
            before,
            current,
            rest,
        }
    }
}

// How many octets the first `count` segments have, by a counter that nobody reads.
fn octets_before<L: Ledger>(records: &Seq<Record>, count: usize, blank: Blank) -> u64
    requires within { count ≤ length records.now }
    requires name { blank.name ≡ L.name }
    requires parts { blank.parts ≡ L.parts }
    requires some { 0 < blank.parts }
    ensures { result ≡ octets_in (take count records.now) }
{
    records.before(count, &mut Steps::<L>::start(blank))
}

// The mode after the first `count` segments, which is this one after none, by a counter that nobody reads.
fn mode_after<'e, L: Ledger>(
    records: &'e Seq<Record>,
    count: usize,
    before: &'e Mode,
    blank: Blank,
) -> &'e Mode
    requires within { count ≤ length records.now }
    requires name { blank.name ≡ L.name }
    requires parts { blank.parts ≡ L.parts }
    requires some { 0 < blank.parts }
    ensures { result.now ≡ mode_left before.now (take count records.now) }
{
    if count == 0 {
        return before;
    }
    records.at(count - 1, &mut Steps::<L>::start(blank)).mode()
}

impl<'e> Iterator for Segments<'e> {
    type Item = WalkedSegment<'e>;

    ghost use Rattle.std.specs.Iterator.{YieldsFirstBy, item_count};
    ghost use Rattle.segment_records.specs.Look.{seen_of};

    ghost next_gives = { YieldsFirstBy seen_of (λ left. left) };

    ghost remaining = { item_count (λ left. left) };

    // Each walk over a text's segments makes one such call for each.
    #[inline(always)]
    fn next(&mut self) -> Option<WalkedSegment<'e>> {
        let record = self.current?;
        let next = self.rest.next();
        let seen = WalkedSegment {
            number: self.number,
            from: self.from,
            before: self.before,
            record,
            next,
        };
        self.number += 1;
        self.from += record.octets();
        self.before = record.mode();
        self.current = next;
        Some(seen)
    }
}
