//! Steps of segments that are remembered, so that the same step isn't looked for again.
ghost use Rattle.std.specs.Prelude.{◌≡◌, [], Some, false, set, slice_get, IfNone, IfOk, IfSome, IsTrue};
ghost use Rattle.dir_compile.specs.declared.parts.Parts.{Parts};
ghost use Rattle.segment_records.specs.declared.known.KnownStep.{KnownStep};
ghost use Rattle.segment_records.specs.Known.{AreKnown, IsKnown, IsPlaceOf, IsPlaced, IsStepOf};

use edi_tables::Tag;
use std::alloc::{AllocError, Global};
use std::marker::Model;
use table_walk::{FewPairs, Placed, State};

/// How many steps are remembered at most, if the text isn't long.
const PLACES: usize = 1_024;

/// How many of a long text, which has at least `LONG_TEXT` octets.
const MOST_PLACES: usize = 4_096;

/// A text of so many octets is long.
const LONG_TEXT: usize = 262_144;

/// A step of a segment with this tag in a message that has the table of this number: the pairs before it, its entry and the pairs
/// after it. Nothing is missing before it, and it isn't one too many.
#[derive(Debug, Drop)]
pub(crate) struct KnownStep {
    pub(crate) table: u32,
    pub(crate) tag: Tag,
    pub(crate) entry: u16,
    pub(crate) before: FewPairs,
    pub(crate) after: FewPairs,
}

/// Steps of segments in the tables of one directory.
///
/// A step depends on the table, on the pairs before it and on the tag alone, and the messages of a text take the same steps again
/// and again.
#[derive(Debug, Drop)]
pub struct KnownSteps {
    // As many as there is room for, a power of two; or none where nothing is remembered.
    places: Vec<Option<KnownStep>>,
    // For each place, that of the step which came next when it was last taken; and the place of the step that was taken last.
    next: Vec<u16>,
    last: u16,
    // The bits of a place.
    mask: u16,
}

impl Model for KnownSteps {
    ghost use Rattle.std.specs.Prelude.{List, Option};
    ghost use Rattle.segment_records.specs.declared.known.KnownStep.{KnownStep};

    ghost Value = { List (Option KnownStep) };

    ghost view = { λ k. k.places.items };
}

impl KnownSteps {
    /// None yet, of a text that has so many octets. There is room for more of them in a long one.
    pub fn none(alloc: Global, octets: usize) -> Result<KnownSteps, AllocError>
        ensures { IfOk result (λ known. (directory : Parts) → AreKnown directory known) }
    {
        let count = if octets < LONG_TEXT {
            PLACES
        } else {
            MOST_PLACES
        };
        let mut places = Vec::with_capacity(alloc, count)?;
        for _ in 0..count {
            places.push(None)?;
        }
        Ok(KnownSteps {
            places,
            next: Vec::from_elem(alloc, 0, count)?,
            last: 0,
            mask: count as u16 - 1,
        })
    }

    /// A list that stays empty: nothing is remembered, and no memory is taken. For a few segments that costs less.
    pub fn forgetful(alloc: Global) -> KnownSteps
        ensures { (directory : Parts) → AreKnown directory result }
    {
        KnownSteps {
            places: Vec::new(alloc),
            next: Vec::new(alloc),
            last: 0,
            mask: 0,
        }
    }

    /// The place of the step of a segment with this tag after these pairs of the table of this number, if it is remembered. The
    /// place of the step that came next last time is looked at first.
    #[inline(never)]
    pub(crate) fn place_of(&self, table: u32, before: &FewPairs, tag: Tag) -> Option<u16>
        ensures { IfSome result (λ place. IsPlaceOf self.now place table before.now tag) }
    {
        let next = self.next_after(self.last);
        if self.is_at(next, table, before, tag) {
            return Some(next);
        }
        if self.places.is_empty() {
            return None;
        }
        let place = self.place_for(before, tag);
        if self.is_at(place, table, before, tag) {
            return Some(place);
        }
        None
    }

    // The place for the step of a segment with this tag after these pairs.
    #[inline(always)]
    fn place_for(&self, before: &FewPairs, tag: Tag) -> u16 {
        let [first, second, third] = tag.octets;
        let word = u64::from(first) << 16 | u64::from(second) << 8 | u64::from(third);
        let digest = before
            .digest()
            .wrapping_add(word)
            .wrapping_mul(0x9E37_79B9_7F4A_7C15);
        (digest >> 48) as u16 & self.mask
    }

    // The place of the step that came after the one at a place when that was last taken.
    #[inline(always)]
    fn next_after(&self, place: u16) -> u16 {
        match self.next.get(usize::from(place)) {
            Some(next) => *next,
            None => 0,
        }
    }

    // Whether the step at a place is this one.
    #[inline(always)]
    fn is_at(&self, place: u16, table: u32, before: &FewPairs, tag: Tag) -> bool
        ensures { IsTrue result → IsPlaceOf self.now place table before.now tag }
    {
        match self.at(place) {
            Some(known) => known.is_of(table, before, tag),
            None => false,
        }
    }

    /// The step at a place, if there is one.
    #[inline(always)]
    pub(crate) fn at(&self, place: u16) -> Option<&KnownStep>
        ensures is { IfSome result
            (λ known. slice_get self.now place ≡ Some (Some known.now)) }
        ensures none { IfNone result
            ((known : KnownStep) → slice_get self.now place ≡ Some (Some known) → ⊥) }
    {
        match self.places.get(usize::from(place)) {
            Some(Some(known)) => Some(known),
            _ => None,
        }
    }

    /// Notes that the step at a place is taken.
    #[inline(always)]
    pub(crate) fn go_to(&mut self, place: u16)
        ensures { self.new ≡ self.old }
    {
        if let Some(next) = self.next.get_mut(usize::from(self.last)) {
            *next = place;
        }
        self.last = place;
    }

    /// Remembers the step from a state to a place, if it can be known.
    pub(crate) fn keep(&mut self, table: u32, state: &State, tag: Option<Tag>, next: &Placed)
        ensures { (directory : Parts) → AreKnown directory self.old
            → IsPlaced directory table state.now tag next.now → AreKnown directory self.new }
    {
        if self.places.is_empty() {
            return;
        }
        let Some(known) = KnownStep::of(table, state, tag, next) else {
            return;
        };
        self.put(known);
    }

    // Remembers a step, in the place of another.
    fn put(&mut self, known: KnownStep)
        ensures { (directory : Parts) → AreKnown directory self.old
            → IsKnown directory known → AreKnown directory self.new }
    {
        let place = self.place_for(&known.before, known.tag);
        self.go_to(place);
        self.put_at(usize::from(place), known);
    }

    // Remembers a step at a place, if there is such a place.
    fn put_at(&mut self, place: usize, known: KnownStep)
        ensures { self.new ≡ set self.old place (Some known) }
    {
        if let Some(kept) = self.places.get_mut(place) {
            *kept = Some(known);
        }
    }
}

impl KnownStep {
    // The step from a state to a place, if it can be known: it has a tag, nothing is missing before it, it isn't one too many, and
    // the pairs before and after it are few.
    fn of(table: u32, state: &State, tag: Option<Tag>, next: &Placed) -> Option<KnownStep>
        ensures { (directory : Parts) → IsPlaced directory table state.now tag next.now
            → IfSome result (IsKnown directory) }
    {
        if !is_well_placed(next) {
            return None;
        }
        let before = state.few()?;
        let after = next.state.few()?;
        Some(KnownStep {
            table,
            tag: tag?,
            entry: next.entry?,
            before: before.copy(),
            after: after.copy(),
        })
    }

    // Whether it is that of a segment with this tag after these pairs of the table of this number.
    #[inline(always)]
    fn is_of(&self, table: u32, before: &FewPairs, tag: Tag) -> bool
        ensures { IsTrue result → IsStepOf table before.now tag self.now }
    {
        self.tag == tag && self.table == table && self.before.are(before)
    }
}

// Whether nothing is missing before a place, and it isn't one too many.
fn is_well_placed(next: &Placed) -> bool
    ensures over { IsTrue result → next.now.over ≡ false }
    ensures missing { IsTrue result → next.now.missing.items ≡ [] }
{
    !next.over && next.missing.is_empty()
}
