//! The components of a segment as a first look finds them: one look at each octet both cuts it and asks the level.
ghost use Rattle.std.specs.Prelude.{Some, [], ◌≡◌, ◌∷◌, ◌+◌, ◌^◌, ◌<◌, ◌≤◌, true, length, slice_index, IfNone, IfOk, IfSome, IsTrue};
ghost use Rattle.std.specs.Iterator.{YieldsFirstBy};
ghost use Rattle.std.specs.Option.{ForSome};
ghost use Rattle.edi_tables.specs.Tag.{is_tag_of};
ghost use Rattle.seg_lexer.specs.Fields.{are_single, components_of};
ghost use Rattle.element_check.specs.Repertoire.{AreAdmitted};
ghost use Rattle.element_check.specs.Streams.{after_front, front_values};
ghost use Rattle.clean_segments.specs.Kind.{AreInner, IsPassed, kind_of};
ghost use Rattle.clean_segments.specs.After.{IsAfterEnd};
ghost use Rattle.clean_segments.specs.Start.{IsStart, reached};
ghost use Rattle.edi_octets.specs.declared.octets.TheConstants.{LONGEST_TEXT};

use crate::fields::Start;
use crate::kinds::{OctetKind, OctetKinds};
use edi_tables::{Tag, is_tag};

/// A first look came to an octet at which it ends, with no answer.
#[derive(Clone, Copy, Debug)]
pub(crate) struct Stopped;

/// A place of a segment whose octet may not be a part of a value, and what that octet is.
#[derive(Clone, Copy, Debug)]
struct End {
    at: usize,
    kind: OctetKind,
}

/// The components that are left of a segment, in order, empty ones too. A first look doesn't end at any octet before them.
#[derive(Clone, Copy, Debug)]
pub(crate) struct LookedFields<'a> {
    kinds: &'a OctetKinds,
    octets: &'a [u8],
    next: Option<Start>,
    ghost short: { length octets.now ≤ LONGEST_TEXT },
    ghost here: { ForSome next (IsStart octets.now) },
    ghost passed: { IsPassed kinds.now.separators kinds.now.level octets.now
        (reached octets.now next) },
}

impl<'a> LookedFields<'a> {
    ghost use Rattle.clean_segments.specs.Looked.{AreOfOne, looked_left};

    /// The components of the segment of these octets.
    #[inline(always)]
    pub(crate) fn of(kinds: &'a OctetKinds, octets: &'a [u8]) -> LookedFields<'a>
        requires short { length octets.now ≤ LONGEST_TEXT }
        ensures left { looked_left result ≡ components_of kinds.now.separators octets.now }
        ensures kinds { result.kinds.now ≡ kinds.now }
        ensures octets { result.octets.now ≡ octets.now }
    {
        LookedFields {
            kinds,
            octets,
            next: Some(Start {
                at: 0,
                element: 0,
                component: 1,
            }),
        }
    }

    /// Whether none is left.
    #[tactic(auto, unfolding(crate::specs::Looked::looked_left))]
    pub(crate) fn is_at_end(&self) -> bool
        ensures left { IsTrue result → looked_left self.now ≡ [] }
        ensures single { IsTrue result
            → are_single (components_of self.now.kinds.now.separators self.now.octets.now) ≡ true }
    {
        self.next.is_none()
    }

    /// Whether the next component, if there is one, belongs to another element.
    #[inline(always)]
    #[tactic(auto, unfolding(crate::specs::Looked::looked_left))]
    pub(crate) fn is_past(&self, element: u32) -> bool
        ensures { IsTrue result → front_values element (looked_left self.now) ≡ [] }
    {
        match self.next {
            Some(start) => start.element != element,
            None => true,
        }
    }

    /// Takes the value of the next component, if it belongs to an element. The level admits its octets.
    #[inline(always)]
    pub(crate) fn take(&mut self, element: u32) -> Result<Option<&'a [u8]>, Stopped>
        ensures value { IfOk result (λ found. YieldsFirstBy (λ octets. octets.now)
            (λ fields. front_values element (looked_left fields)) self.old found self.new) }
        ensures after { IfOk result (λ _. after_front element (looked_left self.new)
            ≡ after_front element (looked_left self.old)) }
        ensures admitted { IfOk result (λ found. IfSome found
            (λ octets. AreAdmitted self.old.kinds.now.level octets.now)) }
        ensures one { AreOfOne self.old self.new }
    {
        let Some(start) = self.next else {
            return Ok(None);
        };
        if start.element != element {
            return Ok(None);
        }
        let octets = self.take_from(start)?;
        Ok(Some(octets))
    }

    // Takes the value of the next component, which begins there.
    #[inline(always)]
    fn take_from(&mut self, start: Start) -> Result<&'a [u8], Stopped>
        requires { self.old.next ≡ Some start }
        ensures left { IfOk result (λ octets. looked_left self.old
            ≡ record {
              element = start.element;
              repetition = 1;
              component = start.component;
              octets = octets.now;
            } ∷ looked_left self.new) }
        ensures admitted { IfOk result
            (λ octets. AreAdmitted self.old.kinds.now.level octets.now) }
        ensures one { AreOfOne self.old self.new }
    {
        let octets = self.octets;
        match self.find_end(start.at) {
            None => {
                self.next = None;
                Ok(&octets[start.at..])
            }
            Some(end) => {
                let next = after_end(start, end)?;
                self.next = Some(next);
                Ok(&octets[start.at..end.at])
            }
        }
    }

    // The first place from `from` on whose octet may not be a part of a value.
    #[inline(always)]
    fn find_end(&self, from: usize) -> Option<End>
        requires { from ≤ length self.now.octets.now }
        ensures none { IfNone result (AreInner self.now.kinds.now.separators
            self.now.kinds.now.level self.now.octets.now from (length self.now.octets.now)) }
        ensures inner { IfSome result (λ end. AreInner self.now.kinds.now.separators
            self.now.kinds.now.level self.now.octets.now from end.at) }
        ensures low { IfSome result (λ end. from ≤ end.at) }
        ensures high { IfSome result (λ end. end.at < length self.now.octets.now) }
        ensures kind { IfSome result (λ end. end.kind ≡ kind_of self.now.kinds.now.separators
            self.now.kinds.now.level (slice_index self.now.octets.now end.at)) }
    {
        let mut at = from;
        while at < self.octets.len() {
            match self.kinds.kind(self.octets[at]) {
                OctetKind::Inner => at += 1,
                kind => return Some(End { at, kind }),
            }
        }
        None
    }

    /// Takes the tag, where the tag field is one component that is a tag.
    #[inline(always)]
    pub(crate) fn take_tag(&mut self) -> Option<Tag>
        ensures field { IfSome result (λ tag.
            front_values 0 (looked_left self.old) ≡ tag.octets ∷ []) }
        ensures tag { IfSome result (λ tag. is_tag_of tag.octets ≡ true) }
        ensures after { IfSome result (λ tag.
            looked_left self.new ≡ after_front 0 (looked_left self.old)) }
        ensures one { AreOfOne self.old self.new }
    {
        let Ok(Some([first, second, third])) = self.take(0) else {
            return None;
        };
        let tag = Tag {
            octets: [*first, *second, *third],
        };
        if !is_tag(&tag.octets) {
            return None;
        }
        if !self.is_past(0) {
            return None;
        }
        Some(tag)
    }
}

// Where the component begins that is after the end of one, which begins at `start`.
#[inline(always)]
fn after_end(start: Start, end: End) -> Result<Start, Stopped>
    requires element { start.element + 1 < 2 ^ 32 }
    requires component { start.component + 1 < 2 ^ 32 }
    requires at { end.at < LONGEST_TEXT }
    ensures { IfOk result (λ next. IsAfterEnd start end.at end.kind next) }
{
    match end.kind {
        OctetKind::Element => Ok(Start {
            at: end.at + 1,
            element: start.element + 1,
            component: 1,
        }),
        OctetKind::Component => Ok(Start {
            at: end.at + 1,
            element: start.element,
            component: start.component + 1,
        }),
        OctetKind::Inner | OctetKind::Stop => Err(Stopped),
    }
}
