//! The components of a segment that lies in one slice and has neither release character nor repetition separator.
ghost use Rattle.std.specs.Prelude.{Some, [], ◌≡◌, ◌∷◌, ◌+◌, ◌<◌, ◌≤◌, ◌^◌, false, true, length, slice_index, IfNone, IfSome, IsTrue};
ghost use Rattle.std.specs.List.{list_any};
ghost use Rattle.std.specs.Option.{ForSome};
ghost use Rattle.memchr.specs.Find.{IsFirst};
ghost use Rattle.seg_lexer.specs.Fields.{are_single, components_of, is_separator};
ghost use Rattle.seg_lexer.specs.Released.{is_release as is_release_of};
ghost use Rattle.clean_segments.specs.Start.{IsSeparator, IsStart};
ghost use Rattle.edi_octets.specs.declared.octets.TheConstants.{LONGEST_TEXT};

use seg_lexer::{Separators, has_release, has_separator};

/// Where a component begins, counted from the segment's first octet, and its numbers.
#[derive(Clone, Copy, Debug)]
pub(crate) struct Start {
    pub(crate) at: usize,
    pub(crate) element: u32,
    pub(crate) component: u32,
}

/// A component of a plain segment: its numbers, as those of `seg_lexer::Component`, and its octets, which the segment lends.
#[derive(Clone, Copy, Debug)]
pub struct PlainComponent<'a> {
    pub element: u32,
    pub component: u32,
    pub octets: &'a [u8],
}

/// The components that are left of a plain segment, one that has neither release character nor repetition separator, in order,
/// empty ones too.
#[derive(Clone, Copy, Debug)]
pub struct PlainFields<'a> {
    octets: &'a [u8],
    separators: Separators,
    next: Option<Start>,
    ghost plain: { list_any (is_release_of separators.release) octets.now ≡ false },
    ghost single: { list_any (is_separator separators.repetition) octets.now ≡ false },
    ghost short: { length octets.now ≤ LONGEST_TEXT },
    ghost here: { ForSome next (IsStart octets.now) },
}

impl<'a> PlainFields<'a> {
    ghost use Rattle.clean_segments.specs.Plain.{component_in, plain_left};

    /// The components of the segment of these octets, if none of them is the release character or separates repetitions.
    #[tactic(auto, unfolding(crate::specs::Plain::plain_left))]
    pub fn of(octets: &'a [u8], separators: Separators) -> Option<PlainFields<'a>>
        requires short { length octets.now ≤ LONGEST_TEXT }
        ensures components { IfSome result
            (λ fields. plain_left fields ≡ components_of separators octets.now) }
        ensures single { IfSome result
            (λ fields. are_single (components_of separators octets.now) ≡ true) }
    {
        if has_any_release(separators.release, octets) {
            return None;
        }
        if has_separator(separators.repetition, octets) {
            return None;
        }
        Some(PlainFields {
            octets,
            separators,
            next: Some(Start {
                at: 0,
                element: 0,
                component: 1,
            }),
        })
    }

    /// Takes the next component.
    #[inline(always)]
    #[tactic(auto, unfolding(crate::specs::Plain::plain_left))]
    pub fn step(&mut self) -> Option<PlainComponent<'a>>
        ensures next { IfSome result
            (λ found. plain_left self.old ≡ component_in found ∷ plain_left self.new) }
        ensures end { IfNone result (plain_left self.old ≡ []) }
    {
        let start = self.next?;
        let octets = self.take_from(start);
        Some(PlainComponent {
            element: start.element,
            component: start.component,
            octets,
        })
    }

    // Takes the value of the next component, which begins there.
    #[inline(always)]
    #[tactic(auto, unfolding(crate::specs::Plain::plain_left))]
    fn take_from(&mut self, start: Start) -> &'a [u8]
        requires { self.old.next ≡ Some start }
        ensures { plain_left self.old
            ≡ record {
              element = start.element;
              repetition = 1;
              component = start.component;
              octets = result.now;
            } ∷ plain_left self.new }
    {
        let octets = self.octets;
        match self.find_separator(start.at) {
            None => {
                self.next = None;
                &octets[start.at..]
            }
            Some(end) => {
                self.next = Some(self.past(start, end));
                &octets[start.at..end]
            }
        }
    }

    // The first place from `from` on that has a separator. Components are short: each octet is looked at.
    #[inline(always)]
    fn find_separator(&self, from: usize) -> Option<usize>
        requires { from ≤ length self.now.octets.now }
        ensures { IsFirst (IsSeparator self.now.separators self.now.octets.now)
            from (length self.now.octets.now) result }
    {
        let mut at = from;
        while at < self.octets.len() {
            let octet = self.octets[at];
            if octet == self.separators.element || octet == self.separators.component {
                return Some(at);
            }
            at += 1;
        }
        None
    }

    // Where the component begins after the separator that ends one.
    #[inline(always)]
    fn past(&self, start: Start, end: usize) -> Start
        requires within { end < length self.now.octets.now }
        requires element { start.element + 1 < 2 ^ 32 }
        requires component { start.component + 1 < 2 ^ 32 }
        ensures element { slice_index self.now.octets.now end ≡ self.now.separators.element
            → result ≡ record { at = end + 1; element = start.element + 1; component = 1 } }
        ensures component { (slice_index self.now.octets.now end ≡ self.now.separators.element → ⊥)
            → result
            ≡ record { at = end + 1; element = start.element; component = start.component + 1 } }
    {
        if self.octets[end] == self.separators.element {
            Start {
                at: end + 1,
                element: start.element + 1,
                component: 1,
            }
        } else {
            Start {
                at: end + 1,
                element: start.element,
                component: start.component + 1,
            }
        }
    }
}

// Up to so many octets are looked at one by one.
const FEW: usize = 64;

// Whether one of these octets is the release character.
#[inline(always)]
fn has_any_release(release: Option<u8>, octets: &[u8]) -> bool
    ensures { result ≡ list_any (is_release_of release) octets.now }
{
    match release {
        Some(release) if octets.len() <= FEW => octets.iter().any(|octet| *octet == release),
        _ => has_release(release, octets),
    }
}
