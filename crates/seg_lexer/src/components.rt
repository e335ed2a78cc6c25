//! The components of a segment, one after another.
ghost use Rattle.std.specs.Prelude.{Some, ℕ, ⊤, ◌≡◌, ◌∷◌, ◌+◌, ◌-◌, ◌^◌, ◌<◌, ◌≤◌, MatchOption, IfSome, IsTrue, length, slice_index, slice_range};
ghost use Rattle.std.specs.List.{list_any};
ghost use Rattle.std.specs.Option.{ForSome};
ghost use Rattle.seg_lexer.specs.Fields.{is_repeating, is_separator as is_separator_of, separators_of};
ghost use Rattle.seg_lexer.specs.Place.{AreApart, IsPlace, component_to, rest_of};
ghost use Rattle.edi_octets.specs.declared.octets.TheConstants.{LONGEST_TEXT};

use crate::scan::{Found, Sought, find_free};
use crate::service::{Separators, Service};
use crate::stretch::lend;
use crate::value::Value;
use edi_octets::Octets;
use std::alloc::AllocError;

/// A component of a segment: the number of its element, which is 0 for the tag field; that of its repetition, from 1 in
/// each element; its own number, from 1 in each repetition; and its value.
#[derive_where(Clone, Copy, Debug)]
pub struct Component<'a, O: Octets> {
    pub element: u32,
    pub repetition: u32,
    pub component: u32,
    pub value: Value<'a, O>,
}

/// Where a component begins, counted from the segment's first octet, and its numbers.
#[derive(Clone, Copy, Debug)]
struct ComponentPlace {
    at: usize,
    element: u32,
    repetition: u32,
    component: u32,
}

impl ComponentPlace {
    /// Whether it is that of the first component of a segment.
    fn is_first(&self) -> bool
        ensures { IsTrue result
            → self.now ≡ record { at = 0; element = 0; repetition = 1; component = 1 } }
    {
        self.at == 0 && self.element == 0 && self.repetition == 1 && self.component == 1
    }

    /// The first component of the next element.
    fn next_element(&self, at: usize) -> ComponentPlace
        requires { self.now.element + 1 < 2 ^ 32 }
        ensures { result
            ≡ record { at = at; element = self.now.element + 1; repetition = 1; component = 1 } }
    {
        ComponentPlace {
            at,
            element: self.element + 1,
            ..FIRST
        }
    }

    /// The first component of the next repetition of the same element.
    fn next_repetition(&self, at: usize) -> ComponentPlace
        requires { self.now.repetition + 1 < 2 ^ 32 }
        ensures { result ≡ record self.now {
          at = at;
          repetition = self.now.repetition + 1;
          component = 1;
        } }
    {
        ComponentPlace {
            at,
            element: self.element,
            repetition: self.repetition + 1,
            ..FIRST
        }
    }

    /// The next component of the same repetition.
    fn next_component(&self, at: usize) -> ComponentPlace
        requires { self.now.component + 1 < 2 ^ 32 }
        ensures { result ≡ record self.now { at = at; component = self.now.component + 1 } }
    {
        ComponentPlace {
            at,
            component: self.component + 1,
            ..*self
        }
    }
}

/// The first component of a tag field.
const FIRST: ComponentPlace = ComponentPlace {
    at: 0,
    element: 0,
    repetition: 1,
    component: 1,
};

/// Where a component ends, and where the next one begins if there is one.
#[derive(Clone, Copy)]
struct Cut {
    stop: usize,
    next: Option<ComponentPlace>,
}

/// The components of a segment that are left, in order, empty ones too. A copy goes on by itself.
#[derive_where(Debug)]
pub struct Fields<'a, O: Octets> {
    #[derive_where(skip)]
    text: &'a O,
    separators: Separators,
    start: usize,
    end: usize,
    place: Option<ComponentPlace>,
    ghost apart: { AreApart separators },
    ghost ordered: { start ≤ end },
    ghost within: { end ≤ length (O.octets text.now) },
    ghost short: { length (O.octets text.now) ≤ LONGEST_TEXT },
    ghost here: { let segment = slice_range (O.octets text.now) start end in
        ForSome place (IsPlace separators.release segment) },
}

impl<O: Octets> Clone for Fields<'_, O> {
    ghost is_clone = { λ fields copy. copy ≡ fields };

    ghost is_infallible = { λ _. ⊤ };

    fn clone(&self) -> Result<Self, AllocError> {
        Ok(*self)
    }
}

impl<O: Octets> Copy for Fields<'_, O> {}

impl<'a, O: Octets> Fields<'a, O> {
    ghost use Rattle.std.specs.Iterator.{YieldsFirstBy};
    ghost use Rattle.std.specs.Option.{option_map};
    ghost use Rattle.seg_lexer.specs.Fields.{components_of, fields_at, octets_at, place_at};
    ghost use Rattle.seg_lexer.specs.Left.{components_left, fields_left};
    ghost use Rattle.memchr.specs.Find.{NoneBefore, Nowhere};
    ghost use Rattle.seg_lexer.specs.Place.{placed_at};
    ghost use Rattle.seg_lexer.specs.Scan.{IsFree, sought_for};
    ghost use Rattle.seg_lexer.specs.Tag.{past_tag_field, tag_field};
    ghost use Rattle.seg_lexer.specs.Value.{octets_of, span_of};

    /// The components of the segment `start..end` of a text.
    pub(crate) fn new(text: &'a O, service: &Service, start: usize, end: usize) -> Fields<'a, O>
        requires apart { AreApart (separators_of service.now) }
        requires ordered { start ≤ end }
        requires within { end ≤ length (O.octets text.now) }
        requires short { length (O.octets text.now) ≤ LONGEST_TEXT }
        ensures { fields_left result ≡ fields_at service.now (O.octets text.now) start end }
    {
        Fields {
            text,
            separators: service.separators(),
            start,
            end,
            place: Some(FIRST),
        }
    }

    /// The octets of its segment in one slice and what separates their components, where none was taken yet and the text lends
    /// the segment in one part. Most segments are lent so.
    #[tactic(auto, unfolding(crate::specs::Left::fields_left))]
    pub fn whole(&self) -> Option<(&'a [u8], Separators)>
        ensures components { IfSome result
            (λ whole. components_left self.now ≡ components_of whole.1 whole.0.now) }
        ensures short { IfSome result (λ whole. length whole.0.now ≤ LONGEST_TEXT) }
    {
        if !self.place?.is_first() {
            return None;
        }
        let part = lend(self.text, self.start, self.end);
        if part.len() < self.end - self.start {
            return None;
        }
        Some((part, self.separators))
    }

    /// The value of a component of an element's first repetition, if it is among those that are left.
    pub fn value_at(self, element: u32, component: u32) -> Option<Value<'a, O>>
        ensures octets { option_map octets_of result
            ≡ octets_at element component (components_left self.entry) }
        ensures place { option_map span_of result
            ≡ place_at element component (fields_left self.entry) }
    {
        for found in self {
            if found.element == element && found.repetition == 1 && found.component == component {
                return Some(found.value);
            }
        }
        None
    }

    /// Takes the value of the component that is next, if it belongs to the tag field.
    pub(crate) fn take_tag_value(&mut self) -> Option<Value<'a, O>>
        ensures value { YieldsFirstBy octets_of (λ f. tag_field (components_left f))
            self.old result self.new }
        ensures elements { past_tag_field (fields_left self.new)
            ≡ past_tag_field (fields_left self.old) }
    {
        let place = self.place?;
        if place.element > 0 {
            return None;
        }
        Some(self.take(place))
    }

    /// Takes the value of the component that is next, and whose place is this.
    #[tactic(auto, unfolding(crate::specs::Left::fields_left))]
    fn take(&mut self, place: ComponentPlace) -> Value<'a, O>
        requires { self.old.place ≡ Some place }
        ensures { fields_left self.old
            ≡ placed_at place (span_of result) (octets_of result) ∷ fields_left self.new }
    {
        let cut = self.cut(place);
        self.place = cut.next;
        Value::new(
            self.text,
            self.separators.release,
            self.start + place.at,
            self.start + cut.stop,
        )
    }

    /// Cuts off the component that is next.
    fn cut(&self, place: ComponentPlace) -> Cut
        requires { self.now.place ≡ Some place }
        ensures stop { (place.at ≤ result.stop) × (result.stop ≤ self.now.end - self.now.start) }
        ensures next { let xs =
            slice_range (O.octets self.now.text.now) self.now.start self.now.end in
            ForSome result.next (IsPlace self.now.separators.release xs) }
        ensures rest { let xs =
            slice_range (O.octets self.now.text.now) self.now.start self.now.end in
            rest_of self.now.separators xs (Some place)
            ≡ component_to self.now.separators.release xs place result.stop
            ∷ rest_of self.now.separators xs result.next }
    {
        let from = self.start + place.at;
        let element = self.separators.element;
        let repetition = self.separators.repetition_of(place.element);
        match self.find_end(repetition, from) {
            None => Cut {
                stop: self.end - self.start,
                next: None,
            },
            Some(found) if found.octet == element => Cut {
                stop: found.place - self.start,
                next: Some(place.next_element(found.place - self.start + 1)),
            },
            Some(found) if is_separator(repetition, found.octet) => Cut {
                stop: found.place - self.start,
                next: Some(place.next_repetition(found.place - self.start + 1)),
            },
            Some(found) => Cut {
                stop: found.place - self.start,
                next: Some(place.next_component(found.place - self.start + 1)),
            },
        }
    }

    /// Where the component that begins at a place of the text ends, if not with the segment: the first separator from there
    /// on that isn't released. One that separates repetitions is looked for if it is given.
    #[inline(always)]
    fn find_end(&self, repetition: Option<u8>, from: usize) -> Option<Found>
        requires { from ≤ self.now.end }
        ensures first { let sp = self.now.separators in
            let sought = sought_for sp.element sp.component repetition in
            let IsHere = IsFree sp.release sought (O.octets self.now.text.now) from in
            MatchOption result (Nowhere IsHere from self.now.end)
            (λ f. NoneBefore IsHere from self.now.end f.place × IsHere f.place) }
        ensures octet { IfSome result
            (λ f. f.octet ≡ slice_index (O.octets self.now.text.now) f.place) }
    {
        let Separators {
            release,
            element,
            component,
            ..
        } = self.separators;
        match repetition {
            None => find_free(
                self.text,
                release,
                Sought::Two(element, component),
                from,
                self.end,
            ),
            Some(repetition) => find_free(
                self.text,
                release,
                Sought::Three(element, component, repetition),
                from,
                self.end,
            ),
        }
    }
}

impl Separators {
    /// What separates the repetitions of an element, if anything does: the tag field has no repetitions.
    #[inline(always)]
    fn repetition_of(&self, element: u32) -> Option<u8>
        ensures { (octet : ℕ)
            → is_separator_of result octet ≡ is_repeating self.now element octet }
    {
        if element == 0 { None } else { self.repetition }
    }
}

/// Whether one of these octets is a separator, if there is one.
pub fn has_separator(separator: Option<u8>, part: &[u8]) -> bool
    ensures { result ≡ list_any (is_separator_of separator) part.now }
{
    match separator {
        Some(separator) => part.iter().any(|octet| *octet == separator),
        None => false,
    }
}

/// Whether an octet is a separator, if there is one.
#[inline(always)]
fn is_separator(separator: Option<u8>, octet: u8) -> bool
    ensures { result ≡ is_separator_of separator octet }
{
    match separator {
        Some(separator) => octet == separator,
        None => false,
    }
}

impl<'a, O: Octets> Iterator for Fields<'a, O> {
    type Item = Component<'a, O>;

    ghost use Rattle.std.specs.Iterator.{YieldsFirstBy, item_count};
    ghost use Rattle.seg_lexer.specs.Left.{fields_left, placed_in};

    ghost next_gives = { YieldsFirstBy placed_in fields_left };

    ghost remaining = { item_count fields_left };

    #[tactic(auto, unfolding(crate::specs::Left::fields_left))]
    fn next(&mut self) -> Option<Component<'a, O>> {
        let place = self.place?;
        Some(Component {
            element: place.element,
            repetition: place.repetition,
            component: place.component,
            value: self.take(place),
        })
    }
}
