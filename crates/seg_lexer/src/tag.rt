//! The tag of a segment.
ghost use Rattle.std.specs.Prelude.{List, [], ◌∷◌, ℕ, Some, None, ◌≡◌, ◌≤◌, IfSome, IsTrue, length, take, if◌then◌else◌};
ghost use Rattle.std.specs.Option.{option_map};
ghost use Rattle.edi_tables.specs.Tag.{is_tag_of};
ghost use Rattle.seg_lexer.specs.Fields.{IsInOrder, components_at, components_of};
ghost use Rattle.seg_lexer.specs.Left.{components_left, fields_left};
ghost use Rattle.seg_lexer.specs.Service.{IsUsable};
ghost use Rattle.seg_lexer.specs.Tag.{IsBare, past_tag_field, tag_of};
ghost use Rattle.seg_lexer.specs.Value.{octets_of};
ghost use Rattle.edi_octets.specs.declared.octets.TheConstants.{LONGEST_TEXT};

use crate::components::Fields;
use crate::segment::fields;
use crate::service::{Separators, Service};
use crate::stretch::lend;
use crate::value::{Value, is_release};
use edi_octets::Octets;
use edi_tables::{Tag, is_tag};

/// The tag of the segment `start..end`: the value of its tag field's first component, if that is a tag and every
/// further component of the tag field is empty.
pub fn read_tag<O: Octets>(text: &O, service: &Service, start: usize, end: usize) -> Option<Tag>
    requires usable { IsUsable service.now (O.octets text.now) }
    requires short { length (O.octets text.now) ≤ LONGEST_TEXT }
    requires ordered { start ≤ end }
    requires within { end ≤ length (O.octets text.now) }
    ensures { option_map (λ t. t.octets) result
        ≡ tag_of (components_at service.now (O.octets text.now) start end) }
{
    match bare_tag(lend(text, start, end), end - start, &service.separators()) {
        Some(tag) => Some(tag),
        None => read_tag_field(text, service, start, end),
    }
}

/// The same by all components of the tag field. Few segments need it.
#[inline(never)]
fn read_tag_field<O: Octets>(text: &O, service: &Service, start: usize, end: usize) -> Option<Tag>
    requires usable { IsUsable service.now (O.octets text.now) }
    requires short { length (O.octets text.now) ≤ LONGEST_TEXT }
    requires ordered { start ≤ end }
    requires within { end ≤ length (O.octets text.now) }
    ensures { option_map (λ t. t.octets) result
        ≡ tag_of (components_at service.now (O.octets text.now) start end) }
{
    let mut components = fields(text, service, start, end);
    components.take_tag()
}

/// The tag of a segment of so many octets that begins with these, where one look shows it: the tag is bare, and then the segment
/// ends or a separator of elements comes. `None` says nothing of the segment.
#[inline(always)]
fn bare_tag(part: &[u8], len: usize, separators: &Separators) -> Option<Tag>
    ensures { (segment : List ℕ) → length segment ≡ len
        → part.now ≡ take (length part.now) segment
        → IfSome result (λ tag. tag_of (components_of separators.now segment) ≡ Some tag.octets) }
{
    let [first, second, third, after @ ..] = part else {
        return None;
    };
    let octets = [*first, *second, *third];
    if !ends_tag_field(after, len, separators.element) || !is_tag(&octets) {
        return None;
    }
    if is_bare(separators, *first) && is_bare(separators, *second) && is_bare(separators, *third) {
        Some(Tag { octets })
    } else {
        None
    }
}

/// Whether a tag field ends before these octets, which come after three others of a segment of so many.
#[inline(always)]
fn ends_tag_field(after: &[u8], len: usize, element: u8) -> bool
    ensures next { (x : ℕ) (later : List ℕ) → IsTrue result → after.now ≡ x ∷ later → x ≡ element }
    ensures last { IsTrue result → after.now ≡ [] → len ≡ 3 }
{
    match after {
        [] => len == 3,
        [next, ..] => *next == element,
    }
}

/// Whether an octet neither separates nor releases.
#[inline(always)]
fn is_bare(separators: &Separators, octet: u8) -> bool
    ensures { IsTrue result → IsBare separators.now octet }
{
    octet != separators.element
        && octet != separators.component
        && !is_release(separators.release, octet)
}

impl<O: Octets> Fields<'_, O> {
    /// Takes the components of the tag field, empty ones too, and answers the tag of their segment: the value of the
    /// first one, if that is a tag and every further one is empty. The components of the elements are left.
    pub fn take_tag(&mut self) -> Option<Tag>
        ensures tag { option_map (λ t. t.octets) result ≡ tag_of (components_left self.old) }
        ensures rest { fields_left self.new ≡ past_tag_field (fields_left self.old) }
        ensures in_order { IsInOrder 1 (components_left self.new) }
    {
        let first = self.take_tag_value()?;
        let mut tag = tag_in(&first);
        while let Some(further) = self.take_tag_value() {
            if !further.is_empty() {
                tag = None;
            }
        }
        tag
    }
}

/// The tag that a value is.
fn tag_in<O: Octets>(value: &Value<'_, O>) -> Option<Tag>
    ensures { let octets = octets_of value.now in
        option_map (λ t. t.octets) result ≡ (if is_tag_of octets then Some octets else None) }
{
    let mut octets = value.octets();
    let tag = Tag {
        octets: [octets.next()?, octets.next()?, octets.next()?],
    };
    if octets.next().is_none() && is_tag(&tag.octets) {
        Some(tag)
    } else {
        None
    }
}
