//! The version of a store, and the definitions that its lines may name.
ghost use Rattle.std.specs.Prelude.{◌≡◌, ◌+◌, ◌*◌, ◌<◌, length, slice_index};
ghost use Rattle.std.specs.Cmp.Lexicographic.{slice_cmp};
ghost use Rattle.std.specs.Option.{option_copied};
ghost use Rattle.std.specs.Ordering.{nat_cmp};
ghost use Rattle.edi_tables.specs.Ascending.{IsAscendingBy};
ghost use Rattle.dir_compile.specs.Compile.{
  composite_name,
  element_name,
  segment_name,
};

use crate::hints::Hints;
use crate::version::StoreVersion;
use edi_tables::{Code, CompositeDef, ElementDef, SegmentDef, Tag};
use std::cmp::Ordering;

/// The version of a store, and the definitions of the sections so far, each kind in ascending order of names. A name is
/// found by halving, after a look at the place that a hint gives.
#[derive(Clone, Copy)]
pub(crate) struct EarlierDefinitions<'a> {
    pub version: StoreVersion,
    pub elements: &'a [ElementDef],
    pub composites: &'a [CompositeDef],
    pub segments: &'a [SegmentDef],
    pub element_hints: &'a Hints,
    pub segment_hints: &'a Hints,
    ghost elements_ascend: { IsAscendingBy element_name elements.now },
    ghost composites_ascend: { IsAscendingBy composite_name composites.now },
    ghost segments_ascend: { IsAscendingBy segment_name segments.now },
}

impl<'a> EarlierDefinitions<'a> {
    ghost use Rattle.std.specs.Prelude.{IfSome, Some, is_some, true};
    ghost use Rattle.dir_compile.specs.Compile.{named_in};

    /// The data element of that code, if there is one.
    #[inline]
    pub fn element(&self, code: Code) -> Option<&'a ElementDef>
        ensures { option_copied result ≡ named_in element_name self.now.elements.now code.octets }
    {
        match self.hinted_element(code) {
            Some(element) => Some(element),
            None => self.search_element(code),
        }
    }

    // The data element of that code, where it is at the place that is looked at first.
    #[inline]
    fn hinted_element(&self, code: Code) -> Option<&'a ElementDef>
        ensures { IfSome result (λ element.
            Some element.now ≡ named_in element_name self.now.elements.now code.octets) }
    {
        let element = self.elements.get(self.element_hints.of_code(code))?;
        if code_number(element.code) == code_number(code) {
            Some(element)
        } else {
            None
        }
    }

    // The data element of that code by halving, if there is one.
    fn search_element(&self, code: Code) -> Option<&'a ElementDef>
        ensures { option_copied result ≡ named_in element_name self.now.elements.now code.octets }
    {
        let place = self
            .elements
            .binary_search_by(|element| compare_codes(element.code, code))
            .ok()?;
        self.elements.get(place)
    }

    /// Whether there is a composite of that code.
    pub fn has_composite(&self, code: Code) -> bool
        ensures { result ≡ is_some (named_in composite_name self.now.composites.now code.octets) }
    {
        self.composites
            .binary_search_by(|composite| compare_codes(composite.code, code))
            .is_ok()
    }

    /// Whether there is a segment of that tag.
    #[inline]
    pub fn has_segment(&self, tag: Tag) -> bool
        ensures { result ≡ is_some (named_in segment_name self.now.segments.now tag.octets) }
    {
        self.hints_at_segment(tag) || self.search_segment(tag)
    }

    /// Whether a segment of that tag is at the place that is looked at first.
    #[inline]
    pub fn hints_at_segment(&self, tag: Tag) -> bool
        ensures { result ≡ true
            → is_some (named_in segment_name self.now.segments.now tag.octets) ≡ true }
    {
        match self.segments.get(self.segment_hints.of_tag(tag)) {
            Some(segment) => segment.tag == tag,
            None => false,
        }
    }

    // Whether there is a segment of that tag, by halving.
    fn search_segment(&self, tag: Tag) -> bool
        ensures { result ≡ is_some (named_in segment_name self.now.segments.now tag.octets) }
    {
        self.segments
            .binary_search_by(|segment| compare_tags(segment.tag, tag))
            .is_ok()
    }
}

// The order of two tags. Each row of a message looks its tag up, so their numbers are compared, and no slices of any
// length.
#[inline]
#[tactic(auto, using(crate::proofs::SearchLemmas::tags_numbered))]
fn compare_tags(tag: Tag, other: Tag) -> Ordering
    ensures { result ≡ slice_cmp nat_cmp tag.octets other.octets }
{
    tag_number(tag).cmp(&tag_number(other))
}

/// The octets of a tag as one number, the first of them highest.
#[inline]
pub(crate) fn tag_number(tag: Tag) -> u32
    ensures value { result
        ≡ slice_index tag.octets 0 * 65536 + slice_index tag.octets 1 * 256
        + slice_index tag.octets 2 }
    ensures second { slice_index tag.octets 1 < 256 }
    ensures third { slice_index tag.octets 2 < 256 }
    ensures three { length tag.octets ≡ 3 }
{
    let [first, second, third] = tag.octets;
    u32::from(first) * 65536 + u32::from(second) * 256 + u32::from(third)
}

// The order of two codes. Each item of a segment looks a code up, so their numbers are compared, and no slices of any
// length.
#[inline]
fn compare_codes(code: Code, other: Code) -> Ordering
    ensures { result ≡ slice_cmp nat_cmp code.octets other.octets }
{
    code_number(code).cmp(&code_number(other))
}

/// The octets of a code as one number, the first of them highest.
#[inline]
pub(crate) fn code_number(code: Code) -> u32
    ensures value { result
        ≡ slice_index code.octets 0 * 16777216 + (slice_index code.octets 1 * 65536
        + slice_index code.octets 2 * 256 + slice_index code.octets 3) }
    ensures second { slice_index code.octets 1 < 256 }
    ensures third { slice_index code.octets 2 < 256 }
    ensures fourth { slice_index code.octets 3 < 256 }
    ensures four { length code.octets ≡ 4 }
{
    let [first, second, third, fourth] = code.octets;
    u32::from(first) * 16777216
        + (u32::from(second) * 65536 + u32::from(third) * 256 + u32::from(fourth))
}
