//! Segments in which nothing is wrong.
ghost use Rattle.std.specs.Prelude.{◌≡◌, ◌<◌, ◌≤◌, List, [], ℕ, Some, length, set, slice_range, IfOk, IfSome, IsTrue};
ghost use Rattle.dir_compile.specs.declared.parts.Parts.{Parts};
ghost use Rattle.seg_lexer.specs.Fields.{components_at};
ghost use Rattle.seg_lexer.specs.Tag.{tag_of};
ghost use Rattle.seg_lexer.specs.declared.context.Context.{Context};
ghost use Rattle.element_check.specs.Local.{local_errors_of};
ghost use Rattle.clean_segments.specs.Clean.{AreClean};
ghost use Rattle.clean_segments.specs.declared.clean.TheConstants.{PLACES};
ghost use Rattle.edi_octets.specs.declared.octets.TheConstants.{LONGEST_TEXT};

use crate::kinds::OctetKinds;
use crate::look::clean_tag;
use crate::same::are_same;
use dir_compile::Directory;
use edi_octets::Octets;
use edi_tables::Tag;
use seg_lexer::Context;
use std::alloc::{AllocError, Global};
use std::marker::Model;

/// How many segments are remembered at most.
const PLACES: usize = 256;

/// A segment in which nothing is wrong by itself: its first octet, the place of its terminator, and its tag.
#[derive(Clone, Copy, Debug)]
struct Clean {
    start: usize,
    end: usize,
    tag: Tag,
}

/// Segments of one text in which nothing is wrong by themselves, by one directory and one context.
///
/// What is wrong with a segment by itself depends on its octets alone. So a segment that is spelled like one of these has no
/// error either, and isn't checked anew. Most texts have many that are spelled alike.
#[derive(Drop, Debug)]
pub struct CleanSegments {
    kinds: OctetKinds,
    // `PLACES` of them, or none where nothing is remembered.
    places: Vec<Option<Clean>>,
}

impl Model for CleanSegments {
    ghost use Rattle.std.specs.Prelude.{List, Option};
    ghost use Rattle.clean_segments.specs.declared.clean.Clean.{Clean};

    ghost Value = { List (Option Clean) };

    ghost view = { λ c. c.places.items };
}

impl CleanSegments {
    /// None yet.
    pub fn none(alloc: Global, kinds: OctetKinds) -> Result<CleanSegments, AllocError>
        ensures { IfOk result
            (λ clean. (directory : Parts) (context : Context) (text : List ℕ)
            → AreClean directory context text clean) }
    {
        Ok(CleanSegments {
            kinds,
            places: Vec::from_elem(alloc, None, PLACES)?,
        })
    }

    /// A list that stays empty: nothing is remembered, and no memory is taken. For a few segments that costs less.
    pub fn forgetful(alloc: Global, kinds: OctetKinds) -> CleanSegments
        ensures { (directory : Parts) (context : Context) (text : List ℕ)
            → AreClean directory context text result }
    {
        CleanSegments {
            kinds,
            places: Vec::new(alloc),
        }
    }

    /// The tag of the segment `start..end` of a text, where nothing is wrong with it by itself: by a directory and the context
    /// of the text a first look shows that, or it is spelled like one that is remembered. `None` says nothing of the segment.
    /// It takes no memory.
    ///
    /// Where a first look shows it, the segment is remembered, in the place of one that is spelled otherwise.
    #[inline(always)]
    pub fn find<O: Octets>(
        &mut self,
        directory: &Directory,
        context: &Context,
        text: &O,
        start: usize,
        end: usize,
    ) -> Option<Tag>
        requires short { length (O.octets text.now) ≤ LONGEST_TEXT }
        requires ordered { start ≤ end }
        requires within { end ≤ length (O.octets text.now) }
        requires clean { AreClean directory.now context.now (O.octets text.now) self.old }
        ensures tag { IfSome result (λ tag. tag_of
            (components_at context.now.service (O.octets text.now) start end) ≡ Some tag.octets) }
        ensures errors { IfSome result (λ tag. local_errors_of directory.now context.now
            (components_at context.now.service (O.octets text.now) start end) ≡ []) }
        ensures clean { AreClean directory.now context.now (O.octets text.now) self.new }
    {
        let octets = spelled(text, start, end)?;
        let place = slot_of(octets);
        if let Some(Some(clean)) = self.places.get(place) {
            if is_spelled(text, clean.start, clean.end, octets) {
                return Some(clean.tag);
            }
        }
        let tag = clean_tag(&self.kinds, directory, context, octets)?;
        self.put(place, Clean { start, end, tag });
        Some(tag)
    }

    // Remembers a segment at a place, if there is such a place.
    fn put(&mut self, place: usize, clean: Clean)
        ensures { self.new ≡ set self.old place (Some clean) }
    {
        if let Some(known) = self.places.get_mut(place) {
            *known = Some(clean);
        }
    }
}

// Whether a stretch of a text is lent in one part and has these octets.
fn is_spelled<O: Octets>(text: &O, start: usize, end: usize, octets: &[u8]) -> bool
    requires ordered { start ≤ end }
    requires within { end ≤ length (O.octets text.now) }
    ensures { IsTrue result → slice_range (O.octets text.now) start end ≡ octets.now }
{
    match spelled(text, start, end) {
        Some(other) => are_same(other, octets),
        None => false,
    }
}

// The octets of a stretch of a text, where the text lends them in one part.
fn spelled<O: Octets>(text: &O, start: usize, end: usize) -> Option<&[u8]>
    requires ordered { start ≤ end }
    requires within { end ≤ length (O.octets text.now) }
    ensures { IfSome result
        (λ octets. octets.now ≡ slice_range (O.octets text.now) start end) }
{
    if start >= end {
        return None;
    }
    let part = text.slice_at(start);
    if part.len() < end - start {
        return None;
    }
    Some(&part[..end - start])
}

// The place where a segment of these octets is remembered. Eight octets are summed at its beginning, in its middle and at its end:
// all of them where it has no more than twenty-four.
fn slot_of(octets: &[u8]) -> usize
    ensures { result < PLACES }
{
    let mut sum = 0_u64;
    if octets.len() < 8 {
        for octet in octets {
            sum = add_word(sum, u64::from(*octet));
        }
    } else {
        let last = octets.len() - 8;
        sum = add_word(sum, word_at(octets, 0));
        sum = add_word(sum, word_at(octets, last / 2));
        sum = add_word(sum, word_at(octets, last));
    }
    (sum >> 56) as usize % PLACES
}

// Eight octets from a place on, as a number.
#[inline(always)]
fn word_at(octets: &[u8], at: usize) -> u64
    requires { at ≤ length octets.now }
{
    match octets[at..].first_chunk::<8>() {
        Some(word) => u64::from_le_bytes(*word),
        None => 0,
    }
}

// The sum with one word more. Each bit of a word counts in the first bits of the sum.
#[inline(always)]
fn add_word(sum: u64, word: u64) -> u64 {
    sum.wrapping_add(word).wrapping_mul(0x9E37_79B9_7F4A_7C15)
}
