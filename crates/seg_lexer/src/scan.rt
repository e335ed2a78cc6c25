//! The scan over a text: for octets that aren't released, and over line breaks.
ghost use Rattle.std.specs.Prelude.{◌≡◌, ◌+◌, ◌≤◌, MatchOption, IfSome, length, slice_index, take};
ghost use Rattle.memchr.specs.Find.{IsFirst, IsFirstByte, NoneBefore, Nowhere, is_byte2};
ghost use Rattle.seg_lexer.specs.Scan.{IsFree, IsFreeIn, is_sought, released_after};
ghost use Rattle.seg_lexer.specs.Breaks.{is_break as is_break_of, lead};
ghost use Rattle.edi_octets.specs.declared.octets.TheConstants.{LONGEST_TEXT};

use crate::stretch::{StretchOctets, lend};
use crate::value::is_release;
use edi_octets::Octets;
use memchr::{memchr, memchr3};

/// The octets that a scan looks for.
#[derive(Clone, Copy)]
pub(crate) enum Sought {
    One(u8),
    Two(u8, u8),
    Three(u8, u8, u8),
}

/// An octet that a scan came to.
#[derive(Clone, Copy)]
pub(crate) struct Found {
    pub place: usize,
    pub octet: u8,
}

/// The first octet of `from..end` that is sought and that no octet from `from` on releases.
#[inline(always)]
pub(crate) fn find_free<O: Octets>(
    text: &O,
    release: Option<u8>,
    sought: Sought,
    from: usize,
    end: usize,
) -> Option<Found>
    requires ordered { from ≤ end }
    requires within { end ≤ length (O.octets text.now) }
    requires short { length (O.octets text.now) ≤ LONGEST_TEXT }
    ensures first { let IsHere = IsFree release sought (O.octets text.now) from in
        MatchOption result (Nowhere IsHere from end)
        (λ f. NoneBefore IsHere from end f.place × IsHere f.place) }
    ensures octet { IfSome result (λ f. f.octet ≡ slice_index (O.octets text.now) f.place) }
{
    let mut at = from;
    let mut released = false;
    while at < end {
        let part = lend(text, at, end);
        if let Some(k) = find_free_in(part, release, sought, released) {
            return Some(Found {
                place: at + k,
                octet: part[k],
            });
        }
        released = is_released_in(part, release, part.len(), released);
        at += part.len();
    }
    None
}

// The first place of a part that is sought and isn't released, where the part's first octet is released or isn't.
#[inline(always)]
fn find_free_in(part: &[u8], release: Option<u8>, sought: Sought, released: bool) -> Option<usize>
    ensures { IsFirst (IsFreeIn release sought released part.now) 0 (length part.now) result }
{
    let mut at = 0;
    while let Some(k) = find_sought(&part[at..], sought) {
        let place = at + k;
        if !is_released_in(part, release, place, released) {
            return Some(place);
        }
        at = place + 1;
    }
    None
}

// Whether the octet at a place of a part, or the one after its last, is released: it is where an odd run of release
// characters comes before it. A run that reaches back to the part's first octet goes on before that.
#[inline]
fn is_released_in(part: &[u8], release: Option<u8>, place: usize, released: bool) -> bool
    requires { place ≤ length part.now }
    ensures { result ≡ released_after release released (take place part.now) }
{
    let mut before = &part[..place];
    let mut odd = false;
    while let Some((last, front)) = before.split_last() {
        if !is_release(release, *last) {
            return odd;
        }
        odd = !odd;
        before = front;
    }
    odd != released
}

// The first place that holds one of the sought octets.
#[inline(always)]
fn find_sought(part: &[u8], sought: Sought) -> Option<usize>
    ensures { IsFirstByte (is_sought sought) part.now result }
{
    match sought {
        Sought::One(one) => memchr(one, part),
        Sought::Two(one, two) => find_either(part, one, two),
        Sought::Three(one, two, three) => memchr3(one, two, three, part),
    }
}

// The first place that holds one of two octets. The components of a segment are short: each octet is looked at.
#[inline(always)]
fn find_either(part: &[u8], one: u8, two: u8) -> Option<usize>
    ensures { IsFirstByte (is_byte2 one two) part.now result }
{
    for (place, octet) in part.iter().enumerate() {
        if *octet == one || *octet == two {
            return Some(place);
        }
    }
    None
}

/// The first place of `from..end` that holds neither CR nor LF, or else `end`.
pub(crate) fn skip_breaks<O: Octets>(text: &O, from: usize, end: usize) -> usize
    requires ordered { from ≤ end }
    requires within { end ≤ length (O.octets text.now) }
    ensures { result ≡ lead (O.octets text.now) from end }
{
    let mut start = from;
    for octet in StretchOctets::new(text, from, end) {
        if !is_break(octet) {
            return start;
        }
        start += 1;
    }
    start
}

fn is_break(octet: u8) -> bool
    ensures { result ≡ is_break_of octet }
{
    octet == b'\r' || octet == b'\n'
}
