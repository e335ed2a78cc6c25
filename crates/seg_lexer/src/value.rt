//! Values of components, and a cursor over the octets of one.
ghost use Rattle.std.specs.Prelude.{List, ℕ, ⊤, ◌≡◌, ◌<◌, ◌≤◌, ◌^◌, ◌↔◌, ◌==◌, IsTrue, IfOk, IfSome, length, slice_index, slice_range};
ghost use Rattle.std.specs.Iterator.{YieldsFirst, item_count};
ghost use Rattle.std.specs.List.{list_any};
ghost use Rattle.seg_lexer.specs.Released.{is_release as is_release_of, value_of};

use crate::stretch::{StretchOctets, lend};
use edi_octets::Octets;
use edi_tables::Chunk;
use std::alloc::{AllocError, Global};
use std::marker::Model;

/// The value of a component: its octets without the release characters that release the octet after them. It lends
/// them from the text and copies none.
#[derive_where(Debug)]
pub struct Value<'a, O: Octets> {
    #[derive_where(skip)]
    text: &'a O,
    release: Option<u8>,
    from: usize,
    to: usize,
    ghost ordered: { from ≤ to },
    ghost within: { to ≤ length (O.octets text.now) },
    ghost fits: { to < 2 ^ 64 },
}

impl<O: Octets> Clone for Value<'_, O> {
    ghost is_clone = { λ value copy. copy ≡ value };

    ghost is_infallible = { λ _. ⊤ };

    fn clone(&self) -> Result<Self, AllocError> {
        Ok(*self)
    }
}

impl<O: Octets> Copy for Value<'_, O> {}

impl<'a, O: Octets> Value<'a, O> {
    ghost use Rattle.seg_lexer.specs.Value.{octets_of, span_of};

    /// The value of the component `from..to` of a text.
    #[tactic(auto, unfolding(crate::specs::Value::octets_of, crate::specs::Value::span_of))]
    pub fn new(text: &'a O, release: Option<u8>, from: usize, to: usize) -> Value<'a, O>
        requires ordered { from ≤ to }
        requires within { to ≤ length (O.octets text.now) }
        ensures octets { octets_of result
            ≡ value_of release (slice_range (O.octets text.now) from to) }
        ensures span { span_of result ≡ record { from = from; to = to } }
    {
        Value {
            text,
            release,
            from,
            to,
        }
    }

    /// Its octets, one after another.
    #[tactic(auto, unfolding(crate::specs::Value::octets_of))]
    pub fn octets(&self) -> ValueOctets<'a, O>
        ensures value { result ≡ octets_of self.now }
        ensures few { length result < 2 ^ 64 }
    {
        ValueOctets {
            written: StretchOctets::new(self.text, self.from, self.to),
            release: self.release,
        }
    }

    /// How many octets it has. This goes over all of them.
    pub fn len(&self) -> usize
        ensures { result ≡ length (octets_of self.now) }
    {
        self.octets().count()
    }

    /// Whether it has no octet.
    pub fn is_empty(&self) -> bool
        ensures { result ≡ (length (octets_of self.now) == 0) }
    {
        match self.to - self.from {
            0 => true,
            1 => is_release(self.release, self.text.octet(self.from)),
            _ => false,
        }
    }

    /// The octet at a place in it. This goes over all before it: use `octets` for one after another.
    pub fn octet(&self, i: usize) -> u8
        requires { i < length (octets_of self.now) }
        ensures { result ≡ slice_index (octets_of self.now) i }
    {
        self.octets().nth(i).unwrap()
    }

    /// Whether its octets are these.
    pub fn is(&self, other: &[u8]) -> bool
        ensures { IsTrue result ↔ (octets_of self.now ≡ other.now) }
    {
        let mut rest = other;
        for octet in self.octets() {
            match rest {
                [first, later @ ..] if *first == octet => rest = later,
                _ => return false,
            }
        }
        rest.is_empty()
    }

    /// Whether its octets are those of another value, wherever these are.
    pub fn same(&self, other: &Value<'a, O>) -> bool
        ensures { IsTrue result ↔ (octets_of self.now ≡ octets_of other.now) }
    {
        let mut rest = other.octets();
        for octet in self.octets() {
            if rest.next() != Some(octet) {
                return false;
            }
        }
        rest.next().is_none()
    }

    /// Its octets in one slice, where the text lends them in one part and none is a release character. Most values are so,
    /// and then this costs less than going over `octets`.
    #[tactic(auto, unfolding(crate::specs::Value::octets_of))]
    pub fn slice(&self) -> Option<&'a [u8]>
        ensures { IfSome result (λ octets. octets.now ≡ octets_of self.now) }
    {
        let part = lend(self.text, self.from, self.to);
        if part.len() < self.to - self.from || has_release(self.release, part) {
            return None;
        }
        Some(part)
    }

    /// A copy of its octets.
    pub fn copy(&self, alloc: Global) -> Result<Chunk, AllocError>
        ensures { IfOk result (λ c. c ≡ octets_of self.now) }
    {
        match self.slice() {
            Some(octets) => Chunk::of(alloc, octets),
            None => self.copy_each(alloc),
        }
    }

    // The same, octet by octet.
    fn copy_each(&self, alloc: Global) -> Result<Chunk, AllocError>
        ensures { IfOk result (λ c. c ≡ octets_of self.now) }
    {
        let mut copy = Chunk::with_room(alloc, self.to - self.from)?;
        for octet in self.octets() {
            copy.add(&[octet])?;
        }
        Ok(copy)
    }

    /// Its component's first place in the text, and the place past its last.
    #[tactic(auto, unfolding(crate::specs::Value::span_of))]
    pub fn span(&self) -> (usize, usize)
        ensures from { result.0 ≡ (span_of self.now).from }
        ensures to { result.1 ≡ (span_of self.now).to }
    {
        (self.from, self.to)
    }
}

/// The octets of a value, one after another: seen as the list of those that are left.
#[derive(Drop)]
#[derive_where(Debug)]
pub struct ValueOctets<'a, O: Octets> {
    written: StretchOctets<'a, O>,
    release: Option<u8>,
}

impl<'a, O: Octets> Model for ValueOctets<'a, O> {
    ghost Value = { List ℕ };

    ghost view = { λ v. value_of v.release v.written };
}

impl<O: Octets> Iterator for ValueOctets<'_, O> {
    type Item = u8;

    ghost next_gives = { YieldsFirst (λ rest. rest) };

    ghost remaining = { item_count (λ rest. rest) };

    #[inline(always)]
    fn next(&mut self) -> Option<u8> {
        next_kept(&mut self.written, self.release)
    }
}

/// The next octet of a value: the next one that is written, or the one after it where that is a release character.
#[inline(always)]
fn next_kept<O: Octets>(written: &mut StretchOctets<'_, O>, release: Option<u8>) -> Option<u8>
    ensures { let left = value_of release written.new in
        YieldsFirst (λ rest. rest) (value_of release written.old) result left }
{
    let octet = written.next()?;
    if is_release(release, octet) {
        return next_released(written);
    }
    Some(octet)
}

// Few octets are released.
#[inline(never)]
fn next_released<O: Octets>(written: &mut StretchOctets<'_, O>) -> Option<u8>
    ensures { YieldsFirst (λ rest. rest) written.old result written.new }
{
    written.next()
}

/// Whether one of these octets is the release character, if there is one. Many octets are looked at at once.
pub fn has_release(release: Option<u8>, part: &[u8]) -> bool
    ensures { result ≡ list_any (is_release_of release) part.now }
{
    match release {
        Some(release) => part.contains(&release),
        None => false,
    }
}

/// Whether an octet is the release character, if there is one.
#[inline(always)]
pub(crate) fn is_release(release: Option<u8>, octet: u8) -> bool
    ensures { result ≡ is_release_of release octet }
{
    match release {
        Some(release) => octet == release,
        None => false,
    }
}
