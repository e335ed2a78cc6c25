//! The octets of a stretch of a text, one after another.
ghost use Rattle.std.specs.Prelude.{List, ℕ, ◌≡◌, ◌+◌, ◌<◌, ◌≤◌, length, slice_range};
ghost use Rattle.std.specs.Iterator.{YieldsFirst, item_count};
ghost use Rattle.seg_lexer.specs.Lent.{IsLent};

use edi_octets::Octets;
use std::marker::Model;

/// What a text lends of `at..to`: a part that begins there, and that is empty only where the stretch is.
#[inline]
pub fn lend<O: Octets>(text: &O, at: usize, to: usize) -> &[u8]
    requires ordered { at ≤ to }
    requires within { to ≤ length (O.octets text.now) }
    ensures part { result.now ≡ slice_range (O.octets text.now) at (at + length result.now) }
    ensures inside { at + length result.now ≤ to }
    ensures some { at < to → 0 < length result.now }
{
    if at >= to {
        return &[];
    }
    let part = text.slice_at(at);
    &part[..part.len().min(to - at)]
}

/// The octets of a stretch, seen as the list of those that are left. It asks the text for a part at a time.
#[derive(Drop)]
#[derive_where(Debug)]
pub struct StretchOctets<'a, O: Octets> {
    #[derive_where(skip)]
    text: &'a O,
    // Octets from `at` on that the text has lent.
    part: &'a [u8],
    at: usize,
    to: usize,
}

impl<'a, O: Octets> Model for StretchOctets<'a, O> {
    ghost use Rattle.std.specs.Prelude.{List, ℕ, slice_range};
    ghost use Rattle.seg_lexer.specs.Lent.{IsLent};

    ghost Value = { List ℕ };

    ghost view = { λ s. slice_range (O.octets s.text.now) s.at s.to };

    ghost invariant = { λ s. IsLent (O.octets s.text.now) s.at s.to s.part.now };
}

impl<'a, O: Octets> StretchOctets<'a, O> {
    /// The octets of `from..to`.
    pub fn new(text: &'a O, from: usize, to: usize) -> StretchOctets<'a, O>
        requires ordered { from ≤ to }
        requires within { to ≤ length (O.octets text.now) }
        ensures { result ≡ slice_range (O.octets text.now) from to }
    {
        StretchOctets {
            text,
            part: &[],
            at: from,
            to,
        }
    }
}

impl<O: Octets> Iterator for StretchOctets<'_, O> {
    type Item = u8;

    ghost next_gives = { YieldsFirst (λ rest. rest) };

    ghost remaining = { item_count (λ rest. rest) };

    #[inline(always)]
    fn next(&mut self) -> Option<u8> {
        let part = lent(self.text, self.part, self.at, self.to);
        let (first, rest) = part.split_first()?;
        self.part = rest;
        self.at += 1;
        Some(*first)
    }
}

// What is lent of `at..to`: the part that is still there, or else the next.
#[inline(always)]
fn lent<'a, O: Octets>(text: &'a O, part: &'a [u8], at: usize, to: usize) -> &'a [u8]
    requires { IsLent (O.octets text.now) at to part.now }
    ensures lent { IsLent (O.octets text.now) at to result.now }
    ensures some { at < to → 0 < length result.now }
{
    if part.is_empty() {
        lend(text, at, to)
    } else {
        part
    }
}
