//! A few pairs of a walk, in little room.
ghost use Rattle.std.specs.Prelude.{◌≡◌, ◌∷◌, [], slice_get, IfSome, IsTrue};
ghost use Rattle.edi_tables.specs.Pairs.{count_in, entry_in};

use std::marker::Model;

/// The most pairs. Most entries have at most three groups round them.
const MOST_PAIRS: usize = 5;

/// A few pairs: the number of a node, and its count. They are seen as their list.
///
/// They lie at the end of the array, since one is put in front of the others.
#[derive(Debug, Drop)]
pub struct FewPairs {
    first: u8,
    pairs: [(u16, u16); MOST_PAIRS],
}

impl Model for FewPairs {
    ghost use Rattle.std.specs.Prelude.{◌≤◌, ℕ, List, drop};

    ghost Value = { List (ℕ × ℕ) };

    ghost view = { λ few. drop few.first few.pairs };

    ghost invariant = { λ few. few.first ≤ 5 };
}

impl FewPairs {
    /// No pair.
    #[inline(always)]
    pub fn none() -> FewPairs
        ensures { result ≡ [] }
    {
        FewPairs {
            first: MOST_PAIRS as u8,
            pairs: [(0, 0); MOST_PAIRS],
        }
    }

    /// One pair.
    pub fn one(node: u16, count: u16) -> FewPairs
        ensures { result ≡ (node, count) ∷ [] }
    {
        let mut pairs = [(0, 0); MOST_PAIRS];
        pairs[MOST_PAIRS - 1] = (node, count);
        FewPairs {
            first: MOST_PAIRS as u8 - 1,
            pairs,
        }
    }

    /// Puts a pair in front of the others, if there is room for it and its count isn't too great.
    #[inline(always)]
    pub fn put(&mut self, node: u16, count: u32) -> Option<()>
        ensures { IfSome result (λ _. self.new ≡ (node, count) ∷ self.old) }
    {
        if self.first == 0 || count > u32::from(u16::MAX) {
            return None;
        }
        self.first -= 1;
        self.pairs[usize::from(self.first)] = (node, count as u16);
        Some(())
    }

    /// Whether they are seen at once to be these pairs. No says nothing of them.
    #[inline(always)]
    pub fn are(&self, other: &FewPairs) -> bool
        ensures { IsTrue result → self.now ≡ other.now }
    {
        (self.first == other.first) & are_same(&self.pairs, &other.pairs)
    }

    /// A number that most other pairs don't have.
    #[inline(always)]
    pub fn digest(&self) -> u64 {
        let mut digest = 0_u64;
        for pair in self.as_slice() {
            let word = u64::from(pair.0) << 16 | u64::from(pair.1);
            digest = digest
                .wrapping_add(word)
                .wrapping_mul(0x9E37_79B9_7F4A_7C15);
        }
        digest
    }

    /// The same pairs once more.
    #[inline(always)]
    pub fn copy(&self) -> FewPairs
        ensures { result ≡ self.now }
    {
        FewPairs {
            first: self.first,
            pairs: self.pairs,
        }
    }

    /// The pairs.
    #[inline(always)]
    pub fn as_slice(&self) -> &[(u16, u16)]
        ensures { result.now ≡ self.now }
    {
        &self.pairs[usize::from(self.first)..]
    }

    /// The pair of this number, from 0, if there is one.
    pub fn pair(&self, number: usize) -> Option<(u16, u32)>
        ensures { result ≡ slice_get self.now number }
    {
        let pairs = self.as_slice();
        match pairs.get(number) {
            Some(pair) => Some((pair.0, u32::from(pair.1))),
            None => None,
        }
    }

    /// The node of the last pair; 0 where there is none.
    #[inline(always)]
    pub fn entry(&self) -> u16
        ensures { result ≡ entry_in self.now }
    {
        let pairs = self.as_slice();
        match pairs.last() {
            Some(pair) => pair.0,
            None => 0,
        }
    }

    /// The count of a node; 0 where they lack it.
    #[inline(always)]
    pub fn count_of(&self, node: u16) -> u32
        ensures { result ≡ count_in self.now node }
    {
        let pairs = self.as_slice();
        for pair in pairs {
            if pair.0 == node {
                return u32::from(pair.1);
            }
        }
        0
    }
}

// Whether two arrays are one. All their pairs are compared: that is quicker than to stop at the first that differs.
#[inline(always)]
fn are_same(one: &[(u16, u16); MOST_PAIRS], other: &[(u16, u16); MOST_PAIRS]) -> bool
    ensures { IsTrue result → one.now ≡ other.now }
{
    let [a, b, c, d, e] = one;
    let [v, w, x, y, z] = other;
    is_same(a, v) & is_same(b, w) & is_same(c, x) & is_same(d, y) & is_same(e, z)
}

// Whether two pairs are one.
#[inline(always)]
fn is_same(one: &(u16, u16), other: &(u16, u16)) -> bool
    ensures { IsTrue result → one.now ≡ other.now }
{
    (one.0 == other.0) & (one.1 == other.1)
}
