//! A range of a text, read by place.

ghost use Rattle.std.specs.Prelude.{◌≡◌, ◌≤◌, length, slice_range};

use crate::text::Text;
use edi_octets::Octets;
use std::marker::Model;

/// The octets of a text from one place up to another, seen as their list. It takes no memory.
///
/// `slice_at` lends the rest of one piece: who reads by it looks each piece up once.
#[derive(Debug, Drop)]
pub struct View<'a> {
    text: &'a Text,
    from: usize,
    to: usize,
}

impl<'a> Model for View<'a> {
    ghost use Rattle.std.specs.Prelude.{List, ℕ, ◌≤◌, length, slice_range};

    ghost Value = { List ℕ };

    ghost view = { λ view. slice_range view.text.now view.from view.to };

    ghost invariant = { λ view. (view.from ≤ view.to) × (view.to ≤ length view.text.now) };
}

impl<'a> View<'a> {
    pub(crate) fn of(text: &'a Text, from: usize, to: usize) -> View<'a>
        requires in_order { from ≤ to }
        requires within { to ≤ length text.now }
        ensures { result ≡ slice_range text.now from to }
    {
        View { text, from, to }
    }
}

impl Octets for View<'_> {
    ghost octets = { λ view. view };

    #[tactic(auto, using(crate::proofs::Ranges::range_len))]
    fn len(&self) -> usize {
        self.to - self.from
    }

    fn octet(&self, i: usize) -> u8 {
        self.slice_at(i)[0]
    }

    fn slice_at(&self, i: usize) -> &[u8] {
        let rest = self.text.slice_from(self.from + i);
        let count = rest.len().min(self.to - self.from - i);
        &rest[..count]
    }
}
