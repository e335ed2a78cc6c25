//! A piece of a text: a range of octets that other pieces may share.

ghost use Rattle.std.specs.Prelude.{◌≡◌, ◌^◌, ◌<◌, ◌≤◌, length, slice_range, IfOk};

use seq_tree::Measured;
use std::alloc::{AllocError, Global};
use std::marker::Model;
use std::rc::Rc;

/// One octet or more, seen as their list.
#[derive(Debug, Drop)]
pub(crate) struct Piece {
    octets: Rc<Vec<u8>>,
    from: u32,
    to: u32,
}

impl Model for Piece {
    ghost use Rattle.std.specs.Prelude.{ℕ, List, slice_range, ◌^◌, ◌<◌, ◌≤◌, length};

    ghost Value = { List ℕ };

    ghost view = { λ piece. slice_range piece.octets.value.items piece.from piece.to };

    ghost invariant = { λ piece. (piece.from < piece.to)
        × (piece.to ≤ length piece.octets.value.items)
        × (piece.to < 2 ^ 32) };
}

impl Piece {
    /// A piece of all these octets. After an error they are dropped.
    #[tactic(auto, using(crate::proofs::Ranges::range_all))]
    pub(crate) fn of(alloc: Global, octets: Vec<u8>) -> Result<Piece, AllocError>
        requires some { 0 < length octets.items }
        requires short { length octets.items < 2 ^ 32 }
        ensures { IfOk result (λ piece. piece ≡ octets.items) }
    {
        let to = octets.len() as u32;
        Ok(Piece {
            octets: Rc::new(alloc, octets)?,
            from: 0,
            to,
        })
    }

    /// Its octets.
    pub(crate) fn octets(&self) -> &[u8]
        ensures { result.now ≡ self.now }
    {
        &self.octets[self.from as usize..self.to as usize]
    }

    /// A part of it, which shares its octets. It takes no memory: the error is that of an `Rc` whose count is full.
    #[tactic(auto, using(crate::proofs::Ranges::range_part, crate::proofs::Ranges::range_len))]
    pub(crate) fn part(&self, from: usize, to: usize) -> Result<Piece, AllocError>
        requires some { from < to }
        requires within { to ≤ length self.now }
        ensures { IfOk result (λ piece. piece ≡ slice_range self.now from to) }
    {
        Ok(Piece {
            octets: self.octets.clone()?,
            from: self.from + from as u32,
            to: self.from + to as u32,
        })
    }
}

impl Measured for Piece {
    ghost use Rattle.std.specs.Prelude.{length};

    ghost measure = { λ piece. length piece };

    ghost marks = { λ _. 0 };

    #[tactic(auto, using(crate::proofs::Ranges::range_len))]
    fn weight(&self) -> u32 {
        self.to - self.from
    }

    fn marks(&self) -> u32 {
        0
    }
}
