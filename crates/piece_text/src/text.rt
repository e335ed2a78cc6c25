//! The text that callers see: a list of octets, of which an edit makes a new version.

ghost use Rattle.std.specs.Prelude.{◌≡◌, ◌+◌, ◌-◌, ◌<◌, ◌≤◌, ◌++◌, length, take, drop, slice_range, IfOk, OnOk};
ghost use Rattle.std.specs.List.{concat};
ghost use Rattle.edi_octets.specs.declared.octets.TheConstants.{LONGEST_TEXT};

use crate::piece::Piece;
use crate::pieces::{locate, octet_count, of_vec, split, weld};
use crate::view::View;
use edi_tables::Chunk;
use seq_tree::Seq;
use std::alloc::{AllocError, Global};
use std::marker::Model;

/// A text of at most 4,194,304 octets, seen as their list.
///
/// An edit makes a new version and leaves the old one as it was: the two share the octets that the edit keeps. So an
/// edit costs pieces, and not octets, and after an error the text is still what it was.
#[derive(Debug)]
pub struct Text {
    pieces: Seq<Piece>,
}

impl Model for Text {
    ghost use Rattle.std.specs.Prelude.{List, ℕ, ◌≤◌, length};
    ghost use Rattle.std.specs.List.{concat};
    ghost use Rattle.piece_text.specs.Pieces.{AreFull};
    ghost use Rattle.edi_octets.specs.declared.octets.TheConstants.{LONGEST_TEXT};

    ghost Value = { List ℕ };

    ghost view = { λ text. concat text.pieces };

    ghost invariant = { λ text. (length (concat text.pieces) ≤ LONGEST_TEXT) × AreFull text.pieces };
}

// Written by hand so that a drop is one call to its caller's proof.
impl Drop for Text {
    fn drop(self) {
        let Text { pieces } = self;
        drop(pieces);
    }
}

impl Text {
    /// A text of these octets, which are copied.
    pub fn of_bytes(alloc: Global, octets: &[u8]) -> Result<Text, AllocError>
        requires { length octets.now ≤ LONGEST_TEXT }
        ensures { IfOk result (λ text. text ≡ octets.now) }
    {
        Text::of_vec(alloc, octets.to_vec(alloc)?)
    }

    /// A text of these octets, which it keeps. After an error they are dropped.
    pub fn of_vec(alloc: Global, octets: Vec<u8>) -> Result<Text, AllocError>
        requires { length octets.items ≤ LONGEST_TEXT }
        ensures { IfOk result (λ text. text ≡ octets.items) }
    {
        let pieces = of_vec(alloc, octets)?;
        Ok(Text { pieces })
    }

    /// The same text, which shares its pieces. Only want of memory is an error.
    pub fn share(&self) -> Result<Text, AllocError>
        ensures { IfOk result (λ text. text ≡ self.now) }
    {
        let pieces = self.pieces.share()?;
        Ok(Text { pieces })
    }

    /// How many octets it has.
    pub fn len(&self) -> usize
        ensures { result ≡ length self.now }
    {
        octet_count(&self.pieces)
    }

    /// The version in which `put` is in place of the `cut` octets from place `at` on.
    pub fn replace(
        &self,
        alloc: Global,
        at: usize,
        cut: usize,
        put: &[u8],
    ) -> Result<Text, AllocError>
        requires inside { at + cut ≤ length self.now }
        requires short { length self.now - cut + length put.now ≤ LONGEST_TEXT }
        ensures { IfOk result (λ text. text
            ≡ take at self.now ++ put.now ++ drop (at + cut) self.now) }
    {
        let (front, rest) = split(alloc, &self.pieces, at)?;
        let (_, back) = split(alloc, &rest, cut)?;
        let pieces = weld(alloc, &front, put, &back)?;
        Ok(Text { pieces })
    }

    /// The octets from place `from` up to place `to`. It takes no memory.
    pub fn view(&self, from: usize, to: usize) -> View<'_>
        requires in_order { from ≤ to }
        requires within { to ≤ length self.now }
        ensures { result ≡ slice_range self.now from to }
    {
        View::of(self, from, to)
    }

    /// A copy of all its octets.
    pub fn copy(&self, alloc: Global) -> Result<Chunk, AllocError>
        ensures { IfOk result (λ octets. octets ≡ self.now) }
    {
        let mut octets = Chunk::with_room(alloc, self.len())?;
        add_all(&mut octets, &self.pieces)?;
        Ok(octets)
    }

    /// The rest of the piece that an octet is in, from that octet on.
    pub(crate) fn slice_from(&self, at: usize) -> &[u8]
        requires within { at < length self.now }
        ensures some { 0 < length result.now }
        ensures within { at + length result.now ≤ length self.now }
        ensures part { result.now ≡ slice_range self.now at (at + length result.now) }
    {
        let located = locate(&self.pieces, at);
        &located.item.octets()[located.offset as usize..]
    }
}

// Puts the octets of all pieces at the end.
fn add_all(octets: &mut Chunk, pieces: &Seq<Piece>) -> Result<(), AllocError>
    ensures { OnOk result (octets.new ≡ octets.old ++ concat pieces.now) }
{
    for piece in pieces.iter() {
        octets.add(piece.octets())?;
    }
    Ok(())
}
