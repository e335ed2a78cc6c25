//! Sequences of pieces: where a place falls, how they are cut there, and how octets are put between two of them.

ghost use Rattle.std.specs.Prelude.{◌≡◌, ◌+◌, ◌<◌, ◌≤◌, [], ◌∷◌, ◌++◌, length, take, slice_get, Some, IfOk, OnOk};
ghost use Rattle.std.specs.List.{concat};
ghost use Rattle.piece_text.specs.Pieces.{AreFull, IsSplit};
ghost use Rattle.edi_octets.specs.declared.octets.TheConstants.{LONGEST_TEXT};

use crate::piece::Piece;
use seq_tree::{Located, Seq};
use std::alloc::{AllocError, Global};
use std::marker::Brand;
use std::sync::ledger::{Blank, Ledger};
use step_counter::Steps;

/// Octets that are put in are copied into one piece with the pieces on each side that are together at most so many. So
/// any two neighbours are together more than that, and a text of n octets has at most n / 256 pieces and one.
const MOST_COPIED: usize = 512;

/// How many octets the pieces have.
#[tactic(auto, using(crate::proofs::Concats::total_is))]
pub(crate) fn octet_count(pieces: &Seq<Piece>) -> usize
    ensures { result ≡ length (concat pieces.now) }
{
    pieces.total() as usize
}

/// The piece that an octet is in, and its place there.
pub(crate) fn locate(pieces: &Seq<Piece>, at: usize) -> Located<'_, Piece>
    requires within { at < length (concat pieces.now) }
    ensures is { slice_get pieces.now result.place ≡ Some result.item.now }
    ensures offset { length (concat (take result.place pieces.now)) + result.offset ≡ at }
    ensures within { result.offset < length result.item.now }
{
    locate_counted::<Brand>(pieces, at, Blank::new(1))
}

#[tactic(auto, using(crate::proofs::Concats::total_is))]
fn locate_counted<L: Ledger>(pieces: &Seq<Piece>, at: usize, blank: Blank) -> Located<'_, Piece>
    requires name { blank.name ≡ L.name }
    requires parts { blank.parts ≡ L.parts }
    requires some { 0 < blank.parts }
    requires within { at < length (concat pieces.now) }
    ensures is { slice_get pieces.now result.place ≡ Some result.item.now }
    ensures offset { length (concat (take result.place pieces.now)) + result.offset ≡ at }
    ensures within { result.offset < length result.item.now }
{
    let mut visited = Steps::<L>::start(blank);
    pieces.locate(at as u64, &mut visited)
}

/// One piece of these octets; no piece where there are none.
pub(crate) fn of_vec(alloc: Global, octets: Vec<u8>) -> Result<Seq<Piece>, AllocError>
    requires short { length octets.items ≤ LONGEST_TEXT }
    ensures text { IfOk result (λ pieces. concat pieces ≡ octets.items) }
    ensures full { IfOk result AreFull }
{
    if octets.is_empty() {
        return Seq::of_items(alloc, Vec::new(alloc));
    }
    let piece = Piece::of(alloc, octets)?;
    single(alloc, piece)
}

fn single(alloc: Global, piece: Piece) -> Result<Seq<Piece>, AllocError>
    ensures { IfOk result (λ pieces. pieces ≡ piece ∷ []) }
{
    let mut items = Vec::new(alloc);
    items.push(piece)?;
    Seq::of_items(alloc, items)
}

/// Puts the octets of all pieces at the end.
fn add_all(octets: &mut Vec<u8>, pieces: &Seq<Piece>) -> Result<(), AllocError>
    ensures { OnOk result (octets.new.items ≡ octets.old.items ++ concat pieces.now) }
{
    for piece in pieces.iter() {
        octets.extend_from_slice(piece.octets())?;
    }
    Ok(())
}

/// The pieces of the octets before a place, and those of the others. A piece that the place is within gives a part to
/// each.
pub(crate) fn split(
    alloc: Global,
    pieces: &Seq<Piece>,
    at: usize,
) -> Result<(Seq<Piece>, Seq<Piece>), AllocError>
    requires within { at ≤ length (concat pieces.now) }
    requires short { length (concat pieces.now) ≤ LONGEST_TEXT }
    requires full { AreFull pieces.now }
    ensures { IfOk result (λ parts. IsSplit pieces.now at parts.0 parts.1) }
{
    if at == octet_count(pieces) {
        return split_between(alloc, pieces, pieces.len());
    }
    let located = locate(pieces, at);
    if located.offset == 0 {
        return split_between(alloc, pieces, located.place);
    }
    split_within(
        alloc,
        pieces,
        located.place,
        located.item,
        located.offset as usize,
    )
}

/// The pieces before a place between two of them, and the others.
#[tactic(auto, using(crate::proofs::Concats::split_between))]
fn split_between(
    alloc: Global,
    pieces: &Seq<Piece>,
    place: usize,
) -> Result<(Seq<Piece>, Seq<Piece>), AllocError>
    requires within { place ≤ length pieces.now }
    requires full { AreFull pieces.now }
    ensures { let at = length (concat (take place pieces.now)) in
        IfOk result (λ parts. IsSplit pieces.now at parts.0 parts.1) }
{
    let (front, back) = pieces.cut(alloc, place)?;
    Ok((front, back))
}

/// The pieces cut within one of them.
fn split_within(
    alloc: Global,
    pieces: &Seq<Piece>,
    place: usize,
    piece: &Piece,
    offset: usize,
) -> Result<(Seq<Piece>, Seq<Piece>), AllocError>
    requires is { slice_get pieces.now place ≡ Some piece.now }
    requires within { offset < length piece.now }
    requires some { 0 < offset }
    requires short { length (concat pieces.now) ≤ LONGEST_TEXT }
    requires full { AreFull pieces.now }
    ensures { let at = length (concat (take place pieces.now)) + offset in
        IfOk result (λ parts. IsSplit pieces.now at parts.0 parts.1) }
{
    let (front, _) = pieces.cut(alloc, place)?;
    let (_, back) = pieces.cut(alloc, place + 1)?;
    let head = single(alloc, piece.part(0, offset)?)?;
    let tail = single(alloc, piece.part(offset, piece.octets().len())?)?;
    let front = front.join(alloc, &head)?;
    let back = tail.join(alloc, &back)?;
    Ok((front, back))
}

/// The pieces of `front`, these octets, and the pieces of `back`. Small pieces at the end of `front` and at the start of
/// `back` are copied into one with the octets.
pub(crate) fn weld(
    alloc: Global,
    front: &Seq<Piece>,
    put: &[u8],
    back: &Seq<Piece>,
) -> Result<Seq<Piece>, AllocError>
    requires full_front { AreFull front.now }
    requires full_back { AreFull back.now }
    requires short { length (concat front.now) + length put.now + length (concat back.now)
        ≤ LONGEST_TEXT }
    ensures text { IfOk result (λ pieces. concat pieces
        ≡ concat front.now ++ put.now ++ concat back.now) }
    ensures full { IfOk result AreFull }
{
    let (front, last) = front.cut(alloc, before_small_end(front))?;
    let (first, back) = back.cut(alloc, small_start(back))?;
    let run = run_of(alloc, &last, put, &first)?;
    join_three(alloc, &front, &run, &back)
}

/// How many pieces are before the last ones that are together small enough to be copied.
fn before_small_end(pieces: &Seq<Piece>) -> usize
    ensures { result ≤ length pieces.now }
{
    let mut room = MOST_COPIED;
    for place in (0..pieces.len()).rev() {
        match pieces.iter_from(place).next() {
            Some(last) if last.octets().len() <= room => room -= last.octets().len(),
            _ => return place + 1,
        }
    }
    0
}

/// How many first pieces are together small enough to be copied.
fn small_start(pieces: &Seq<Piece>) -> usize
    ensures { result ≤ length pieces.now }
{
    let mut room = MOST_COPIED;
    for place in 0..pieces.len() {
        match pieces.iter_from(place).next() {
            Some(first) if first.octets().len() <= room => room -= first.octets().len(),
            _ => return place,
        }
    }
    pieces.len()
}

/// The octets of some pieces, these octets, and those of further pieces, copied into one piece.
fn run_of(
    alloc: Global,
    last: &Seq<Piece>,
    put: &[u8],
    first: &Seq<Piece>,
) -> Result<Seq<Piece>, AllocError>
    requires short { length (concat last.now) + length put.now + length (concat first.now)
        ≤ LONGEST_TEXT }
    ensures text { IfOk result (λ pieces. concat pieces
        ≡ concat last.now ++ put.now ++ concat first.now) }
    ensures full { IfOk result AreFull }
{
    let count = octet_count(last) + put.len() + octet_count(first);
    let mut octets = Vec::with_capacity(alloc, count)?;
    add_all(&mut octets, last)?;
    octets.extend_from_slice(put)?;
    add_all(&mut octets, first)?;
    of_vec(alloc, octets)
}

/// The pieces of all three.
#[tactic(auto, using(crate::proofs::Full::count_le, crate::proofs::Full::full_append, crate::proofs::Concats::concat_append))]
fn join_three(
    alloc: Global,
    front: &Seq<Piece>,
    middle: &Seq<Piece>,
    back: &Seq<Piece>,
) -> Result<Seq<Piece>, AllocError>
    requires full_front { AreFull front.now }
    requires full_middle { AreFull middle.now }
    requires full_back { AreFull back.now }
    requires short { length (concat front.now) + length (concat middle.now)
        + length (concat back.now) ≤ LONGEST_TEXT }
    ensures text { IfOk result (λ pieces. concat pieces
        ≡ concat front.now ++ concat middle.now ++ concat back.now) }
    ensures full { IfOk result AreFull }
{
    let front = front.join(alloc, middle)?;
    front.join(alloc, back)
}
