//! A text checked as it is read, from its first octet to its last: its errors, and its tree where it is wanted. No record of it is
//! kept.
ghost use Rattle.std.specs.Prelude.{◌≡◌, ◌++◌, ◌≤◌, codes, length, IfOk, OnOk};
ghost use Rattle.std.specs.Bool.{OnTrue};
ghost use Rattle.std.specs.List.{enumerate_from, flat_map};
ghost use Rattle.std.specs.List.Sorted.{IsPermutation};
ghost use Rattle.dir_compile.specs.Directory.{IsDirectory};
ghost use Rattle.edi_octets.specs.Decimal.{count_line};
ghost use Rattle.error_ledger.specs.Order.{IsAscending};
ghost use Rattle.error_ledger.specs.Printing.{tree_text};
ghost use Rattle.envelope_check.specs.Envelope.{envelope_errors_of};
ghost use Rattle.seg_lexer.specs.Context.{context_of};
ghost use Rattle.seg_lexer.specs.Segments.{tail_of};
ghost use Rattle.seg_lexer.specs.Service.{service_of};
ghost use Rattle.segment_records.specs.Count.{segment_count_of};
ghost use Rattle.segment_records.specs.Errors.{segment_lines};
ghost use Rattle.segment_records.specs.Heads.{heads_of, marks_of};
ghost use Rattle.segment_records.specs.Segments.{segments_of_text};
ghost use Rattle.text_reading.specs.Errors.{advice_lines, errors_found, errors_of, tail_lines};
ghost use Rattle.text_reading.specs.Placed.{AreMessagesPlaced};
ghost use Rattle.text_reading.specs.Tree.{tree_of};
ghost use Rattle.edi_octets.specs.declared.octets.TheConstants.{LONGEST_TEXT};

use crate::errors::put_lines;
use crate::heads::{OwnedHead, lend_heads};
use crate::marks::TextMarks;
use crate::opening::{put_advice, put_syntax, put_tail};
use crate::places::number_groups;
use crate::told::{ToldErrors, ToldTree};
use crate::tree::PrintedTree;
use dir_compile::Directory;
use edi_octets::{Flat, Numeral};
use edi_tables::Chunk;
use envelope_check::envelope_errors;
use error_ledger::{ErrorLine, order_errors};
use kept_text::PassingSegments;
use std::alloc::{AllocError, Global};

/// What a check tells of a text: its errors, in ascending order, and its printed tree.
#[derive(Drop)]
pub struct Checked {
    pub errors: Vec<ErrorLine>,
    pub tree: PrintedTree,
}

/// Checks a text by a directory: what an `Engine` that reads it tells, with nothing kept for edits. The work grows with the
/// text, the nodes of the directory's tables and the octets that are printed; memory, with the errors, the heads and the tree
/// alone. Only want of memory is an error.
pub fn check_text(
    alloc: Global,
    directory: &Directory,
    octets: &[u8],
) -> Result<Checked, AllocError>
    requires short { length octets.now ≤ LONGEST_TEXT }
    ensures errors { IfOk result
        (λ checked. checked.errors.items ≡ errors_of directory.now octets.now) }
    ensures ascending { IfOk result (λ checked. IsAscending checked.errors.items) }
    ensures same { IfOk result (λ checked.
        IsPermutation (errors_found directory.now octets.now) checked.errors.items) }
    ensures printed { IfOk result (λ checked.
        count_line (codes "tree") checked.tree.lines ++ checked.tree.text
        ≡ tree_text (tree_of directory.now octets.now)) }
    // A segment with no error of its own placement is at the first candidate that is free; where the table lists no
    // collision, a derivation of a message's tags is what the tree shows.
    ensures placed { AreMessagesPlaced directory.now octets.now }
{
    // It is checked by a directory.
    let _parts = directory.parts();
    let mut segments = PassingSegments::of(alloc, directory, octets)?;
    let with_tree = true;
    check_all(alloc, &mut segments, with_tree)
}

/// The errors that `check_text` tells of a text, in ascending order. No line of its tree is made: neither the work nor the memory
/// grows with the octets of the tree. Only want of memory is an error.
pub fn list_text_errors(
    alloc: Global,
    directory: &Directory,
    octets: &[u8],
) -> Result<Vec<ErrorLine>, AllocError>
    requires short { length octets.now ≤ LONGEST_TEXT }
    ensures exact { IfOk result (λ list. list.items ≡ errors_of directory.now octets.now) }
    ensures ascending { IfOk result (λ list. IsAscending list.items) }
    ensures same { IfOk result
        (λ list. IsPermutation (errors_found directory.now octets.now) list.items) }
{
    let _parts = directory.parts();
    let mut segments = PassingSegments::of(alloc, directory, octets)?;
    let with_tree = false;
    let checked = check_all(alloc, &mut segments, with_tree)?;
    Ok(checked.errors)
}

// The same of the text of these segments, of which none is passed before. The tree is told only if it is wanted.
fn check_all(
    alloc: Global,
    segments: &mut PassingSegments<'_>,
    with_tree: bool,
) -> Result<Checked, AllocError>
    requires lawful { IsDirectory segments.old.directory }
    requires fresh { segments.old.passed ≡ 0 }
    ensures errors { IfOk result (λ checked.
        checked.errors.items ≡ errors_of segments.old.directory segments.old.text) }
    ensures ascending { IfOk result (λ checked. IsAscending checked.errors.items) }
    ensures same { IfOk result (λ checked.
        IsPermutation (errors_found segments.old.directory segments.old.text)
        checked.errors.items) }
    ensures printed { IfOk result (λ checked. OnTrue with_tree (
        count_line (codes "tree") checked.tree.lines ++ checked.tree.text
        ≡ tree_text (tree_of segments.old.directory segments.old.text))) }
{
    let text = Flat {
        octets: segments.text(),
    };
    let mut syntax = Vec::new(alloc);
    put_syntax(&text, segments.at_hand(), &mut syntax)?;
    let Told { tree, lines, heads } = tell_all(alloc, segments, with_tree)?;
    let mut errors = judge_heads(alloc, segments, &heads)?;
    put_ends(segments, &mut errors)?;
    put_lines(syntax, &mut errors)?;
    put_lines(lines, &mut errors)?;
    order_errors(&mut errors)?;
    Ok(Checked { errors, tree })
}

// What the segments of a text tell one after the other: the tree, if it is wanted, the errors of each segment by itself and by
// its message, and the heads.
#[derive(Drop)]
struct Told {
    tree: PrintedTree,
    lines: Vec<ErrorLine>,
    heads: Vec<OwnedHead>,
}

// All that these segments tell. None is passed before, and all are after.
#[inline(never)]
fn tell_all(
    alloc: Global,
    segments: &mut PassingSegments<'_>,
    with_tree: bool,
) -> Result<Told, AllocError>
    requires { segments.old.passed ≡ 0 }
    ensures directory { segments.new.directory ≡ segments.old.directory }
    ensures text { segments.new.text ≡ segments.old.text }
    ensures passed { OnOk result (segments.new.passed ≡ segment_count_of segments.old.text) }
    ensures heads { IfOk result (λ told. told.heads.items
        ≡ heads_of segments.old.directory (segments_of_text segments.old.text)) }
    ensures lines { IfOk result (λ told. let cut = segments_of_text segments.old.text in
        told.lines.items
        ≡ flat_map (segment_lines segments.old.directory (context_of segments.old.text) cut)
        (enumerate_from 0 cut)) }
    ensures printed { IfOk result (λ told. OnTrue with_tree (
        count_line (codes "tree") told.tree.lines ++ told.tree.text
        ≡ tree_text (tree_of segments.old.directory segments.old.text))) }
{
    let directory = segments.directory();
    let numbers = number_groups(alloc, directory)?;
    let octets = segments.text();
    let room = if with_tree {
        octets.len().saturating_mul(2)
    } else {
        0
    };
    let mut tree = ToldTree {
        wanted: with_tree,
        text: Chunk::with_room(alloc, room)?,
        lines: 0,
        numeral: Numeral::of(0),
    };
    let mut errors = ToldErrors {
        lines: Vec::new(alloc),
        heads: Vec::new(alloc),
    };
    while let Some(seen) = segments.at_hand() {
        tree.tell(directory, &numbers, &seen)?;
        errors.tell(alloc, directory, &seen)?;
        segments.pass(alloc)?;
    }
    Ok(Told {
        tree: PrintedTree {
            lines: tree.lines,
            text: tree.text,
        },
        lines: errors.lines,
        heads: errors.heads,
    })
}

// The errors of the envelopes of the text of these segments, all of which are passed. These are the heads among them.
fn judge_heads(
    alloc: Global,
    segments: &PassingSegments<'_>,
    heads: &[OwnedHead],
) -> Result<Vec<ErrorLine>, AllocError>
    requires passed { segments.now.passed ≡ segment_count_of segments.now.text }
    requires heads { heads.now
        ≡ heads_of segments.now.directory (segments_of_text segments.now.text) }
    ensures { IfOk result (λ errors. let cut = segments_of_text segments.now.text in
        errors.items ≡ envelope_errors_of (heads_of segments.now.directory cut) (marks_of cut)) }
{
    let mut marks = TextMarks::of(segments.text(), segments.context());
    let heads = lend_heads(alloc, heads)?;
    envelope_errors(alloc, &heads, segments.passed(), &mut marks)
}

// Puts what is wrong before the first of these segments and after the last. All are passed.
fn put_ends(segments: &PassingSegments<'_>, list: &mut Vec<ErrorLine>) -> Result<(), AllocError>
    requires { segments.now.passed ≡ segment_count_of segments.now.text }
    ensures { OnOk result (let text = segments.now.text in
        list.new.items ≡ list.old.items ++ advice_lines (context_of text).service.sound
        ++ tail_lines (segment_count_of text) (tail_of (service_of text) text)) }
{
    let service = &segments.context().service;
    put_advice(service, list)?;
    let text = Flat {
        octets: segments.text(),
    };
    put_tail(
        &text,
        service,
        segments.last_boundary(),
        segments.passed(),
        list,
    )
}
