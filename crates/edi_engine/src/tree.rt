//! The tree of a text, as a list and printed.
ghost use Rattle.std.specs.Prelude.{◌≡◌, ◌++◌, All, IfOk, codes, map};
ghost use Rattle.dir_compile.specs.Directory.{tables_of};
ghost use Rattle.error_ledger.specs.Printing.{IsWellPlaced, tree_text};
ghost use Rattle.edi_octets.specs.Decimal.{count_line};
ghost use Rattle.segment_records.specs.Groups.{numbers_in};
ghost use Rattle.segment_records.specs.Look.{seen_of};
ghost use Rattle.segment_records.specs.WalkedSegments.{Follows};
ghost use Rattle.segment_records.specs.Told.{line_in_tree};
ghost use Rattle.text_reading.specs.Placed.{AreMessagesPlaced};
ghost use Rattle.text_reading.specs.Tree.{tree_of};

use crate::places::{find_place, number_groups};
use dir_compile::Directory;
use edi_octets::Numeral;
use edi_tables::{Chunk, List};
use error_ledger::{TreeLine, put_tree_line};
use kept_text::KeptText;
use segment_records::WalkedSegment;
use std::alloc::{AllocError, Global};

/// Room for the lines of a segment: most have 8 to 20 octets, and some open a group, which is a line more.
const SEGMENT_ROOM: usize = 24;

/// A printed tree without its head: how many lines it has, and these, each ended by LF. The head says how many lines
/// there are, so that it can be put in front only when all lines are known.
#[derive(Drop)]
pub struct PrintedTree {
    pub lines: usize,
    pub text: Chunk,
}

/// The tree of the text: one member for each segment. Only want of memory is an error. The work grows with the number of
/// segments and the nodes of the directory's tables.
pub(crate) fn list_tree(kept: &KeptText<'_>, alloc: Global) -> Result<Vec<TreeLine>, AllocError>
    ensures exact { IfOk result
        (λ tree. tree.items ≡ tree_of kept.now.directory kept.now.text) }
    ensures well { IfOk result (λ tree. All IsWellPlaced tree.items) }
    // A segment with no error of its own placement is at the first candidate that is free; where the table lists no
    // collision, a derivation of a message's tags is what the tree shows.
    ensures placed { AreMessagesPlaced kept.now.directory kept.now.text }
{
    let directory = kept.directory();
    let numbers = number_groups(alloc, directory)?;
    let mut tree = Vec::with_capacity(alloc, kept.segment_count() as usize)?;
    for seen in kept.segments() {
        tree.push(line_of(directory, &numbers, &seen))?;
    }
    Ok(tree)
}

/// The printed tree of the text: that of `list_tree`, with no list of its members. Only want of memory is an error. The work
/// grows with the number of segments, the nodes of the directory's tables and the octets that are printed.
pub(crate) fn print_tree(kept: &KeptText<'_>, alloc: Global) -> Result<PrintedTree, AllocError>
    ensures printed { IfOk result (λ tree. count_line (codes "tree") tree.lines ++ tree.text
        ≡ tree_text (tree_of kept.now.directory kept.now.text)) }
    // What it shows of messages is what `list_tree` does.
    ensures placed { AreMessagesPlaced kept.now.directory kept.now.text }
{
    let directory = kept.directory();
    let numbers = number_groups(alloc, directory)?;
    let room = (kept.segment_count() as usize).saturating_mul(SEGMENT_ROOM);
    let mut text = Chunk::with_room(alloc, room)?;
    let mut lines = 0;
    let mut numeral = Numeral::of(0);
    for seen in kept.segments() {
        lines += put_tree_line(
            &mut text,
            &mut numeral,
            &line_of(directory, &numbers, &seen),
        )?;
    }
    Ok(PrintedTree { lines, text })
}

/// The member of the tree for a segment. `numbers` are those that `number_groups` gives of the directory.
#[inline(always)]
pub(crate) fn line_of(
    directory: &Directory,
    numbers: &[List<u16>],
    seen: &WalkedSegment<'_>,
) -> TreeLine
    requires follows { Follows directory.now (seen_of seen.now) }
    requires numbers { numbers.now ≡ map numbers_in (tables_of directory.now) }
    ensures { result ≡ line_in_tree directory.now (seen_of seen.now) }
{
    TreeLine {
        segment: seen.number,
        tag: seen.record.tag(),
        place: find_place(directory, numbers, seen),
    }
}
