//! The printed tree.
ghost use Rattle.std.specs.Prelude.{◌≡◌, ◌+◌, ◌-◌, ◌*◌, ◌<◌, ◌≤◌, [], ◌∷◌, ◌++◌, All, codes, count_by, length, take, drop, replicate, decimal, IfOk, IfSome, OnOk};
ghost use Rattle.std.specs.List.{flat_map};
ghost use Rattle.error_ledger.specs.Printing.{tree_text, tree_lines, ended_lines, group_line, opening_lines, placed_line, numbered, indentation, IsWellPlaced};
ghost use Rattle.edi_octets.specs.Decimal.{count_line};
ghost use Rattle.edi_tables.specs.Growing.{HasGrown};
ghost use Rattle.error_ledger.specs.TreeCount.{opens_group as opens_in_tree};

use crate::line::{MOST_OCTETS, NO_LINE, put, put_number, put_numeral, put_spaces};
use crate::put::{room_for_lines, tag_octets};
use crate::tree::{GroupMark, TreeLine, TreePlace};
use edi_octets::{Numeral, put_count};
use edi_tables::{Chunk, Tag};
use std::alloc::{AllocError, Global};

/// Room for a line of a tree: most lines have 8 to 20 octets.
const TREE_LINE_ROOM: usize = 16;

/// The most groups round a line whose indentation is laid out with it.
const MOST_GROUPS: u8 = 16;

/// The printed form of a tree: how many lines it has, and for each segment the line of the group that it opens, if
/// it opens one, and its own. A segment that opens a group lies in it, so that its depth is at least 1.
#[tactic(auto, unfolding(crate::specs::Printing::tree_text))]
pub fn print_tree(alloc: Global, list: &[TreeLine]) -> Result<Chunk, AllocError>
    requires { All IsWellPlaced list.now }
    ensures { IfOk result (λ c. c ≡ tree_text list.now) }
{
    let lines = count_lines(list);
    let mut out = room_for_lines(alloc, lines, TREE_LINE_ROOM)?;
    put_tree_head(&mut out, lines)?;
    let mut numeral = Numeral::of(0);
    for line in list {
        put_segment(&mut out, &mut numeral, line)?;
    }
    Ok(out)
}

/// Puts the head of a printed tree that has so many lines. Where memory is refused, a part of it may be put.
pub fn put_tree_head(out: &mut Chunk, lines: usize) -> Result<(), AllocError>
    ensures ok { OnOk result (out.new ≡ out.old ++ count_line (codes "tree") lines) }
    ensures grown { HasGrown out.old out.new }
{
    put_count(out, b"tree", lines)
}

/// Puts the lines of a segment in a printed tree, that of the group that it opens, if it opens one, and its own, and
/// answers how many these are. A segment that opens a group lies in it, so that its depth is at least 1. Where memory is
/// refused, a part of them may be put. The numeral becomes the number of the segment: one is used for a whole tree, where it
/// is the number before.
#[tactic(auto, using(crate::proofs::PrintLemmas::lines_of_segment))]
#[inline(always)]
pub fn put_tree_line(
    out: &mut Chunk,
    numeral: &mut Numeral,
    line: &TreeLine,
) -> Result<usize, AllocError>
    requires { IsWellPlaced line.now }
    ensures printed { OnOk result (out.new ≡ out.old ++ ended_lines (tree_lines line.now)) }
    ensures count { IfOk result (λ n. n ≡ length (tree_lines line.now)) }
    ensures grown { HasGrown out.old out.new }
{
    put_segment(out, numeral, line)?;
    Ok(1 + usize::from(opens_group(line)))
}

// How many lines a tree has: one for each segment, and one for each group that is opened.
#[tactic(auto, using(crate::proofs::PrintLemmas::lines_counted))]
fn count_lines(list: &[TreeLine]) -> usize
    ensures { result ≡ length (flat_map tree_lines list.now) }
{
    list.len() + count_groups(list)
}

fn count_groups(list: &[TreeLine]) -> usize
    ensures groups { result ≡ count_by opens_in_tree list.now }
    ensures few { result ≤ length list.now }
{
    list.iter().filter(|line| opens_group(line)).count()
}

fn opens_group(line: &TreeLine) -> bool
    ensures { result ≡ opens_in_tree line.now }
{
    matches!(line.place, TreePlace::Placed { opens: Some(_), .. })
}

// The lines of a segment.
#[tactic(auto, using(edi_tables::proofs::GrowingLaws::grown_then), unfolding(crate::specs::Printing::lines_at))]
#[inline(always)]
fn put_segment(out: &mut Chunk, numeral: &mut Numeral, line: &TreeLine) -> Result<(), AllocError>
    requires { IsWellPlaced line.now }
    ensures ok { OnOk result (out.new ≡ out.old ++ ended_lines (tree_lines line.now)) }
    ensures grown { HasGrown out.old out.new }
{
    numeral.go_to(line.segment);
    match line.place {
        TreePlace::Outside => put_marked(out, b"- ", numeral, line.tag),
        TreePlace::Untabled => put_marked(out, b"? ", numeral, line.tag),
        TreePlace::Unplaced => put_marked(out, b"! ", numeral, line.tag),
        TreePlace::Placed {
            entry,
            depth,
            opens,
        } => put_placed(out, numeral, line.tag, entry, depth, opens),
    }
}

// The line of a segment that isn't placed, with its mark of two octets.
#[inline(never)]
fn put_marked(
    out: &mut Chunk,
    mark: &[u8],
    numeral: &Numeral,
    tag: Option<Tag>,
) -> Result<(), AllocError>
    requires { length mark.now ≤ 2 }
    ensures ok { OnOk result
        (out.new ≡ out.old ++ (mark.now ++ numbered numeral.now tag ++ 10 ∷ [])) }
    ensures grown { HasGrown out.old out.new }
{
    let mut room = NO_LINE;
    let at = put(&mut room, MOST_OCTETS, &tag_octets(tag, b'\n'));
    let at = put_numeral(&mut room, at, numeral);
    let at = put(&mut room, at, mark);
    out.add(&room[at..])
}

// The line of a segment at its entry, after that of the group that the entry opens, if it opens one. Both are put in
// one piece.
#[inline(always)]
fn put_placed(
    out: &mut Chunk,
    numeral: &Numeral,
    tag: Option<Tag>,
    entry: u16,
    depth: u8,
    opens: Option<GroupMark>,
) -> Result<(), AllocError>
    requires { IfSome opens (λ _. 1 ≤ depth) }
    ensures ok { OnOk result (out.new
        ≡ out.old ++ (ended_lines (opening_lines depth opens)
        ++ placed_line numeral.now tag entry depth ++ 10 ∷ [])) }
    ensures grown { HasGrown out.old out.new }
{
    if depth > MOST_GROUPS {
        return put_deep(out, numeral, tag, entry, depth, opens);
    }
    let mut room = NO_LINE;
    let at = lay_placed(&mut room, numeral, tag, entry, depth, opens);
    out.add(&room[at..])
}

// The same with any number of groups round the entry.
#[inline(never)]
#[tactic(auto, using(edi_tables::proofs::GrowingLaws::grown_then), unfolding(crate::specs::Printing::placed_line))]
fn put_deep(
    out: &mut Chunk,
    numeral: &Numeral,
    tag: Option<Tag>,
    entry: u16,
    depth: u8,
    opens: Option<GroupMark>,
) -> Result<(), AllocError>
    requires { IfSome opens (λ _. 1 ≤ depth) }
    ensures ok { OnOk result (out.new
        ≡ out.old ++ (ended_lines (opening_lines depth opens)
        ++ placed_line numeral.now tag entry depth ++ 10 ∷ [])) }
    ensures grown { HasGrown out.old out.new }
{
    put_deep_opening(out, depth, opens)?;
    put_indentation(out, depth)?;
    let mut room = NO_LINE;
    let at = lay_entry(&mut room, numeral, tag, entry);
    out.add(&room[at..])
}

// The line of the group that an entry opens, if it opens one, with any number of groups round it.
#[tactic(auto, using(edi_tables::proofs::GrowingLaws::grown_same))]
fn put_deep_opening(out: &mut Chunk, depth: u8, opens: Option<GroupMark>) -> Result<(), AllocError>
    requires { IfSome opens (λ _. 1 ≤ depth) }
    ensures ok { OnOk result (out.new ≡ out.old ++ ended_lines (opening_lines depth opens)) }
    ensures grown { HasGrown out.old out.new }
{
    match opens {
        Some(mark) => put_deep_group(out, mark, depth - 1),
        None => Ok(()),
    }
}

// The line of a group that is opened, with any number of groups round it.
#[tactic(auto, using(edi_tables::proofs::GrowingLaws::grown_then), unfolding(crate::specs::Printing::group_line))]
fn put_deep_group(out: &mut Chunk, mark: GroupMark, depth: u8) -> Result<(), AllocError>
    ensures ok { OnOk result (out.new ≡ out.old ++ (group_line mark depth ++ 10 ∷ [])) }
    ensures grown { HasGrown out.old out.new }
{
    put_indentation(out, depth)?;
    let mut room = NO_LINE;
    let at = lay_group(&mut room, MOST_OCTETS, mark);
    out.add(&room[at..])
}

// Lays out the line of a segment at its entry, after that of the group that the entry opens, if it opens one, and answers where
// they begin.
#[tactic(auto, unfolding(crate::specs::Printing::placed_line))]
#[inline(always)]
fn lay_placed(
    room: &mut [u8; MOST_OCTETS],
    numeral: &Numeral,
    tag: Option<Tag>,
    entry: u16,
    depth: u8,
    opens: Option<GroupMark>,
) -> usize
    requires inside { IfSome opens (λ _. 1 ≤ depth) }
    requires few { depth ≤ MOST_GROUPS }
    requires empty { room.old ≡ replicate MOST_OCTETS 32 }
    ensures within { result ≤ MOST_OCTETS }
    ensures lines { drop result room.new
        ≡ ended_lines (opening_lines depth opens)
        ++ placed_line numeral.now tag entry depth ++ 10 ∷ [] }
{
    let at = lay_entry(room, numeral, tag, entry);
    let at = put_spaces(room, at, 2 * usize::from(depth));
    lay_opening(room, at, depth, opens)
}

// Lays out the line of a segment at its entry, without its indentation, and answers where it begins.
#[inline(always)]
fn lay_entry(room: &mut [u8; MOST_OCTETS], numeral: &Numeral, tag: Option<Tag>, entry: u16) -> usize
    requires { room.old ≡ replicate MOST_OCTETS 32 }
    ensures short { 100 ≤ result }
    ensures within { result ≤ MOST_OCTETS }
    ensures line { drop result room.new
        ≡ codes "= " ++ numbered numeral.now tag ++ codes " " ++ decimal entry ++ 10 ∷ [] }
    ensures before { take result room.new ≡ replicate result 32 }
{
    let at = put(room, MOST_OCTETS, b"\n");
    let at = put_number(room, at, u32::from(entry));
    let at = put(room, at, &tag_octets(tag, b' '));
    let at = put_numeral(room, at, numeral);
    put(room, at, b"= ")
}

// Puts in front the line of the group that an entry opens, if it opens one.
#[tactic(auto, unfolding(crate::specs::Printing::group_line))]
#[inline(always)]
fn lay_opening(
    room: &mut [u8; MOST_OCTETS],
    at: usize,
    depth: u8,
    opens: Option<GroupMark>,
) -> usize
    requires inside { IfSome opens (λ _. 1 ≤ depth) }
    requires few { depth ≤ MOST_GROUPS }
    requires within { at ≤ MOST_OCTETS }
    requires fits { 60 ≤ at }
    requires before { take at room.old ≡ replicate at 32 }
    ensures within { result ≤ MOST_OCTETS }
    ensures line { drop result room.new
        ≡ ended_lines (opening_lines depth opens) ++ drop at room.old }
{
    match opens {
        Some(mark) => {
            let at = lay_group(room, at, mark);
            put_spaces(room, at, 2 * usize::from(depth - 1))
        }
        None => at,
    }
}

// Puts in front the line of a group, without its indentation.
#[inline(always)]
fn lay_group(room: &mut [u8; MOST_OCTETS], at: usize, mark: GroupMark) -> usize
    requires within { at ≤ MOST_OCTETS }
    requires fits { 60 ≤ at }
    requires before { take at room.old ≡ replicate at 32 }
    ensures short { at ≤ result + 28 }
    ensures within { result ≤ MOST_OCTETS }
    ensures line { drop result room.new
        ≡ (codes "group " ++ decimal mark.number ++ codes " " ++ decimal mark.count ++ 10 ∷ [])
        ++ drop at room.old }
    ensures before { take result room.new ≡ replicate result 32 }
{
    let at = put(room, at, b"\n");
    let at = put_number(room, at, mark.count);
    let at = put(room, at, b" ");
    let at = put_number(room, at, u32::from(mark.number));
    put(room, at, b"group ")
}

// Two spaces for each group, of which there may be any number.
#[tactic(auto, using(crate::proofs::PrintLemmas::indentation_more, edi_tables::proofs::GrowingLaws::grown_then, edi_tables::proofs::GrowingLaws::grown_same))]
fn put_indentation(out: &mut Chunk, groups: u8) -> Result<(), AllocError>
    ensures ok { OnOk result (out.new ≡ out.old ++ indentation groups) }
    ensures grown { HasGrown out.old out.new }
{
    for _group in 0..groups {
        out.add(b"  ")?;
    }
    Ok(())
}
