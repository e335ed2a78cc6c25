//! Segment files.
ghost use Rattle.std.specs.Prelude.{◌≡◌, ◌≤◌, List, [], ◌∷◌, ◌++◌, length, map, true, Ok, IfOk, OnOk};
ghost use Rattle.std.specs.List.{list_all};
ghost use Rattle.edi_tables.specs.Forms.{is_segment_formed};
ghost use Rattle.edi_tables.specs.First.{IsVerdict, unless_faulty};
ghost use Rattle.edi_octets.specs.DirStop.{fault_in};
ghost use Rattle.edi_octets.specs.Left.{line_shown, body_left, entry_shown};
ghost use Rattle.edi_octets.specs.Lines.{Line};
ghost use Rattle.edi_octets.specs.Head.{head_field};
ghost use Rattle.dir_segments.specs.Parts as parts;
ghost use Rattle.dir_segments.specs.Segments as segments;
ghost use Rattle.dir_segments.specs.Unnumbered.{unnumbered_in_file};
ghost use Rattle.edi_octets.specs.declared.octets.TheConstants.{LONGEST_TEXT};

use crate::details::{is_composite_item, judge_end, read_details};
use crate::fields::is_item_line;
use crate::head::read_tag_head;
use crate::item_line::read_item;
use crate::known::KnownComposites;
use crate::part_line::judge_count;
use edi_octets::{Body, DirStop, EarlierNames, Entries, Entry, LineText};
use edi_tables::{CompositeDef, ItemDef, List, SegmentDef};
use std::alloc::Global;

/// Reads a segment file of at most 4,194,304 octets with known composites: one segment an entry, in order.
/// Else the first fault in judging order: `bad-code` and `twice` at a head, `bad-line`, `bad-position`,
/// `bad-status` and `bad-repr` at an item line, `bad-line` at a part line out of its form or below an
/// element, `parts-differ` at the line of an item whose part lines aren't the parts of the first known
/// composite of its code, `bad-line` at the head of an entry with no item or more than 99. What was accepted
/// when items had no numbers of repetitions gives the same definitions.
pub fn read_segments(
    alloc: Global,
    file: &[u8],
    known: &[CompositeDef],
) -> Result<Vec<SegmentDef>, DirStop>
    requires { length file.now ≤ LONGEST_TEXT }
    ensures answers { IsVerdict (λ found. found.items) fault_in result
        (segments.segments_in_file known.now file.now) }
    ensures as_before { (due : List SegmentDef) → unnumbered_in_file known.now file.now ≡ Ok due
        → IsVerdict (λ found. found.items) fault_in result (Ok due) }
    ensures forms { IfOk result (λ found. list_all is_segment_formed found.items ≡ true) }
{
    let composites = KnownComposites::new(alloc, known)?;
    let mut found = Vec::new(alloc);
    let mut seen = EarlierNames::new(alloc);
    for entry in Entries::of(file) {
        let segment = read_entry(alloc, &composites, &mut seen, &entry)?;
        found.push(segment)?;
    }
    Ok(found)
}

/// Reads an entry after others, whose tags are seen.
fn read_entry<'a>(
    alloc: Global,
    known: &KnownComposites<'_>,
    seen: &mut EarlierNames<'a>,
    entry: &Entry<'a>,
) -> Result<SegmentDef, DirStop>
    ensures judged { (earlier : List (List Line)) → seen.old ≡ map head_field earlier
        → IsVerdict (λ segment. segment) fault_in result
        (unless_faulty
        (segments.segment_faults known.now.composites.now earlier (entry_shown entry.now))
        (segments.segment_of (entry_shown entry.now))) }
    ensures joins { OnOk result (seen.new ≡ seen.old ++ head_field (entry_shown entry.now) ∷ []) }
{
    let tag = read_tag_head(&entry.head, seen)?;
    let items = read_items(alloc, known, entry)?;
    Ok(SegmentDef {
        tag,
        items: List::of(items),
    })
}

/// Reads the items of an entry, and judges its end.
fn read_items(
    alloc: Global,
    known: &KnownComposites<'_>,
    entry: &Entry<'_>,
) -> Result<Vec<ItemDef>, DirStop>
    ensures { let items = segments.items_of (body_left entry.now.body) in
        IsVerdict (λ read. read.items) fault_in result
        (unless_faulty (segments.items_faults known.now.composites.now items
        ++ parts.count_faults (line_shown entry.now.head) (length items))
        (segments.items_in items)) }
{
    let mut items = Vec::new(alloc);
    let mut before = None;
    let mut lines = entry.body;
    while let Some(line) = lines.next() {
        if !is_item_line(&line) {
            continue;
        }
        let (position, item) = read_whole_item(alloc, known, before, &line, lines)?;
        items.push(item)?;
        before = Some(position);
    }
    judge_count(&entry.head, items.len())?;
    Ok(items)
}

/// Reads an item with its detail lines, the first of the lines after it, and judges its end.
fn read_whole_item(
    alloc: Global,
    known: &KnownComposites<'_>,
    before: Option<u64>,
    line: &LineText<'_>,
    behind: Body<'_>,
) -> Result<(u64, ItemDef), DirStop>
    ensures { let item = segments.item_at (line_shown line.now) (body_left behind.entry) in
        parts.GivesPlaced result (segments.item_faults known.now.composites.now before item)
        (segments.item_position item) (segments.item_of item) }
{
    let (position, item) = read_item(before, line)?;
    let repeated = read_details(alloc, is_composite_item(&item), behind)?;
    judge_end(known, line, &item, &repeated)?;
    Ok((position, item))
}
