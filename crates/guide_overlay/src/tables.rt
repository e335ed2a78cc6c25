//! The segment tables that a guide leaves.
ghost use Rattle.std.specs.Prelude.{◌≡◌, ◌<◌, ◌&&◌, ◌||◌, ℕ, IfOk, None, length, map, nat_lt, true, slice_index_or, find};
ghost use Rattle.std.specs.Option.{option_map};
ghost use Rattle.dir_compile.specs.Directory.{IsDirectory};
ghost use Rattle.edi_tables.specs.Forms.{is_message_name};
ghost use Rattle.edi_tables.specs.Rows.{nodes_of};
ghost use Rattle.guide_overlay.specs.Fitting.{AreRowsFitting, IsRowWithin, is_dropped, is_node, line_after, row_by_detail};
ghost use Rattle.guide_overlay.specs.Guide.{changes_in, details_for, narrowed_message};
ghost use Rattle.guide_overlay.specs.Kept.{IsGuideReading, detail_seen, sections_seen};
ghost use Rattle.guide_overlay.specs.Narrowing.{AreNarrowing};
ghost use Rattle.guide_overlay.specs.Rows.{narrowed_rows};
ghost use Rattle.guide_overlay.specs.declared.line.Topic.TheVariants.{OfTable};

use crate::line::DetailText;
use crate::sections::Reading;
use dir_compile::Directory;
use edi_tables::{Chunk, List, MessageDef, Node, TableRow};
use std::alloc::{AllocError, Global};

/// The messages of a directory, each with the segment table that the guide leaves.
pub(crate) fn narrow_messages(
    alloc: Global,
    dir: &Directory,
    reading: &Reading<'_>,
) -> Result<List<MessageDef>, AllocError>
    requires directory { IsDirectory dir.now }
    requires kept { IsGuideReading reading.now }
    requires narrowing { AreNarrowing dir.now (sections_seen reading.now) }
    ensures { IfOk result (λ made. made
        ≡ map (narrowed_message (sections_seen reading.now)) dir.now.messages) }
{
    let messages = dir.parts().messages.items();
    let mut made = Vec::with_capacity(alloc, messages.len())?;
    for (i, message) in messages.iter().enumerate() {
        let nodes = dir.table(i + 1).nodes();
        made.push(narrow_message(alloc, reading, message, nodes)?)?;
    }
    Ok(List::of(made))
}

fn narrow_message(
    alloc: Global,
    reading: &Reading<'_>,
    message: &MessageDef,
    nodes: &[Node],
) -> Result<MessageDef, AllocError>
    requires kept { IsGuideReading reading.now }
    requires nodes { nodes.now ≡ nodes_of message.now.rows }
    requires named { is_message_name message.now.name ≡ true }
    requires fitting { AreRowsFitting message.now.rows
        (details_for (sections_seen reading.now) OfTable message.now.name) }
    ensures { IfOk result (λ made. made
        ≡ narrowed_message (sections_seen reading.now) message.now) }
{
    let name = message.name.octets();
    let details = reading.details_for(name);
    Ok(MessageDef {
        name: Chunk::of(alloc, name)?,
        rows: List::of(rows_left(alloc, message.rows.items(), nodes, details)?),
    })
}

// The first line of each of so many nodes, where there is one.
fn lines_by_node<'a>(
    alloc: Global,
    count: usize,
    details: &[DetailText<'a>],
) -> Result<Vec<Option<DetailText<'a>>>, AllocError>
    ensures long { IfOk result (λ lines. length lines.items ≡ count) }
    ensures lines { IfOk result (λ lines. (i : ℕ) → i < count
        → option_map detail_seen (slice_index_or lines.items i None)
        ≡ find (is_node i) (map detail_seen details.now)) }
{
    let mut lines = vec![in alloc; None; count]?;
    for detail in details {
        put_line(&mut lines, *detail);
    }
    Ok(lines)
}

// Puts a detail at the place of its node, unless there is one.
fn put_line<'a>(lines: &mut [Option<DetailText<'a>>], detail: DetailText<'a>)
    ensures { (i : ℕ) → i < length lines.old
        → option_map detail_seen (slice_index_or lines.new i None)
        ≡ line_after i (option_map detail_seen (slice_index_or lines.old i None))
        (detail_seen detail.entry) }
{
    let Some(node) = detail.node() else {
        return;
    };
    let place = node as usize;
    if place < lines.len() && lines[place].is_none() {
        lines[place] = Some(detail);
    }
}

// The rows that are left, each as its line has it.
fn rows_left(
    alloc: Global,
    rows: &[TableRow],
    nodes: &[Node],
    details: &[DetailText<'_>],
) -> Result<Vec<TableRow>, AllocError>
    requires nodes { nodes.now ≡ nodes_of rows.now }
    requires fitting { AreRowsFitting rows.now (map detail_seen details.now) }
    ensures { IfOk result (λ left. left.items
        ≡ narrowed_rows (changes_in (map detail_seen details.now)) rows.now) }
{
    let lines = lines_by_node(alloc, rows.len(), details)?;
    let mut left = Vec::new(alloc);
    let mut until = 0;
    for (i, row) in rows.iter().enumerate() {
        let line = lines[i];
        until = end_after(until, line, nodes[i].end);
        if usize::from(until) <= i {
            left.push(row_by_line(*row, line))?;
        }
    }
    Ok(left)
}

// Where what is left out ends, once a node with that end is dropped too.
fn end_after(until: u16, line: Option<DetailText<'_>>, end: u16) -> u16
    ensures { (j : ℕ) → nat_lt j result
        ≡ (nat_lt j until || (is_dropped (option_map detail_seen line.entry) && nat_lt j end)) }
{
    match line {
        Some(DetailText::Dropped { .. }) => until.max(end),
        _ => until,
    }
}

// A row as its line has it.
fn row_by_line(row: TableRow, line: Option<DetailText<'_>>) -> TableRow
    requires { IsRowWithin row (option_map detail_seen line) }
    ensures { result ≡ row_by_detail row (option_map detail_seen line.entry) }
{
    match line {
        Some(DetailText::Kept { must, max, .. }) => TableRow {
            must,
            max: max as u32,
            ..row
        },
        _ => row,
    }
}
