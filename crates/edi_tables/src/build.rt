//! Which rows are a segment table, and the nodes that they make.
ghost use Rattle.std.specs.Prelude.{◌≡◌, ◌+◌, ◌-◌, ◌<◌, ◌≤◌, [], ◌++◌, Some, length, take, replicate, IfOk, nat_lt, slice_get, if◌then◌else◌};
ghost use Rattle.std.specs.List.{prefix_len};
ghost use Rattle.edi_tables.specs.Rows.{has_name, is_group_row, is_frame_row, breaks_frame, breaks_envelope, breaks_depth, breaks_trigger, depth_after, is_trigger_row, row_faults, table_faults, end_of, nodes_of};

use crate::{Node, RowFault, TableKind, TableRow, Tag};
use std::alloc::{AllocError, Global};

/// The most rows that a segment table has.
const MAX_ROWS: usize = 2000;

/// The greatest depth of a row.
const MAX_DEPTH: u8 = 16;

/// How many depths there are, from 0 on.
const DEPTHS: usize = 17;

/// The highest greatest count of a row.
const MAX_COUNT: u32 = 999_999;

/// The first row that breaks a rule, from 0, and the first rule that it breaks.
pub fn first_fault(rows: &[TableRow]) -> Option<RowFault>
    ensures { result ≡ slice_get (table_faults rows.now) 0 }
{
    if rows.len() > MAX_ROWS {
        return Some(RowFault {
            at: MAX_ROWS as u16,
            kind: TableKind::TooMany,
        });
    }
    if rows.is_empty() {
        return Some(RowFault {
            at: 0,
            kind: TableKind::NoUnhUnt,
        });
    }
    for (i, row) in rows.iter().enumerate() {
        if let Some(kind) = row_fault(rows, i, row) {
            return Some(RowFault { at: i as u16, kind });
        }
    }
    None
}

/// The first rule that the row at this place breaks.
fn row_fault(rows: &[TableRow], i: usize, row: &TableRow) -> Option<TableKind>
    requires { i < length rows.now }
    ensures { result ≡ slice_get (row_faults rows.now i row.now) 0 }
{
    if breaks_frame(rows, i, row) {
        return Some(TableKind::NoUnhUnt);
    }
    if breaks_envelope(rows, i, row) {
        return Some(TableKind::EnvelopeTag);
    }
    if row.max == 0 || row.max > MAX_COUNT {
        return Some(TableKind::BadMax);
    }
    if breaks_depth(rows, i, row) {
        return Some(TableKind::BadDepth);
    }
    if row.depth > MAX_DEPTH {
        return Some(TableKind::TooDeep);
    }
    if breaks_trigger(rows, i, row) {
        return Some(TableKind::NoTrigger);
    }
    None
}

/// Whether the first row isn't the UNH of a table, or the last not its UNT.
fn breaks_frame(rows: &[TableRow], i: usize, row: &TableRow) -> bool
    requires { i < length rows.now }
    ensures { result ≡ breaks_frame rows.now i row.now }
{
    (i == 0 && !is_frame_row(b"UNH", row)) || (i + 1 == rows.len() && !is_frame_row(b"UNT", row))
}

/// Whether this is the row of a segment with this tag that occurs exactly once, outside all groups.
fn is_frame_row(name: &[u8], row: &TableRow) -> bool
    ensures { result ≡ is_frame_row name.now row.now }
{
    has_name(row.tag, name) && row.must && row.max == 1 && row.depth == 0
}

/// Whether a service segment is where none may: UNH after the first row, UNT before the last,
/// UNB, UNG, UNE and UNZ anywhere.
fn breaks_envelope(rows: &[TableRow], i: usize, row: &TableRow) -> bool
    requires { i < length rows.now }
    ensures { result ≡ breaks_envelope rows.now i row.now }
{
    has_name(row.tag, b"UNB")
        || has_name(row.tag, b"UNG")
        || has_name(row.tag, b"UNE")
        || has_name(row.tag, b"UNZ")
        || (has_name(row.tag, b"UNH") && i != 0)
        || (has_name(row.tag, b"UNT") && i + 1 != rows.len())
}

/// Whether this is a tag with this name.
fn has_name(tag: Option<Tag>, name: &[u8]) -> bool
    ensures { result ≡ has_name name.now tag }
{
    match tag {
        Some(tag) => tag.octets.as_slice() == name,
        None => false,
    }
}

/// Whether a row is deeper than the row before it allows.
fn breaks_depth(rows: &[TableRow], i: usize, row: &TableRow) -> bool
    requires { i < length rows.now }
    ensures { result ≡ breaks_depth rows.now i row.now }
{
    let allowed = if i == 0 { 0 } else { depth_after(&rows[i - 1]) };
    u16::from(row.depth) > allowed
}

/// How deep the row after this one may be.
fn depth_after(row: &TableRow) -> u16
    ensures { result ≡ depth_after (Some row.now) }
{
    let depth = u16::from(row.depth);
    if row.tag.is_none() { depth + 1 } else { depth }
}

/// Whether a group has no trigger: the row after it is no mandatory segment that occurs once, one
/// deeper.
fn breaks_trigger(rows: &[TableRow], i: usize, row: &TableRow) -> bool
    requires { i < length rows.now }
    ensures { result ≡ breaks_trigger rows.now i row.now }
{
    match rows.get(i + 1) {
        Some(next) => row.tag.is_none() && !is_trigger_row(row.depth, next),
        None => row.tag.is_none(),
    }
}

/// Whether this row is the trigger of a group of this depth.
fn is_trigger_row(depth: u8, row: &TableRow) -> bool
    ensures { result ≡ is_trigger_row depth (Some row.now) }
{
    row.tag.is_some() && row.must && row.max == 1 && u16::from(row.depth) == u16::from(depth) + 1
}

/// The nodes of the rows of a segment table, one a row.
///
/// A row is looked at once for each group round it, to find where that group ends.
pub fn nodes_of(alloc: Global, rows: &[TableRow]) -> Result<Vec<Node>, AllocError>
    requires { table_faults rows.now ≡ [] }
    ensures { IfOk result (λ nodes. nodes.items ≡ nodes_of rows.now) }
{
    let mut nodes = Vec::with_capacity(alloc, rows.len())?;
    // The group that holds a row of each depth that comes next: the last row that is less deep.
    let mut parents = [None; DEPTHS];
    for (i, row) in rows.iter().enumerate() {
        let depth = usize::from(row.depth);
        nodes.push(Node {
            tag: row.tag,
            must: row.must,
            max: row.max,
            parent: parents[depth],
            end: end_of(rows, i),
        })?;
        hold_deeper(&mut parents, row, i as u16);
    }
    Ok(nodes)
}

/// Lets a group hold each row of a greater depth that comes next. No other row holds any.
fn hold_deeper(parents: &mut [Option<u16>], row: &TableRow, place: u16)
    requires { row.now.depth < length parents.old }
    ensures { parents.new ≡ (if is_group_row row.now
        then take (row.now.depth + 1) parents.old
        ++ replicate (length parents.old - (row.now.depth + 1)) (Some place)
        else parents.old) }
{
    if row.tag.is_none() {
        parents[usize::from(row.depth) + 1..].fill(Some(place));
    }
}

/// One past the last row that the row at this place holds: the first row after it that is no
/// deeper.
fn end_of(rows: &[TableRow], i: usize) -> u16
    requires within { i < length rows.now }
    requires few { length rows.now ≤ 2000 }
    ensures { result ≡ end_of rows.now i }
{
    let depth = rows[i].depth;
    let inside = deeper_rows(&rows[i + 1..], depth);
    (i + 1 + inside) as u16
}

/// How many rows from the first on are deeper than this.
fn deeper_rows(rows: &[TableRow], depth: u8) -> usize
    ensures value { result ≡ prefix_len (λ row. nat_lt depth row.depth) rows.now }
    ensures bound { result ≤ length rows.now }
{
    rows.iter().take_while(|row| row.depth > depth).count()
}
