//! Rows of segment tables that several tests build.
use edi_tables::{TableRow, Tag};
use std::alloc::{AllocError, Global};

pub const fn segment(name: &[u8; 3], must: bool, max: u32, depth: u8) -> TableRow {
    TableRow {
        tag: Some(Tag { octets: *name }),
        must,
        max,
        depth,
    }
}

/// An optional group.
pub const fn group(max: u32, depth: u8) -> TableRow {
    TableRow {
        tag: None,
        must: false,
        max,
        depth,
    }
}

/// UNH, so many optional DTM, and UNT.
pub fn dates(alloc: Global, count: u16) -> Result<Vec<TableRow>, AllocError> {
    let mut rows = vec![in alloc; segment(b"UNH", true, 1, 0)]?;
    for _ in 0..count {
        rows.push(segment(b"DTM", false, 1, 0))?;
    }
    rows.push(segment(b"UNT", true, 1, 0))?;
    Ok(rows)
}

/// The rows of the test order.
pub fn test_order() -> [TableRow; 15] {
    [
        segment(b"UNH", true, 1, 0),
        segment(b"BGM", true, 1, 0),
        segment(b"DTM", true, 2, 0),
        group(2, 0),
        segment(b"NAD", true, 1, 1),
        segment(b"CTA", false, 1, 1),
        group(3, 0),
        segment(b"LIN", true, 1, 1),
        segment(b"QTY", false, 1, 1),
        group(2, 1),
        segment(b"PRI", true, 1, 2),
        segment(b"DTM", false, 1, 2),
        segment(b"UNS", true, 1, 0),
        segment(b"MOA", false, 1, 0),
        segment(b"UNT", true, 1, 0),
    ]
}
