//! Owned octets, tags, tables on the edges of the rules, and that of the test order.
use crate::rows::{dates, group, segment, test_order};
use edi_tables::{Chunk, Node, RowFault, Table, TableKind, TableRow, TableStop, Tag, is_tag};
use std::alloc::{AllocError, Global};
use std::test::Fail;

#[test]
fn octets_are_put_at_the_end(rt: HostRuntime) -> Result<(), Fail> {
    let mut copied = Chunk::of(rt.alloc(), b"AB")?;
    copied.add(b"")?;
    copied.add(b"C")?;
    assert!(rt; copied.octets() == b"ABC".as_slice());
    let mut roomy = Chunk::with_room(rt.alloc(), 2)?;
    roomy.add(b"XYZ")?;
    assert!(rt; roomy.octets() == b"XYZ".as_slice());
    Ok(())
}

#[test]
fn a_tag_has_three_octets_and_begins_with_a_letter(rt: HostRuntime) {
    for tag in [b"UNH".as_slice(), b"A12", b"ZZZ"] {
        assert!(rt; is_tag(tag), "{tag:?}");
    }
    for other in [
        b"".as_slice(),
        b"UN",
        b"UNHX",
        b"1AB",
        b"uNH",
        b"U N",
        b"UN:",
    ] {
        assert!(rt; !is_tag(other), "{other:?}");
    }
}

/// UNH, so many groups in one another, each with its trigger, and UNT.
fn nested(alloc: Global, groups: u8) -> Result<Vec<TableRow>, AllocError> {
    let mut rows = vec![in alloc; segment(b"UNH", true, 1, 0)]?;
    for depth in 0..groups {
        rows.push(group(1, depth))?;
        rows.push(segment(b"DTM", true, 1, depth.saturating_add(1)))?;
    }
    rows.push(segment(b"UNT", true, 1, 0))?;
    Ok(rows)
}

#[test]
fn groups_nest_to_depth_16(rt: HostRuntime) -> Result<(), Fail> {
    let table = Table::build(rt.alloc(), &nested(rt.alloc(), 16)?)?;
    assert_eq!(rt; table.len(), 34);
    assert_eq!(rt; table.node(31).parent, Some(29));
    assert_eq!(rt; table.node(1).end, 33);
    let refused = Table::build(rt.alloc(), &nested(rt.alloc(), 17)?);
    let too_deep = matches!(
        &refused,
        Err(TableStop::Fault {
            at: 34,
            kind: TableKind::TooDeep
        })
    );
    assert!(rt; too_deep, "{refused:?}");
    Ok(())
}

#[test]
fn a_table_has_2000_rows_at_most(rt: HostRuntime) -> Result<(), Fail> {
    let table = Table::build(rt.alloc(), &dates(rt.alloc(), 1998)?)?;
    assert_eq!(rt; table.len(), 2000);
    assert_eq!(rt; table.node(1999).end, 2000);
    let fault = Table::first_fault(&dates(rt.alloc(), 1999)?);
    let kind = TableKind::TooMany;
    assert_eq!(rt; fault, Some(RowFault { at: 2000, kind }));
    Ok(())
}

/// Nodes of the test order by their numbers: its first group, the group in another, and the trigger of that.
const ORDER_NODES: &[(usize, Node)] = &[
    (
        3,
        Node {
            tag: None,
            must: false,
            max: 2,
            parent: None,
            end: 6,
        },
    ),
    (
        9,
        Node {
            tag: None,
            must: false,
            max: 2,
            parent: Some(6),
            end: 12,
        },
    ),
    (
        10,
        Node {
            tag: Some(Tag { octets: *b"PRI" }),
            must: true,
            max: 1,
            parent: Some(9),
            end: 11,
        },
    ),
];

#[test]
fn the_test_order_has_its_nodes(rt: HostRuntime) -> Result<(), Fail> {
    let table = Table::build(rt.alloc(), &test_order())?;
    let nodes = table.nodes();
    assert_eq!(rt; nodes.len(), 15);
    assert_eq!(rt; nodes[2].max, 2);
    assert_eq!(rt; nodes[14].end, 15);
    for (number, node) in ORDER_NODES {
        assert!(rt; *number < nodes.len());
        assert_eq!(rt; nodes[*number], *node, "{number}");
    }
    Ok(())
}
