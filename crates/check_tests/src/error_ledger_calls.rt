//! Printed lists and the order of errors, on rows that are worked out by hand.
use edi_tables::Tag;
use error_ledger::*;
use std::test::Fail;

fn tag(octets: &[u8; 3]) -> Option<Tag> {
    Some(Tag { octets: *octets })
}

// An error of a segment, at an element and a component.
fn error(
    place: (u32, u32),
    tag: Option<Tag>,
    at: (u32, u32),
    kind: Kind,
    missing: Option<Tag>,
) -> ErrorLine {
    ErrorLine {
        segment: place.0,
        start: place.1,
        tag,
        element: at.0,
        component: at.1,
        kind,
        node: 0,
        missing,
    }
}

#[test]
fn errors_are_printed(rt: HostRuntime) -> Result<(), Fail> {
    #[rattlefmt::skip]
    let list = [
        error((0, 0), None, (0, 0), Kind::NoUnb, None),
        error((4, 81), tag(b"DTM"), (1, 3), Kind::TooLong, None),
        error((4, 81), tag(b"DTM"), (2, 0), Kind::TooManyElements, None),
        error((5, 109), tag(b"UNT"), (0, 0), Kind::MissingSegment, tag(b"UNS")),
        error((5, 109), tag(b"UNT"), (0, 0), Kind::MissingGroup, None),
        error((5, 109), tag(b"UNT"), (1, 0), Kind::Count, None),
        error((8, 120), tag(b"LIN"), (0, 0), Kind::TooManyGroups, None),
        error((9, 151), None, (0, 0), Kind::Tail, None),
    ];
    let printed = print_errors(rt.alloc(), &list)?;
    assert!(rt;
        printed.octets()
            == b"errors 8
0 0 --- 0 0 13 no-unb
4 81 DTM 1 3 39 too-long
4 81 DTM 2 0 16 too-many-elements
5 109 UNT 0 0 13 missing-segment UNS
5 109 UNT 0 0 13 missing-group ---
5 109 UNT 1 0 29 count
8 120 LIN 0 0 36 too-many-groups
9 151 --- 0 0 13 tail
"
                .as_slice()
    );
    assert!(rt; print_errors(rt.alloc(), &[])?.octets() == b"errors 0\n".as_slice());
    Ok(())
}

#[test]
fn a_tree_is_printed(rt: HostRuntime) -> Result<(), Fail> {
    #[rattlefmt::skip]
    let tree = [
        TreeLine { segment: 1, tag: tag(b"UNB"), place: TreePlace::Outside },
        TreeLine { segment: 2, tag: tag(b"UNH"), place: TreePlace::Placed { entry: 0, depth: 0, opens: None } },
        TreeLine { segment: 7, tag: tag(b"NAD"), place: TreePlace::Placed { entry: 4, depth: 1, opens: Some(GroupMark { number: 1, count: 12 }) } },
        TreeLine { segment: 8, tag: tag(b"PRI"), place: TreePlace::Placed { entry: 10, depth: 2, opens: Some(GroupMark { number: 3, count: 1 }) } },
        TreeLine { segment: 9, tag: None, place: TreePlace::Unplaced },
        TreeLine { segment: 10, tag: tag(b"UNH"), place: TreePlace::Untabled },
    ];
    let printed = print_tree(rt.alloc(), &tree)?;
    assert!(rt;
        printed.octets()
            == b"tree 8
- 1 UNB
= 2 UNH 0
group 1 12
  = 7 NAD 4
  group 3 1
    = 8 PRI 10
! 9 ---
? 10 UNH
"
                .as_slice()
    );
    Ok(())
}

// An error with its five numbers.
fn keyed(segment: u32, at: (u32, u32), kind: Kind, node: u16) -> ErrorLine {
    ErrorLine {
        node,
        ..error((segment, 0), None, at, kind, None)
    }
}

#[test]
fn errors_are_put_in_order(rt: HostRuntime) -> Result<(), Fail> {
    #[rattlefmt::skip]
    let ordered = [
        keyed(0, (0, 0), Kind::NoUnb, 0),
        keyed(0, (0, 0), Kind::NoUnz, 0),
        keyed(5, (0, 0), Kind::MissingSegment, 3),
        keyed(5, (0, 0), Kind::MissingSegment, 7),
        keyed(5, (0, 0), Kind::MissingSegment, 7),
        keyed(5, (0, 0), Kind::MissingGroup, 4),
        keyed(5, (1, 0), Kind::Count, 0),
        keyed(5, (1, 2), Kind::TooLong, 0),
        keyed(5, (2, 0), Kind::TooManyElements, 0),
        keyed(6, (0, 0), Kind::Unplaced, 0),
    ];
    let mut list = Vec::new(rt.alloc());
    for _ in 0..3 {
        list.extend_from_slice(&ordered[4..])?;
        list.extend_from_slice(&ordered[..4])?;
    }
    order_errors(&mut list)?;
    order_errors(&mut list)?;
    assert_eq!(rt; list.len(), 30);
    for (i, error) in ordered.iter().enumerate() {
        assert_eq!(rt; list[3 * i], *error);
        assert_eq!(rt; list[3 * i + 2], *error);
    }
    Ok(())
}
