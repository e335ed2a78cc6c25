//! Drawings of segment tables, worked out by hand.
use dir_messages::read_message;
use edi_octets::{DirKind, DirStop};
use edi_tables::{MessageDef, TableRow, Tag};
use std::test::Fail;

// The most octets that the reader takes.
const LIMIT: usize = 4_194_304;

// A message file: text before the type line and among table lines, line ends with CR, marks in front and after a
// position, words that are a status in a name, leading zeros, a group in a group, and two that end on one line.
const MESSAGE: &[u8] = b"0010 x
  Message   Type :   ABC123\r

Pos  Tag Name                      S R
0010 UNH Message header            M 1
    0020 BGM A name C   000002
+*X 0030 | DTM C Date C 5 M 999999 -|- |
0040 ---- Segment group 1 -------- C 7 ----+
0050 N9D M M 1                             |
     0051 text
0060 + -- SEGMENT Group 2 - -- M 9 ---+|\r
0070 LIN Segment group 1 M 1              ++
0080 UNT Trailer M 1";

// Message files that break a rule, each with the line and the kind of its first fault.
#[rattlefmt::skip]
const FAULTY: &[(&[u8], u32, DirKind)] = &[
    // no type line: nothing, other names, more fields
    (b"", 0, DirKind::NoType),
    (b"\n\n0010 UNH Header M 1", 3, DirKind::NoType),
    (b"Message Type : 1BCDEF", 1, DirKind::NoType),
    (b"Message Type : ABCDEF x\n", 1, DirKind::NoType),
    // a second type line, at any indentation
    (b"Message Type : ABCDEF\n          Message Type : ABC124\n", 2, DirKind::BadLine),
    // no status, no count after it, seven digits, other octets in the tail
    (b"Message Type : ABCDEF\n0020 BGM Beginning 1", 2, DirKind::BadLine),
    (b"Message Type : ABCDEF\n0020 BGM Beginning M", 2, DirKind::BadLine),
    (b"Message Type : ABCDEF\n0020 BGM Beginning M 0000001", 2, DirKind::BadLine),
    (b"Message Type : ABCDEF\n0020 BGM Beginning M 1 x", 2, DirKind::BadLine),
    (b"Message Type : ABCDEF\n0020 BGM Beginning M 1 - 2", 2, DirKind::BadLine),
    // the rest of a line is judged first, then its position and its form
    (b"Message Type : ABCDEF\n0020 BGM A name M 1\n0020 bgm M x", 3, DirKind::BadLine),
    (b"Message Type : ABCDEF\n0020 BGM A name M 1\n0020 bgm M 1", 3, DirKind::BadPosition),
    // neither a segment nor a group
    (b"Message Type : ABCDEF\n0020 BGM M 1", 2, DirKind::BadLine),
    (b"Message Type : ABCDEF\n0020 bgm Beginning M 1", 2, DirKind::BadLine),
    (b"Message Type : ABCDEF\n0020 + + BGM Beginning M 1", 2, DirKind::BadLine),
    (b"Message Type : ABCDEF\n0020 - Segment group 1 C 1 +", 2, DirKind::BadLine),
    (b"Message Type : ABCDEF\n0020 -- Segment group 01 C 1 +", 2, DirKind::BadLine),
    (b"Message Type : ABCDEF\n0020 -- Segment group 1 x C 1 +", 2, DirKind::BadLine),
    // groups out of turn; the last number is 2 ^ 64 + 1
    (b"Message Type : ABCDEF\n0020 -- Segment group 1 C 1", 2, DirKind::BadGroup),
    (b"Message Type : ABCDEF\n0020 -- Segment group 1 C 1 ++", 2, DirKind::BadGroup),
    (b"Message Type : ABCDEF\n0020 -- Segment group 0 C 1 +", 2, DirKind::BadGroup),
    (b"Message Type : ABCDEF\n0020 -- Segment group 2 C 1 +", 2, DirKind::BadGroup),
    (b"Message Type : ABCDEF\n0020 -- Segment group 18446744073709551617 C 1 +", 2, DirKind::BadGroup),
    // groups that end without being open, and one that is left open
    (b"Message Type : ABCDEF\n0020 -- Segment group 1 C 1 +\n0030 NAD Name M 1 ++", 3, DirKind::CloseWithoutOpen),
    (b"Message Type : ABCDEF\n0020 -- Segment group 1 C 1 +\n0030 NAD Name M 1 |\ntext", 3, DirKind::NotClosed),
    // rows that are no segment table: the first, the last, none, one of an envelope
    (b"Message Type : ABCDEF\n0010 BGM Beginning M 1\n0020 UNT Trailer M 1", 2, DirKind::NoUnhUnt),
    (b"Message Type : ABCDEF\n0010 UNH Header M 1\n0020 BGM Beginning M 1\n", 3, DirKind::NoUnhUnt),
    (b"text\nMessage Type : ABCDEF\ntext\n", 2, DirKind::NoUnhUnt),
    (b"Message Type : ABCDEF\n0010 UNH Header M 1\n0020 UNB A M 1\n0030 UNT Trailer M 1", 3, DirKind::EnvelopeTag),
];

const fn segment(name: &[u8; 3], must: bool, max: u32, depth: u8) -> TableRow {
    TableRow {
        tag: Some(Tag { octets: *name }),
        must,
        max,
        depth,
    }
}

const fn group(must: bool, max: u32, depth: u8) -> TableRow {
    TableRow {
        tag: None,
        must,
        max,
        depth,
    }
}

#[test]
fn a_drawing_gives_its_rows(rt: HostRuntime) -> Result<(), Fail> {
    let message = read_message(rt.alloc(), MESSAGE)?;
    let rows = [
        segment(b"UNH", true, 1, 0),
        segment(b"BGM", false, 2, 0),
        segment(b"DTM", true, 999_999, 0),
        group(false, 7, 0),
        segment(b"N9D", true, 1, 1),
        group(true, 9, 1),
        segment(b"LIN", true, 1, 2),
        segment(b"UNT", true, 1, 0),
    ];
    assert_eq!(rt; message.name.octets(), b"ABC123".as_slice());
    assert_eq!(rt; message.rows.items(), rows.as_slice());
    Ok(())
}

/// The line and the kind of the first fault of what a file was read as.
fn fault_in(read: Result<MessageDef, DirStop>) -> Option<(u32, DirKind)> {
    match read {
        Err(DirStop::Fault(fault)) => Some((fault.line, fault.kind)),
        _ => None,
    }
}

#[test]
fn answers_the_first_fault(rt: HostRuntime) {
    for (file, line, kind) in FAULTY {
        assert!(rt; file.len() <= LIMIT);
        let fault = fault_in(read_message(rt.alloc(), file));
        assert_eq!(rt; fault, Some((*line, *kind)), "{file:?}");
    }
}
