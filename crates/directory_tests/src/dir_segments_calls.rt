//! Small composite and segment files, worked out by hand: what each gives, or its first fault.
use dir_segments::{read_composites, read_segments};
use edi_octets::{DirKind, DirStop};
use edi_tables::{Class, Code, ItemDef, PartDef, Repr};
use std::test::Fail;

// The most octets that a reader takes.
const LIMIT: usize = 4_194_304;

// A composite file: text before its first separator, line ends with CR, marks in front, one after a position, names of
// more fields, indentations of 4 and 5.
const COMPOSITES: &[u8] = b"C1 N
----------
  C001 A NAME\r
\r
+   010 * 1001 A name C M  C an3\r
*    020 1009
    020 1002 N M n..5
----------
C002 N
010 1003 N C a..9999
----------
";

// A segment file that is read with those composites: text before the first item, after an element and among parts, a
// composite with its parts, one that isn't known, and one without parts.
const SEGMENTS: &[u8] = b"----------
 BG1 N
     1001 text
010 X C001 N M
+    1001 N C an3
     text
*    1002 N O M n..5
020 1004 N C an..35
     text
030 C009 N C
     1001 N C an3
050 C001 N C
----------
CTA N
010 C002 N C
     1003 N C a..9999
";

// Composite files that break a rule, each with the line and the kind of its first fault.
#[rattlefmt::skip]
const FAULTY_COMPOSITES: &[(&[u8], u32, DirKind)] = &[
    // heads: another form, no name, a code twice
    (b"----------\nC01 N\n010 1001 N C an3\n", 2, DirKind::BadCode),
    (b"----------\nC001\n010 1001 N C an3\n", 2, DirKind::BadCode),
    (b"----------\nC001 N\n010 1001 N C an3\n----------\nC001 M\n010 1001 N C an3\n", 5, DirKind::Twice),
    // part lines: a position of two digits, a composite's code, too few fields, two marks after a position
    (b"----------\nC001 N\n10 1001 N C an3\n", 3, DirKind::BadLine),
    (b"----------\nC001 N\n010 C002 N C an3\n", 3, DirKind::BadLine),
    (b"----------\nC001 N\n010 X 1001 C an3\n", 3, DirKind::BadLine),
    (b"----------\nC001 N\n010 ++ 1001 N C an3\n", 3, DirKind::BadLine),
    // a length that begins with zero
    (b"----------\nC001 N\n010 1001 N C an..03\n", 3, DirKind::BadRepr),
    // a part has no number of repetitions
    (b"----------\nC001 N\n010 1001 N C 2 an3\n", 3, DirKind::BadStatus),
    // an entry without a part, which is judged before the next entry
    (b"----------\nC001 N\n     010 1001 N C an3\n----------\nC1 N\n", 2, DirKind::BadLine),
    // one line breaks several rules: its form is judged first, then its position, its status and its representation
    (b"----------\nC001 N\n020 1001 N C an3\n020 1001 X an0\n", 4, DirKind::BadLine),
    (b"----------\nC001 N\n020 1001 N C an3\n020 1001 N X an0\n", 4, DirKind::BadPosition),
    (b"----------\nC001 N\n020 1001 N C an3\n030 1001 N X an0\n", 4, DirKind::BadStatus),
];

// Segment files that break a rule, read with the composites above, each with the line and the kind of its first fault.
#[rattlefmt::skip]
const FAULTY_SEGMENTS: &[(&[u8], u32, DirKind)] = &[
    // heads: small letters, three marks, which are read as spaces, and a tag twice
    (b"----------\nbgm N\n010 1001 N C an3\n", 2, DirKind::BadCode),
    (b"----------\nXXX N\n010 1001 N C an3\n", 2, DirKind::BadCode),
    (b"----------\nBGM N\n010 1001 N C an3\n----------\nBGM M\n010 1001 N C an3\n", 5, DirKind::Twice),
    // item lines: no position, another code, too few fields of an element and of a composite
    (b"----------\nBGM N\n1001 N C an3\n", 3, DirKind::BadLine),
    (b"----------\nBGM N\n010 S001 N C\n", 3, DirKind::BadLine),
    (b"----------\nBGM N\n010 1001 N C\n", 3, DirKind::BadLine),
    (b"----------\nBGM N\n010 C001 C\n", 3, DirKind::BadLine),
    (b"----------\nBGM N\n020 1001 N C an3\n     text\n020 C002 N X\n", 5, DirKind::BadPosition),
    (b"----------\nBGM N\n010 1001 N C a..\n", 3, DirKind::BadRepr),
    // no number of repetitions, since there are only four fields, with a skipped mark and without one, or five
    (b"----------\nBGM N\n010 C001 M 5\n", 3, DirKind::BadStatus),
    (b"----------\nBGM N\n010 * C001 M 5\n", 3, DirKind::BadStatus),
    (b"----------\nBGM N\n010 1001 C 5 an..3\n", 3, DirKind::BadStatus),
    (b"----------\nBGM N\n010 X 1001 C 5 an..3\n", 3, DirKind::BadStatus),
    // nor with three digits, with a zero in front, or with another octet
    (b"----------\nBGM N\n010 C001 N M 100\n", 3, DirKind::BadStatus),
    (b"----------\nBGM N\n010 1001 N C 100 an..3\n", 3, DirKind::BadStatus),
    (b"----------\nBGM N\n010 C001 N M 05\n", 3, DirKind::BadStatus),
    (b"----------\nBGM N\n010 1001 N C 0 an..3\n", 3, DirKind::BadStatus),
    (b"----------\nBGM N\n010 1001 N C 5x an..3\n", 3, DirKind::BadStatus),
    // one number is taken out, and another one isn't
    (b"----------\nBGM N\n010 C001 N M 5 6\n", 3, DirKind::BadStatus),
    // nor is a number after the representation, or in the place of the status
    (b"----------\nBGM N\n010 1001 N C an..3 5\n", 3, DirKind::BadStatus),
    (b"----------\nBGM N\n010 1001 N 5 an..3\n", 3, DirKind::BadStatus),
    // with the number taken out, the position and the representation are bad as ever
    (b"----------\nBGM N\n020 1001 N C an3\n020 C001 N X 5\n", 4, DirKind::BadPosition),
    (b"----------\nBGM N\n010 1001 N C 5 an\n", 3, DirKind::BadRepr),
    // part lines have none
    (b"----------\nBGM N\n010 C001 N M 2\n     1001 N C 2 an3\n", 4, DirKind::BadLine),
    // part lines: below an element, without a status
    (b"----------\nBGM N\n010 1001 N C an3\n     1001 N C an3\n", 4, DirKind::BadLine),
    (b"----------\nBGM N\n010 C009 N C\n     1001 text about it\n", 4, DirKind::BadLine),
    // part lines in another order, and with another status, class, form of length, length and code
    (b"----------\nBGM N\n010 C001 N C\n     1002 N M n..5\n     1001 N C an3\n", 3, DirKind::PartsDiffer),
    (b"----------\nBGM N\n010 C001 N C\n     1001 N M an3\n     1002 N M n..5\n", 3, DirKind::PartsDiffer),
    (b"----------\nBGM N\n010 C001 N C\n     1001 N C a3\n     1002 N M n..5\n", 3, DirKind::PartsDiffer),
    (b"----------\nBGM N\n010 C001 N C\n     1001 N C an3\n     1002 N M n5\n", 3, DirKind::PartsDiffer),
    (b"----------\nBGM N\n010 C001 N C\n     1001 N C an3\n     1002 N M n..6\n", 3, DirKind::PartsDiffer),
    (b"----------\nBGM N\n010 C001 N C\n     1001 N C an3\n     1003 N M n..5\n", 3, DirKind::PartsDiffer),
    // an entry without an item
    (b"----------\nBGM N\n     010 1001 N C an3\n", 2, DirKind::BadLine),
    // an item's line is judged first, then its part lines, its end and the next item
    (b"----------\nBGM N\n010 C001 N D\n     1001 N C\n", 3, DirKind::BadStatus),
    (b"----------\nBGM N\n010 C001 N C\n     1001 N D an3\n     1002 N M n..5\n", 4, DirKind::BadLine),
    (b"----------\nBGM N\n010 C001 N C\n     1001 N C an3\n010 1001 N D an0\n", 3, DirKind::PartsDiffer),
];

const ALONE: ItemDef = ItemDef::Alone {
    part: PartDef {
        code: Code { octets: *b"1004" },
        must: false,
        repr: Repr {
            class: Class::An,
            exact: false,
            max: 35,
        },
    },
    reps: 1,
};

const fn composite(octets: &[u8; 4], must: bool) -> ItemDef {
    repeated_composite(octets, must, 1)
}

const fn repeated_composite(octets: &[u8; 4], must: bool, reps: u8) -> ItemDef {
    ItemDef::Composite {
        code: Code { octets: *octets },
        must,
        reps,
    }
}

// The element 1001, an..3.
const fn repeated_element(must: bool, reps: u8) -> ItemDef {
    ItemDef::Alone {
        part: PartDef {
            code: Code { octets: *b"1001" },
            must,
            repr: Repr {
                class: Class::An,
                exact: false,
                max: 3,
            },
        },
        reps,
    }
}

// Segment files of one item, the composite C001: whether it is mandatory, and its greatest number of repetitions.
#[rattlefmt::skip]
const REPEATED_COMPOSITES: &[(&[u8], bool, u8)] = &[
    (b"----------\nBGM N\n010 C001 Name here M 5\n", true, 5),
    (b"----------\nBGM N\n010 C001 N C 1\n", false, 1),
    (b"----------\nBGM N\n010 C001 N M 99\n", true, 99),
    (b"----------\nBGM N\n010 * C001 N M 5\n", true, 5),
    // a name that ends in a number, without one and with one
    (b"----------\nBGM N\n010 C001 Period 7 M\n", true, 1),
    (b"----------\nBGM N\n010 C001 Period 7 M 8\n", true, 8),
    // with part lines
    (b"----------\nBGM N\n010 C001 N M 3\n     1001 N C an3\n     1002 N M n..5\n", true, 3),
];

// The same of the element 1001, an..3.
#[rattlefmt::skip]
const REPEATED_ELEMENTS: &[(&[u8], bool, u8)] = &[
    (b"----------\nBGM N\n010 1001 Document name C 5 an..3\n", false, 5),
    (b"----------\nBGM N\n010 1001 N M 10 an..3\n", true, 10),
    (b"----------\nBGM N\n+ 010 X 1001 N C 5 an..3\n", false, 5),
    (b"----------\nBGM N\n010 1001 Name 7 C an..3\n", false, 1),
    (b"----------\nBGM N\n010 1001 Name 7 C 8 an..3\n", false, 8),
];

#[test]
fn gives_what_files_define(rt: HostRuntime) -> Result<(), Fail> {
    let known = read_composites(rt.alloc(), COMPOSITES)?;
    let segments = read_segments(rt.alloc(), SEGMENTS, &known)?;
    assert_eq!(rt; (known.len(), segments.len()), (2, 2));
    let items = [
        composite(b"C001", true),
        ALONE,
        composite(b"C009", false),
        composite(b"C001", false),
    ];
    let first = segments.first().expect(&rt, "a segment");
    assert_eq!(rt; first.tag.octets, *b"BG1");
    assert_eq!(rt; first.items.items(), items.as_slice());
    Ok(())
}

#[test]
fn gives_numbers_of_repetitions(rt: HostRuntime) -> Result<(), Fail> {
    let known = read_composites(rt.alloc(), COMPOSITES)?;
    for (file, must, reps) in REPEATED_COMPOSITES {
        assert!(rt; file.len() <= LIMIT);
        let segments = read_segments(rt.alloc(), file, &known)?;
        let segment = segments.first().expect(&rt, "a segment");
        let item = repeated_composite(b"C001", *must, *reps);
        assert_eq!(rt; segment.items.items(), [item].as_slice(), "{file:?}");
    }
    for (file, must, reps) in REPEATED_ELEMENTS {
        assert!(rt; file.len() <= LIMIT);
        let segments = read_segments(rt.alloc(), file, &known)?;
        let segment = segments.first().expect(&rt, "a segment");
        let item = repeated_element(*must, *reps);
        assert_eq!(rt; segment.items.items(), [item].as_slice(), "{file:?}");
    }
    Ok(())
}

// The line and the kind of the fault that stopped a reader.
fn fault_in(stop: Option<DirStop>) -> Option<(u32, DirKind)> {
    match stop {
        Some(DirStop::Fault(fault)) => Some((fault.line, fault.kind)),
        _ => None,
    }
}

#[test]
fn answers_the_first_fault(rt: HostRuntime) -> Result<(), Fail> {
    let known = read_composites(rt.alloc(), COMPOSITES)?;
    for (file, line, kind) in FAULTY_COMPOSITES {
        assert!(rt; file.len() <= LIMIT);
        let fault = fault_in(read_composites(rt.alloc(), file).err());
        assert_eq!(rt; fault, Some((*line, *kind)), "{file:?}");
    }
    for (file, line, kind) in FAULTY_SEGMENTS {
        assert!(rt; file.len() <= LIMIT);
        let fault = fault_in(read_segments(rt.alloc(), file, &known).err());
        assert_eq!(rt; fault, Some((*line, *kind)), "{file:?}");
    }
    Ok(())
}
