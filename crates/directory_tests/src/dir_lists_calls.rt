//! The files of the reduced directory, and small files: what each gives, or its fault.
use dir_lists::{read_codes, read_elements};
use edi_octets::{DirFault, DirKind, DirStop};
use edi_tables::{Class, Code, CodeList, ElementDef, Repr};
use std::process::Abort;
use std::test::Fail;

// The most octets that a reader takes.
const LIMIT: usize = 4_194_304;

// The data elements of the reduced directory: code, representation as it is written, class, greatest length.
#[rattlefmt::skip]
const REDUCED: &[([u8; 4], &[u8], Class, u16)] = &[
    (*b"1000", b"an..35", Class::An, 35),
    (*b"1001", b"an..3", Class::An, 3),
    (*b"1004", b"an..35", Class::An, 35),
    (*b"1082", b"n..6", Class::N, 6),
    (*b"1131", b"an..3", Class::An, 3),
    (*b"1153", b"an..3", Class::An, 3),
    (*b"1154", b"an..35", Class::An, 35),
    (*b"1225", b"an..3", Class::An, 3),
    (*b"1229", b"an..3", Class::An, 3),
    (*b"2005", b"an..3", Class::An, 3),
    (*b"2379", b"an..3", Class::An, 3),
    (*b"2380", b"an..35", Class::An, 35),
    (*b"3035", b"an..3", Class::An, 3),
    (*b"3039", b"an..17", Class::An, 17),
    (*b"3055", b"an..3", Class::An, 3),
    (*b"3139", b"an..3", Class::An, 3),
    (*b"3412", b"an..35", Class::An, 35),
    (*b"3413", b"an..17", Class::An, 17),
    (*b"5004", b"n..18", Class::N, 18),
    (*b"5025", b"an..3", Class::An, 3),
    (*b"5118", b"n..15", Class::N, 15),
    (*b"5125", b"an..3", Class::An, 3),
    (*b"6060", b"n..15", Class::N, 15),
    (*b"6063", b"an..3", Class::An, 3),
    (*b"6411", b"an..3", Class::An, 3),
    (*b"7140", b"an..35", Class::An, 35),
    (*b"7143", b"an..3", Class::An, 3),
];

// The code file of the reduced directory.
const REDUCED_CODES: &[u8] =
    b"----------------------------------------------------------------------
  1001  Document name, coded

     220   Order
              A text that is skipped.
     231   Purchase order response
----------------------------------------------------------------------
  2005  Date qualifier

     2     Delivery date requested
     137   Document date
";

// Element files that break a rule, each with the line and the kind of its fault.
#[rattlefmt::skip]
const FAULTY_ELEMENTS: &[(&[u8], u32, DirKind)] = &[
    // heads: codes of another form, a code without a name, four marks, a word before any code
    (b"----------\n100 A\nRepr: n1\n", 2, DirKind::BadCode),
    (b"----------\n100A A\nRepr: n1\n", 2, DirKind::BadCode),
    (b"----------\n1001\nRepr: n1\n", 2, DirKind::BadCode),
    (b"----------\n++++ 1001 A\nRepr: n1\n", 2, DirKind::BadCode),
    (b"----------\nRepr: n1\n1001 A\n", 2, DirKind::BadCode),
    // a code twice, in the next entry and after another
    (b"----------\n1001 A\nRepr: n1\n----------\n1001 B\nRepr: n1\n", 5, DirKind::Twice),
    (b"----------\n1 A\n----------\n1001 A\nRepr: n1\n", 2, DirKind::BadCode),
    (b"----------\n1001 A\nRepr: n1\n----------\n1002 B\nRepr: n1\n----------\n1001 C\nRepr: n1\n", 8, DirKind::Twice),
    // representations
    (b"----------\n1001 A\nRepr: an..0\n", 3, DirKind::BadRepr),
    (b"----------\n1001 A\nRepr: n10000\n", 3, DirKind::BadRepr),
    (b"----------\n1001 A\nRepr: n03\n", 3, DirKind::BadRepr),
    (b"----------\n1001 A\nRepr: an.3\n", 3, DirKind::BadRepr),
    (b"----------\n1001 A\nRepr: b3\n", 3, DirKind::BadRepr),
    (b"----------\n1001 A\nRepr:\n", 3, DirKind::BadRepr),
    (b"----------\n1001 A\nRepr: an..3 C\n", 3, DirKind::BadRepr),
    // none, at the head of the entry: with text, with four marks, in other case, at the end of the file
    (b"----------\n1001 A\n++++ Repr: n1\n", 2, DirKind::NoRepr),
    (b"----------\n1001 A\nrepr: n1\n----------\n1002 B\nRepr: n1\n", 2, DirKind::NoRepr),
    (b"----------\n1001 A", 2, DirKind::NoRepr),
    // a second one, of either form
    (b"----------\n1001 A\nRepr: n1\nRepr: n1\n", 4, DirKind::BadLine),
    (b"----------\n1001 A\nRepr: n1\nRepr:\n", 4, DirKind::BadLine),
    // pairs of faults: the one that is judged first
    (b"----------\n1001 A\nRepr: x\nRepr: n1\n", 3, DirKind::BadRepr),
    (b"----------\n1001 A\n----------\n1002\n", 2, DirKind::NoRepr),
    (b"----------\n1002\n----------\n1001 A\n", 2, DirKind::BadCode),
    (b"----------\n1001 A\nRepr: n1\n----------\n1001 B\n", 5, DirKind::Twice),
    (b"----------\n1001 A\nRepr: n1\n----------\n1001\n", 5, DirKind::BadCode),
    // blank lines and entries are counted; CR before LF is dropped, one at the end of the file isn't
    (b"----------\n\n   \n+*#\n1001 A\n\nRepr: x\n", 7, DirKind::BadRepr),
    (b"x\n----------\n----------\n\n----------\n1001 A\n", 6, DirKind::NoRepr),
    (b"----------\r\n1001 A\r\nRepr: x\r\n", 3, DirKind::BadRepr),
    (b"----------\n1001 A\nRepr: n1\r", 3, DirKind::BadRepr),
    (b"X ----------\n1001 A\n", 2, DirKind::NoRepr),
];

// Code files that break a rule.
#[rattlefmt::skip]
const FAULTY_CODES: &[(&[u8], u32, DirKind)] = &[
    // heads
    (b"----------\n1001\n 1 One\n", 2, DirKind::BadCode),
    (b"----------\nC001 A\n 1 One\n", 2, DirKind::BadCode),
    (b"----------\n1001 A\n----------\n 1001 B\n", 4, DirKind::Twice),
    // indentations of 0, 8 and 9, with marks too
    (b"----------\n1001 A\n1 One\n", 3, DirKind::BadLine),
    (b"----------\n1001 A\n        1 One\n", 3, DirKind::BadLine),
    (b"----------\n1001 A\n         1 One\n", 3, DirKind::BadLine),
    (b"----------\n1001 A\n+++      1 One\n", 3, DirKind::BadLine),
    (b"----------\n1001 A\n++++ 1 One\n", 3, DirKind::BadLine),
    // a code without a name, and one of 36 octets
    (b"----------\n1001 A\n 1\n", 3, DirKind::BadLine),
    (b"----------\n1001 A\n 123456789012345678901234567890123456 One\n", 3, DirKind::BadLine),
    // a code that the entry has already
    (b"----------\n1001 A\n 1 One\n 2 Two\n       1 One\n", 5, DirKind::Twice),
    (b"----------\r\n1001 A\r\n 1 One\r\n\r\n 1 One\r\n", 5, DirKind::Twice),
    // pairs of faults: the one that is judged first
    (b"----------\n1001 A\n 1 One\n2 Two\n 1 One\n", 4, DirKind::BadLine),
    (b"----------\n1001 A\n 1 One\n 1 One\n2 Two\n", 4, DirKind::Twice),
    (b"----------\n1001 A\n2 Two\n----------\n1002\n", 3, DirKind::BadLine),
    (b"----------\n1002\n2 Two\n", 2, DirKind::BadCode),
    (b"----------\n1001 A\n 1 One\n 1\n", 4, DirKind::BadLine),
];

fn element(code: [u8; 4], class: Class, exact: bool, max: u16) -> ElementDef {
    ElementDef {
        code: Code { octets: code },
        repr: Repr { class, exact, max },
    }
}

// The fault that is answered; an answer of another kind fails the test.
fn fault_of<T: Drop>(rt: &impl Abort, answer: Result<T, DirStop>) -> Option<DirFault> {
    match answer {
        Err(DirStop::Fault(fault)) => Some(fault),
        _ => panic!(rt; "no fault"),
    }
}

#[test]
fn gives_the_elements_of_the_reduced_directory(rt: HostRuntime) -> Result<(), Fail> {
    let alloc = rt.alloc();
    let mut file = Vec::new(alloc);
    let mut expected = Vec::new(alloc);
    for (code, repr, class, max) in REDUCED {
        file.extend_from_slice(
            b"----------------------------------------------------------------------\n     ",
        )?;
        file.extend_from_slice(code)?;
        file.extend_from_slice(
            b"  A name, coded\n\n     Desc: A text that is skipped.\n\n     Repr: ",
        )?;
        file.extend_from_slice(repr)?;
        file.extend_from_slice(b"\n")?;
        expected.push(element(*code, *class, false, *max))?;
    }
    assert!(rt; file.len() <= LIMIT);
    let elements = read_elements(alloc, &file)?;
    assert_eq!(rt; elements.as_slice(), expected.as_slice());
    Ok(())
}

#[test]
fn gives_the_lists_of_the_reduced_directory(rt: HostRuntime) -> Result<(), Fail> {
    let lists = read_codes(rt.alloc(), REDUCED_CODES)?;
    let [document, date] = lists.as_slice() else {
        panic!(rt; "two lists");
    };
    has_list(&rt, document, b"1001", &[b"220", b"231"]);
    has_list(&rt, date, b"2005", &[b"2", b"137"]);
    Ok(())
}

fn has_list(rt: &impl Abort, list: &CodeList, element: &[u8; 4], values: &[&[u8]]) {
    assert_eq!(rt; list.element.octets, *element);
    let found = list.values.items();
    assert_eq!(rt; found.len(), values.len());
    for (value, expected) in found.iter().zip(values) {
        assert_eq!(rt; value.octets(), *expected);
    }
}

#[test]
fn gives_what_odd_files_define(rt: HostRuntime) -> Result<(), Fail> {
    let alloc = rt.alloc();
    let none: [&[u8]; 4] = [
        b"",
        b"1001 A\n",
        b"---------\n1001 A\n",
        b"----------\n\n----------\n+*#\n",
    ];
    for file in none {
        assert!(rt; file.len() <= LIMIT);
        assert!(rt; read_elements(alloc, file)?.is_empty());
        assert!(rt; read_codes(alloc, file)?.is_empty());
    }
    let marked = read_elements(
        alloc,
        b"+ ----------\r\n         1001 A\n XX Repr: n9\n+X| Repr: a9999\r\n",
    )?;
    assert_eq!(rt;
        marked.as_slice(),
        [element(*b"1001", Class::A, true, 9999)].as_slice()
    );
    let lists = read_codes(
        alloc,
        b"----------\n1001 A\nDesc: x\nNote: x\nRepr: x\n----------\n+++ 1002 B\n+++ 1 One\nX      12345678901234567890123456789012345 Two\n          1 Text\n----------\n1003 C\n 1 One",
    )?;
    let [empty, marked, last] = lists.as_slice() else {
        panic!(rt; "three lists");
    };
    has_list(&rt, empty, b"1001", &[]);
    has_list(
        &rt,
        marked,
        b"1002",
        &[b"1", b"12345678901234567890123456789012345"],
    );
    has_list(&rt, last, b"1003", &[b"1"]);
    Ok(())
}

#[test]
fn gives_the_first_fault(rt: HostRuntime) {
    let alloc = rt.alloc();
    for (file, line, kind) in FAULTY_ELEMENTS {
        assert!(rt; file.len() <= LIMIT);
        let fault = fault_of(&rt, read_elements(alloc, file));
        assert_eq!(rt;
            fault,
            Some(DirFault {
                line: *line,
                kind: *kind
            }),
            "elements {file:?}"
        );
    }
    for (file, line, kind) in FAULTY_CODES {
        assert!(rt; file.len() <= LIMIT);
        let fault = fault_of(&rt, read_codes(alloc, file));
        assert_eq!(rt;
            fault,
            Some(DirFault {
                line: *line,
                kind: *kind
            }),
            "codes {file:?}"
        );
    }
}
