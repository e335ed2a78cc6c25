//! Worked cases, by hand from the rules of the directory text profile.
use edi_octets::*;
use edi_tables::{Chunk, Class, Repr};
use std::process::Abort;
use std::test::Fail;

/// The items of an iterator are these, and no more come.
fn expect_all<'a>(rt: &impl Abort, case: &[u8], mut found: Cells<'a>, wanted: &[&[u8]]) {
    for part in wanted {
        assert_eq!(rt; found.next(), Some(*part), "{case:?}");
    }
    assert_eq!(rt; found.next(), None, "{case:?}");
}

#[test]
fn cuts_a_file_into_lines(rt: HostRuntime) {
    let cases: [(&[u8], &[&[u8]]); 9] = [
        (b"", &[]),
        (b"\n", &[b""]),
        (b"a", &[b"a"]),
        (b"a\nb\n", &[b"a", b"b"]),
        (b"a\r\nb", &[b"a", b"b"]),
        (b"a\r\r\n", &[b"a\r"]),
        (b"a\r", &[b"a\r"]),
        (b"\r\n", &[b""]),
        (b"a\rb\n\nc", &[b"a\rb", b"", b"c"]),
    ];
    for (file, wanted) in cases {
        assert!(rt; file.len() < 100);
        let mut lines = Lines::of(file);
        let mut number = 1;
        for octets in wanted {
            let line = lines.next().expect(&rt, "a line");
            assert_eq!(rt; line.octets, *octets, "{file:?}");
            assert_eq!(rt; line.number, number, "{file:?}");
            number = line.number.saturating_add(1);
        }
        assert!(rt; lines.next().is_none(), "{file:?}");
    }
}

fn expect_fields(rt: &impl Abort, octets: &[u8], indentation: usize, fields: &[&[u8]]) {
    let line = LineText { number: 1, octets };
    assert_eq!(rt; line.indentation(), indentation, "{octets:?}");
    expect_all(rt, octets, line.fields(), fields);
    assert_eq!(rt; line.is_written(), !fields.is_empty(), "{octets:?}");
    assert_eq!(rt; line.has_name(), fields.len() > 1, "{octets:?}");
}

#[test]
fn reads_marks_in_front_as_spaces(rt: HostRuntime) {
    expect_fields(&rt, b"", 0, &[]);
    expect_fields(&rt, b"  ", 2, &[]);
    expect_fields(&rt, b"010    2005  Date", 0, &[b"010", b"2005", b"Date"]);
    expect_fields(&rt, b"     1001  Name ", 5, &[b"1001", b"Name"]);
    expect_fields(&rt, b"+ 1001 a", 2, &[b"1001", b"a"]);
    expect_fields(&rt, b"*#| 1001", 4, &[b"1001"]);
    expect_fields(&rt, b"X", 1, &[]);
    expect_fields(&rt, b"+*#", 3, &[]);
    expect_fields(&rt, b"++++ 1001", 0, &[b"++++", b"1001"]);
    expect_fields(&rt, b"+1001", 0, &[b"+1001"]);
    expect_fields(&rt, b"XY 1", 0, &[b"XY", b"1"]);
    expect_fields(&rt, b" + 1001", 1, &[b"+", b"1001"]);
    let line = LineText {
        number: 1,
        octets: b" + Repr: an..3",
    };
    assert_eq!(rt; line.first_field(), b"+".as_slice());
    let line = LineText {
        number: 1,
        octets: b"+ Repr: an..3",
    };
    assert!(rt; line.begins_with(b"Repr:") && !line.begins_with(b"Repr"));
}

#[test]
fn finds_the_entries_of_a_file(rt: HostRuntime) {
    let file =
        b"text\n----------\n\n ----------\r\n 1 a\n\n+ +\n2 b\nX ----------\n---------\n----------\n \n";
    let mut entries = Entries::of(file);
    let first = entries.next().expect(&rt, "an entry");
    assert_eq!(rt; first.head.number, 5);
    let mut body = first.body;
    let line = body.next().expect(&rt, "a line");
    assert_eq!(rt; (line.number, line.octets), (7, b"+ +".as_slice()));
    let line = body.next().expect(&rt, "a line");
    assert_eq!(rt; (line.number, line.octets), (8, b"2 b".as_slice()));
    assert!(rt; body.next().is_none());
    assert!(rt; body.next().is_none());
    let second = entries.next().expect(&rt, "an entry");
    assert_eq!(rt;
        (second.head.number, second.head.octets),
        (10, b"---------".as_slice())
    );
    let mut body = second.body;
    assert!(rt; body.next().is_none());
    assert!(rt; entries.next().is_none());
    assert!(rt; Entries::of(b"1 a\n2 b").next().is_none());
}

#[test]
fn reads_representations(rt: HostRuntime) {
    let repr = |class, exact, max| Some(Repr { class, exact, max });
    let cases: [(&[u8], Option<Repr>); 16] = [
        (b"a3", repr(Class::A, true, 3)),
        (b"n..15", repr(Class::N, false, 15)),
        (b"an..9999", repr(Class::An, false, 9999)),
        (b"an1", repr(Class::An, true, 1)),
        (b"a..10000", None),
        (b"a0", None),
        (b"a03", None),
        (b"n..", None),
        (b"n.3", None),
        (b"n...3", None),
        (b"an", None),
        (b"a", None),
        (b"na3", None),
        (b"an..3 ", None),
        (b"AN3", None),
        (b"", None),
    ];
    for (field, wanted) in cases {
        assert_eq!(rt; read_repr(field), wanted, "{field:?}");
    }
}

#[test]
fn tells_codes_and_statuses(rt: HostRuntime) {
    assert!(rt; is_element_code(b"0062"));
    assert!(rt;
        !is_element_code(b"00622") && !is_element_code(b"062") && !is_element_code(b"C062")
    );
    assert!(rt; is_composite_code(b"C507"));
    assert!(rt;
        !is_composite_code(b"S009") && !is_composite_code(b"C50") && !is_composite_code(b"c507")
    );
    assert_eq!(rt; read_status(b"M"), Some(true));
    assert_eq!(rt; read_status(b"C"), Some(false));
    assert_eq!(rt; read_status(b"MC"), None);
}

#[test]
fn skips_one_mark_behind_a_position(rt: HostRuntime) {
    assert!(rt; is_lone_mark(b"X") && !is_lone_mark(b"++") && !is_lone_mark(b""));
    expect_all(
        &rt,
        b"one mark",
        after_position(Cells::of(b"* 1001 a")),
        &[b"1001", b"a"],
    );
    expect_all(
        &rt,
        b"two marks",
        after_position(Cells::of(b"* * a")),
        &[b"*", b"a"],
    );
    expect_all(
        &rt,
        b"no mark",
        after_position(Cells::of(b" ** a")),
        &[b"**", b"a"],
    );
}

#[test]
fn tells_names_of_files(rt: HostRuntime) {
    let cases: [(&[u8], bool); 12] = [
        (b"eded", true),
        (b"D96A/un-eded_1.txt", true),
        (b"a/b/c", true),
        (b"", false),
        (b"/a", false),
        (b"a/", false),
        (b"a//b", false),
        (b".a", false),
        (b"a/.b", false),
        (b"a/..", false),
        (b"a b", false),
        (b"a\n", false),
    ];
    for (name, wanted) in cases {
        assert_eq!(rt; is_name(name), wanted, "{name:?}");
    }
    assert!(rt; is_name(&[b'a'; 128]) && !is_name(&[b'a'; 129]));
}

#[test]
fn reads_and_puts_decimals(rt: HostRuntime) -> Result<(), Fail> {
    let cases: [(&[u8], Option<u64>); 8] = [
        (b"0", Some(0)),
        (b"007", Some(7)),
        (b"9999999999999999999", Some(9_999_999_999_999_999_999)),
        (b"00000000000000000001", None),
        (b"", None),
        (b"-1", None),
        (b"1 ", None),
        (b"1e3", None),
    ];
    for (part, wanted) in cases {
        assert_eq!(rt; read_decimal(part), wanted, "{part:?}");
    }
    let mut out = Chunk::of(rt.alloc(), b"n=")?;
    put_decimal(&mut out, 0)?;
    put_decimal(&mut out, 18_446_744_073_709_551_615)?;
    assert_eq!(rt; out.octets(), b"n=018446744073709551615".as_slice());
    Ok(())
}
