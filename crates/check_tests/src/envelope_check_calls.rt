//! The errors of envelopes, on rows that are worked out by hand.
ghost use Rattle.std.specs.Prelude.{◌≡◌, ◌+◌, ◌++◌, ◌<◌, length, map, IfOk, OnOk};
ghost use Rattle.std.specs.Option.{option_to_list};
ghost use Rattle.envelope_check.specs.Heads.{Fits, head_place_of, place_by};

use edi_tables::Tag;
use envelope_check::{
    Head, HeadKind, HeadValue, HeadValues, MarkList, SegmentMark, envelope_errors,
};
use error_ledger::print_errors;
use std::alloc::{AllocError, Global};
use std::process::Abort;
use std::test::Fail;

/// The tag of a segment, and its count, reference and name. A message named `NONE` has no table.
type Row = (&'static str, &'static str, &'static str, &'static str);

/// The values of a row as those of a head: its count, or else its name.
fn values_of(alloc: Global, row: &Row) -> Result<HeadValues, AllocError> {
    let other = if row.1.is_empty() { row.3 } else { row.1 };
    Ok(HeadValues {
        reference: HeadValue::of(alloc, row.2.as_bytes())?,
        other: HeadValue::of(alloc, other.as_bytes())?,
    })
}

/// Those of each row.
fn all_values(alloc: Global, rows: &[Row]) -> Result<Vec<HeadValues>, AllocError>
    ensures { IfOk result (λ values. length values.items ≡ length rows.now) }
{
    let mut values = Vec::new(alloc);
    for row in rows {
        values.push(values_of(alloc, row)?)?;
    }
    Ok(values)
}

/// Puts the head that a segment is, if it is one, at the end.
fn push_head<'v>(
    heads: &mut Vec<Head<'v>>,
    segment: u32,
    mark: &SegmentMark,
    row: &Row,
    values: &'v HeadValues,
) -> Result<(), AllocError>
    ensures { OnOk result (map head_place_of heads.new.items
        ≡ map head_place_of heads.old.items ++ option_to_list (place_by segment mark.now)) }
{
    match HeadKind::of(mark.tag) {
        Some(kind) => {
            let tabled = row.3 != "NONE";
            heads.push(Head::of(segment, mark.start, kind, tabled, values))?;
            Ok(())
        }
        None => Ok(()),
    }
}

/// Puts one more segment at the end, ten octets after the one before it.
#[tactic(auto, using(envelope_check::proofs::Fitting::fits_more))]
fn push_row<'v>(
    heads: &mut Vec<Head<'v>>,
    marks: &mut Vec<SegmentMark>,
    row: &Row,
    values: &'v HeadValues,
) -> Result<(), AllocError>
    requires few { length marks.old.items < 1000 }
    requires fits { Fits heads.old.items marks.old.items }
    ensures fits { OnOk result (Fits heads.new.items marks.new.items) }
    ensures more { OnOk result (length marks.new.items ≡ length marks.old.items + 1) }
{
    let before = marks.len() as u32;
    let mark = SegmentMark {
        start: 10 * before,
        tag: Tag::read(row.0.as_bytes()),
    };
    push_head(heads, before + 1, &mark, row, values)?;
    marks.push(mark)?;
    Ok(())
}

fn expect(rt: &impl Abort, alloc: Global, rows: &[Row], wanted: &str) -> Result<(), AllocError> {
    assert!(rt; rows.len() < 100);
    let values = all_values(alloc, rows)?;
    let mut heads = Vec::new(alloc);
    let mut marks = Vec::new(alloc);
    for row in rows {
        let values = &values[marks.len()];
        push_row(&mut heads, &mut marks, row, values)?;
    }
    let total = marks.len() as u32;
    let errors = envelope_errors(alloc, &heads, total, &mut MarkList { marks: &marks })?;
    let printed = print_errors(alloc, &errors)?;
    assert!(rt; printed.octets() == wanted.as_bytes(), "{wanted}");
    Ok(())
}

#[test]
fn groups_messages_and_counts_are_judged(rt: HostRuntime) -> Result<(), Fail> {
    #[rattlefmt::skip]
    let cases: [(&[Row], &str); 6] = [
        (&[("UNB", "", "R1", ""), ("UNH", "", "M1", ""), ("BGM", "", "", ""), ("UNT", "3", "M1", ""), ("UNZ", "01", "R1", "")],
            "errors 0\n"),
        (&[], "errors 2\n0 0 --- 0 0 13 no-unb\n0 0 --- 0 0 13 no-unz\n"),
        // A run of segments that UNT counts, and one that the text ends with.
        (&[("UNB", "", "R1", ""), ("UNH", "", "M1", ""), ("BGM", "", "", ""), ("DTM", "", "", ""), ("NAD", "", "", ""), ("UNT", "5", "M1", ""),
            ("UNH", "", "M2", ""), ("BGM", "", "", ""), ("DTM", "", "", "")],
            "errors 1\n0 0 --- 0 0 13 no-unz\n"),
        // A message after the groups.
        (&[("UNB", "", "R1", ""), ("UNG", "", "G1", "A"), ("UNH", "", "M1", "A"), ("UNT", "2", "M1", ""), ("UNE", "1", "G1", ""),
            ("UNH", "", "M2", "A"), ("UNT", "2", "M2", ""), ("UNZ", "1", "R1", "")],
            "errors 1\n6 50 UNH 0 0 30 mixed\n"),
        (&[("UNB", "", "R1", ""), ("UNG", "", "G1", ""), ("UNE", "0", "G1", ""), ("UNZ", "1", "R1", "")],
            "errors 1\n2 10 UNG 0 0 32 empty-group\n"),
        // Counts and references, one of 20 digits and one empty.
        (&[("UNB", "", "R1", ""), ("UNG", "", "G1", "A"), ("UNH", "", "M1", "B"), ("BGM", "", "", ""), ("UNT", "2", "M2", ""),
            ("UNH", "", "M3", "A"), ("UNT", "00000000000000000002", "M3", ""), ("UNE", "1", "G2", ""), ("UNZ", "", "R2", "")],
            "errors 8\n3 20 UNH 0 0 31 group-type\n5 40 UNT 1 0 29 count\n5 40 UNT 2 0 28 reference\n7 60 UNT 1 0 29 count\n\
            8 70 UNE 1 0 29 count\n8 70 UNE 2 0 28 reference\n9 80 UNZ 1 0 29 count\n9 80 UNZ 2 0 28 reference\n"),
    ];
    for (rows, wanted) in cases {
        expect(&rt, rt.alloc(), rows, wanted)?;
    }
    Ok(())
}

#[test]
fn segments_out_of_place_are_told(rt: HostRuntime) -> Result<(), Fail> {
    #[rattlefmt::skip]
    let cases: [(&[Row], &str); 5] = [
        // Segments that close nothing, and others outside.
        (&[("UNB", "", "R1", ""), ("UNT", "1", "M1", ""), ("DTM", "", "", ""), ("UNE", "0", "G1", ""), ("", "", "", ""), ("UNZ", "0", "R1", "")],
            "errors 5\n2 10 UNT 0 0 33 outside\n3 20 DTM 0 0 33 outside\n4 30 UNE 0 0 33 outside\n5 40 --- 0 0 33 outside\n\
            6 50 UNZ 0 0 32 empty-interchange\n"),
        // After the end.
        (&[("UNB", "", "R1", ""), ("UNH", "", "M1", ""), ("UNT", "2", "M1", ""), ("UNZ", "1", "R1", ""), ("UNB", "", "R9", ""),
            ("UNH", "", "M2", "NONE"), ("UNT", "3", "M2", ""), ("UNZ", "5", "R5", ""), ("DTM", "", "", "")],
            "errors 7\n5 40 UNB 0 0 33 after-end\n6 50 UNH 0 0 33 after-end\n6 50 UNH 2 0 12 no-table\n7 60 UNT 0 0 33 after-end\n\
            7 60 UNT 1 0 29 count\n8 70 UNZ 0 0 33 after-end\n9 80 DTM 0 0 33 after-end\n"),
        // UNB twice.
        (&[("UNB", "", "R1", ""), ("UNH", "", "M1", ""), ("UNB", "", "R2", ""), ("UNT", "2", "M1", ""), ("UNZ", "1", "R1", "")],
            "errors 2\n3 20 UNB 0 0 15 second-unb\n4 30 UNT 0 0 33 outside\n"),
        // No UNB to refer to, and a group that UNZ ends.
        (&[("UNG", "", "G1", "A"), ("UNH", "", "M1", "A"), ("BGM", "", "", ""), ("UNZ", "1", "R1", "")],
            "errors 2\n0 0 --- 0 0 13 no-unb\n1 0 UNG 0 0 13 no-une\n"),
        // Groups without an end.
        (&[("UNB", "", "R1", ""), ("UNG", "", "G1", ""), ("UNT", "1", "M1", ""), ("UNG", "", "G2", ""), ("UNH", "", "M2", "")],
            "errors 5\n0 0 --- 0 0 13 no-unz\n2 10 UNG 0 0 13 no-une\n2 10 UNG 0 0 32 empty-group\n3 20 UNT 0 0 33 outside\n4 30 UNG 0 0 13 no-une\n"),
    ];
    for (rows, wanted) in cases {
        expect(&rt, rt.alloc(), rows, wanted)?;
    }
    Ok(())
}
