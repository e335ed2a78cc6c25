//! Readings worked by hand, each read step by step and by the definition.
ghost use Rattle.std.specs.Prelude.{◌≡◌, ◌<◌};

use edi_tables::{Table, TableRow, Tag};
use std::alloc::{AllocError, Global};
use std::marker::Brand;
use std::process::Abort;
use std::sync::ledger::{Blank, Ledger};
use std::test::Fail;
use step_counter::Steps;
use table_walk::{read_tags, start};

const fn row(name: &[u8; 3], must: bool, max: u32, depth: u8) -> TableRow {
    TableRow {
        tag: Some(Tag { octets: *name }),
        must,
        max,
        depth,
    }
}

const fn group(max: u32, depth: u8) -> TableRow {
    TableRow {
        tag: None,
        must: false,
        max,
        depth,
    }
}

/// A small order: a group of parties, and a group of lines that holds a group of prices.
fn order() -> [TableRow; 15] {
    [
        row(b"UNH", true, 1, 0),
        row(b"BGM", true, 1, 0),
        row(b"DTM", true, 2, 0),
        group(2, 0),
        row(b"NAD", true, 1, 1),
        row(b"CTA", false, 1, 1),
        group(3, 0),
        row(b"LIN", true, 1, 1),
        row(b"QTY", false, 1, 1),
        group(2, 1),
        row(b"PRI", true, 1, 2),
        row(b"DTM", false, 1, 2),
        row(b"UNS", true, 1, 0),
        row(b"MOA", false, 1, 0),
        row(b"UNT", true, 1, 0),
    ]
}

/// A date before a mandatory reference, and one after it.
fn two_dates() -> [TableRow; 5] {
    [
        row(b"UNH", true, 1, 0),
        row(b"DTM", true, 1, 0),
        row(b"RFF", true, 1, 0),
        row(b"DTM", false, 1, 0),
        row(b"UNT", true, 1, 0),
    ]
}

/// Up to five dates, an optional reference, and one date more.
fn colliding() -> [TableRow; 6] {
    [
        row(b"UNH", true, 1, 0),
        row(b"BGM", true, 1, 0),
        row(b"DTM", false, 5, 0),
        row(b"RFF", false, 1, 0),
        row(b"DTM", false, 1, 0),
        row(b"UNT", true, 1, 0),
    ]
}

/// A segment after UNH: its tag, its entry, the nodes that are missing before it, and whether it is one too many.
type Segment = (&'static [u8; 3], Option<u16>, &'static [u16], bool);

/// The segments after UNH, and what is missing where the message ends after them.
type Reading = (&'static [Segment], &'static [u16]);

#[rattlefmt::skip]
const ORDERS: &[Reading] = &[
    // Nothing is wrong: a line with two prices.
    (&[
        (b"BGM", Some(1), &[], false), (b"DTM", Some(2), &[], false), (b"LIN", Some(7), &[], false), (b"PRI", Some(10), &[], false),
        (b"PRI", Some(10), &[], false), (b"UNS", Some(12), &[], false), (b"UNT", Some(14), &[], false),
    ], &[]),
    // A third party where two are allowed; its contact is the first of it, and a second one is one too many.
    (&[
        (b"BGM", Some(1), &[], false), (b"DTM", Some(2), &[], false), (b"NAD", Some(4), &[], false), (b"CTA", Some(5), &[], false),
        (b"NAD", Some(4), &[], false), (b"NAD", Some(4), &[], true), (b"CTA", Some(5), &[], false), (b"CTA", Some(5), &[], true),
    ], &[12, 14]),
    // A contact without its party fits nowhere, and the date before it stays the entry placed last.
    (&[(b"DTM", Some(2), &[1], false), (b"CTA", None, &[], false), (b"DTM", Some(2), &[], false), (b"UNS", Some(12), &[], false)], &[14]),
    // A message that stops inside a price.
    (&[(b"BGM", Some(1), &[], false), (b"LIN", Some(7), &[2], false), (b"PRI", Some(10), &[], false), (b"DTM", Some(11), &[], false)], &[12, 14]),
];

#[rattlefmt::skip]
const DATES: &[Reading] = &[
    // The second date is one too many and misses nothing, which ranks before the other date; UNT misses the reference.
    (&[(b"DTM", Some(1), &[], false), (b"DTM", Some(1), &[], true), (b"UNT", Some(4), &[2], false)], &[]),
];

#[rattlefmt::skip]
const COLLISIONS: &[Reading] = &[
    // The sixth date is the other one.
    (&[
        (b"BGM", Some(1), &[], false), (b"DTM", Some(2), &[], false), (b"DTM", Some(2), &[], false), (b"DTM", Some(2), &[], false),
        (b"DTM", Some(2), &[], false), (b"DTM", Some(2), &[], false), (b"DTM", Some(4), &[], false), (b"UNT", Some(5), &[], false),
    ], &[]),
];

/// The readings go as expected, step by step and as a whole.
fn expect<L: Ledger>(
    rt: &impl Abort,
    alloc: Global,
    steps: &mut Steps<L>,
    rows: &[TableRow],
    readings: &[Reading],
) -> Result<(), Fail> {
    let table = Table::build(alloc, rows)?;
    for reading in readings {
        walk(rt, alloc, steps, &table, reading)?;
        read(rt, alloc, &table, reading)?;
    }
    Ok(())
}

/// Each step goes as expected.
fn walk<L: Ledger>(
    rt: &impl Abort,
    alloc: Global,
    steps: &mut Steps<L>,
    table: &Table,
    reading: &Reading,
) -> Result<(), AllocError> {
    assert!(rt; reading.0.len() < 1000);
    let mut state = start(alloc, table)?;
    for (name, entry, missing, over) in reading.0 {
        let tag = Some(Tag { octets: **name });
        let placed = state.place(alloc, table, tag, steps)?;
        assert_eq!(rt; placed.entry, *entry);
        assert_eq!(rt; placed.missing.as_slice(), *missing);
        assert_eq!(rt; placed.over, *over);
        assert_eq!(rt; placed.state.same(&state), entry.is_none());
        state = placed.state.share()?;
    }
    assert_eq!(rt; state.finish(alloc, table)?.as_slice(), reading.1);
    Ok(())
}

/// The reading of all segments at once is that of their steps.
fn read(
    rt: &impl Abort,
    alloc: Global,
    table: &Table,
    reading: &Reading,
) -> Result<(), AllocError> {
    let mut tags = vec![in alloc; Some(Tag { octets: *b"UNH" })]?;
    let mut entries = vec![in alloc; Some(0)]?;
    for (name, entry, _, _) in reading.0 {
        tags.push(Some(Tag { octets: **name }))?;
        entries.push(*entry)?;
    }
    let placed = read_tags(alloc, table, &tags)?;
    assert_eq!(rt; placed.as_slice(), entries.as_slice());
    Ok(())
}

fn expect_all<L: Ledger>(rt: &impl Abort, alloc: Global, blank: Blank) -> Result<(), Fail>
    requires name { blank.name ≡ L.name }
    requires parts { blank.parts ≡ L.parts }
    requires some { 0 < blank.parts }
{
    let mut steps = Steps::<L>::start(blank);
    expect(rt, alloc, &mut steps, &order(), ORDERS)?;
    expect(rt, alloc, &mut steps, &two_dates(), DATES)?;
    expect(rt, alloc, &mut steps, &colliding(), COLLISIONS)
}

#[test]
fn readings_go_as_worked_by_hand(rt: HostRuntime) -> Result<(), Fail> {
    expect_all::<Brand>(&rt, rt.alloc(), Blank::new(1))
}
