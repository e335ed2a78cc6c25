//! An acknowledgement of a message of two million segments, worked out by hand.
use contrl_writer::*;
use edi_tables::{Chunk, List, Tag};
use error_ledger::{ErrorLine, Kind};
use seg_lexer::Level;
use std::alloc::{AllocError, Global};
use std::test::Fail;

// An element that is missing in a segment.
fn missing(segment: u32) -> ErrorLine {
    ErrorLine {
        segment,
        start: 0,
        tag: Some(Tag { octets: *b"DTM" }),
        element: 1,
        component: 0,
        kind: Kind::Missing,
        node: 0,
        missing: None,
    }
}

fn party(alloc: Global, id: &[u8]) -> Result<Party, AllocError> {
    Ok(Party {
        id: Chunk::of(alloc, id)?,
        qualifier: Chunk::empty(alloc),
        route: Chunk::empty(alloc),
    })
}

fn opening(alloc: Global) -> Result<Opening, AllocError> {
    Ok(Opening::Good {
        level: Level::A,
        version: 3,
        sender: party(alloc, b"B")?,
        recipient: party(alloc, b"S")?,
        reference: Chunk::of(alloc, b"R")?,
    })
}

fn message(alloc: Global) -> Result<MessageHead, AllocError> {
    Ok(MessageHead {
        first: 11,
        last: 2_000_000,
        group: None,
        reference: Chunk::of(alloc, b"2")?,
        kind: Chunk::empty(alloc),
        version: Chunk::empty(alloc),
        release: Chunk::empty(alloc),
        agency: Chunk::empty(alloc),
        association: Chunk::empty(alloc),
    })
}

// An interchange of this message, with an error at its segment 999,999 and one at the next.
fn summary(alloc: Global) -> Result<Summary, AllocError> {
    let mut messages = Vec::new(alloc);
    messages.push(message(alloc)?)?;
    Ok(Summary {
        opening: opening(alloc)?,
        groups: List::of(Vec::new(alloc)),
        messages: List::of(messages),
        errors: List::of([missing(1_000_009), missing(1_000_010)].to_vec(alloc)?),
    })
}

const WRITTEN: &[u8] =
    b"UNB+UNOA:3+S+B+960106:0800+C'UNH+1+CONTRL:D:3:UN'UCI+R+B+S+7'UCM+2++4'UCS+999999'UCD+13+2'UNT+6+1'UNZ+1+C'";

#[test]
fn errors_past_segment_999999_are_left_out(rt: HostRuntime) -> Result<(), Fail> {
    let alloc = rt.alloc();
    let summary = summary(alloc)?;
    let stamp = Stamp {
        date: *b"960106",
        time: *b"0800",
    };
    let written = write_contrl(alloc, &summary, &stamp, b"C")?;
    let Contrl::Octets(octets) = &written else {
        panic!(rt; "no octets");
    };
    assert!(rt; octets.octets() == WRITTEN);
    Ok(())
}
