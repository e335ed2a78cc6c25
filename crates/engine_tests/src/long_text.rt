//! Edits in the middle of a long text: they end in the time of a test only if each reads and places what it touches alone.
ghost use Rattle.std.specs.Prelude.{◌≡◌, ◌<◌, ◌≤◌, length};

use dir_compile::Directory;
use drill_maker::reduced_directory;
use edi_engine::{Engine, Mode};
use edi_octets::LONGEST_TEXT;
use error_ledger::{ErrorLine, Kind};
use std::alloc::{AllocError, Global};
use std::marker::Brand;
use std::sync::ledger::{Blank, Ledger};
use std::test::Fail;
use step_counter::Steps;

// UNB, UNH, BGM, so many DTM of six octets, UNS, UNT, UNZ.
const REPEATS: usize = 300_000;

const LENGTH: usize = 1_800_099;

// The number of a DTM in the middle, and the place of its only value: `2`, which is a code, by turns with `3`, which is none.
const EDITED: u32 = 150_003;

const PLACE: u64 = 900_069;

// How often both are put in.
const TURNS: u32 = 20_000;

fn long_text(alloc: Global) -> Result<Vec<u8>, AllocError> {
    let mut text = Vec::with_capacity(alloc, LENGTH)?;
    text.extend_from_slice(b"UNB+UNOA:3+BUYER:14+SELLER:14+960105:0930+R1'")?;
    text.extend_from_slice(b"UNH+1+TSTORD:D:96A:UN'BGM'")?;
    for _ in 0..REPEATS {
        text.extend_from_slice(b"DTM+2'")?;
    }
    text.extend_from_slice(b"UNS+S'UNT+300004+1'UNZ+1+R1'")?;
    Ok(text)
}

// The order is the only message of the reduced directory: its table follows that of CONTRL.
fn is_in_order(mode: &Mode) -> bool {
    matches!(mode, Mode::Within { table: 1, .. })
}

// Two of the DTM are allowed. All others are too many, and the edited one may have a bad code besides.
fn are_as_expected(errors: &[ErrorLine], coded: usize) -> bool {
    let codes = errors
        .iter()
        .filter(|error| error.kind == Kind::Code && error.segment == EDITED)
        .count();
    let too_many = errors
        .iter()
        .filter(|error| error.kind == Kind::TooManySegments)
        .count();
    codes == coded && too_many == REPEATS - 2 && errors.len() == codes + too_many
}

fn has_errors(alloc: Global, engine: &Engine<'_>, coded: usize) -> bool {
    match engine.errors(alloc) {
        Ok(errors) => are_as_expected(&errors, coded),
        Err(_) => false,
    }
}

// Whether the mode after the edited segment is in the order.
fn is_kept(engine: &Engine<'_>) -> bool {
    EDITED <= engine.segment_count() && is_in_order(engine.state_after(EDITED))
}

// Whether the value of the edited segment could be replaced by another.
fn put_value<L: Ledger, M: Ledger>(
    alloc: Global,
    engine: &mut Engine<'_>,
    value: &[u8],
    lexed: &mut Steps<L>,
    placed: &mut Steps<M>,
) -> bool {
    match engine.replace(alloc, PLACE, 1, value, lexed, placed) {
        Ok(length) => length == LENGTH as u64,
        Err(_) => false,
    }
}

fn is_edited<L: Ledger, M: Ledger>(
    alloc: Global,
    engine: &mut Engine<'_>,
    value: &[u8],
    lexed: &mut Steps<L>,
    placed: &mut Steps<M>,
) -> bool {
    put_value(alloc, engine, value, lexed, placed) && is_kept(engine)
}

fn is_edited_by_turns<L: Ledger, M: Ledger>(
    alloc: Global,
    engine: &mut Engine<'_>,
    lexed: &mut Steps<L>,
    placed: &mut Steps<M>,
) -> bool {
    for _ in 1..TURNS {
        if !is_edited(alloc, engine, b"2", lexed, placed) {
            return false;
        }
        if !is_edited(alloc, engine, b"3", lexed, placed) {
            return false;
        }
    }
    true
}

// The first edit, all others but the last, and the last, with the errors after the first and the last.
fn holds_through_edits<L: Ledger, M: Ledger>(
    alloc: Global,
    engine: &mut Engine<'_>,
    lexed: &mut Steps<L>,
    placed: &mut Steps<M>,
) -> bool {
    is_edited(alloc, engine, b"3", lexed, placed)
        && has_errors(alloc, engine, 1)
        && is_edited_by_turns(alloc, engine, lexed, placed)
        && is_edited(alloc, engine, b"2", lexed, placed)
        && has_errors(alloc, engine, 0)
}

fn is_read_and_edited<L: Ledger, M: Ledger>(
    alloc: Global,
    directory: &Directory,
    text: Vec<u8>,
    lexing: Blank,
    placing: Blank,
) -> bool
    requires short { length text.items ≤ LONGEST_TEXT }
    requires lexing_name { lexing.name ≡ L.name }
    requires lexing_parts { lexing.parts ≡ L.parts }
    requires lexing_some { 0 < lexing.parts }
    requires placing_name { placing.name ≡ M.name }
    requires placing_parts { placing.parts ≡ M.parts }
    requires placing_some { 0 < placing.parts }
{
    let mut lexed = Steps::<L>::start(lexing);
    let mut placed = Steps::<M>::start(placing);
    match Engine::open_vec(alloc, directory, text, &mut lexed, &mut placed) {
        Ok(mut engine) => {
            engine.segment_count() == 300_006
                && holds_through_edits(alloc, &mut engine, &mut lexed, &mut placed)
        }
        Err(_) => false,
    }
}

fn is_long_text_edited(alloc: Global, directory: &Directory, text: Vec<u8>) -> bool {
    if text.len() > LONGEST_TEXT {
        return false;
    }
    is_read_and_edited::<Brand, Brand>(alloc, directory, text, Blank::new(1), Blank::new(1))
}

#[test]
fn an_edit_in_a_long_text_costs_what_it_touches(rt: HostRuntime) -> Result<(), Fail> {
    let alloc = rt.alloc();
    let directory = reduced_directory(alloc)?;
    let text = long_text(alloc)?;
    assert_eq!(rt; text.len(), LENGTH);
    assert!(rt; is_long_text_edited(alloc, &directory, text));
    Ok(())
}
