//! An engine over the interchange of a drill: UNB, UNH, BGM, DTM, two lines of LIN and QTY, UNS, UNT, UNZ.
use contrl_segments::{Opening, Summary};
use dir_compile::Directory;
use drill_maker::{make_interchange, reduced_directory};
use edi_engine::{Engine, Mode};
use std::alloc::Global;
use std::test::Fail;

fn read_drill<'d>(alloc: Global, directory: &'d Directory) -> Result<Engine<'d>, Fail> {
    let text = make_interchange(alloc, 1, 1)?;
    Ok(Engine::read(alloc, directory, text.octets().to_vec(alloc)?)?)
}

// In the first line of the order: at QTY, node 8, once, in group 2, node 6, for the first time. CONTRL has table 0, and the
// order, which is the only message of the reduced directory, table 1.
fn is_at_first_quantity(mode: &Mode) -> bool {
    match mode {
        Mode::Within { table, state } => {
            *table == 1
                && state.pair(0) == Some((6, 1))
                && state.pair(1) == Some((8, 1))
                && state.pair(2) == None
        }
        _ => false,
    }
}

fn is_outside(mode: &Mode) -> bool {
    matches!(mode, Mode::Outside)
}

// Outside before the message and after it, and in between at its first quantity.
fn has_the_modes(engine: &Engine<'_>) -> bool {
    engine.segment_count() == 11
        && is_outside(engine.state_after(1))
        && is_at_first_quantity(engine.state_after(6))
        && is_outside(engine.state_after(10))
}

#[test]
fn modes_are_those_of_the_message(rt: HostRuntime) -> Result<(), Fail> {
    let alloc = rt.alloc();
    let directory = reduced_directory(alloc)?;
    let engine = read_drill(alloc, &directory)?;
    assert!(rt; has_the_modes(&engine));
    Ok(())
}

// The reference of a drill's interchange, no group, one order from segment 2 to segment 10, and no error.
fn tells_the_order(summary: &Summary) -> bool {
    let is_named = match &summary.opening {
        Opening::Good { reference, .. } => reference.octets() == b"R1".as_slice(),
        _ => false,
    };
    let is_one = match summary.messages.items() {
        [message] => {
            (message.first, message.last) == (2, 10)
                && message.kind.octets() == b"TSTORD".as_slice()
        }
        _ => false,
    };
    is_named && is_one && summary.groups.items().is_empty() && summary.errors.items().is_empty()
}

fn has_the_order(alloc: Global, engine: &Engine<'_>) -> bool {
    match engine.summary(alloc) {
        Ok(summary) => tells_the_order(&summary),
        Err(_) => false,
    }
}

#[test]
fn a_summary_has_the_message(rt: HostRuntime) -> Result<(), Fail> {
    let alloc = rt.alloc();
    let directory = reduced_directory(alloc)?;
    let engine = read_drill(alloc, &directory)?;
    assert!(rt; has_the_order(alloc, &engine));
    Ok(())
}
