//! Edits, batches, undo and redo of an order of seven segments, which has no error: each answer as it was worked out by hand.
ghost use Rattle.std.specs.Prelude.{◌≡◌, ◌<◌};

use dir_compile::Directory;
use drill_maker::reduced_directory;
use edi_history::{Back, BatchStop, History};
use edi_tables::Chunk;
use edit_script::EditSpec;
use std::alloc::{AllocError, Global};
use std::marker::Brand;
use std::process::Abort;
use std::sync::ledger::{Blank, Ledger};
use std::test::Fail;
use step_counter::Steps;

// It has 125 octets. A release character at 101 is before the terminator of DTM.
const ORDER: &[u8] =
    b"UNB+UNOA:3+BUYER:14+SELLER:14+960105:0930+R1'UNH+1+TSTORD:D:96A:UN'BGM+220+PO7+9'DTM+137:19960105:102'UNS+S'UNT+5+1'UNZ+1+R1'";

fn done(length: u64) -> Back {
    Back::Done { length }
}

fn spec(alloc: Global, at: u64, cut: u64, put: &[u8]) -> Result<EditSpec, AllocError> {
    let put = Chunk::of(alloc, put)?;
    Ok(EditSpec { at, cut, put })
}

fn goes_back_and_on<L: Ledger, M: Ledger>(
    rt: &impl Abort,
    alloc: Global,
    directory: &Directory,
    lexed: &mut Steps<L>,
    placed: &mut Steps<M>,
) -> Result<(), Fail> {
    let mut history = History::open(alloc, directory, ORDER, lexed, placed)?;
    assert_eq!(rt; history.undo(), Back::Empty);
    assert_eq!(rt;
        history.replace(alloc, 101, 0, b"?", lexed, placed),
        Ok(126)
    );
    assert_eq!(rt; history.engine().errors(alloc)?.len(), 4);
    assert_eq!(rt; history.undo(), done(125));
    assert!(rt; history.engine().errors(alloc)?.is_empty());
    assert_eq!(rt; (history.past_len(), history.future_len()), (0, 1));
    assert_eq!(rt; history.redo(), done(126));
    assert_eq!(rt; history.redo(), Back::Empty);
    assert_eq!(rt; (history.past_len(), history.future_len()), (1, 0));
    Ok(())
}

fn makes_all_or_none<L: Ledger, M: Ledger>(
    rt: &impl Abort,
    alloc: Global,
    directory: &Directory,
    lexed: &mut Steps<L>,
    placed: &mut Steps<M>,
) -> Result<(), Fail> {
    let mut history = History::open(alloc, directory, ORDER, lexed, placed)?;
    let cut_short = [spec(alloc, 125, 0, b"XX")?, spec(alloc, 0, 999, b"")?];
    let there_and_back = [spec(alloc, 101, 0, b"?")?, spec(alloc, 101, 1, b"")?];
    let refused = history.batch(alloc, &cut_short, lexed, placed);
    assert_eq!(rt; refused, Err(BatchStop::Range { edit: 2 }));
    assert!(rt; history.engine().errors(alloc)?.is_empty());
    assert_eq!(rt;
        history.batch(alloc, &there_and_back, lexed, placed),
        Ok(125)
    );
    assert_eq!(rt; history.undo(), done(125));
    assert_eq!(rt; history.undo(), Back::Empty);
    Ok(())
}

fn forgets_what_was_undone<L: Ledger, M: Ledger>(
    rt: &impl Abort,
    alloc: Global,
    directory: &Directory,
    lexed: &mut Steps<L>,
    placed: &mut Steps<M>,
) -> Result<(), Fail> {
    let mut history = History::open(alloc, directory, ORDER, lexed, placed)?;
    assert_eq!(rt;
        history.replace(alloc, 125, 0, b"XX", lexed, placed),
        Ok(127)
    );
    assert_eq!(rt; history.undo(), done(125));
    assert_eq!(rt;
        history.replace(alloc, 125, 0, b"X", lexed, placed),
        Ok(126)
    );
    assert_eq!(rt; history.redo(), Back::Empty);
    Ok(())
}

// The text of 125 octets is the first of 101 before the last one, and is given up.
fn keeps_a_hundred<L: Ledger, M: Ledger>(
    rt: &impl Abort,
    alloc: Global,
    directory: &Directory,
    lexed: &mut Steps<L>,
    placed: &mut Steps<M>,
) -> Result<(), Fail> {
    let mut history = History::open(alloc, directory, ORDER, lexed, placed)?;
    for length in 126..227 {
        assert_eq!(rt;
            history.replace(alloc, 125, 0, b"X", lexed, placed),
            Ok(length)
        );
    }
    assert_eq!(rt; history.past_len(), 100);
    for length in (126..226).rev() {
        assert_eq!(rt; history.undo(), done(length));
    }
    assert_eq!(rt; history.undo(), Back::Empty);
    assert_eq!(rt; history.future_len(), 100);
    Ok(())
}

fn answer_all<L: Ledger, M: Ledger>(
    rt: &impl Abort,
    alloc: Global,
    directory: &Directory,
    lexing: Blank,
    placing: Blank,
) -> Result<(), Fail>
    requires lexing_name { lexing.name ≡ L.name }
    requires lexing_parts { lexing.parts ≡ L.parts }
    requires lexing_some { 0 < lexing.parts }
    requires placing_name { placing.name ≡ M.name }
    requires placing_parts { placing.parts ≡ M.parts }
    requires placing_some { 0 < placing.parts }
{
    let mut lexed = Steps::<L>::start(lexing);
    let mut placed = Steps::<M>::start(placing);
    goes_back_and_on(rt, alloc, directory, &mut lexed, &mut placed)?;
    makes_all_or_none(rt, alloc, directory, &mut lexed, &mut placed)?;
    forgets_what_was_undone(rt, alloc, directory, &mut lexed, &mut placed)?;
    keeps_a_hundred(rt, alloc, directory, &mut lexed, &mut placed)
}

#[test]
fn a_history_answers_as_worked_out_by_hand(rt: HostRuntime) -> Result<(), Fail> {
    let alloc = rt.alloc();
    let directory = reduced_directory(alloc)?;
    answer_all::<Brand, Brand>(&rt, alloc, &directory, Blank::new(1), Blank::new(1))
}
