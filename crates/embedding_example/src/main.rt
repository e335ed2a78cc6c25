//! What a program in Rattle makes of the crates: it keeps an order checked while it corrects it. It puts right two octets by an
//! edit, puts in a segment and the count that goes with it by a batch, and takes the batch back.
#![tactic(auto)]

ghost use Rattle.std.specs.Prelude.{◌≡◌, ◌<◌, ◌≤◌, length};
ghost use Rattle.edi_octets.specs.declared.octets.TheConstants.{LONGEST_TEXT};

use anyhow::{Result, anyhow};
use dir_compile::Directory;
use edi_engine::Engine;
use edi_history::{Back, History};
use edi_ports::FolderShelf;
use edi_tables::Chunk;
use edit_script::EditSpec;
use error_ledger::print_errors;
use run_outcome::open_both;
use std::alloc::{AllocError, Global};
use std::marker::Brand;
use std::sync::ledger::{Blank, Ledger};
use step_counter::Steps;

fn main(rt: HostRuntime) -> Result<()> {
    let alloc = rt.alloc();
    let mut shelf = FolderShelf::new(&rt);
    let Ok(opened) = open_both(alloc, b"store", b"order.edi", &mut shelf) else {
        return Err(anyhow!("there is no directory or no order here"));
    };
    let (lexing, placing) = (Blank::new(1), Blank::new(1));
    correct::<Brand, Brand>(&rt, alloc, &opened.directory, &opened.text, lexing, placing)
}

// Corrects the order. What counts the calls of the lexer and of the walk isn't read here.
fn correct<L: Ledger, M: Ledger>(
    rt: &impl Print,
    alloc: Global,
    directory: &Directory,
    order: &[u8],
    lexing: Blank,
    placing: Blank,
) -> Result<()>
    requires short { length order.now ≤ LONGEST_TEXT }
    requires lexing_name { lexing.name ≡ L.name }
    requires lexing_parts { lexing.parts ≡ L.parts }
    requires lexing_some { 0 < lexing.parts }
    requires placing_name { placing.name ≡ M.name }
    requires placing_parts { placing.parts ≡ M.parts }
    requires placing_some { 0 < placing.parts }
{
    let mut lexed = Steps::<L>::start(lexing);
    let mut placed = Steps::<M>::start(placing);
    let mut history = History::open(alloc, directory, order, &mut lexed, &mut placed)?;
    show(rt, alloc, "as it came", history.engine())?;
    history.replace(alloc, 77, 2, b"PO", &mut lexed, &mut placed)?;
    show(rt, alloc, "with capital letters", history.engine())?;
    let date_and_count = [
        edit(alloc, 84, 0, b"DTM+137:19960105:102'\n")?,
        edit(alloc, 178, 1, b"8")?,
    ];
    history.batch(alloc, &date_and_count, &mut lexed, &mut placed)?;
    show(
        rt,
        alloc,
        "with a date, and counted again",
        history.engine(),
    )?;
    match history.undo() {
        Back::Done { length } => println!(rt; "{length} octets again")?,
        Back::Empty => println!(rt; "nothing to undo")?,
    }
    show(rt, alloc, "without the batch", history.engine())
}

// An edit of a batch.
fn edit(alloc: Global, at: u64, cut: u64, put: &[u8]) -> Result<EditSpec, AllocError> {
    let put = Chunk::of(alloc, put)?;
    Ok(EditSpec { at, cut, put })
}

// Prints what the order is now, and its errors.
fn show(rt: &impl Print, alloc: Global, state: &str, engine: &Engine<'_>) -> Result<()> {
    let errors = engine.errors(alloc)?;
    let printed = print_errors(alloc, &errors)?;
    println!(rt;
        "{state}: {} octets, {} segments",
        engine.text_len(),
        engine.segment_count()
    )?;
    print!(rt; "{}", str::from_utf8(printed.octets())?)?;
    Ok(())
}
