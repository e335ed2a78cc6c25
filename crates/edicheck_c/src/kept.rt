//! What a handle keeps, and how it is made and edited.
ghost use Rattle.std.specs.Prelude.{◌≡◌, ◌⊎◌, ◌<◌, ◌≤◌, Ok, Err, length, IfOk, MatchResult};
ghost use Rattle.edi_engine.specs.Edit.{IsEdit, stop_of};
ghost use Rattle.edi_octets.specs.declared.octets.TheConstants.{LONGEST_TEXT};
ghost use Rattle.kept_text.specs.Edit.{reading_with};
ghost use Rattle.edicheck_c.specs.Answer.{no_memory_answer};
ghost use Rattle.edicheck_c.specs.Held.{boxed};
ghost use Rattle.edicheck_c.specs.Keeping.{keeping, opened, opened_beside};

use crate::answer::Answer;
use crate::code::{CLOSED, TOO_LONG};
use crate::opening::{is_short, open};
use dir_compile::Directory;
use edi_engine::{EditStop, Engine};
use std::alloc::{AllocError, Global};
use std::marker::Brand;
use std::sync::ledger::{Blank, Ledger};
use step_counter::Steps;

/// A text that was read by a directory. The directory is never let go.
#[derive(Drop)]
pub struct Kept {
    pub(crate) engine: Engine<'static>,
}

/// A text by the directory that a store spells.
pub(crate) fn open_kept(alloc: Global, store: &[u8], text: &[u8]) -> Result<Box<Kept>, Answer>
    ensures { MatchResult result (λ kept. opened store.now text.now ≡ Ok kept.value)
        (λ answer. (opened store.now text.now ≡ Err answer) ⊎ (answer ≡ no_memory_answer)) }
{
    match open(alloc, store, text) {
        Ok(directory) => match read_for_ever(alloc, directory, text) {
            Ok(kept) => Ok(kept),
            Err(_) => Err(Answer::no_memory(alloc)),
        },
        Err(answer) => Err(answer),
    }
}

/// A text by the directory of what is kept.
pub(crate) fn open_beside(
    alloc: Global,
    beside: &Option<Box<Kept>>,
    text: &[u8],
) -> Result<Box<Kept>, Answer>
    ensures { MatchResult result (λ kept. opened_beside (boxed beside.now) text.now ≡ Ok kept.value)
        (λ answer. (opened_beside (boxed beside.now) text.now ≡ Err answer)
        ⊎ (answer ≡ no_memory_answer)) }
{
    let Some(beside) = beside else {
        return Err(Answer::refusing(alloc, CLOSED, 0));
    };
    if !is_short(text) {
        return Err(Answer::refusing(alloc, TOO_LONG, 0));
    }
    match read_kept(alloc, beside.engine.directory(), text) {
        Ok(kept) => Ok(kept),
        Err(_) => Err(Answer::no_memory(alloc)),
    }
}

// A text by a directory that is never let go from now on.
fn read_for_ever(alloc: Global, directory: Directory, text: &[u8]) -> Result<Box<Kept>, AllocError>
    requires { length text.now ≤ LONGEST_TEXT }
    ensures { IfOk result (λ kept. kept.value ≡ keeping directory text.now) }
{
    let directory: &'static mut Directory = Box::leak(Box::new(alloc, directory)?);
    read_kept(alloc, directory, text)
}

fn read_kept(
    alloc: Global,
    directory: &'static Directory,
    text: &[u8],
) -> Result<Box<Kept>, AllocError>
    requires { length text.now ≤ LONGEST_TEXT }
    ensures { IfOk result (λ kept. kept.value ≡ keeping directory.now text.now) }
{
    let engine = Engine::read(alloc, directory, text.to_vec(alloc)?)?;
    Ok(Box::new(alloc, Kept { engine })?)
}

/// Puts octets in place of the `cut` octets of the text from place `at` on, and answers its new length.
pub(crate) fn edit_kept(
    alloc: Global,
    kept: &mut Kept,
    at: u64,
    cut: u64,
    put: &[u8],
) -> Result<u64, EditStop>
    ensures { IsEdit (stop_of kept.old.engine.text at cut put.now)
        (reading_with kept.old.engine at cut put.now) kept.old.engine kept.new.engine result }
{
    edit_counted::<Brand, Brand>(alloc, kept, at, cut, put, Blank::new(1), Blank::new(1))
}

// The same, with what counts the calls of the lexer and of the walk.
fn edit_counted<L: Ledger, M: Ledger>(
    alloc: Global,
    kept: &mut Kept,
    at: u64,
    cut: u64,
    put: &[u8],
    lexing: Blank,
    placing: Blank,
) -> Result<u64, EditStop>
    requires lexing_name { lexing.name ≡ L.name }
    requires lexing_parts { lexing.parts ≡ L.parts }
    requires lexing_some { 0 < lexing.parts }
    requires placing_name { placing.name ≡ M.name }
    requires placing_parts { placing.parts ≡ M.parts }
    requires placing_some { 0 < placing.parts }
    ensures { IsEdit (stop_of kept.old.engine.text at cut put.now)
        (reading_with kept.old.engine at cut put.now) kept.old.engine kept.new.engine result }
{
    let mut lexed = Steps::<L>::start(lexing);
    let mut placed = Steps::<M>::start(placing);
    kept.engine
        .replace(alloc, at, cut, put, &mut lexed, &mut placed)
}
