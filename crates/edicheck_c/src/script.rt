//! The replies to a script.
ghost use Rattle.std.specs.Prelude.{◌≡◌, ◌⊎◌, ◌≤◌, ◌<◌, Some, length, IfOk};
ghost use Rattle.edi_octets.specs.declared.octets.TheConstants.{LONGEST_TEXT};
ghost use Rattle.edicheck_c.specs.Answer.{no_memory_answer};
ghost use Rattle.edicheck_c.specs.Script.{IsReplied, IsScriptAnswer};

use crate::answer::Answer;
use crate::code::{BAD_SCRIPT, DONE};
use crate::opening::open_with_script;
use crate::replies::Replies;
use dir_compile::Directory;
use edi_engine::Engine;
use edi_ports::{MemSource, Source};
use run_outcome::Status;
use script_answers::{Editor, answer_script};
use std::alloc::{AllocError, Global};
use std::marker::Brand;
use std::sync::ledger::{Blank, Ledger};
use step_counter::Steps;

/// The replies to a script on a text, by the directory that a store spells.
pub(crate) fn tell_script(alloc: Global, store: &[u8], text: &[u8], script: &[u8]) -> Answer
    ensures { IsScriptAnswer store.now text.now script.now result ⊎ (result ≡ no_memory_answer) }
{
    match open_with_script(alloc, store, text, script) {
        Ok(directory) => replies_by(alloc, &directory, text, script),
        Err(answer) => answer,
    }
}

// The replies to a script on a text, by a directory.
fn replies_by(alloc: Global, directory: &Directory, text: &[u8], script: &[u8]) -> Answer
    requires { length text.now ≤ LONGEST_TEXT }
    ensures { IsReplied directory.now text.now script.now result ⊎ (result ≡ no_memory_answer) }
{
    let lexing = Blank::new(1);
    let placing = Blank::new(1);
    match reply_counted::<Brand, Brand>(alloc, directory, text, script, lexing, placing) {
        Ok(answer) => answer,
        Err(_) => Answer::no_memory(alloc),
    }
}

// The same, with what counts the calls of the lexer and of the walk.
fn reply_counted<L: Ledger, M: Ledger>(
    alloc: Global,
    directory: &Directory,
    text: &[u8],
    script: &[u8],
    lexing: Blank,
    placing: Blank,
) -> Result<Answer, AllocError>
    requires short { length text.now ≤ LONGEST_TEXT }
    requires lexing_name { lexing.name ≡ L.name }
    requires lexing_parts { lexing.parts ≡ L.parts }
    requires lexing_some { 0 < lexing.parts }
    requires placing_name { placing.name ≡ M.name }
    requires placing_parts { placing.parts ≡ M.parts }
    requires placing_some { 0 < placing.parts }
    ensures { IfOk result (IsReplied directory.now text.now script.now) }
{
    let mut lexed = Steps::<L>::start(lexing);
    let mut placed = Steps::<M>::start(placing);
    let engine = Engine::open(alloc, directory, text, &mut lexed, &mut placed)?;
    let mut editor = Editor::new(engine, lexed, placed);
    let mut input = source_of(alloc, script)?;
    let mut replies = Replies::new(alloc);
    match answer_script(alloc, &mut editor, &mut input, &mut replies) {
        Status::Done => Ok(Answer::printing(DONE, replies.into_octets())),
        Status::BadScript => Ok(Answer::printing(BAD_SCRIPT, replies.into_octets())),
        // The input doesn't fail, and the script is short enough: memory was refused, for a command or for its reply.
        _ => Err(AllocError),
    }
}

// An input with these octets, which doesn't fail.
fn source_of(alloc: Global, script: &[u8]) -> Result<MemSource, AllocError>
    ensures { IfOk result (λ input. ⟦<MemSource as Source>⟧.rest input ≡ Some script.now) }
{
    let octets = script.to_vec(alloc)?;
    Ok(MemSource::new(octets, usize::MAX, Vec::new(alloc)))
}
