//! The answers to the commands of a session.
ghost use Rattle.std.specs.Prelude.{◌≡◌, ◌≤◌, ℕ, List, length, IfOk};
ghost use Rattle.edi_history.specs.Past.{begun};
ghost use Rattle.edit_script.specs.Command.{IsCommand};
ghost use Rattle.edit_script.specs.declared.command.Command.TheVariants as command;
ghost use Rattle.edit_script.specs.declared.grammar.Grammar.TheVariants as grammar;
ghost use Rattle.script_answers.specs.Replied.{octets_of};
ghost use Rattle.script_answers.specs.SessionReply.{IsSessionStep};
ghost use Rattle.text_reading.specs.Placed.{AreMessagesPlaced};

use crate::Answering;
use crate::reply::{
    Reply, acknowledge, copy_text, list_errors, list_tree, or_no_memory, put_reply,
};
use dir_compile::Directory;
use edi_engine::EditStop;
use edi_history::{Back, BatchStop, History};
use edi_octets::LONGEST_TEXT;
use edi_ports::Sink;
use edit_script::{Command, EditSpec, Grammar};
use std::alloc::{AllocError, Global};
use std::marker::Model;
use std::sync::ledger::Ledger;
use step_counter::Steps;

/// The text of a history, which commands edit, undo and redo, with what counts the calls of its engines. It is seen as
/// the history is.
#[derive(Drop)]
pub struct Session<'d, L: Ledger, M: Ledger> {
    history: History<'d>,
    lexed: Steps<L>,
    placed: Steps<M>,
}

impl<'d, L: Ledger, M: Ledger> Model for Session<'d, L, M> {
    ghost use Rattle.edi_history.specs.Reading.{PastReading};

    ghost Value = { PastReading };

    ghost view = { λ session. session.history };
}

impl<'d, L: Ledger, M: Ledger> Session<'d, L, M> {
    /// A session on a text, which has no other text before it. Only want of memory is an error.
    pub fn open(
        alloc: Global,
        directory: &'d Directory,
        octets: &[u8],
        mut lexed: Steps<L>,
        mut placed: Steps<M>,
    ) -> Result<Session<'d, L, M>, AllocError>
        requires { length octets.now ≤ LONGEST_TEXT }
        ensures { IfOk result
            (λ s. s ≡ record { directory = directory.now; past = begun octets.now }) }
    {
        let history = History::open(alloc, directory, octets, &mut lexed, &mut placed)?;
        Ok(Session {
            history,
            lexed,
            placed,
        })
    }

    /// The directory that its texts are checked by.
    pub fn directory(&self) -> &'d Directory
        ensures directory { result.now ≡ self.now.directory }
        // The tree of any text by it places the segments of each message as the reading of the message does.
        ensures lawful_trees { (text : List ℕ) → AreMessagesPlaced self.now.directory text }
    {
        self.history.engine().directory()
    }

    // The reply to a command, which is made.
    fn reply_to(&mut self, alloc: Global, command: &Command) -> Reply
        requires { IsCommand grammar.Session command.now }
        ensures { IsSessionStep self.old command.now (octets_of result) self.new }
    {
        match command {
            Command::Replace { at, cut, put } => self.replace(alloc, *at, *cut, put.octets()),
            Command::Errors => or_no_memory(list_errors(alloc, self.history.engine())),
            Command::Tree => or_no_memory(list_tree(alloc, self.history.engine())),
            Command::Contrl { stamp, reference } => {
                let engine = self.history.engine();
                or_no_memory(acknowledge(alloc, engine, stamp, reference.octets()))
            }
            Command::Text => or_no_memory(copy_text(alloc, self.history.engine())),
            Command::End => Reply::Fixed(b"end\n"),
            Command::Undo => self.undo(),
            Command::Redo => self.redo(),
            Command::Batch { edits } => self.batch(alloc, edits.items()),
        }
    }

    // The reply to an edit. Once it is made the reply needs no memory.
    fn replace(&mut self, alloc: Global, at: u64, cut: u64, put: &[u8]) -> Reply
        ensures { IsSessionStep self.old (command.Replace at cut put.now)
            (octets_of result) self.new }
    {
        let made = self
            .history
            .replace(alloc, at, cut, put, &mut self.lexed, &mut self.placed);
        match made {
            Ok(length) => Reply::Edited(length),
            Err(EditStop::Range) => Reply::Fixed(b"no range\n"),
            Err(EditStop::TooLong) => Reply::Fixed(b"no limit\n"),
            Err(EditStop::Memory) => Reply::Fixed(b"no memory\n"),
        }
    }

    // The reply to an undo.
    fn undo(&mut self) -> Reply
        ensures { IsSessionStep self.old command.Undo (octets_of result) self.new }
    {
        match self.history.undo() {
            Back::Done { length } => Reply::Edited(length),
            Back::Empty => Reply::Fixed(b"no undo\n"),
        }
    }

    // The reply to a redo.
    fn redo(&mut self) -> Reply
        ensures { IsSessionStep self.old command.Redo (octets_of result) self.new }
    {
        match self.history.redo() {
            Back::Done { length } => Reply::Edited(length),
            Back::Empty => Reply::Fixed(b"no redo\n"),
        }
    }

    // The reply to a batch, of which all edits are made or none.
    fn batch(&mut self, alloc: Global, edits: &[EditSpec]) -> Reply
        requires some { 1 ≤ length edits.now }
        requires few { length edits.now ≤ 16 }
        ensures { IsSessionStep self.old (command.Batch edits.now) (octets_of result) self.new }
    {
        let made = self
            .history
            .batch(alloc, edits, &mut self.lexed, &mut self.placed);
        match made {
            Ok(length) => Reply::Edited(length),
            Err(BatchStop::Range { edit }) => Reply::Refused(b"no range ", edit),
            Err(BatchStop::TooLong { edit }) => Reply::Refused(b"no limit ", edit),
            Err(BatchStop::Memory) => Reply::Fixed(b"no memory\n"),
        }
    }
}

impl<'d, L: Ledger, M: Ledger> Answering for Session<'d, L, M> {
    ghost use Rattle.edi_history.specs.Reading.{PastReading};
    ghost use Rattle.edit_script.specs.declared.grammar.Grammar.TheVariants as grammar;
    ghost use Rattle.script_answers.specs.SessionReply.{IsSessionStep};
    ghost use Rattle.script_answers.specs.SessionReplies.{session_replies};

    ghost State = { PastReading };

    ghost state = { λ reading. reading };

    ghost IsStep = { λ before. IsSessionStep before };

    ghost grammar = { grammar.Session };

    ghost replies = { session_replies };

    fn grammar(&self) -> Grammar {
        Grammar::Session
    }

    fn answer<O: Sink>(&mut self, alloc: Global, command: &Command, out: &mut O) -> bool {
        let reply = self.reply_to(alloc, command);
        put_reply(out, &reply)
    }
}
