//! The answers to the commands of an edit.
ghost use Rattle.std.specs.Prelude.{◌≡◌};
ghost use Rattle.edit_script.specs.Command.{IsCommand};
ghost use Rattle.edit_script.specs.declared.command.Command.TheVariants.{Replace};
ghost use Rattle.edit_script.specs.declared.grammar.Grammar.TheVariants.{Edit};
ghost use Rattle.script_answers.specs.Replied.{octets_of};
ghost use Rattle.script_answers.specs.Reply.{IsEditStep};

use crate::Answering;
use crate::reply::{
    Reply, acknowledge, copy_text, list_errors, list_tree, or_no_memory, put_reply,
};
use edi_engine::{EditStop, Engine};
use edi_ports::Sink;
use edit_script::{Command, Grammar};
use std::alloc::Global;
use std::marker::Model;
use std::sync::ledger::Ledger;
use step_counter::Steps;

/// The text of an engine, which commands edit, with what counts the engine's calls. It is seen as the engine is.
#[derive(Drop)]
pub struct Editor<'d, L: Ledger, M: Ledger> {
    engine: Engine<'d>,
    lexed: Steps<L>,
    placed: Steps<M>,
}

impl<'d, L: Ledger, M: Ledger> Model for Editor<'d, L, M> {
    ghost use Rattle.kept_text.specs.Reading.{Reading};

    ghost Value = { Reading };

    ghost view = { λ editor. editor.engine };
}

impl<'d, L: Ledger, M: Ledger> Editor<'d, L, M> {
    /// An editor of the text of this engine.
    pub fn new(engine: Engine<'d>, lexed: Steps<L>, placed: Steps<M>) -> Editor<'d, L, M>
        ensures { result ≡ engine.entry }
    {
        Editor {
            engine,
            lexed,
            placed,
        }
    }

    // The reply to a command, which is made.
    fn reply_to(&mut self, alloc: Global, command: &Command) -> Reply
        requires { IsCommand Edit command.now }
        ensures { IsEditStep self.old command.now (octets_of result) self.new }
    {
        match command {
            Command::Replace { at, cut, put } => self.replace(alloc, *at, *cut, put.octets()),
            Command::Errors => or_no_memory(list_errors(alloc, &self.engine)),
            Command::Tree => or_no_memory(list_tree(alloc, &self.engine)),
            Command::Contrl { stamp, reference } => {
                or_no_memory(acknowledge(alloc, &self.engine, stamp, reference.octets()))
            }
            Command::Text => or_no_memory(copy_text(alloc, &self.engine)),
            Command::End => Reply::Fixed(b"end\n"),
            Command::Undo | Command::Redo | Command::Batch { .. } => unreachable!(),
        }
    }

    // The reply to an edit. Once it is made the reply needs no memory.
    fn replace(&mut self, alloc: Global, at: u64, cut: u64, put: &[u8]) -> Reply
        ensures { IsEditStep self.old (Replace at cut put.now) (octets_of result) self.new }
    {
        let stop = self
            .engine
            .replace(alloc, at, cut, put, &mut self.lexed, &mut self.placed);
        match stop {
            Ok(length) => Reply::Edited(length),
            Err(EditStop::Range) => Reply::Fixed(b"no range\n"),
            Err(EditStop::TooLong) => Reply::Fixed(b"no limit\n"),
            Err(EditStop::Memory) => Reply::Fixed(b"no memory\n"),
        }
    }
}

impl<'d, L: Ledger, M: Ledger> Answering for Editor<'d, L, M> {
    ghost use Rattle.kept_text.specs.Reading.{Reading};
    ghost use Rattle.script_answers.specs.Reply.{IsEditStep};
    ghost use Rattle.script_answers.specs.EditReplies.{edit_replies};

    ghost State = { Reading };

    ghost state = { λ reading. reading };

    ghost IsStep = { λ before. IsEditStep before };

    ghost grammar = { Edit };

    ghost replies = { edit_replies };

    fn grammar(&self) -> Grammar {
        Grammar::Edit
    }

    fn answer<O: Sink>(&mut self, alloc: Global, command: &Command, out: &mut O) -> bool {
        let reply = self.reply_to(alloc, command);
        put_reply(out, &reply)
    }
}
