//! What answers the commands of a script.
ghost use Rattle.std.specs.Prelude.{◌≡◌, ◌≤◌, ℕ, List};
ghost use Rattle.std.specs.Bool.{OnFalse};
ghost use Rattle.edi_ports.specs.Faults.{HasRisen};
ghost use Rattle.edit_script.specs.Command.{IsCommand};
ghost use Rattle.run_outcome.specs.Put.{IsPutOut};
ghost use Rattle.script_answers.specs.Answers.{HasReplies, IsAnswered, TakesAll};

use edi_ports::Sink;
use edit_script::{Command, Grammar};
use std::alloc::Global;

/// Something that answers commands, each by its state.
pub trait Answering {
    ghost use Rattle.edit_script.specs.declared.command.Command.{Command};
    ghost use Rattle.edit_script.specs.declared.grammar.Grammar.{Grammar};

    /// What the replies depend on, and what commands change.
    ghost State: { Type 0 };

    /// The state that it is in now.
    ghost state: { Self → State };

    /// That a command on a state has this reply, and leaves that state.
    ghost IsStep: { State → Command → List ℕ → State → Type 0 };

    /// The grammar of the commands that it answers.
    ghost grammar: { Grammar };

    /// The grammar of the commands that it answers.
    fn grammar(&self) -> Grammar
        ensures { result ≡ grammar };

    /// Answers a command, and puts the reply, which is whole before its first octet is put.
    /// `false` comes only where the sink failed.
    fn answer<O: Sink>(&mut self, alloc: Global, command: &Command, out: &mut O) -> bool
        requires { IsCommand grammar command.now }
        ensures answered { IsAnswered IsStep (state self.old) command.now (state self.new)
            (λ reply. IsPutOut (O.held out.old) (O.held out.new) reply result
            × TakesAll (O.has_room out.old) (O.has_room out.new) result reply) }
        ensures counted { O.faults out.old ≤ O.faults out.new }
        ensures cause { OnFalse result (HasRisen (O.faults out.old) (O.faults out.new)) };

    /// Each command has a reply on each state.
    ghost replies: { HasReplies grammar IsStep };
}
