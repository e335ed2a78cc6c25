//! The answers to a script.
ghost use Rattle.std.specs.Prelude.{◌≡◌, ◌≢◌, ◌↔◌, ◌⊎◌, ◌≤◌, ◌-◌, ℕ, IsTrue, length};
ghost use Rattle.std.specs.Bool.{OnFalse};
ghost use Rattle.edi_ports.specs.Faults.{HasRisen};
ghost use Rattle.run_outcome.specs.Finish.{IsFinish};
ghost use Rattle.script_answers.specs.Ran.{left_of_input};
ghost use Rattle.script_answers.specs.Script.{IsAnsweredInRoom, IsAnsweredWhole, IsScriptAnswered, course_of, longest_script, stopped_by};
ghost use Rattle.run_outcome.specs.Held.{held_of};
ghost use Rattle.run_outcome.specs.Put.{IsPutOut};

use crate::Answering;
use edi_ports::{Sink, Source};
use edit_script::{Command, Grammar, ScriptReader, ScriptStop};
use run_outcome::{Status, put_numbered, put_pair};
use std::alloc::Global;

/// The most octets of a script.
const LONGEST_SCRIPT: u64 = 1_073_741_824;

/// Answers the script on the input, command by command, each on the state that those before it left. It ends after the
/// reply to `end`, and takes nothing after it; where the script stops before, with the line that tells why; or where
/// the sink fails.
pub fn answer_script<A: Answering, I: Source, O: Sink>(
    alloc: Global,
    answering: &mut A,
    input: &mut I,
    out: &mut O,
) -> Status
    ensures run { IsScriptAnswered (course_of A.grammar A.IsStep (A.state answering.old)) (record {
      input_before = left_of_input I.Source input.old;
      input_after = left_of_input I.Source input.new;
      sink_before = held_of O.Sink out.old;
      sink_after = held_of O.Sink out.new;
      status = result;
    }) }
    ensures steady { I.is_steady input.old → result ≢ Status.ReadFault }
    ensures complete { IsAnsweredWhole A.grammar (I.rest input.old)
        (HasRisen (I.faults input.old) (I.faults input.new))
        (HasRisen (O.faults out.old) (O.faults out.new)) result }

    // A script that ends with `end` is answered whole where its input doesn't fail, or didn't, and the sink has room.
    ensures room { I.is_steady input.old ⊎ (HasRisen (I.faults input.old) (I.faults input.new) → ⊥)
        → IsAnsweredInRoom (course_of A.grammar A.IsStep (A.state answering.old))
        (I.rest input.old) (O.has_room out.old) result }
{
    let mut reader = reader_of(answering.grammar());
    'commands: loop {
        let command = match reader.next_command(alloc, input) {
            Ok(command) => command,
            Err(stop) => return tell_stop(out, stop),
        };
        if !answering.answer(alloc, &command, out) {
            return Status::WriteFault;
        }
        if is_end(command) {
            return Status::Done;
        }
    }
}

// A reader of a script of this grammar.
fn reader_of(grammar: Grammar) -> ScriptReader
    ensures { result ≡ record { left = longest_script; number = 1; grammar = grammar } }
{
    match grammar {
        Grammar::Edit => ScriptReader::new(LONGEST_SCRIPT),
        Grammar::Session => ScriptReader::for_session(LONGEST_SCRIPT),
    }
}

// Whether no command is answered after this one, which was answered and isn't needed any more.
fn is_end(command: Command) -> bool
    ensures { IsTrue result ↔ (command ≡ Command.End) }
{
    match command {
        Command::End => true,
        _ => false,
    }
}

// Puts the line that tells why a script was stopped.
fn tell_stop<O: Sink>(out: &mut O, why: ScriptStop) -> Status
    ensures finish { IsFinish (stopped_by why)
        (held_of O.Sink out.old) (held_of O.Sink out.new) result }
    ensures room { (n : ℕ) → O.has_room out.old n → length (stopped_by why).output ≤ n
        → result ≡ (stopped_by why).status }
{
    if put_stop(out, why) {
        status_of(why)
    } else {
        Status::WriteFault
    }
}

fn put_stop<O: Sink>(out: &mut O, why: ScriptStop) -> bool
    ensures put { IsPutOut (O.held out.old) (O.held out.new) (stopped_by why).output result }
    ensures cause { OnFalse result (HasRisen (O.faults out.old) (O.faults out.new)) }
    ensures room { (n : ℕ) → O.has_room out.old n → length (stopped_by why).output ≤ n
        → IsTrue result × O.has_room out.new (n - length (stopped_by why).output) }
{
    match why {
        ScriptStop::BadLine { number } => put_numbered(
            out,
            b"fault script ",
            u64::from(number),
            b" line\n",
        ),
        ScriptStop::CutShort { number } => put_numbered(
            out,
            b"fault script ",
            u64::from(number),
            b" cut\n",
        ),
        ScriptStop::TooLong => put_pair(out, b"fault large -\n", b""),
        ScriptStop::Fault => put_pair(out, b"fault read\n", b""),
        ScriptStop::Memory => put_pair(out, b"fault memory\n", b""),
    }
}

fn status_of(why: ScriptStop) -> Status
    ensures { result ≡ (stopped_by why).status }
{
    match why {
        ScriptStop::BadLine { .. } | ScriptStop::CutShort { .. } => Status::BadScript,
        ScriptStop::TooLong => Status::TooLarge,
        ScriptStop::Fault => Status::ReadFault,
        ScriptStop::Memory => Status::Memory,
    }
}
