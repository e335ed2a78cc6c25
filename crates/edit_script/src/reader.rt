//! Reading a script, command by command.
ghost use Rattle.std.specs.Prelude.{◌≡◌, ◌≤◌, IsErrOf};
ghost use Rattle.edi_ports.specs.Faults.{IsFair};
ghost use Rattle.edit_script.specs.Command.{IsTextOf};
ghost use Rattle.edit_script.specs.Next.{IsNext};
ghost use Rattle.edit_script.specs.Reading.{Reads, supply_of};
ghost use Rattle.edit_script.specs.Rest.{IsRestText};
ghost use Rattle.edit_script.specs.declared.name.Name.TheVariants as name;

use crate::allowance::Allowance;
use crate::batch::{take_batch, take_spec};
use crate::name::{Name, take_name};
use crate::stop::Halt;
use crate::words::{take_reference, take_stamp};
use crate::{Command, EditSpec, Grammar, ScriptStop};
use edi_ports::Source;
use std::alloc::Global;
use std::marker::Model;

/// Reads a script of at most so many octets, and counts its commands.
#[derive(Debug, Drop)]
pub struct ScriptReader {
    allowance: Allowance,
    number: u32,
    grammar: Grammar,
}

impl Model for ScriptReader {
    ghost use Rattle.std.specs.Prelude.{◌≤◌, ◌+◌};
    ghost use Rattle.edit_script.specs.Next.{Reader};

    ghost Value = { Reader };

    ghost view = { λ r. record {
      left = r.allowance.left;
      number = r.number;
      grammar = r.grammar;
    } };

    ghost invariant = { λ r. r.allowance.left + r.number ≤ 1073741825 };
}

impl ScriptReader {
    /// A reader of the script of an edit, of at most `limit` octets.
    pub fn new(limit: u64) -> ScriptReader
        requires { limit ≤ 1073741824 }
        ensures { result ≡ record { left = limit; number = 1; grammar = Grammar.Edit } }
    {
        reader_of(Grammar::Edit, limit)
    }

    /// A reader of the script of a session, of at most `limit` octets.
    pub fn for_session(limit: u64) -> ScriptReader
        requires { limit ≤ 1073741824 }
        ensures { result ≡ record { left = limit; number = 1; grammar = Grammar.Session } }
    {
        reader_of(Grammar::Session, limit)
    }

    /// The next command, whose octets alone are taken. A bad line is given at the first octet that makes it one. Once
    /// no octet may be taken the source isn't asked again, so `TooLong` comes there and `CutShort` doesn't. `Fault`
    /// comes only where the source failed. What was taken before a stop is gone.
    pub fn next_command<I: Source>(
        &mut self,
        alloc: Global,
        input: &mut I,
    ) -> Result<Command, ScriptStop>
        ensures next { IsNext (I.rest input.old) (I.rest input.new) self.old self.new result }
        ensures fair { IsFair I.faults I.is_steady input.old input.new
            (IsErrOf result ScriptStop.Fault) }
    {
        match take_command(&mut self.allowance, alloc, input, self.grammar) {
            Ok(command) => {
                self.number += 1;
                Ok(command)
            }
            Err(halt) => Err(halt.at_command(self.number)),
        }
    }
}

// A reader before its first command.
fn reader_of(grammar: Grammar, limit: u64) -> ScriptReader
    requires { limit ≤ 1073741824 }
    ensures { result ≡ record { left = limit; number = 1; grammar = grammar } }
{
    ScriptReader {
        allowance: Allowance {
            left: limit as usize,
        },
        number: 1,
        grammar,
    }
}

fn take_command<I: Source>(
    allowance: &mut Allowance,
    alloc: Global,
    input: &mut I,
    grammar: Grammar,
) -> Result<Command, Halt>
    ensures reads { Reads (IsTextOf grammar) (supply_of I.Source input.old allowance.old.left)
        (supply_of I.Source input.new allowance.new.left) result }
    ensures fair { IsFair I.faults I.is_steady input.old input.new (IsErrOf result Halt.Fault) }
{
    match take_name(allowance, input, grammar)? {
        Name::Replace => take_replace(allowance, alloc, input),
        Name::Errors => Ok(Command::Errors),
        Name::Tree => Ok(Command::Tree),
        Name::Contrl => take_contrl(allowance, alloc, input),
        Name::Text => Ok(Command::Text),
        Name::End => Ok(Command::End),
        Name::Undo => Ok(Command::Undo),
        Name::Redo => Ok(Command::Redo),
        Name::Batch => take_batch(allowance, alloc, input),
    }
}

// What follows the name of a `replace`.
fn take_replace<I: Source>(
    allowance: &mut Allowance,
    alloc: Global,
    input: &mut I,
) -> Result<Command, Halt>
    ensures reads { Reads (IsRestText name.Replace)
        (supply_of I.Source input.old allowance.old.left)
        (supply_of I.Source input.new allowance.new.left) result }
    ensures fair { IsFair I.faults I.is_steady input.old input.new (IsErrOf result Halt.Fault) }
{
    let EditSpec { at, cut, put } = take_spec(allowance, alloc, input)?;
    Ok(Command::Replace { at, cut, put })
}

// What follows the name of a `contrl`.
fn take_contrl<I: Source>(
    allowance: &mut Allowance,
    alloc: Global,
    input: &mut I,
) -> Result<Command, Halt>
    ensures reads { Reads (IsRestText name.Contrl) (supply_of I.Source input.old allowance.old.left)
        (supply_of I.Source input.new allowance.new.left) result }
    ensures fair { IsFair I.faults I.is_steady input.old input.new (IsErrOf result Halt.Fault) }
{
    let stamp = take_stamp(allowance, input)?;
    let reference = take_reference(allowance, alloc, input)?;
    Ok(Command::Contrl { stamp, reference })
}
