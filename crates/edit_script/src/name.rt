//! The first word of a command.
ghost use Rattle.std.specs.Prelude.{◌≡◌, ◌<◌, nat_eq, find, length, IsErrOf};
ghost use Rattle.std.specs.List.{list_any, starts_with};
ghost use Rattle.std.specs.Str.{bytes_eq};
ghost use Rattle.edi_ports.specs.Faults.{IsFair};
ghost use Rattle.edit_script.specs.Reading.{Reads, supply_of};
ghost use Rattle.edit_script.specs.Texts.{name_text, names_of, IsNameText};

use crate::Grammar;
use crate::allowance::Allowance;
use crate::stop::Halt;
use edi_ports::Source;

/// The most octets of a name with the octet after it.
const LONGEST: usize = 8;

/// Which command it is.
#[derive(Clone, Copy, Debug, PartialEq, Eq)]
pub(crate) enum Name {
    Replace,
    Errors,
    Tree,
    Contrl,
    Text,
    End,
    Undo,
    Redo,
    Batch,
}

impl Name {
    /// Its octets, with the space or the line feed after it.
    fn octets(self) -> &'static [u8]
        ensures { result.now ≡ name_text self }
    {
        match self {
            Name::Replace => b"replace ",
            Name::Errors => b"errors\n",
            Name::Tree => b"tree\n",
            Name::Contrl => b"contrl ",
            Name::Text => b"text\n",
            Name::End => b"end\n",
            Name::Undo => b"undo\n",
            Name::Redo => b"redo\n",
            Name::Batch => b"batch ",
        }
    }
}

/// The name of a command of the grammar that the next octets are, with the octet after it.
pub(crate) fn take_name<I: Source>(
    allowance: &mut Allowance,
    input: &mut I,
    grammar: Grammar,
) -> Result<Name, Halt>
    ensures reads { Reads (IsNameText (names_of grammar))
        (supply_of I.Source input.old allowance.old.left)
        (supply_of I.Source input.new allowance.new.left) result }
    ensures fair { IsFair I.faults I.is_steady input.old input.new (IsErrOf result Halt.Fault) }
{
    take_listed(allowance, input, grammar.names())
}

/// Which of these names the next octets are, with the octet after it.
pub(crate) fn take_listed<I: Source>(
    allowance: &mut Allowance,
    input: &mut I,
    names: &[Name],
) -> Result<Name, Halt>
    requires some { 0 < length names.now }
    ensures reads { Reads (IsNameText names.now)
        (supply_of I.Source input.old allowance.old.left)
        (supply_of I.Source input.new allowance.new.left) result }
    ensures fair { IsFair I.faults I.is_steady input.old input.new (IsErrOf result Halt.Fault) }
{
    let mut line = [0; LONGEST];
    let mut length = 0;
    loop {
        line[length] = allowance.take_octet(input)?;
        length += 1;
        let begun = &line[..length];
        if let Some(name) = find_name(names, begun) {
            return Ok(name);
        }
        if !begins_name(names, begun) {
            return Err(Halt::Bad);
        }
    }
}

// Which of these names the octets are.
fn find_name(names: &[Name], line: &[u8]) -> Option<Name>
    ensures { result ≡ find (λ name. bytes_eq (name_text name) line.now) names.now }
{
    names.iter().copied().find(|name| name.octets() == line)
}

// Whether one of these names begins with the octets.
fn begins_name(names: &[Name], line: &[u8]) -> bool
    ensures { result ≡ list_any (λ name. starts_with nat_eq (name_text name) line.now) names.now }
{
    names.iter().any(|name| name.octets().starts_with(line))
}
