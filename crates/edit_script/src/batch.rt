//! The edits of a batch, each of them a `replace`.
ghost use Rattle.std.specs.Prelude.{◌≡◌, ◌<◌, length, IfOk, IsErrOf};
ghost use Rattle.edi_ports.specs.Faults.{IsFair};
ghost use Rattle.edit_script.specs.Reading.{Reads, supply_of};
ghost use Rattle.edit_script.specs.Rest.{IsEditRest, IsEditText, IsEditsText, IsRestText};
ghost use Rattle.edit_script.specs.declared.name.Name.TheVariants as name;

use crate::allowance::Allowance;
use crate::data::take_put;
use crate::name::{Name, take_listed};
use crate::stop::Halt;
use crate::words::take_number;
use crate::{Command, EditSpec};
use edi_ports::Source;
use edi_tables::{Chunk, List};
use std::alloc::{AllocError, Global};

/// The greatest number of a command's line, of 19 digits.
const MOST: u64 = 9_999_999_999_999_999_999;

/// The most edits of a batch.
const MOST_EDITS: u64 = 16;

/// What follows the name of a `batch`: the number of its edits, a line feed, and the edits.
pub(crate) fn take_batch<I: Source>(
    allowance: &mut Allowance,
    alloc: Global,
    input: &mut I,
) -> Result<Command, Halt>
    ensures reads { Reads (IsRestText name.Batch) (supply_of I.Source input.old allowance.old.left)
        (supply_of I.Source input.new allowance.new.left) result }
    ensures fair { IsFair I.faults I.is_steady input.old input.new (IsErrOf result Halt.Fault) }
{
    let count = take_number(allowance, input, 1, MOST_EDITS, b'\n')?;
    let edits = take_edits(allowance, alloc, input, count as usize)?;
    Ok(Command::Batch { edits })
}

// So many edits. The room for them is taken first, since no memory may be wanted after the last octet.
fn take_edits<I: Source>(
    allowance: &mut Allowance,
    alloc: Global,
    input: &mut I,
    count: usize,
) -> Result<List<EditSpec>, Halt>
    requires some { 0 < count }
    ensures reads { Reads (IsEditsText count) (supply_of I.Source input.old allowance.old.left)
        (supply_of I.Source input.new allowance.new.left) result }
    ensures fair { IsFair I.faults I.is_steady input.old input.new (IsErrOf result Halt.Fault) }
{
    let mut edits = room_for(alloc, count)?;
    for place in 0..count {
        let edit = take_edit(allowance, alloc, input)?;
        edits[place] = edit;
    }
    Ok(List::of(edits))
}

// So many edits, of which each puts nothing.
fn room_for(alloc: Global, count: usize) -> Result<Vec<EditSpec>, AllocError>
    ensures { IfOk result (λ edits. length edits.items ≡ count) }
{
    let mut edits = Vec::with_capacity(alloc, count)?;
    for _ in 0..count {
        edits.push(EditSpec {
            at: 0,
            cut: 0,
            put: Chunk::empty(alloc),
        })?;
    }
    Ok(edits)
}

// An edit of a batch, with its name.
fn take_edit<I: Source>(
    allowance: &mut Allowance,
    alloc: Global,
    input: &mut I,
) -> Result<EditSpec, Halt>
    ensures reads { Reads IsEditText (supply_of I.Source input.old allowance.old.left)
        (supply_of I.Source input.new allowance.new.left) result }
    ensures fair { IsFair I.faults I.is_steady input.old input.new (IsErrOf result Halt.Fault) }
{
    take_listed(allowance, input, &[Name::Replace])?;
    take_spec(allowance, alloc, input)
}

/// What follows the name of a `replace`.
pub(crate) fn take_spec<I: Source>(
    allowance: &mut Allowance,
    alloc: Global,
    input: &mut I,
) -> Result<EditSpec, Halt>
    ensures reads { Reads IsEditRest (supply_of I.Source input.old allowance.old.left)
        (supply_of I.Source input.new allowance.new.left) result }
    ensures fair { IsFair I.faults I.is_steady input.old input.new (IsErrOf result Halt.Fault) }
{
    let at = take_number(allowance, input, 0, MOST, b' ')?;
    let cut = take_number(allowance, input, 0, MOST, b' ')?;
    let put = take_put(allowance, alloc, input)?;
    Ok(EditSpec { at, cut, put })
}
