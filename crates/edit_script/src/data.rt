//! The octets that a `replace` puts.
ghost use Rattle.std.specs.Prelude.{◌≡◌, IsErrOf};
ghost use Rattle.edi_ports.specs.Faults.{IsFair};
ghost use Rattle.edit_script.specs.Reading.{Reads, supply_of};
ghost use Rattle.edit_script.specs.Texts.{IsPutText, IsDataText};

use crate::allowance::Allowance;
use crate::stop::Halt;
use crate::words::take_number;
use edi_octets::LONGEST_TEXT;
use edi_ports::Source;
use edi_tables::Chunk;
use std::alloc::Global;

/// So many octets are asked for at a time. Most edits put fewer, and the room for them is cleared for each.
const PIECE: usize = 512;

/// What the next octets put: their number, a line feed, so many octets and a line feed.
pub(crate) fn take_put<I: Source>(
    allowance: &mut Allowance,
    alloc: Global,
    input: &mut I,
) -> Result<Chunk, Halt>
    ensures reads { Reads IsPutText (supply_of I.Source input.old allowance.old.left)
        (supply_of I.Source input.new allowance.new.left) result }
    ensures fair { IsFair I.faults I.is_steady input.old input.new (IsErrOf result Halt.Fault) }
{
    let size = take_number(allowance, input, 0, LONGEST_TEXT as u64, b'\n')?;
    take_data(allowance, alloc, input, size as usize)
}

// So many octets, which a line feed follows.
fn take_data<I: Source>(
    allowance: &mut Allowance,
    alloc: Global,
    input: &mut I,
    size: usize,
) -> Result<Chunk, Halt>
    ensures reads { Reads (IsDataText size) (supply_of I.Source input.old allowance.old.left)
        (supply_of I.Source input.new allowance.new.left) result }
    ensures fair { IsFair I.faults I.is_steady input.old input.new (IsErrOf result Halt.Fault) }
{
    let mut put = Chunk::with_room(alloc, size)?;
    let mut piece = [0; PIECE];
    while put.octets().len() < size {
        let due = size - put.octets().len();
        let n = allowance.take_piece(input, &mut piece, due)?;
        put.add(&piece[..n])?;
    }
    if allowance.take_octet(input)? != b'\n' {
        return Err(Halt::Bad);
    }
    Ok(put)
}
