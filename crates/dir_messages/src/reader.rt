//! Reading a drawn message file.
ghost use Rattle.std.specs.Prelude.{◌≡◌, ◌≤◌, Some, true, length, IfOk};
ghost use Rattle.edi_tables.specs.Forms.{is_message_formed};
ghost use Rattle.edi_tables.specs.First.{IsVerdict};
ghost use Rattle.edi_octets.specs.DirStop.{fault_in};
ghost use Rattle.edi_octets.specs.Left.{lines_left};
ghost use Rattle.edi_octets.specs.Lines.{Line};
ghost use Rattle.edi_octets.specs.Profile.{fields_of};
ghost use Rattle.dir_messages.specs.Message.{message_in, message_after, name_on};
ghost use Rattle.edi_octets.specs.declared.octets.TheConstants.{LONGEST_TEXT};

use crate::drawing::Drawing;
use crate::words::type_name;
use edi_octets::{DirKind, DirStop, Lines};
use edi_tables::MessageDef;
use std::alloc::Global;

/// Reads a drawn message file of at most 4,194,304 octets: its message's name and the rows of its segment
/// table, or its first fault in the order of judging. Lines are text up to the type line; after it the table
/// lines draw the rows, which have to be a segment table. Memory is taken for the
/// rows, the lines of the rows, and the name.
pub fn read_message(alloc: Global, file: &[u8]) -> Result<MessageDef, DirStop>
    requires { length file.now ≤ LONGEST_TEXT }
    ensures answers { IsVerdict (λ m. m) fault_in result (message_in file.now) }
    ensures forms { IfOk result (λ m. is_message_formed m ≡ true) }
{
    let mut lines = Lines::of(file);
    let mut count = 0;
    while let Some(line) = lines.next() {
        if let Some(name) = type_name(&line) {
            return read_drawing(alloc, name, line.number, lines);
        }
        count += 1;
    }
    Err(DirStop::at(count, DirKind::NoType))
}

/// Reads the lines after the type line, which has this name and number.
fn read_drawing(
    alloc: Global,
    name: &[u8],
    type_line: u32,
    lines: Lines<'_>,
) -> Result<MessageDef, DirStop>
    requires { length (lines_left lines) ≤ LONGEST_TEXT }
    ensures { (type : Line) → type.number ≡ type_line
        → name_on (fields_of type.octets) ≡ Some name.now
        → IsVerdict (λ m. m) fault_in result (message_after type (lines_left lines.entry)) }
{
    let mut drawing = Drawing::new(alloc);
    for line in lines {
        drawing.judge(&line)?;
    }
    drawing.finish(alloc, name, type_line)
}
