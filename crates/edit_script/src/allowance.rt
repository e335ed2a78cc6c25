//! How much of a script may still be taken.
ghost use Rattle.std.specs.Prelude.{◌≡◌, ◌<◌, length, IsErrOf};
ghost use Rattle.edi_ports.specs.Faults.{IsFair};
ghost use Rattle.edit_script.specs.Reading.{TakesOctet, TakesPiece, supply_of};

use crate::stop::Halt;
use edi_ports::{Source, Taken};

/// So many octets may still be taken. Once none may be, the source is not asked again.
#[derive(Debug, Drop)]
pub(crate) struct Allowance {
    pub left: usize,
}

impl Allowance {
    /// The next octet.
    pub fn take_octet<I: Source>(&mut self, input: &mut I) -> Result<u8, Halt>
        ensures reads { TakesOctet (supply_of I.Source input.old self.old.left)
            (supply_of I.Source input.new self.new.left) result }
        ensures fair { IsFair I.faults I.is_steady input.old input.new (IsErrOf result Halt.Fault) }
    {
        if self.left == 0 {
            return Err(Halt::TooLong);
        }
        let mut octet = [0];
        match input.take(&mut octet) {
            Taken::Got(_) => {
                self.left -= 1;
                Ok(octet[0])
            }
            Taken::End => Err(Halt::Cut),
            Taken::Failed => Err(Halt::Fault),
        }
    }

    /// Moves up to `due` of the next octets to the front of the buffer, one at least, and tells how many.
    pub(crate) fn take_piece<I: Source>(
        &mut self,
        input: &mut I,
        buffer: &mut [u8],
        due: usize,
    ) -> Result<usize, Halt>
        requires due { 0 < due }
        requires some { 0 < length buffer.old }
        ensures reads { TakesPiece (supply_of I.Source input.old self.old.left)
            (supply_of I.Source input.new self.new.left) buffer.new due result }
        ensures fair { IsFair I.faults I.is_steady input.old input.new (IsErrOf result Halt.Fault) }
    {
        if self.left == 0 {
            return Err(Halt::TooLong);
        }
        let most = due.min(buffer.len()).min(self.left);
        match input.take(&mut buffer[..most]) {
            Taken::Got(n) => {
                self.left -= n;
                Ok(n)
            }
            Taken::End => Err(Halt::Cut),
            Taken::Failed => Err(Halt::Fault),
        }
    }
}
