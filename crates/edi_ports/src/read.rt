//! Reading a source, or an open file, to its end.
ghost use Rattle.std.specs.Prelude.{◌≡◌, ◌≤◌, true, length, IsErrOf};
ghost use Rattle.edi_ports.specs.Faults.{IsFair};
ghost use Rattle.edi_ports.specs.Read.{IsReadAll, IsGathering};

use crate::{Shelf, Source, Taken};
use std::alloc::{AllocError, Global};
use thiserror::Error;

// So many octets of a source are asked for at a time.
const BUFFER: usize = 65536;

// So many octets of a file: most files are shorter, and a buffer is cleared for each.
const FILE_BUFFER: usize = 16384;

/// Why a source was not read to its end.
#[derive(Clone, Copy, Debug, PartialEq, Eq, Error)]
pub enum ReadStop {
    #[error("the source failed")]
    Fault,
    #[error("there are more octets than the limit allows")]
    TooLong,
    #[error("out of memory")]
    Memory,
}

impl From<AllocError> for ReadStop {
    ghost use Rattle.std.specs.Prelude.{◌≡◌};
    ghost use Rattle.edi_ports.specs.declared.read.ReadStop.TheVariants.{Memory};

    ghost from_gives = { λ _ e. e ≡ Memory };

    fn from(_: AllocError) -> ReadStop {
        ReadStop::Memory
    }
}

/// The whole rest of the source, of at most `limit` octets. `Fault` comes only where the source failed, and
/// `TooLong` exactly where more than `limit` octets were taken. Octets that were taken before a stop are gone.
pub fn read_all<I: Source>(alloc: Global, input: &mut I, limit: usize) -> Result<Vec<u8>, ReadStop>
    ensures reads { IsReadAll (I.rest input.old) (I.rest input.new) limit result }
    ensures fair { IsFair I.faults I.is_steady input.old input.new (IsErrOf result ReadStop.Fault) }
{
    let mut rest = Vec::new(alloc);
    let mut buffer = [0u8; BUFFER];
    loop {
        match input.take(&mut buffer) {
            Taken::Got(n) => gather(&mut rest, &buffer[..n], limit)?,
            Taken::End => return Ok(rest),
            Taken::Failed => return Err(ReadStop::Fault),
        }
    }
}

/// The whole rest of the shelf's open file, as `read_all` gives that of a source.
pub fn read_file<S: Shelf>(alloc: Global, shelf: &mut S, limit: usize) -> Result<Vec<u8>, ReadStop>
    requires { S.is_open shelf.old ≡ true }
    ensures reads { IsReadAll (S.rest shelf.old) (S.rest shelf.new) limit result }
    ensures files { S.files shelf.new ≡ S.files shelf.old }
    ensures fair { IsFair S.faults S.is_steady shelf.old shelf.new (IsErrOf result ReadStop.Fault) }
{
    let mut octets = Vec::new(alloc);
    let mut buffer = [0u8; FILE_BUFFER];
    loop {
        match shelf.take(&mut buffer) {
            Taken::Got(n) => gather(&mut octets, &buffer[..n], limit)?,
            Taken::End => return Ok(octets),
            Taken::Failed => return Err(ReadStop::Fault),
        }
    }
}

// Puts octets after those that were taken before, unless they are then more than the limit allows.
fn gather(octets: &mut Vec<u8>, part: &[u8], limit: usize) -> Result<(), ReadStop>
    requires { length octets.old.items ≤ limit }
    ensures { IsGathering octets.old.items octets.new.items part.now limit result }
{
    if part.len() > limit - octets.len() {
        return Err(ReadStop::TooLong);
    }
    octets.extend_from_slice(part)?;
    Ok(())
}
