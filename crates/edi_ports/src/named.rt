//! Reading a file of a shelf by its name.
ghost use Rattle.std.specs.Prelude.{◌≡◌, ◌≤◌, List, Some, length, IfOk, IsErrOf};
ghost use Rattle.edi_tables.specs.First.{IsVerdict};
ghost use Rattle.edi_ports.specs.declared.shelf.ShelfFile.{ShelfFile};
ghost use Rattle.edi_ports.specs.Faults.{IsFair};
ghost use Rattle.edi_ports.specs.Named.{octets_named, unread_in};

use crate::{Opened, ReadStop, Shelf, read_file};
use std::alloc::Global;
use thiserror::Error;

/// Why there are no octets under a name: there is no file of that name, or it has more than the limit.
#[derive(Clone, Copy, Debug, PartialEq, Eq)]
pub enum Unread {
    Absent,
    TooLarge,
}

/// Why a named file was not read.
#[derive(Clone, Copy, Debug, PartialEq, Eq, Error)]
pub enum NamedStop {
    #[error("there is no such file, or it is too large")]
    Unread(Unread),
    #[error("the shelf failed")]
    Fault,
    #[error("out of memory")]
    Memory,
}

impl From<ReadStop> for NamedStop {
    ghost use Rattle.std.specs.Prelude.{◌≡◌};
    ghost use Rattle.edi_ports.specs.Named.{named_stop_of};

    ghost from_gives = { λ stop e. e ≡ named_stop_of stop };

    fn from(stop: ReadStop) -> NamedStop {
        match stop {
            ReadStop::TooLong => NamedStop::Unread(Unread::TooLarge),
            ReadStop::Fault => NamedStop::Fault,
            ReadStop::Memory => NamedStop::Memory,
        }
    }
}

/// All octets of the first file of that name, of which there may be `limit`. `Fault` comes only where the shelf failed.
pub fn read_named<S: Shelf>(
    alloc: Global,
    shelf: &mut S,
    name: &[u8],
    limit: usize,
) -> Result<Vec<u8>, NamedStop>
    ensures reads { (files : List ShelfFile) → S.files shelf.old ≡ Some files
        → IsVerdict (λ octets. octets.items) unread_in result (octets_named limit files name.now) }
    ensures short { IfOk result (λ octets. length octets.items ≤ limit) }
    ensures files { S.files shelf.new ≡ S.files shelf.old }
    ensures fair { IsFair S.faults S.is_steady shelf.old shelf.new
        (IsErrOf result NamedStop.Fault) }
{
    match shelf.open(name) {
        Opened::Open => Ok(read_file(alloc, shelf, limit)?),
        Opened::Absent => Err(NamedStop::Unread(Unread::Absent)),
        Opened::Failed => Err(NamedStop::Fault),
    }
}
