//! The directory of a manifest, or the outcome in its place.
ghost use Rattle.std.specs.Prelude.{◌≡◌, Ok, IsErrAnd, MatchResult};
ghost use Rattle.edi_ports.specs.Faults.{HasRisen, IsFair};
ghost use Rattle.run_outcome.specs.Begun.{IsLoaded, IsUnloaded};

use crate::outcome::Made;
use crate::refusal::refuse;
use crate::status::Status;
use dir_compile::Directory;
use dir_load::{LoadStop, load};
use edi_ports::Shelf;
use std::alloc::Global;

/// The directory of that manifest; or what a run comes to without it.
pub fn load_directory<S: Shelf>(
    alloc: Global,
    manifest: &[u8],
    shelf: &mut S,
) -> Result<Directory, Made>
    ensures loads { MatchResult result
        (λ directory. IsLoaded manifest.now (S.files shelf.old) (Ok directory))
        (λ due. IsUnloaded manifest.now (S.files shelf.old)
        (HasRisen (S.faults shelf.old) (S.faults shelf.new)) due) }
    ensures files { S.files shelf.new ≡ S.files shelf.old }
    ensures fair { IsFair S.faults S.is_steady shelf.old shelf.new
        (IsErrAnd result (λ due. due.status ≡ Status.ReadFault)) }
{
    match load(alloc, shelf, manifest) {
        Ok(directory) => Ok(directory),
        Err(LoadStop::Refused(why)) => Err(refuse(alloc, &why)),
        Err(LoadStop::Fault) => Err(Made::read_failed()),
        Err(LoadStop::Memory) => Err(Made::memory_refused()),
    }
}
