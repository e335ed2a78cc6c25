//! The octets of a named file, or the outcome in their place.
ghost use Rattle.std.specs.Prelude.{◌≡◌, ◌≤◌, Ok, length, IfOk, IsErrAnd, MatchResult};
ghost use Rattle.edi_ports.specs.Faults.{HasRisen, IsFair};
ghost use Rattle.run_outcome.specs.Begun.{IsFileRead, IsFileUnread};

use crate::outcome::Made;
use crate::refusal::refuse_unread;
use crate::status::Status;
use edi_octets::LONGEST_TEXT;
use edi_ports::{NamedStop, Shelf, read_named};
use std::alloc::Global;

/// The octets of the file of that name, at most 4,194,304; or what a run comes to without them.
pub fn load_file<S: Shelf>(alloc: Global, name: &[u8], shelf: &mut S) -> Result<Vec<u8>, Made>
    ensures reads { MatchResult result
        (λ octets. IsFileRead name.now (S.files shelf.old) (Ok octets.items))
        (λ due. IsFileUnread name.now (S.files shelf.old)
        (HasRisen (S.faults shelf.old) (S.faults shelf.new)) due) }
    ensures short { IfOk result (λ octets. length octets.items ≤ LONGEST_TEXT) }
    ensures files { S.files shelf.new ≡ S.files shelf.old }
    ensures fair { IsFair S.faults S.is_steady shelf.old shelf.new
        (IsErrAnd result (λ due. due.status ≡ Status.ReadFault)) }
{
    match read_named(alloc, shelf, name, LONGEST_TEXT) {
        Ok(octets) => Ok(octets),
        Err(NamedStop::Unread(why)) => Err(refuse_unread(alloc, name, why)),
        Err(NamedStop::Fault) => Err(Made::read_failed()),
        Err(NamedStop::Memory) => Err(Made::memory_refused()),
    }
}
