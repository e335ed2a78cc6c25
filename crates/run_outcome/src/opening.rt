//! What a run on a named text begins with.
ghost use Rattle.std.specs.Prelude.{◌≡◌, ◌≤◌, Ok, length, IfOk, IsErrAnd, MatchResult};
ghost use Rattle.edi_ports.specs.Faults.{HasRisen, IsFair};
ghost use Rattle.edi_octets.specs.declared.octets.TheConstants.{LONGEST_TEXT};
ghost use Rattle.run_outcome.specs.Begun.{IsFileRead, IsFileUnread};
ghost use Rattle.run_outcome.specs.Opening.{IsOpening, IsUnopened};

use crate::directory::load_directory;
use crate::file::load_file;
use crate::outcome::Made;
use crate::status::Status;
use dir_compile::Directory;
use edi_ports::Shelf;
use std::alloc::Global;

/// A directory, and the octets of a text.
#[derive(Drop)]
pub struct OpenedText {
    pub directory: Directory,
    pub text: Vec<u8>,
}

/// The directory of that manifest and the text of that name; or what a run comes to without them.
pub fn open_both<S: Shelf>(
    alloc: Global,
    manifest: &[u8],
    text: &[u8],
    shelf: &mut S,
) -> Result<OpenedText, Made>
    ensures opening { MatchResult result
        (λ opening. IsOpening manifest.now text.now (S.files shelf.old)
        (Ok (record { directory = opening.directory; text = opening.text.items })))
        (λ due. IsUnopened manifest.now text.now (S.files shelf.old)
        (HasRisen (S.faults shelf.old) (S.faults shelf.new)) due) }
    ensures short { IfOk result (λ opening. length opening.text.items ≤ LONGEST_TEXT) }
    ensures files { S.files shelf.new ≡ S.files shelf.old }
    ensures fair { IsFair S.faults S.is_steady shelf.old shelf.new
        (IsErrAnd result (λ due. due.status ≡ Status.ReadFault)) }
{
    match load_directory(alloc, manifest, shelf) {
        Ok(directory) => open_text(alloc, directory, text, shelf),
        Err(unloaded) => Err(unloaded),
    }
}

// A directory with the text of that name; or what a run comes to without it.
fn open_text<S: Shelf>(
    alloc: Global,
    directory: Directory,
    text: &[u8],
    shelf: &mut S,
) -> Result<OpenedText, Made>
    ensures directory { IfOk result (λ opening. opening.directory ≡ directory) }
    ensures text { MatchResult result
        (λ opening. IsFileRead text.now (S.files shelf.old) (Ok opening.text.items))
        (λ due. IsFileUnread text.now (S.files shelf.old)
        (HasRisen (S.faults shelf.old) (S.faults shelf.new)) due) }
    ensures short { IfOk result (λ opening. length opening.text.items ≤ LONGEST_TEXT) }
    ensures files { S.files shelf.new ≡ S.files shelf.old }
    ensures fair { IsFair S.faults S.is_steady shelf.old shelf.new
        (IsErrAnd result (λ due. due.status ≡ Status.ReadFault)) }
{
    match load_file(alloc, text, shelf) {
        Ok(text) => Ok(OpenedText { directory, text }),
        Err(made) => Err(made),
    }
}
