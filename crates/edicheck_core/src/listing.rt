//! What the text on the input comes to.
ghost use Rattle.std.specs.Prelude.{◌≡◌, ◌≢◌, ◌++◌, List, MatchResult, ℕ, true};
ghost use Rattle.std.specs.Option.{option_map as map_told};
ghost use Rattle.edi_ports.specs.Faults.{HasRisen};
ghost use Rattle.run_outcome.specs.Outcome.{done, memory_refused};
ghost use Rattle.edicheck_core.specs.OneOf.{IsOneOf};
ghost use Rattle.edicheck_core.specs.Due.{TakesText};
ghost use Rattle.edicheck_core.specs.Made.{listed};

use edi_octets::LONGEST_TEXT;
use edi_ports::{ReadStop, Source, read_all};
use listing_printer::{Detail, PrintedText, print_text};
use run_outcome::{Made, Status};
use std::alloc::{AllocError, Global};

/// What the text on the input comes to, in this detail.
pub(crate) fn list_text<I: Source>(alloc: Global, detail: Detail, input: &mut I) -> Made
    ensures due { IsOneOf ((text : List ℕ) × (result ≡ listed detail text))
        (map_told (listed detail) (I.rest input.old))
        (HasRisen (I.faults input.old) (I.faults input.new)) (Unit {0}) result }
    ensures takes { TakesText result.status (I.rest input.old) (I.rest input.new) }
    ensures steady { I.is_steady input.old → result.status ≢ Status.ReadFault }
{
    match read_all(alloc, input, LONGEST_TEXT) {
        Err(ReadStop::Fault) => Made::read_failed(),
        Err(ReadStop::TooLong) => Made::fixed(Status::TooLarge, b"fault large -\n"),
        Err(ReadStop::Memory) => Made::memory_refused(),
        Ok(text) => tell_printed(print_text(alloc, detail, &text)),
    }
}

// That all was done, with a printed text, unless memory was refused for that.
fn tell_printed(printed: Result<PrintedText, AllocError>) -> Made
    ensures { MatchResult printed (λ text. result ≡ done (text.head ++ text.lines))
        (λ _. result ≡ memory_refused) }
{
    match printed {
        Ok(PrintedText { head, lines }) => Made::headed(Status::Done, head, lines),
        Err(_) => Made::memory_refused(),
    }
}
