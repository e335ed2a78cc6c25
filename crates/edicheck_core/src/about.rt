//! What a question about a text comes to.
ghost use Rattle.std.specs.Prelude.{◌≡◌, ◌≢◌, ◌⊎◌, ◌≤◌, List, Result, length, ℕ};
ghost use Rattle.std.specs.Option.{option_map as map_told};
ghost use Rattle.edi_ports.specs.Faults.{HasRisen};
ghost use Rattle.edi_ports.specs.Named.{octets_named};
ghost use Rattle.edi_ports.specs.declared.named.Unread.{Unread};
ghost use Rattle.dir_compile.specs.declared.parts.Parts.{Parts};
ghost use Rattle.dir_load.specs.declared.stop.Refusal.{Refusal};
ghost use Rattle.dir_load.specs.Load.{load_of};
ghost use Rattle.run_outcome.specs.Outcome.{memory_refused};
ghost use Rattle.edicheck_core.specs.Form.{question_shown};
ghost use Rattle.edicheck_core.specs.Lawful.{IsLawfulQuestion};
ghost use Rattle.edicheck_core.specs.About.{asked_about, answer_about};
ghost use Rattle.edicheck_core.specs.OneOf.{IsOneOf};
ghost use Rattle.edi_octets.specs.declared.octets.TheConstants.{LONGEST_TEXT};

use crate::check::tell_check;
use crate::contrl::tell_contrl;
use crate::words::Question;
use edi_ports::Shelf;
use run_outcome::{Made, OpenedText, Status, open_both};
use std::alloc::Global;

/// What a question about the text of that name, by the directory of that manifest, comes to.
pub(crate) fn tell_about<S: Shelf>(
    alloc: Global,
    question: Question<'_>,
    manifest: &[u8],
    text: &[u8],
    shelf: &mut S,
) -> Made
    requires { IsLawfulQuestion (question_shown question) }
    ensures due { IsOneOf ((loaded : Result Parts Refusal) × (read : Result (List ℕ) Unread)
        × (result ≡ asked_about (question_shown question.entry) text.now loaded read))
        (map_told (λ files. asked_about (question_shown question.entry) text.now
        (load_of files manifest.now) (octets_named LONGEST_TEXT files text.now)) (S.files shelf.old))
        (HasRisen (S.faults shelf.old) (S.faults shelf.new)) (Unit {0}) result }
    ensures files { S.files shelf.new ≡ S.files shelf.old }
    ensures steady { S.is_steady shelf.old → result.status ≢ Status.ReadFault }
{
    match open_both(alloc, manifest, text, shelf) {
        Ok(opening) => tell(alloc, question, opening),
        Err(made) => made,
    }
}

// The answer to a question about the text that was read, by the directory.
fn tell(alloc: Global, question: Question<'_>, opening: OpenedText) -> Made
    requires lawful { IsLawfulQuestion (question_shown question) }
    requires short { length opening.text.items ≤ LONGEST_TEXT }
    ensures { (result
        ≡ answer_about (question_shown question.entry) opening.directory opening.text.items)
        ⊎ (result ≡ memory_refused) }
{
    let OpenedText { directory, text } = opening;
    match question {
        Question::Errors => tell_check(alloc, &directory, &text),
        Question::Answer { stamp, reference } => {
            tell_contrl(alloc, &stamp, reference, &directory, text)
        }
    }
}
