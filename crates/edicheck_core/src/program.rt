//! The one call that does all that the program does.
ghost use Rattle.std.specs.Prelude.{◌≡◌, ◌≢◌, ◌⊎◌, ◌≤◌, ℕ, List, Option, false, true, length, Some, IfSome};
ghost use Rattle.std.specs.Option.{option_map};
ghost use Rattle.edi_ports.specs.Faults.{HasRisen};
ghost use Rattle.run_outcome.specs.Finish.{IsFinish};
ghost use Rattle.run_outcome.specs.Held.{held_of};
ghost use Rattle.run_outcome.specs.Outcome.{Outcome, memory_refused};
ghost use Rattle.script_answers.specs.Edit.{IsAnsweredInRoom, IsAnsweredWhole};
ghost use Rattle.script_answers.specs.Session as session;
ghost use Rattle.run_outcome.specs.Opening.{IsToldOpening, Opened};
ghost use Rattle.edicheck_core.specs.Form.{Asked, Edit, Session, form_of, form_shown, needs_of};
ghost use Rattle.edicheck_core.specs.Lawful.{IsLawful};
ghost use Rattle.edicheck_core.specs.Inputs.{inputs_of};
ghost use Rattle.edicheck_core.specs.Answer.{IsAnswer, IsSettled};
ghost use Rattle.edicheck_core.specs.Due.{HasFailed};
ghost use Rattle.edicheck_core.specs.Made.{made_by};
ghost use Rattle.edicheck_core.specs.Plain.{IsPlain};

use crate::Status;
use crate::decide::decide;
use crate::script::answer_text;
use crate::words::{Form, read_form};
use edi_ports::{Shelf, Sink, Source};
use edi_tables::Chunk;
use run_outcome::{Made, finish};
use std::alloc::Global;

/// Does what the words ask for, and tells how it ended.
///
/// `segments` and `values` read the text on the input and print its segments, or these with their values.
/// `tables MANIFEST` loads the directory of that manifest from the shelf and prints its segment tables with their
/// collisions, `compile MANIFEST` its store. `check MANIFEST TEXT` loads that directory, reads the file TEXT, and
/// prints its errors and its tree; `contrl MANIFEST TEXT STAMP REF` prints its acknowledgement in their place, and
/// `match MANIFEST TEXT REPLY` what the file REPLY, an acknowledgement of it, finds in it. `guide MANIFEST GUIDE TEXT`
/// prints what `check` prints by the directory that the file GUIDE makes of the manifest's.
/// `edit MANIFEST TEXT` answers the script on the input, command by command, on that text; `session MANIFEST TEXT` does
/// too, by a grammar with `undo`, `redo` and `batch`. `drill N K X` prints what becomes of an interchange that is made from
/// numbers when it is edited. `--help` and `--version` print a text for people.
///
/// Except for the replies to a script, each of which is made before its first octet is put, so is the whole output, or the
/// line of a refusal. Of several refusals the first comes: words of no form; then for a text on the input a fault of
/// that or over 4,194,304 octets, for a directory the manifest, each of its files in order, and their parts, then the
/// files GUIDE, TEXT and REPLY, and then the script; then a fault of the sink. Memory may be refused at any step of a form
/// that needs it.
pub fn run<S: Shelf, I: Source, O: Sink>(
    alloc: Global,
    words: &[Chunk],
    shelf: &mut S,
    input: &mut I,
    out: &mut O,
) -> Status
    // What each status says: what was taken, what is in the sink, and the cause of a refusal.
    ensures answer { IsAnswer (form_of words.now) (record {
      before = inputs_of S.Shelf shelf.old I.Source input.old;
      after = inputs_of S.Shelf shelf.new I.Source input.new;
      sink_before = held_of O.Sink out.old;
      sink_after = held_of O.Sink out.new;
      status = result;
    }) }

    // What the words don't need is left alone, and the files of the shelf stay.
    ensures shelf { (needs_of (form_of words.now)).shelf ≡ false → shelf.new ≡ shelf.old }
    ensures input { (needs_of (form_of words.now)).input ≡ false → input.new ≡ input.old }
    ensures files { S.files shelf.new ≡ S.files shelf.old }

    // Objects that don't fail aren't said to have failed.
    ensures steady { ((needs_of (form_of words.now)).input ≡ true → I.is_steady input.old)
        → ((needs_of (form_of words.now)).shelf ≡ true → S.is_steady shelf.old)
        → result ≢ Status.ReadFault }

    // With objects that don't fail and a sink with room, only memory can be refused.
    ensures complete { (made : Outcome) (n : ℕ)
        → made_by (form_of words.now) (inputs_of S.Shelf shelf.old I.Source input.old) ≡ Some made
        → ((needs_of (form_of words.now)).input ≡ true → I.is_steady input.old)
        → ((needs_of (form_of words.now)).shelf ≡ true → S.is_steady shelf.old)
        → O.has_room out.old n → length made.output ≤ n → 13 ≤ n
        → (result ≡ made.status) ⊎ (result ≡ Status.Memory) }

    // The same where no object that is needed failed in this run.
    ensures untroubled { (made : Outcome)
        → made_by (form_of words.now) (inputs_of S.Shelf shelf.old I.Source input.old) ≡ Some made
        → (HasFailed (form_of words.now) (inputs_of S.Shelf shelf.old I.Source input.old)
        (inputs_of S.Shelf shelf.new I.Source input.new) → ⊥)
        → (HasRisen (O.faults out.old) (O.faults out.new) → ⊥)
        → (result ≡ made.status) ⊎ (result ≡ Status.Memory) }

    // A script that ends with `end` is answered whole where no object that is needed failed: only memory can be refused.
    ensures script { (manifest name : List ℕ) (begun : Opened)
        → form_of words.now ≡ Some (Edit manifest name)
        → IsToldOpening manifest name (S.files shelf.old) begun
        → IsAnsweredWhole (I.rest input.old)
        (HasFailed (form_of words.now) (inputs_of S.Shelf shelf.old I.Source input.old)
        (inputs_of S.Shelf shelf.new I.Source input.new))
        (HasRisen (O.faults out.old) (O.faults out.new)) result }

    // So it is with objects that don't fail, or didn't, and a sink that has room for whatever replies it may get.
    ensures room { (manifest name : List ℕ) (begun : Opened)
        → form_of words.now ≡ Some (Edit manifest name)
        → IsToldOpening manifest name (S.files shelf.old) begun
        → (I.is_steady input.old × S.is_steady shelf.old)
        ⊎ (HasFailed (form_of words.now) (inputs_of S.Shelf shelf.old I.Source input.old)
        (inputs_of S.Shelf shelf.new I.Source input.new) → ⊥)
        → IsAnsweredInRoom begun.directory begun.text
        (I.rest input.old) (O.has_room out.old) result }

    // So is the script of a session.
    ensures session_script { (manifest name : List ℕ) (begun : Opened)
        → form_of words.now ≡ Some (Session manifest name)
        → IsToldOpening manifest name (S.files shelf.old) begun
        → session.IsAnsweredWhole (I.rest input.old)
        (HasFailed (form_of words.now) (inputs_of S.Shelf shelf.old I.Source input.old)
        (inputs_of S.Shelf shelf.new I.Source input.new))
        (HasRisen (O.faults out.old) (O.faults out.new)) result }

    ensures session_room { (manifest name : List ℕ) (begun : Opened)
        → form_of words.now ≡ Some (Session manifest name)
        → IsToldOpening manifest name (S.files shelf.old) begun
        → (I.is_steady input.old × S.is_steady shelf.old)
        ⊎ (HasFailed (form_of words.now) (inputs_of S.Shelf shelf.old I.Source input.old)
        (inputs_of S.Shelf shelf.new I.Source input.new) → ⊥)
        → session.IsAnsweredInRoom begun.directory begun.text
        (I.rest input.old) (O.has_room out.old) result }
{
    match read_form(words) {
        Some(
            Form::Script {
                kind,
                manifest,
                text,
            },
        ) => answer_text(alloc, kind, manifest, text, shelf, input, out),
        form => settle(alloc, form, shelf, input, out),
    }
}

/// Tells that memory was refused, as `run` does, for words that no memory was there for.
pub fn refuse_memory<O: Sink>(out: &mut O) -> Status
    ensures finish { IsFinish memory_refused
        (held_of O.Sink out.old) (held_of O.Sink out.new) result }
    ensures room { (n : ℕ) → O.has_room out.old n → length memory_refused.output ≤ n
        → result ≡ Status.Memory }
{
    finish(out, &Made::memory_refused())
}

// Does what words ask for that is made whole before its first octet is put.
fn settle<S: Shelf, I: Source, O: Sink>(
    alloc: Global,
    form: Option<Form<'_>>,
    shelf: &mut S,
    input: &mut I,
    out: &mut O,
) -> Status
    requires plain { IsPlain (option_map form_shown form) }
    requires lawful { IfSome form (λ form. IsLawful (form_shown form)) }
    ensures answer { IsSettled (option_map form_shown form.entry) (record {
      before = inputs_of S.Shelf shelf.old I.Source input.old;
      after = inputs_of S.Shelf shelf.new I.Source input.new;
      sink_before = held_of O.Sink out.old;
      sink_after = held_of O.Sink out.new;
      status = result;
    }) }
    ensures shelf { (needs_of (option_map form_shown form.entry)).shelf ≡ false
        → shelf.new ≡ shelf.old }
    ensures input { (needs_of (option_map form_shown form.entry)).input ≡ false
        → input.new ≡ input.old }
    ensures files { S.files shelf.new ≡ S.files shelf.old }
    ensures steady { ((needs_of (option_map form_shown form.entry)).input ≡ true
        → I.is_steady input.old)
        → ((needs_of (option_map form_shown form.entry)).shelf ≡ true → S.is_steady shelf.old)
        → result ≢ Status.ReadFault }
    ensures complete { (made : Outcome) (n : ℕ)
        → made_by (option_map form_shown form.entry)
        (inputs_of S.Shelf shelf.old I.Source input.old) ≡ Some made
        → ((needs_of (option_map form_shown form.entry)).input ≡ true → I.is_steady input.old)
        → ((needs_of (option_map form_shown form.entry)).shelf ≡ true → S.is_steady shelf.old)
        → O.has_room out.old n → length made.output ≤ n → 13 ≤ n
        → (result ≡ made.status) ⊎ (result ≡ Status.Memory) }
    ensures untroubled { (made : Outcome)
        → made_by (option_map form_shown form.entry)
        (inputs_of S.Shelf shelf.old I.Source input.old) ≡ Some made
        → (HasFailed (option_map form_shown form.entry)
        (inputs_of S.Shelf shelf.old I.Source input.old)
        (inputs_of S.Shelf shelf.new I.Source input.new) → ⊥)
        → (HasRisen (O.faults out.old) (O.faults out.new) → ⊥)
        → (result ≡ made.status) ⊎ (result ≡ Status.Memory) }
{
    let made = decide(alloc, form, shelf, input);
    finish(out, &made)
}
