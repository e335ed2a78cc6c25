//! `edit` and `session`: the answers to a script on a text.
ghost use Rattle.std.specs.Prelude.{◌≡◌, ◌≢◌, ◌⊎◌, ◌≤◌, ℕ, Some, length, ◌<◌};
ghost use Rattle.edi_ports.specs.Faults.{HasRisen};
ghost use Rattle.run_outcome.specs.Held.{held_of};
ghost use Rattle.run_outcome.specs.Outcome.{Outcome};
ghost use Rattle.script_answers.specs.Ran.{left_of_input};
ghost use Rattle.run_outcome.specs.Opening.{IsToldOpening, Opened};
ghost use Rattle.edicheck_core.specs.Answer.{IsScripted};
ghost use Rattle.edicheck_core.specs.Due.{HasFailed};
ghost use Rattle.edicheck_core.specs.Form.{Script};
ghost use Rattle.edicheck_core.specs.Inputs.{inputs_of};
ghost use Rattle.edicheck_core.specs.Made.{made_by};
ghost use Rattle.edicheck_core.specs.Begun.{IsScriptBegun};
ghost use Rattle.edicheck_core.specs.Scripted.{IsAnsweredInRoom, IsAnsweredWhole};
ghost use Rattle.edicheck_core.specs.declared.words.ScriptKind.TheVariants.{Edits, Sessions};
ghost use Rattle.edi_octets.specs.declared.octets.TheConstants.{LONGEST_TEXT};

use crate::words::ScriptKind;
use dir_compile::Directory;
use edi_engine::Engine;
use edi_ports::{Shelf, Sink, Source};
use run_outcome::{Made, Status, finish, open_both};
use script_answers::{Editor, Session, answer_script};
use std::alloc::Global;
use std::marker::Brand;
use std::sync::ledger::{Blank, Ledger};
use step_counter::Steps;

/// Answers the script of this kind on the input, on the text of that name, by the directory of that manifest; or puts the
/// refusal of one of these, and takes nothing.
pub(crate) fn answer_text<S: Shelf, I: Source, O: Sink>(
    alloc: Global,
    kind: ScriptKind,
    manifest: &[u8],
    text: &[u8],
    shelf: &mut S,
    input: &mut I,
    out: &mut O,
) -> Status
    ensures scripted { IsScripted kind manifest.now text.now (record {
      before = inputs_of S.Shelf shelf.old I.Source input.old;
      after = inputs_of S.Shelf shelf.new I.Source input.new;
      sink_before = held_of O.Sink out.old;
      sink_after = held_of O.Sink out.new;
      status = result;
    }) }
    ensures files { S.files shelf.new ≡ S.files shelf.old }
    ensures steady { I.is_steady input.old → S.is_steady shelf.old → result ≢ Status.ReadFault }

    // A refusal in place of a script is put whole where the sink has room.
    ensures refused { (due : Outcome) (n : ℕ)
        → made_by (Some (Script kind manifest.now text.now))
        (inputs_of S.Shelf shelf.old I.Source input.old) ≡ Some due
        → S.is_steady shelf.old → O.has_room out.old n → length due.output ≤ n → 13 ≤ n
        → (result ≡ due.status) ⊎ (result ≡ Status.Memory) }

    // A script that ends with `end` is answered whole where no object that is needed failed.
    ensures script { (begun : Opened)
        → IsToldOpening manifest.now text.now (S.files shelf.old) begun
        → IsAnsweredWhole kind (I.rest input.old)
        (HasFailed (Some (Script kind manifest.now text.now))
        (inputs_of S.Shelf shelf.old I.Source input.old)
        (inputs_of S.Shelf shelf.new I.Source input.new))
        (HasRisen (O.faults out.old) (O.faults out.new)) result }

    // So it is with objects that don't fail, or didn't, and a sink that has room for whatever replies it may get.
    ensures room { (begun : Opened)
        → IsToldOpening manifest.now text.now (S.files shelf.old) begun
        → (I.is_steady input.old × S.is_steady shelf.old)
        ⊎ (HasFailed (Some (Script kind manifest.now text.now))
        (inputs_of S.Shelf shelf.old I.Source input.old)
        (inputs_of S.Shelf shelf.new I.Source input.new) → ⊥)
        → IsAnsweredInRoom kind begun
        (I.rest input.old) (O.has_room out.old) result }
{
    match open_both(alloc, manifest, text, shelf) {
        Ok(opening) => answer_opened(alloc, kind, &opening.directory, &opening.text, input, out),
        Err(made) => finish(out, &made),
    }
}

// Answers the script of this kind on a text, by a directory; or tells want of memory, and takes nothing.
fn answer_opened<I: Source, O: Sink>(
    alloc: Global,
    kind: ScriptKind,
    directory: &Directory,
    octets: &[u8],
    input: &mut I,
    out: &mut O,
) -> Status
    requires { length octets.now ≤ LONGEST_TEXT }
    ensures run { IsScriptBegun kind directory.now octets.now (record {
      input_before = left_of_input I.Source input.old;
      input_after = left_of_input I.Source input.new;
      sink_before = held_of O.Sink out.old;
      sink_after = held_of O.Sink out.new;
      status = result;
    }) }
    ensures steady { I.is_steady input.old → result ≢ Status.ReadFault }
    ensures complete { IsAnsweredWhole kind (I.rest input.old)
        (HasRisen (I.faults input.old) (I.faults input.new))
        (HasRisen (O.faults out.old) (O.faults out.new)) result }
    ensures room { I.is_steady input.old ⊎ (HasRisen (I.faults input.old) (I.faults input.new) → ⊥)
        → IsAnsweredInRoom kind (record { directory = directory.now; text = octets.now })
        (I.rest input.old) (O.has_room out.old) result }
{
    match kind {
        ScriptKind::Edits => edit_counted::<Brand, Brand, I, O>(
            alloc,
            directory,
            octets,
            Blank::new(1),
            Blank::new(1),
            input,
            out,
        ),
        ScriptKind::Sessions => session_counted::<Brand, Brand, I, O>(
            alloc,
            directory,
            octets,
            Blank::new(1),
            Blank::new(1),
            input,
            out,
        ),
    }
}

// Answers a script that edits a text.
fn edit_counted<L: Ledger, M: Ledger, I: Source, O: Sink>(
    alloc: Global,
    directory: &Directory,
    octets: &[u8],
    lexing: Blank,
    placing: Blank,
    input: &mut I,
    out: &mut O,
) -> Status
    requires short { length octets.now ≤ LONGEST_TEXT }
    requires lexing_name { lexing.name ≡ L.name }
    requires lexing_parts { lexing.parts ≡ L.parts }
    requires lexing_some { 0 < lexing.parts }
    requires placing_name { placing.name ≡ M.name }
    requires placing_parts { placing.parts ≡ M.parts }
    requires placing_some { 0 < placing.parts }
    ensures run { IsScriptBegun Edits directory.now octets.now (record {
      input_before = left_of_input I.Source input.old;
      input_after = left_of_input I.Source input.new;
      sink_before = held_of O.Sink out.old;
      sink_after = held_of O.Sink out.new;
      status = result;
    }) }
    ensures steady { I.is_steady input.old → result ≢ Status.ReadFault }
    ensures complete { IsAnsweredWhole Edits (I.rest input.old)
        (HasRisen (I.faults input.old) (I.faults input.new))
        (HasRisen (O.faults out.old) (O.faults out.new)) result }
    ensures room { I.is_steady input.old ⊎ (HasRisen (I.faults input.old) (I.faults input.new) → ⊥)
        → IsAnsweredInRoom Edits (record { directory = directory.now; text = octets.now })
        (I.rest input.old) (O.has_room out.old) result }
{
    let mut lexed = Steps::<L>::start(lexing);
    let mut placed = Steps::<M>::start(placing);
    match Engine::open(alloc, directory, octets, &mut lexed, &mut placed) {
        Ok(engine) => {
            // Its directory places the segments of messages in the trees of every text.
            let _directory = engine.directory();
            let mut editor = Editor::new(engine, lexed, placed);
            answer_script(alloc, &mut editor, input, out)
        }
        Err(_) => finish(out, &Made::memory_refused()),
    }
}

// Answers a script that edits a text, and goes back and on in its past.
fn session_counted<L: Ledger, M: Ledger, I: Source, O: Sink>(
    alloc: Global,
    directory: &Directory,
    octets: &[u8],
    lexing: Blank,
    placing: Blank,
    input: &mut I,
    out: &mut O,
) -> Status
    requires short { length octets.now ≤ LONGEST_TEXT }
    requires lexing_name { lexing.name ≡ L.name }
    requires lexing_parts { lexing.parts ≡ L.parts }
    requires lexing_some { 0 < lexing.parts }
    requires placing_name { placing.name ≡ M.name }
    requires placing_parts { placing.parts ≡ M.parts }
    requires placing_some { 0 < placing.parts }
    ensures run { IsScriptBegun Sessions directory.now octets.now (record {
      input_before = left_of_input I.Source input.old;
      input_after = left_of_input I.Source input.new;
      sink_before = held_of O.Sink out.old;
      sink_after = held_of O.Sink out.new;
      status = result;
    }) }
    ensures steady { I.is_steady input.old → result ≢ Status.ReadFault }
    ensures complete { IsAnsweredWhole Sessions (I.rest input.old)
        (HasRisen (I.faults input.old) (I.faults input.new))
        (HasRisen (O.faults out.old) (O.faults out.new)) result }
    ensures room { I.is_steady input.old ⊎ (HasRisen (I.faults input.old) (I.faults input.new) → ⊥)
        → IsAnsweredInRoom Sessions (record { directory = directory.now; text = octets.now })
        (I.rest input.old) (O.has_room out.old) result }
{
    let lexed = Steps::<L>::start(lexing);
    let placed = Steps::<M>::start(placing);
    match Session::open(alloc, directory, octets, lexed, placed) {
        Ok(mut session) => {
            // Its directory places the segments of messages in the trees of every text.
            let _directory = session.directory();
            answer_script(alloc, &mut session, input, out)
        }
        Err(_) => finish(out, &Made::memory_refused()),
    }
}
