//! What words come to, where that is made whole before its first octet is put.
ghost use Rattle.std.specs.Prelude.{◌≡◌, ◌≢◌, false, true, IfSome};
ghost use Rattle.std.specs.Option.{option_map};
ghost use Rattle.edicheck_core.specs.Form.{form_shown, needs_of};
ghost use Rattle.edicheck_core.specs.Lawful.{IsLawful};
ghost use Rattle.edicheck_core.specs.Due.{IsDue, Takes};
ghost use Rattle.edicheck_core.specs.Inputs.{inputs_of};
ghost use Rattle.edicheck_core.specs.Plain.{IsPlain};

use crate::about::tell_about;
use crate::drill::tell_drill;
use crate::guided::tell_guided;
use crate::help::{HELP, VERSION};
use crate::listing::list_text;
use crate::matched::tell_match;
use crate::tables::{tell_store, tell_tables};
use crate::words::Form;
use edi_ports::{Shelf, Source};
use run_outcome::{Made, Status};
use std::alloc::Global;

/// What words come to that ask for anything but the answers to a script: what is put, and the status. Nothing was put yet.
pub(crate) fn decide<S: Shelf, I: Source>(
    alloc: Global,
    form: Option<Form<'_>>,
    shelf: &mut S,
    input: &mut I,
) -> Made
    requires plain { IsPlain (option_map form_shown form) }
    requires lawful { IfSome form (λ form. IsLawful (form_shown form)) }
    ensures due { IsDue (option_map form_shown form.entry)
        (inputs_of S.Shelf shelf.old I.Source input.old)
        (inputs_of S.Shelf shelf.new I.Source input.new) result }
    ensures takes { Takes (option_map form_shown form.entry) result.status
        (I.rest input.old) (I.rest input.new) }
    ensures shelf { (needs_of (option_map form_shown form.entry)).shelf ≡ false
        → shelf.new ≡ shelf.old }
    ensures input { (needs_of (option_map form_shown form.entry)).input ≡ false
        → input.new ≡ input.old }
    ensures files { S.files shelf.new ≡ S.files shelf.old }
    ensures steady { ((needs_of (option_map form_shown form.entry)).input ≡ true
        → I.is_steady input.old)
        → ((needs_of (option_map form_shown form.entry)).shelf ≡ true → S.is_steady shelf.old)
        → result.status ≢ Status.ReadFault }
{
    match form {
        None => Made::no_form(),
        Some(Form::Help) => Made::fixed(Status::Done, HELP),
        Some(Form::Version) => Made::fixed(Status::Done, VERSION),
        Some(Form::Text(detail)) => list_text(alloc, detail, input),
        Some(Form::Tables(manifest)) => tell_tables(alloc, manifest, shelf),
        Some(Form::Compile(manifest)) => tell_store(alloc, manifest, shelf),
        Some(
            Form::About {
                question,
                manifest,
                text,
            },
        ) => tell_about(alloc, question, manifest, text, shelf),
        Some(
            Form::Match {
                manifest,
                text,
                reply,
            },
        ) => tell_match(alloc, manifest, text, reply, shelf),
        Some(
            Form::Guide {
                manifest,
                guide,
                text,
            },
        ) => tell_guided(alloc, manifest, guide, text, shelf),
        Some(
            Form::Drill {
                messages,
                edits,
                number,
            },
        ) => tell_drill(alloc, messages, edits, number),
        Some(Form::Script { .. }) => unreachable!(),
    }
}
