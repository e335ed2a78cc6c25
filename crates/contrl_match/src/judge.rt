//! Whether an acknowledgement may be led back: it is one, without errors, and of this interchange.
ghost use Rattle.std.specs.Prelude.{◌≡◌, ◌<◌, ◌≤◌, ◌⊎◌, true, List, [], ◌∷◌, Err, OnOk, IfErr, length};
ghost use Rattle.std.specs.Str.{bytes_eq};
ghost use Rattle.contrl_segments.specs.declared.summary.Summary.{Summary as SummarySeen};
ghost use Rattle.segment_records.specs.Segments.{Segment, segments_of_text, value_in};
ghost use Rattle.contrl_match.specs.Match.{is_answer, is_contrl as is_contrl_of, is_party, match_by, uci_in};
ghost use Rattle.contrl_match.specs.Walked.{answered_by, components_seen};
ghost use Rattle.contrl_match.specs.declared.stop.MatchStop.TheVariants.{Memory};
ghost use Rattle.edi_octets.specs.declared.octets.TheConstants.{LONGEST_TEXT};

use crate::stop::MatchStop;
use contrl_segments::{MessageHead, Opening, Party, Summary};
use dir_compile::Directory;
use edi_octets::Flat;
use seg_lexer::{Fields, Lexed, fields, next_segment, read_context, read_tag};
use segment_records::is_named;
use std::sync::ledger::{Blank, Ledger};
use step_counter::Steps;

/// Refuses a reply that has errors, or isn't one CONTRL message outside of groups.
pub(crate) fn judge(directory: &Directory, reply: &Summary) -> Result<(), MatchStop>
    ensures clean { OnOk result (reply.now.errors ≡ []) }
    ensures passed { OnOk result ((s : SummarySeen) (segments : List Segment)
        → match_by directory.now s reply.now segments ≡ answered_by s segments) }
    ensures refused { IfErr result (λ stop. (stop ≡ Memory) ⊎ ((s : SummarySeen)
        (segments : List Segment)
        → match_by directory.now s reply.now segments ≡ Err stop)) }
{
    let errors = reply.errors.items().len();
    if errors > 0 {
        let Ok(errors) = u32::try_from(errors) else {
            return Err(MatchStop::Memory);
        };
        return Err(MatchStop::Unclean { errors });
    }
    if !is_contrl(directory, reply) {
        return Err(MatchStop::NotContrl);
    }
    Ok(())
}

fn is_contrl(directory: &Directory, reply: &Summary) -> bool
    ensures { result ≡ is_contrl_of directory.now reply.now.groups reply.now.messages }
{
    match reply.messages.items() {
        [message] => reply.groups.items().is_empty() && has_contrl_table(directory, message),
        _ => false,
    }
}

fn has_contrl_table(directory: &Directory, message: &MessageHead) -> bool
    ensures { result ≡ is_contrl_of directory.now [] (message.now ∷ []) }
{
    let table = directory.find_table(
        message.kind.octets(),
        message.version.octets(),
        message.release.octets(),
        message.agency.octets(),
    );
    table == Some(0)
}

/// Whether the first UCI of a reply names an interchange that is opened so: its reference, its sender and its recipient.
pub(crate) fn answers<L: Ledger>(text: &Flat, opening: &Opening, blank: Blank) -> bool
    requires short { length text.now.octets.now ≤ LONGEST_TEXT }
    requires name { blank.name ≡ L.name }
    requires parts { blank.parts ≡ L.parts }
    requires some { 0 < blank.parts }
    ensures { result
        ≡ is_answer opening.now (value_in (uci_in (segments_of_text text.now.octets.now))) }
{
    let uci = find_uci::<L>(text, blank);
    match opening {
        Opening::Good {
            sender,
            recipient,
            reference,
            ..
        } => {
            has_value(uci, 1, 1, reference.octets())
                && names_party(uci, 2, sender)
                && names_party(uci, 3, recipient)
        }
        _ => false,
    }
}

// The components of the first UCI of a text, if it has one.
fn find_uci<'t, L: Ledger>(text: &'t Flat<'t>, blank: Blank) -> Option<Fields<'t, Flat<'t>>>
    requires short { length text.now.octets.now ≤ LONGEST_TEXT }
    requires name { blank.name ≡ L.name }
    requires parts { blank.parts ≡ L.parts }
    requires some { 0 < blank.parts }
    ensures { components_seen result ≡ uci_in (segments_of_text text.now.octets.now) }
{
    let mut lexed = Steps::<L>::start(blank);
    let context = read_context(text, &mut lexed);
    let service = context.service;
    let mut from = service.body;
    loop {
        match next_segment(text, &service, from, &mut lexed) {
            Lexed::Ended { start, end } => {
                if is_named(b"UCI", read_tag(text, &service, start, end)) {
                    return Some(fields(text, &service, start, end));
                }
                from = end + 1;
            }
            Lexed::Tail { start: _ } => return None,
            Lexed::Nothing => return None,
        }
    }
}

// Whether an element names this party.
fn names_party(uci: Option<Fields<'_, Flat<'_>>>, element: u32, party: &Party) -> bool
    ensures { result ≡ is_party (value_in (components_seen uci.entry)) element party.now }
{
    has_value(uci, element, 1, party.id.octets())
        && has_value(uci, element, 2, party.qualifier.octets())
        && has_value(uci, element, 3, party.route.octets())
}

// Whether the value of a component, which is empty where it isn't written, is these octets.
fn has_value(uci: Option<Fields<'_, Flat<'_>>>, element: u32, component: u32, octets: &[u8]) -> bool
    ensures { result
        ≡ bytes_eq (value_in (components_seen uci.entry) element component) octets.now }
{
    let Some(components) = uci else {
        return octets.is_empty();
    };
    match components.value_at(element, component) {
        Some(value) => value.is(octets),
        None => octets.is_empty(),
    }
}
