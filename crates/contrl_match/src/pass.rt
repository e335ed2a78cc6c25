//! The pass over the segments of an acknowledgement.
ghost use Rattle.std.specs.Prelude.{◌≡◌, ◌++◌, ◌<◌, ◌≤◌, ◌⊎◌, [], Ok, Err, IfOk, IfErr, is_some, length, unwrap_or};
ghost use Rattle.segment_records.specs.Segments.{segments_of_text};
ghost use Rattle.contrl_match.specs.Match.{found_by};
ghost use Rattle.contrl_match.specs.Telling.{first_lost, told_of};
ghost use Rattle.contrl_match.specs.Walked.{AreSitesSmall, told_seen};
ghost use Rattle.contrl_match.specs.declared.stop.MatchStop.TheVariants.{Memory};
ghost use Rattle.edi_octets.specs.declared.octets.TheConstants.{LONGEST_TEXT};

use crate::finding::Finding;
use crate::head_index::HeadIndex;
use crate::spot::Spot;
use crate::stop::MatchStop;
use crate::told::{Told, tell};
use edi_octets::Flat;
use seg_lexer::{Lexed, fields, next_segment, read_context, read_tag};
use std::alloc::{AllocError, Global};
use std::sync::ledger::{Blank, Ledger};
use step_counter::Steps;

/// All that the segments of an acknowledgement find, or the first of them that leads to no place of the text.
pub(crate) fn tell_all<L: Ledger>(
    alloc: Global,
    index: &HeadIndex<'_>,
    text: &Flat,
    blank: Blank,
) -> Result<Vec<Finding>, MatchStop>
    requires short { length text.now.octets.now ≤ LONGEST_TEXT }
    requires small { AreSitesSmall (segments_of_text text.now.octets.now) }
    requires name { blank.name ≡ L.name }
    requires parts { blank.parts ≡ L.parts }
    requires some { 0 < blank.parts }
    ensures found { let told =
        told_of index.now.summary.now (segments_of_text text.now.octets.now) in
        IfOk result (λ found. found_by told (first_lost told) ≡ Ok found.items) }
    ensures stop { let told =
        told_of index.now.summary.now (segments_of_text text.now.octets.now) in
        IfErr result
        (λ stop. (stop ≡ Memory) ⊎ (found_by told (first_lost told) ≡ Err stop)) }
{
    let mut lexed = Steps::<L>::start(blank);
    let context = read_context(text, &mut lexed);
    let service = context.service;
    let mut found = Vec::new(alloc);
    let mut spot = Spot {
        group: None,
        message: None,
        segment: None,
    };
    let mut number: u32 = 0;
    let mut from = service.body;
    loop {
        match next_segment(text, &service, from, &mut lexed) {
            Lexed::Ended { start, end } => {
                number += 1;
                let tag = read_tag(text, &service, start, end);
                let components = fields(text, &service, start, end);
                let told = tell(alloc, index, &mut spot, tag, components)?;
                if !keep(&mut found, told)? {
                    return Err(MatchStop::Unknown { segment: number });
                }
                from = end + 1;
            }
            Lexed::Tail { start: _ } => return Ok(found),
            Lexed::Nothing => return Ok(found),
        }
    }
}

// Puts what a segment finds at the end, and tells whether it leads to a place.
fn keep(found: &mut Vec<Finding>, told: Told) -> Result<bool, AllocError>
    ensures led { IfOk result (λ led. led ≡ is_some (told_seen told)) }
    ensures kept { IfOk result
        (λ led. found.new.items ≡ found.old.items ++ unwrap_or (told_seen told) []) }
{
    match told {
        Told::Lost => Ok(false),
        Told::Nothing => Ok(true),
        Told::Found(finding) => {
            found.push(finding)?;
            Ok(true)
        }
    }
}
