//! Leads an acknowledgement back to the text that it answers.
ghost use Rattle.std.specs.Prelude.{◌≡◌, ◌≤◌, ◌⊎◌, Ok, Err, OnOk, IfOk, IfErr, length};
ghost use Rattle.edi_tables.specs.Octets.{Octets};
ghost use Rattle.segment_records.specs.Segments.{segments_of_text};
ghost use Rattle.text_reading.specs.Summary.{summary_of};
ghost use Rattle.contrl_match.specs.LedBack.{IsLedBack};
ghost use Rattle.contrl_match.specs.Match.{match_of};
ghost use Rattle.contrl_match.specs.Walked.{AreSitesSmall, answered_by};
ghost use Rattle.contrl_match.specs.declared.stop.MatchStop.TheVariants.{Memory};
ghost use Rattle.edi_octets.specs.declared.octets.TheConstants.{LONGEST_TEXT};

use crate::finding::Finding;
use crate::head_index::HeadIndex;
use crate::judge::{answers, judge};
use crate::pass::tell_all;
use crate::stop::MatchStop;
use contrl_segments::Summary;
use dir_compile::Directory;
use edi_engine::Engine;
use edi_octets::Flat;
use std::alloc::{AllocError, Global};
use std::marker::Brand;
use std::sync::ledger::Blank;

/// Reads a partner's acknowledgement of at most 4,194,304 octets by the directory of an engine, and answers the places of the
/// engine's text that it names, in its order, or the first of these: it has errors, it is no CONTRL message, it answers another
/// interchange, a segment of it leads to no place of the text. The work grows with both texts.
pub fn match_contrl(
    engine: &Engine<'_>,
    alloc: Global,
    octets: &[u8],
) -> Result<Vec<Finding>, MatchStop>
    requires short { length octets.now ≤ LONGEST_TEXT }
    ensures found { IfOk result (λ found.
        match_of engine.now.directory engine.now.text octets.now ≡ Ok found.items) }
    ensures stop { IfErr result (λ stop. (stop ≡ Memory)
        ⊎ (match_of engine.now.directory engine.now.text octets.now ≡ Err stop)) }
    // Where the octets are the acknowledgement of the text, this is what it reports.
    ensures led_back { IfOk result (λ found.
        IsLedBack engine.now.directory engine.now.text octets.now (Ok found.items)) }
    ensures only_memory { IfErr result (λ stop. (stop ≡ Memory)
        ⊎ IsLedBack engine.now.directory engine.now.text octets.now (Err stop)) }
{
    // The law of acknowledgements led back asks that the directory is lawful.
    let _parts = engine.directory().parts();
    match_reply(alloc, engine, octets)
}

// What a reply finds, by its definition.
fn match_reply(alloc: Global, engine: &Engine<'_>, octets: &[u8]) -> Result<Vec<Finding>, MatchStop>
    requires short { length octets.now ≤ LONGEST_TEXT }
    ensures found { IfOk result (λ found.
        match_of engine.now.directory engine.now.text octets.now ≡ Ok found.items) }
    ensures stop { IfErr result (λ stop. (stop ≡ Memory)
        ⊎ (match_of engine.now.directory engine.now.text octets.now ≡ Err stop)) }
{
    judge_reply(alloc, engine.directory(), octets)?;
    let summary = engine.summary(alloc)?;
    find_places(alloc, &summary, octets)
}

// Refuses octets that have errors, or aren't one CONTRL message outside of groups.
fn judge_reply(alloc: Global, directory: &Directory, octets: &[u8]) -> Result<(), MatchStop>
    requires short { length octets.now ≤ LONGEST_TEXT }
    ensures small { OnOk result (AreSitesSmall (segments_of_text octets.now)) }
    ensures passed { OnOk result ((text : Octets) → match_of directory.now text octets.now
        ≡ answered_by (summary_of directory.now text) (segments_of_text octets.now)) }
    ensures refused { IfErr result (λ stop. (stop ≡ Memory)
        ⊎ ((text : Octets) → match_of directory.now text octets.now ≡ Err stop)) }
{
    let reply = read_reply(alloc, directory, octets)?;
    judge(directory, &reply)
}

// The summary of these octets.
fn read_reply(alloc: Global, directory: &Directory, octets: &[u8]) -> Result<Summary, AllocError>
    requires short { length octets.now ≤ LONGEST_TEXT }
    ensures { IfOk result (λ reply. reply ≡ summary_of directory.now octets.now) }
{
    let engine = Engine::read(alloc, directory, octets.to_vec(alloc)?)?;
    engine.summary(alloc)
}

// The places that a CONTRL without errors names in a text with this summary.
fn find_places(alloc: Global, summary: &Summary, octets: &[u8]) -> Result<Vec<Finding>, MatchStop>
    requires short { length octets.now ≤ LONGEST_TEXT }
    requires small { AreSitesSmall (segments_of_text octets.now) }
    ensures found { IfOk result (λ found.
        answered_by summary.now (segments_of_text octets.now) ≡ Ok found.items) }
    ensures stop { IfErr result (λ stop. (stop ≡ Memory)
        ⊎ (answered_by summary.now (segments_of_text octets.now) ≡ Err stop)) }
{
    let text = Flat { octets };
    if !answers::<Brand>(&text, &summary.opening, Blank::new(1)) {
        return Err(MatchStop::Other);
    }
    let index = HeadIndex::of(alloc, summary)?;
    tell_all::<Brand>(alloc, &index, &text, Blank::new(1))
}
