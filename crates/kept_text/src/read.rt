//! The records of a text, from a boundary on.
ghost use Rattle.std.specs.Prelude.{◌≡◌, ◌+◌, ◌-◌, ◌≤◌, ℕ, List, drop, length, IfOk};
ghost use Rattle.std.specs.List.{slice_get};
ghost use Rattle.std.specs.Option.{option_copied, option_map_or};
ghost use Rattle.seg_lexer.specs.Context.{context_of};
ghost use Rattle.seg_lexer.specs.Segments.{IsBoundary};
ghost use Rattle.seg_lexer.specs.Service.{IsUsable};
ghost use Rattle.seg_lexer.specs.Whole.{at_start};
ghost use Rattle.dir_compile.specs.declared.parts.Parts.{Parts};
ghost use Rattle.segment_records.specs.Known.{AreKnown};
ghost use Rattle.segment_records.specs.Laws.{ForgetsBefore, StepsAreModes, StepsTellFaults, StepsTellPlaces, WholeIsBody, WholeThenMore};
ghost use Rattle.segment_records.specs.Records.{IsModeOf, records_from};
ghost use Rattle.segment_records.specs.Segments.{Segment, segments_by};
ghost use Rattle.segment_records.specs.Count.{segment_count_of};
ghost use Rattle.segment_records.specs.WalkedSegments.{kept_in};
ghost use Rattle.edi_octets.specs.declared.octets.TheConstants.{LONGEST_TEXT};

use clean_segments::{CleanSegments, OctetKinds};
use dir_compile::Directory;
use edi_octets::{Flat, Octets};
use seg_lexer::{Context, Lexed, next_segment, read_context};
use segment_records::{KnownSteps, Mode, Record, SegmentPlace};
use seq_tree::{Gathered, Seq};
use std::alloc::{AllocError, Global};
use std::sync::ledger::Ledger;
use step_counter::Steps;

// A text of fewer octets has too few segments for their steps to be remembered: room for them takes longer.
const MANY_OCTETS: usize = 16_384;

/// Where the steps of a text of so many octets are remembered. Only want of memory is an error.
pub(crate) fn known_for(alloc: Global, octets: usize) -> Result<KnownSteps, AllocError>
    ensures { IfOk result (λ known. (directory : Parts) → AreKnown directory known) }
{
    if octets < MANY_OCTETS {
        return Ok(KnownSteps::forgetful(alloc));
    }
    KnownSteps::none(alloc, octets)
}

/// The records of the octets after the boundary `from` of a text, in order, after a mode. Each call of the lexer and of the
/// walk is counted. Only want of memory is an error.
#[tactic(auto, using(crate::proofs::StepLaws::step_laws))]
pub fn read_records<O: Octets, L: Ledger, M: Ledger>(
    alloc: Global,
    directory: &Directory,
    context: &Context,
    before: &Mode,
    text: &O,
    from: usize,
    lexed: &mut Steps<L>,
    placed: &mut Steps<M>,
) -> Result<Seq<Record>, AllocError>
    requires usable { IsUsable context.now.service (O.octets text.now) }
    requires short { length (O.octets text.now) ≤ LONGEST_TEXT }
    requires boundary { IsBoundary context.now.service (O.octets text.now) from }
    // No node was counted more often than there are octets before.
    requires mode { IsModeOf directory.now from before.now }
    ensures records { IfOk result (λ records. records
        ≡ records_from directory.now context.now before.now (drop from (O.octets text.now))) }
    // The records of a whole text are those of its body, from outside of messages on.
    ensures whole { WholeIsBody directory.now context.now (O.octets text.now) }
    // Going segment by segment comes to the modes, the structure errors and the places that the extents of messages tell.
    ensures modes { (segments : List Segment) → StepsAreModes directory.now segments }
    ensures faults { (segments : List Segment) → StepsTellFaults directory.now segments }
    ensures places { (segments : List Segment) → StepsTellPlaces directory.now segments }
    // Octets after whole segments are read by themselves, and a segment that bounds an extent forgets the mode before it.
    ensures apart { (front back : List ℕ)
        → WholeThenMore directory.now context.now before.now front back }
    ensures forgets { (segment : Segment) → ForgetsBefore directory.now segment }
    ensures lexed { lexed.new ≤ lexed.old + (length
        (segments_by (at_start context.now.service) (drop from (O.octets text.now))) + 1) }
    ensures placed { placed.new ≤ placed.old
        + length (segments_by (at_start context.now.service) (drop from (O.octets text.now))) }
{
    // The modes, structure errors and places are those of a directory without a fault.
    let _parts = directory.parts();
    let mut records = Gathered::none(alloc);
    let mut clean = CleanSegments::none(alloc, OctetKinds::of(context))?;
    let mut known = known_for(alloc, text.len())?;
    let mut from = from;
    while let Lexed::Ended { start, end } = next_segment(text, &context.service, from, lexed) {
        let place = SegmentPlace { from, start, end };
        let mode = mode_of(before, records.last());
        let record = Record::read(
            alloc, directory, context, mode, text, place, &mut clean, &mut known, placed,
        )?;
        records.push(alloc, record)?;
        from = end + 1;
    }
    records.into_seq(alloc)
}

/// The mode after the last of these records, or where there is none, the one before.
pub(crate) fn mode_after<'a>(before: &'a Mode, records: &'a [Record]) -> &'a Mode
    ensures { result.now ≡ option_map_or (λ kept. kept.step.after)
        (slice_get records.now (length records.now - 1)) before.now }
{
    mode_of(before, records.last())
}

/// The mode after a record, or where there is none, the one before.
pub(crate) fn mode_of<'a>(before: &'a Mode, last: Option<&'a Record>) -> &'a Mode
    ensures { result.now
        ≡ option_map_or (λ kept. kept.step.after) (option_copied last.entry) before.now }
{
    match last {
        Some(record) => record.mode(),
        None => before,
    }
}

/// The context of a text, and the records of all its segments. Each call of the lexer and of the walk is counted. Only want of
/// memory is an error.
pub fn read_text<L: Ledger, M: Ledger>(
    alloc: Global,
    directory: &Directory,
    octets: &[u8],
    lexed: &mut Steps<L>,
    placed: &mut Steps<M>,
) -> Result<(Context, Seq<Record>), AllocError>
    requires { length octets.now ≤ LONGEST_TEXT }
    ensures context { IfOk result (λ read. read.0 ≡ context_of octets.now) }
    ensures records { IfOk result (λ read. read.1 ≡ kept_in directory.now octets.now) }
    ensures lexed { lexed.new ≤ lexed.old + (segment_count_of octets.now + 2) }
    ensures placed { placed.new ≤ placed.old + segment_count_of octets.now }
{
    let context = read_context(&Flat { octets }, lexed);
    let records = read_body(alloc, directory, &context, octets, lexed, placed)?;
    Ok((context, records))
}

/// The records of all segments of a text with this context. Each call of the lexer and of the walk is counted. Only want of
/// memory is an error.
pub(crate) fn read_body<L: Ledger, M: Ledger>(
    alloc: Global,
    directory: &Directory,
    context: &Context,
    octets: &[u8],
    lexed: &mut Steps<L>,
    placed: &mut Steps<M>,
) -> Result<Seq<Record>, AllocError>
    requires short { length octets.now ≤ LONGEST_TEXT }
    requires context { context.now ≡ context_of octets.now }
    ensures records { IfOk result (λ records. records ≡ kept_in directory.now octets.now) }
    ensures lexed { lexed.new ≤ lexed.old + (segment_count_of octets.now + 1) }
    ensures placed { placed.new ≤ placed.old + segment_count_of octets.now }
{
    let text = Flat { octets };
    let before = Mode::Outside;
    let body = context.service.body;
    read_records(
        alloc, directory, context, &before, &text, body, lexed, placed,
    )
}
