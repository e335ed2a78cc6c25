//! The segments of a text as they are read, one after the other. Few records are there at a time, and none is kept.
ghost use Rattle.std.specs.Prelude.{◌≡◌, ◌+◌, ◌<◌, ◌≤◌, drop, length, slice_get, slice_index, take, IfOk, OnErr, OnOk};
ghost use Rattle.std.specs.Option.{option_copied, option_map};
ghost use Rattle.clean_segments.specs.Clean.{AreClean};
ghost use Rattle.dir_compile.specs.Directory.{IsDirectory};
ghost use Rattle.seg_lexer.specs.Context.{context_of};
ghost use Rattle.seg_lexer.specs.Segments.{IsBoundary, boundaries_of, ends_of};
ghost use Rattle.seg_lexer.specs.Service.{IsUsable, service_of};
ghost use Rattle.segment_records.specs.Count.{segment_count_of};
ghost use Rattle.segment_records.specs.Known.{AreKnown};
ghost use Rattle.segment_records.specs.Look.{seen_of};
ghost use Rattle.segment_records.specs.Records.{IsModeOf, records_from};
ghost use Rattle.segment_records.specs.WalkedSegments.{kept_in, mode_left, octets_in, seen_in};
ghost use Rattle.edi_octets.specs.declared.octets.TheConstants.{LONGEST_TEXT};

use crate::read::{known_for, mode_after, mode_of};
use clean_segments::{CleanSegments, OctetKinds};
use dir_compile::Directory;
use edi_octets::Flat;
use seg_lexer::{Context, Lexed, next_segment, read_context};
use segment_records::{KnownSteps, Mode, Record, SegmentPlace, WalkedSegment};
use std::alloc::{AllocError, Global};
use std::marker::{Brand, Model};
use std::mem::replace;
use std::sync::ledger::{Blank, Ledger};
use step_counter::Steps;

/// So many segments are passed of the records that are read at once. One more is read with them: the one after the last.
pub(crate) const BATCH: usize = 128;

/// The segments of a text that is read by a directory, seen as these two and the number of segments that were passed.
///
/// It takes no memory that grows with the text, except for what its segments themselves have: errors and values.
#[derive(Drop)]
pub struct PassingSegments<'t> {
    directory: &'t Directory,
    text: &'t [u8],
    context: Context,
    // Segments of the text without an error, and steps in it: what makes reading others faster.
    clean: CleanSegments,
    known: KnownSteps,
    // The mode before the first segment.
    outside: Mode,
    // The record before the batch, if there is one.
    last: Option<Record>,
    // Records that were read at once, `BATCH` and one, or fewer where the text ends.
    batch: Vec<Record>,
    // How many segments are before the batch, the place in it of the next segment, and the boundary before that.
    begun: usize,
    place: usize,
    from: usize,
}

impl<'t> Model for PassingSegments<'t> {
    ghost use Rattle.kept_text.specs.Passing.{IsPassing, Passing, passing};

    ghost Value = { Passing };

    ghost view = { passing };

    ghost invariant = { IsPassing };
}

impl<'t> PassingSegments<'t> {
    /// Those of a text, of which none is passed. Only want of memory is an error.
    pub fn of(
        alloc: Global,
        directory: &'t Directory,
        text: &'t [u8],
    ) -> Result<PassingSegments<'t>, AllocError>
        requires { length text.now ≤ LONGEST_TEXT }
        ensures { IfOk result (λ segments. segments
            ≡ record { directory = directory.now; text = text.now; passed = 0 }) }
    {
        // What is read is of a directory.
        let _parts = directory.parts();
        let context = read_context_of::<Brand>(text, Blank::new(1));
        let mut clean = CleanSegments::none(alloc, OctetKinds::of(&context))?;
        let mut known = known_for(alloc, text.len())?;
        let outside = Mode::Outside;
        let batch = read_batch_uncounted::<Brand, Brand>(
            alloc,
            directory,
            &context,
            &outside,
            text,
            context.service.body,
            &mut clean,
            &mut known,
            Blank::new(1),
            Blank::new(1),
        )?;
        Ok(PassingSegments {
            directory,
            text,
            context,
            clean,
            known,
            outside,
            last: None,
            batch,
            begun: 0,
            place: 0,
            from: context.service.body,
        })
    }

    /// The next segment, if there is one.
    #[inline(always)]
    pub fn at_hand(&self) -> Option<WalkedSegment<'_>>
        ensures { option_map seen_of result
            ≡ slice_get (seen_in self.now.directory self.now.text) self.now.passed }
    {
        let record = record_at(&self.batch, self.place)?;
        Some(WalkedSegment {
            number: (self.begun + self.place) as u32 + 1,
            from: self.from as u32,
            before: self.mode_before(),
            record,
            next: record_at(&self.batch, self.place + 1),
        })
    }

    // The mode before the next segment, or after the last one.
    #[inline(always)]
    fn mode_before(&self) -> &Mode
        ensures { result.now ≡ mode_left Mode.Outside
            (take self.now.passed (kept_in self.now.directory self.now.text)) }
    {
        if self.place == 0 {
            return mode_of(&self.outside, self.last.as_ref());
        }
        self.batch[self.place - 1].mode()
    }

    /// Passes the next segment. Only want of memory is an error; then all is as it was.
    #[inline(always)]
    pub fn pass(&mut self, alloc: Global) -> Result<(), AllocError>
        requires { self.old.passed < segment_count_of self.old.text }
        ensures passed { OnOk result
            (self.new ≡ record self.old { passed = self.old.passed + 1 }) }
        ensures same { OnErr result (self.new ≡ self.old) }
    {
        let record = &self.batch[self.place];
        let from = self.from + record.octets() as usize;
        if self.place + 1 < BATCH {
            self.place += 1;
            self.from = from;
            return Ok(());
        }
        let next = read_batch_uncounted::<Brand, Brand>(
            alloc,
            self.directory,
            &self.context,
            record.mode(),
            self.text,
            from,
            &mut self.clean,
            &mut self.known,
            Blank::new(1),
            Blank::new(1),
        )?;
        let mut passed = replace(&mut self.batch, next);
        self.last = Some(passed.swap_remove(self.place));
        self.begun += BATCH;
        self.place = 0;
        self.from = from;
        Ok(())
    }

    /// The directory that the text is read by.
    pub fn directory(&self) -> &'t Directory
        ensures directory { result.now ≡ self.now.directory }
        ensures lawful { IsDirectory self.now.directory }
    {
        self.directory
    }

    /// The text.
    pub fn text(&self) -> &'t [u8]
        ensures text { result.now ≡ self.now.text }
        ensures short { length self.now.text ≤ LONGEST_TEXT }
    {
        self.text
    }

    /// How many segments were passed.
    pub fn passed(&self) -> u32
        ensures passed { result ≡ self.now.passed }
        ensures within { result ≤ segment_count_of self.now.text }
    {
        (self.begun + self.place) as u32
    }

    /// The context that the segments are read and checked by.
    pub fn context(&self) -> &Context
        ensures context { result.now ≡ context_of self.now.text }
        ensures usable { IsUsable result.now.service self.now.text }
    {
        &self.context
    }

    /// The octet after the last segment, or where the first would begin, if all segments were passed.
    pub fn last_boundary(&self) -> usize
        requires { self.now.passed ≡ segment_count_of self.now.text }
        ensures { result ≡ slice_index (boundaries_of (service_of self.now.text) self.now.text)
            (length (ends_of (service_of self.now.text) self.now.text)) }
    {
        self.from
    }
}

// The record at a place, if there is one.
#[inline(always)]
fn record_at(records: &[Record], place: usize) -> Option<&Record>
    ensures { option_copied result ≡ slice_get records.now place }
{
    records.get(place)
}

// The context of a text, by a counter that nobody reads.
fn read_context_of<L: Ledger>(octets: &[u8], blank: Blank) -> Context
    requires short { length octets.now ≤ LONGEST_TEXT }
    requires name { blank.name ≡ L.name }
    requires parts { blank.parts ≡ L.parts }
    requires some { 0 < blank.parts }
    ensures { result ≡ context_of octets.now }
{
    read_context(&Flat { octets }, &mut Steps::<L>::start(blank))
}

// The records that are read at once, by counters that nobody reads.
fn read_batch_uncounted<L: Ledger, M: Ledger>(
    alloc: Global,
    directory: &Directory,
    context: &Context,
    before: &Mode,
    octets: &[u8],
    from: usize,
    clean: &mut CleanSegments,
    known: &mut KnownSteps,
    lexing: Blank,
    placing: Blank,
) -> Result<Vec<Record>, AllocError>
    requires usable { IsUsable context.now.service octets.now }
    requires short { length octets.now ≤ LONGEST_TEXT }
    requires boundary { IsBoundary context.now.service octets.now from }
    requires mode { IsModeOf directory.now from before.now }
    requires clean { AreClean directory.now context.now octets.now clean.old }
    requires known { AreKnown directory.now known.old }
    requires lexing_name { lexing.name ≡ L.name }
    requires lexing_parts { lexing.parts ≡ L.parts }
    requires lexing_some { 0 < lexing.parts }
    requires placing_name { placing.name ≡ M.name }
    requires placing_parts { placing.parts ≡ M.parts }
    requires placing_some { 0 < placing.parts }
    ensures records { IfOk result (λ records. records.items ≡ take (BATCH + 1)
        (records_from directory.now context.now before.now (drop from octets.now))) }
    ensures clean { AreClean directory.now context.now octets.now clean.new }
    ensures known { AreKnown directory.now known.new }
{
    let mut lexed = Steps::<L>::start(lexing);
    let mut placed = Steps::<M>::start(placing);
    read_batch(
        alloc,
        directory,
        context,
        before,
        octets,
        from,
        clean,
        known,
        &mut lexed,
        &mut placed,
    )
}

// The first records of the octets after the boundary `from` of a text, after a mode: `BATCH` and one, or all if there are fewer.
// Only want of memory is an error.
#[inline(never)]
fn read_batch<L: Ledger, M: Ledger>(
    alloc: Global,
    directory: &Directory,
    context: &Context,
    before: &Mode,
    octets: &[u8],
    from: usize,
    clean: &mut CleanSegments,
    known: &mut KnownSteps,
    lexed: &mut Steps<L>,
    placed: &mut Steps<M>,
) -> Result<Vec<Record>, AllocError>
    requires usable { IsUsable context.now.service octets.now }
    requires short { length octets.now ≤ LONGEST_TEXT }
    requires boundary { IsBoundary context.now.service octets.now from }
    requires mode { IsModeOf directory.now from before.now }
    requires clean { AreClean directory.now context.now octets.now clean.old }
    requires known { AreKnown directory.now known.old }
    ensures records { IfOk result (λ records. records.items ≡ take (BATCH + 1)
        (records_from directory.now context.now before.now (drop from octets.now))) }
    ensures clean { AreClean directory.now context.now octets.now clean.new }
    ensures known { AreKnown directory.now known.new }
{
    let text = Flat { octets };
    let mut records = Vec::with_capacity(alloc, BATCH + 1)?;
    let mut to = from;
    while let Lexed::Ended { start, end } = next_segment(&text, &context.service, to, lexed) {
        let place = SegmentPlace {
            from: to,
            start,
            end,
        };
        let mode = mode_after(before, &records);
        let record = Record::read(
            alloc, directory, context, mode, &text, place, clean, known, placed,
        )?;
        records.push(record)?;
        to = end + 1;
        if records.len() > BATCH {
            return Ok(records);
        }
    }
    Ok(records)
}
