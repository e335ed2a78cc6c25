//! What is kept of one segment.
ghost use Rattle.std.specs.Prelude.{◌≡◌, ◌+◌, ◌<◌, ◌≤◌, [], ℕ, None, Some, false, length, IfOk, IfSome};
ghost use Rattle.std.specs.Option.{option_copied, option_map};
ghost use Rattle.edi_octets.specs.declared.octets.Octets.{Ghosts};
ghost use Rattle.dir_compile.specs.declared.parts.Parts.{Parts};
ghost use Rattle.seg_lexer.specs.Fields.{components_at};
ghost use Rattle.seg_lexer.specs.Service.{IsUsable};
ghost use Rattle.seg_lexer.specs.Tag.{tag_of};
ghost use Rattle.element_check.specs.Local.{local_errors_of};
ghost use Rattle.clean_segments.specs.Clean.{AreClean};
ghost use Rattle.segment_records.specs.Bounds.{stops_message as stops_message_of};
ghost use Rattle.segment_records.specs.Known.{AreKnown};
ghost use Rattle.segment_records.specs.Notable.{is_marked, is_well_placed};
ghost use Rattle.segment_records.specs.Records.{IsModeOf, kept_of};
ghost use Rattle.segment_records.specs.RecordView.{faults_in, local_found, local_in, missing_found, missing_in, values_of};
ghost use Rattle.segment_records.specs.Segments.{segment_read};
ghost use Rattle.segment_records.specs.Steps.{inner_step};
ghost use Rattle.segment_records.specs.Taken.{read_as};
ghost use Rattle.edi_octets.specs.declared.octets.TheConstants.{LONGEST_TEXT};

use crate::head_values::{Heading, read_heading};
use crate::known::KnownSteps;
use crate::mode::Mode;
use crate::step::{Standing, go_on_as_known, take_inner_step, take_step};
use crate::tags::stops_message;
use clean_segments::CleanSegments;
use dir_compile::Directory;
use edi_octets::Octets;
use edi_tables::Tag;
use element_check::{LocalError, check_components};
use envelope_check::HeadValues;
use seg_lexer::{Context, fields};
use seq_tree::Measured;
use smallvec::SmallVec;
use std::alloc::{AllocError, Global};
use std::marker::Model;
use std::sync::ledger::Ledger;
use step_counter::Steps;

/// Where a segment is in a text: the boundary before it, its first octet, and the place of its terminator.
#[derive(Clone, Copy, Debug, PartialEq, Eq)]
pub struct SegmentPlace {
    pub from: usize,
    pub start: usize,
    pub end: usize,
}

/// What a reading keeps of a segment: how long it is, its tag, its local errors, where it is in its message, and the mode
/// after it.
///
/// Nothing of it changes by an edit outside of the segment's stretch, except by the mode before the segment. Its weight is
/// the octets of its stretch, line ends in front and terminator included.
pub struct Record {
    octets: u32,
    breaks: u32,
    tag: Option<Tag>,
    standing: Standing,
    mode: Mode,
    notes: Notes,
}

// What few segments have, so that it need not lie in each record.
#[derive(Drop)]
enum Notes {
    Nothing,
    Faulty(Box<Faults>),
    Head(Box<HeadValues>),
    FaultyHead(Box<HeadFaults>),
}

// The values that a head gives, and what is wrong with it.
#[derive(Drop)]
struct HeadFaults {
    values: Box<HeadValues>,
    faults: Box<Faults>,
}

// The local errors of a segment, and the nodes that are missing before it.
#[derive(Drop)]
struct Faults {
    local: SmallVec<LocalError, 4>,
    missing: SmallVec<u16, 4>,
}

impl Model for Record {
    ghost use Rattle.segment_records.specs.Records.{Kept};

    ghost Value = { Kept };

    ghost use Rattle.segment_records.specs.RecordView.{seen};

    ghost view = { seen };
}

// Written by hand so that a drop is one call to its caller's proof.
impl Drop for Record {
    #[inline(always)]
    fn drop(self) {
        let Record {
            octets: _,
            breaks: _,
            tag: _,
            standing: _,
            mode,
            notes,
        } = self;
        drop(mode);
        // Most have none.
        match notes {
            Notes::Nothing => {}
            notes => drop(notes),
        }
    }
}

impl Measured for Record {
    ghost measure = { λ kept. kept.octets };

    ghost use Rattle.segment_records.specs.Notable.{marks_of};

    ghost marks = { marks_of };

    fn weight(&self) -> u32 {
        self.octets
    }

    #[inline(always)]
    fn marks(&self) -> u32 {
        u32::from(self.is_marked())
    }
}

impl Record {
    /// Reads the segment at a place of a text after a mode: its local errors, and where it is in its message. At most one
    /// call of the walk is counted. Only want of memory is an error. `clean` are segments of the text in which nothing is
    /// wrong by themselves, and then the segment too, if nothing is. `known` are steps in the directory's tables that were taken
    /// before, and then the segment's too.
    #[inline(always)]
    pub fn read<O: Octets, L: Ledger>(
        alloc: Global,
        directory: &Directory,
        context: &Context,
        before: &Mode,
        text: &O,
        place: SegmentPlace,
        clean: &mut CleanSegments,
        known: &mut KnownSteps,
        placed: &mut Steps<L>,
    ) -> Result<Record, AllocError>
        requires usable { IsUsable context.now.service (O.octets text.now) }
        requires short { length (O.octets text.now) ≤ LONGEST_TEXT }
        requires in_order { place.from ≤ place.start }
        requires ordered { place.start ≤ place.end }
        requires within { place.end < length (O.octets text.now) }
        requires mode { IsModeOf directory.now 4194303 before.now }
        requires clean { AreClean directory.now context.now (O.octets text.now) clean.old }
        requires known { AreKnown directory.now known.old }
        ensures kept { IfOk result (λ kept. kept ≡ kept_of directory.now context.now before.now
            (segment_read
            context.now.service (O.octets text.now) place.from place.start place.end)) }
        ensures mode { (most : ℕ)
            → IsModeOf directory.now most before.now
            → IfOk result (λ kept. IsModeOf directory.now (most + 1) kept.step.after) }
        ensures clean { AreClean directory.now context.now (O.octets text.now) clean.new }
        ensures known { AreKnown directory.now known.new }
        ensures counted { placed.new ≤ placed.old + 1 }
    {
        let SegmentPlace { from, start, end } = place;
        let octets = (end + 1 - from) as u32;
        let breaks = (start - from) as u32;
        let (tag, faults) = match clean.find(directory, context, text, start, end) {
            Some(tag) => {
                if let Some(record) = go_on_plain(alloc, octets, breaks, before, tag, known) {
                    return Ok(record);
                }
                (Some(tag), None)
            }
            None => check_alone(alloc, directory, context, text, start, end)?,
        };
        let Heading { values, table } = read_heading(
            alloc,
            directory,
            tag,
            text,
            &context.service,
            start,
            end,
        )?;
        let step = take_step(alloc, directory, before, tag, table, known, placed)?;
        let faults = with_missing(alloc, faults, step.missing)?;
        let notes = notes_of(alloc, values, faults)?;
        Ok(Record {
            octets,
            breaks,
            tag,
            standing: step.standing,
            mode: step.after,
            notes,
        })
    }

    /// The same segment placed after another mode, by its tag alone: its octets, line ends, tag, local errors and values stay as
    /// they are. At most one call of the walk is counted. Only want of memory is an error.
    ///
    /// It is for segments of other tags than UNH, UNB, UNG, UNE and UNZ. What is kept of those five is the same after any mode,
    /// and this isn't their step: the caller stops before them.
    pub fn placed_again<L: Ledger>(
        &self,
        alloc: Global,
        directory: &Directory,
        before: &Mode,
        placed: &mut Steps<L>,
    ) -> Result<Record, AllocError>
        requires mode { IsModeOf directory.now 4194303 before.now }
        ensures kept { IfOk result (λ kept. kept
            ≡ record self.now {
              step = inner_step directory.now before.now (read_as self.now.tag []);
            }) }
        ensures mode { (most : ℕ)
            → IsModeOf directory.now most before.now
            → IfOk result (λ kept. IsModeOf directory.now (most + 1) kept.step.after) }
        ensures counted { placed.new ≤ placed.old + 1 }
    {
        let mut known = KnownSteps::forgetful(alloc);
        let again = take_inner_step(alloc, directory, before, self.tag, &mut known, placed)?;
        let local = SmallVec::from_slice(alloc, self.local())?;
        let faults = keep_faults(alloc, local, again.missing)?;
        let values = copy_values(alloc, self.given())?;
        let notes = notes_of(alloc, values, faults)?;
        Ok(Record {
            octets: self.octets,
            breaks: self.breaks,
            tag: self.tag,
            standing: again.standing,
            mode: again.after,
            notes,
        })
    }

    /// How many octets its stretch has, line ends in front and terminator included.
    pub fn octets(&self) -> u32
        ensures { result ≡ self.now.octets }
    {
        self.octets
    }

    /// How many of them are line ends in front.
    pub fn breaks(&self) -> u32
        ensures { result ≡ self.now.breaks }
    {
        self.breaks
    }

    /// Its tag, if it has one.
    pub fn tag(&self) -> Option<Tag>
        ensures { result ≡ self.now.tag }
    {
        self.tag
    }

    /// The entry of its message's table that it is at, if it is at one.
    pub fn entry(&self) -> Option<u16>
        ensures { result ≡ self.now.step.entry }
    {
        match self.standing {
            Standing::Nowhere => None,
            Standing::At(entry) | Standing::Over(entry) => Some(entry),
        }
    }

    /// Whether it is one too many there.
    pub fn is_over(&self) -> bool
        ensures { result ≡ self.now.step.over }
    {
        matches!(self.standing, Standing::Over(_))
    }

    /// Whether something is to be said of it by what is kept of it alone: it opens, closes or stops a message, has a local
    /// error, or is in a message with a table and not well placed there.
    #[inline(always)]
    pub fn is_marked(&self) -> bool
        ensures { result ≡ is_marked self.now }
    {
        stops_message(self.tag)
            || !self.local().is_empty()
            || (self.mode.is_within() && !self.is_well_placed())
    }

    // Whether it is at an entry, nothing is missing before it, and it isn't one too many there.
    #[inline(always)]
    fn is_well_placed(&self) -> bool
        ensures { result ≡ is_well_placed self.now.step }
    {
        self.entry().is_some() && self.missing().is_empty() && !self.is_over()
    }

    /// Its local errors.
    pub fn local(&self) -> &[LocalError]
        ensures { result.now ≡ self.now.local }
    {
        match self.faults() {
            Some(faults) => faults.local.as_slice(),
            None => &[],
        }
    }

    /// The mandatory nodes that are missing before it.
    pub fn missing(&self) -> &[u16]
        ensures { result.now ≡ self.now.step.missing }
    {
        match self.faults() {
            Some(faults) => faults.missing.as_slice(),
            None => &[],
        }
    }

    // What is wrong with it, if something is.
    #[inline(always)]
    fn faults(&self) -> Option<&Faults>
        ensures local { local_found result ≡ self.now.local }
        ensures missing { missing_found result ≡ self.now.step.missing }
    {
        match &self.notes {
            Notes::Nothing | Notes::Head(_) => None,
            Notes::Faulty(faults) => Some(faults),
            Notes::FaultyHead(head) => Some(&head.faults),
        }
    }

    /// The values that it gives, if it is a head.
    #[inline(always)]
    pub fn given(&self) -> Option<&HeadValues>
        ensures { option_copied result ≡ self.now.given }
    {
        match &self.notes {
            Notes::Nothing | Notes::Faulty(_) => None,
            Notes::Head(values) => Some(values),
            Notes::FaultyHead(head) => Some(&head.values),
        }
    }

    /// The mode after it.
    pub fn mode(&self) -> &Mode
        ensures { result.now ≡ self.now.step.after }
    {
        &self.mode
    }
}

// The record of a segment with this tag in which nothing is wrong by itself, where it is no head and takes a step that is known.
// Most segments are such, and are read in this short way.
#[inline(always)]
fn go_on_plain(
    alloc: Global,
    octets: u32,
    breaks: u32,
    before: &Mode,
    tag: Tag,
    known: &mut KnownSteps,
) -> Option<Record>
    ensures record { (directory : Parts) → AreKnown directory known.old
        → IfSome result (λ kept. kept
        ≡ record {
          octets = octets;
          breaks = breaks;
          tag = Some tag;
          local = [];
          given = None;
          step = inner_step directory before.now (read_as (Some tag) []);
        }) }
    ensures plain { IfSome result (λ _. stops_message_of (Some tag) ≡ false) }
    ensures mode { (directory : Parts) (most : ℕ) → AreKnown directory known.old
        → IsModeOf directory most before.now
        → IfSome result (λ kept. IsModeOf directory (most + 1) kept.step.after) }
    ensures known { known.new ≡ known.old }
{
    if stops_message(Some(tag)) {
        return None;
    }
    let Mode::Within { table, state } = before else {
        return None;
    };
    let step = go_on_as_known(alloc, *table, state, Some(tag), known)?;
    Some(Record {
        octets,
        breaks,
        tag: Some(tag),
        standing: step.standing,
        mode: step.after,
        notes: Notes::Nothing,
    })
}

// The tag of the segment `start..end` of a text, and its local errors, if there are any. Most segments are seen to have none:
// this is kept out of their way.
#[inline(never)]
fn check_alone<O: Octets>(
    alloc: Global,
    directory: &Directory,
    context: &Context,
    text: &O,
    start: usize,
    end: usize,
) -> Result<(Option<Tag>, Option<Box<Faults>>), AllocError>
    requires usable { IsUsable context.now.service (O.octets text.now) }
    requires short { length (O.octets text.now) ≤ LONGEST_TEXT }
    requires ordered { start ≤ end }
    requires within { end ≤ length (O.octets text.now) }
    ensures tag { IfOk result (λ found. option_map (λ t. t.octets) found.0
        ≡ tag_of (components_at context.now.service (O.octets text.now) start end)) }
    ensures local { IfOk result (λ found. local_in found.1
        ≡ local_errors_of directory.now context.now
        (components_at context.now.service (O.octets text.now) start end)) }
    ensures missing { IfOk result (λ found. missing_in found.1 ≡ []) }
{
    let components = fields(text, &context.service, start, end);
    let (tag, local) = check_components(alloc, directory, context, components)?;
    let faults = keep_faults(alloc, local, SmallVec::new(alloc))?;
    Ok((tag, faults))
}

// What is wrong with a segment, by its local errors and what is missing before it: mostly nothing.
#[inline(always)]
fn with_missing(
    alloc: Global,
    faults: Option<Box<Faults>>,
    missing: SmallVec<u16, 4>,
) -> Result<Option<Box<Faults>>, AllocError>
    requires { missing_in faults ≡ [] }
    ensures local { IfOk result (λ found. local_in found ≡ local_in faults) }
    ensures missing { IfOk result (λ found. missing_in found ≡ missing.items) }
{
    if missing.is_empty() {
        return Ok(faults);
    }
    add_missing(alloc, faults, missing)
}

// The same where something is missing.
#[inline(never)]
fn add_missing(
    alloc: Global,
    faults: Option<Box<Faults>>,
    missing: SmallVec<u16, 4>,
) -> Result<Option<Box<Faults>>, AllocError>
    ensures local { IfOk result (λ found. local_in found ≡ local_in faults) }
    ensures missing { IfOk result (λ found. missing_in found ≡ missing.items) }
{
    match faults {
        Some(known) => {
            let Faults {
                local,
                missing: none,
            } = Box::into_inner(known);
            drop(none);
            keep_faults(alloc, local, missing)
        }
        None => keep_faults(alloc, SmallVec::new(alloc), missing),
    }
}

// What is wrong with a segment, where something is.
#[inline(always)]
fn keep_faults(
    alloc: Global,
    local: SmallVec<LocalError, 4>,
    missing: SmallVec<u16, 4>,
) -> Result<Option<Box<Faults>>, AllocError>
    ensures local { IfOk result (λ faults. local_in faults ≡ local.items) }
    ensures missing { IfOk result (λ faults. missing_in faults ≡ missing.items) }
{
    if local.is_empty() && missing.is_empty() {
        return Ok(None);
    }
    let faults = Box::new(alloc, Faults { local, missing })?;
    Ok(Some(faults))
}

// A copy of the values that a segment gives, if it is a head.
fn copy_values(
    alloc: Global,
    given: Option<&HeadValues>,
) -> Result<Option<Box<HeadValues>>, AllocError>
    ensures { IfOk result
        (λ values. option_map (λ values. values.value) values ≡ option_copied given.entry) }
{
    match given {
        Some(values) => Ok(Some(Box::new(alloc, values.copy(alloc)?)?)),
        None => Ok(None),
    }
}

// What is kept beside the place of a segment: the values that it gives, if it is a head, and what is wrong with it, if something is.
#[inline(always)]
fn notes_of(
    alloc: Global,
    values: Option<Box<HeadValues>>,
    faults: Option<Box<Faults>>,
) -> Result<Notes, AllocError>
    ensures faults { IfOk result (λ notes. faults_in notes ≡ faults) }
    ensures values { IfOk result
        (λ notes. values_of notes ≡ option_map (λ values. values.value) values) }
{
    match (values, faults) {
        (None, None) => Ok(Notes::Nothing),
        (None, Some(faults)) => Ok(Notes::Faulty(faults)),
        (Some(values), None) => Ok(Notes::Head(values)),
        (Some(values), Some(faults)) => {
            let head = Box::new(alloc, HeadFaults { values, faults })?;
            Ok(Notes::FaultyHead(head))
        }
    }
}
