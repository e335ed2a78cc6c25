//! A text with what is kept of its segments.
ghost use Rattle.std.specs.Prelude.{◌≡◌, ◌+◌, ◌-◌, ◌≤◌, All, drop, length, slice_index, IfOk};
ghost use Rattle.dir_compile.specs.Directory.{IsDirectory};
ghost use Rattle.seg_lexer.specs.Context.{context_of};
ghost use Rattle.seg_lexer.specs.Segments.{boundaries_of, ends_of};
ghost use Rattle.seg_lexer.specs.Service.{IsUsable, service_of};
ghost use Rattle.segment_records.specs.Messages.{mode_after};
ghost use Rattle.segment_records.specs.Segments.{segments_of_text};
ghost use Rattle.segment_records.specs.Count.{segment_count_of};
ghost use Rattle.segment_records.specs.Notable.{notable_in};
ghost use Rattle.segment_records.specs.Told.{KeepsValues};
ghost use Rattle.segment_records.specs.WalkedSegments.{Follows, LiesIn, kept_in, seen_in};
ghost use Rattle.kept_text.specs.Change.{changed_by};
ghost use Rattle.kept_text.specs.Edit.{Edit, edited, reading_with, text_with};
ghost use Rattle.kept_text.specs.Rerun.{IsRerunBounded, rerun_of};
ghost use Rattle.kept_text.specs.Stretch.{reach_of};
ghost use Rattle.edi_octets.specs.declared.octets.TheConstants.{LONGEST_TEXT};

use crate::change::Change;
use crate::read::{mode_after, read_body, read_text};
use crate::rerun::{Rerun, mode_after_first, place_again};
use crate::stretch::{Span, Stretch, read_stretch, stretch_start};
use clean_segments::OctetKinds;
use dir_compile::Directory;
use edi_tables::Chunk;
use piece_text::{Text, View};
use seg_lexer::{Context, Service, read_context};
use segment_records::{Mode, NotableSegments, Record, Segments};
use seq_tree::Seq;
use std::alloc::{AllocError, Global};
use std::marker::Model;
use std::sync::ledger::Ledger;
use step_counter::Steps;

/// A text that is read by a directory, seen as these two.
///
/// It keeps the text in pieces, and a record of each segment. Numbers, places and groups are worked out when they are asked
/// for.
#[derive(Drop)]
pub struct KeptText<'d> {
    directory: &'d Directory,
    text: Text,
    context: Context,
    // What each octet is to a first look, by that context.
    kinds: OctetKinds,
    records: Seq<Record>,
    // The mode before the first segment.
    outside: Mode,
}

impl<'d> Model for KeptText<'d> {
    ghost use Rattle.kept_text.specs.Reading.{Reading};

    ghost Value = { Reading };

    ghost use Rattle.kept_text.specs.Kept.{IsKeptText, reading};

    ghost view = { reading };

    ghost invariant = { IsKeptText };
}

impl<'d> KeptText<'d> {
    /// Reads a text, which it keeps. Each call of the lexer and of the walk is counted. Only want of memory is an error.
    pub fn read<L: Ledger, M: Ledger>(
        alloc: Global,
        directory: &'d Directory,
        octets: Vec<u8>,
        lexed: &mut Steps<L>,
        placed: &mut Steps<M>,
    ) -> Result<KeptText<'d>, AllocError>
        requires { length octets.items ≤ LONGEST_TEXT }
        ensures read { IfOk result
            (λ kept. kept ≡ record { directory = directory.now; text = octets.items }) }
        ensures lexed { lexed.new ≤ lexed.old + (segment_count_of octets.items + 2) }
        ensures placed { placed.new ≤ placed.old + segment_count_of octets.items }
    {
        // What it keeps is of a directory.
        let _parts = directory.parts();
        let (context, records) = read_text(alloc, directory, &octets, lexed, placed)?;
        let kinds = OctetKinds::of(&context);
        let text = Text::of_vec(alloc, octets)?;
        Ok(KeptText {
            directory,
            text,
            context,
            kinds,
            records,
            outside: Mode::Outside,
        })
    }

    /// The same text by the same directory, which shares its pieces and its records: nothing is read. Only want of memory is
    /// an error.
    pub fn share(&self) -> Result<KeptText<'d>, AllocError>
        ensures { IfOk result (λ kept. kept ≡ self.now) }
    {
        let text = self.text.share()?;
        let records = self.records.share()?;
        Ok(KeptText {
            directory: self.directory,
            text,
            context: self.context,
            kinds: self.kinds,
            records,
            outside: Mode::Outside,
        })
    }

    /// Its text with octets put in place of the `cut` octets from place `at` on. Where the context of the text stays, only the
    /// stretch of the edit is read again, and only its rerun is placed again. Each call of the lexer and of the walk is
    /// counted. Only want of memory is an error.
    pub fn edited<L: Ledger, M: Ledger>(
        &self,
        alloc: Global,
        at: usize,
        cut: usize,
        put: &[u8],
        lexed: &mut Steps<L>,
        placed: &mut Steps<M>,
    ) -> Result<KeptText<'d>, AllocError>
        requires inside { at + cut ≤ length self.now.text }
        requires short { length self.now.text - cut + length put.now ≤ LONGEST_TEXT }
        ensures edited { IfOk result (λ kept. kept ≡ reading_with self.now at cut put.now) }
        ensures lexed { lexed.new ≤ lexed.old
            + (segment_count_of (text_with self.now.text at cut put.now) + 2) }
        ensures placed { placed.new ≤ placed.old
            + segment_count_of (text_with self.now.text at cut put.now) }
        // Where the context stays, only the stretch is read again, and only the rerun is placed again.
        ensures reach { let edit : Edit = record { at = at; cut = cut; put = put.now } in
            context_of (edited self.now.text edit) ≡ context_of self.now.text
            → IfOk result (λ _. lexed.new ≤ lexed.old + (reach_of self.now.text edit + 1)) }
        ensures rerun { let edit : Edit = record { at = at; cut = cut; put = put.now } in
            context_of (edited self.now.text edit) ≡ context_of self.now.text
            → IfOk result (λ _. placed.new ≤ placed.old
            + rerun_of self.now.directory self.now.text edit) }
        ensures bounded { let edit : Edit = record { at = at; cut = cut; put = put.now } in
            context_of (edited self.now.text edit) ≡ context_of self.now.text
            → IsRerunBounded self.now.directory self.now.text edit }
    {
        // What it keeps is of a directory.
        let _parts = self.directory.parts();
        let text = self.text.replace(alloc, at, cut, put)?;
        let context = read_context(&whole_of(&text), lexed);
        let records = self.edited_records(alloc, &text, &context, at, cut, put, lexed, placed)?;
        Ok(KeptText {
            directory: self.directory,
            text,
            context,
            kinds: self.kinds.adapted(&context),
            records,
            outside: Mode::Outside,
        })
    }

    // The records of the text as edited, with its context.
    fn edited_records<L: Ledger, M: Ledger>(
        &self,
        alloc: Global,
        text: &Text,
        context: &Context,
        at: usize,
        cut: usize,
        put: &[u8],
        lexed: &mut Steps<L>,
        placed: &mut Steps<M>,
    ) -> Result<Seq<Record>, AllocError>
        requires inside { at + cut ≤ length self.now.text }
        requires text { text.now ≡ text_with self.now.text at cut put.now }
        requires short { length text.now ≤ LONGEST_TEXT }
        requires context { context.now ≡ context_of text.now }
        ensures records { IfOk result (λ records. records ≡ kept_in self.now.directory text.now) }
        ensures lexed { lexed.new ≤ lexed.old + (segment_count_of text.now + 1) }
        ensures placed { placed.new ≤ placed.old + segment_count_of text.now }
        ensures reach { context_of text.now ≡ context_of self.now.text
            → IfOk result (λ _. lexed.new ≤ lexed.old
            + reach_of self.now.text (record { at = at; cut = cut; put = put.now })) }
        ensures rerun { context_of text.now ≡ context_of self.now.text
            → IfOk result (λ _. placed.new ≤ placed.old
            + rerun_of self.now.directory self.now.text
            (record { at = at; cut = cut; put = put.now })) }
    {
        if *context != self.context {
            return read_whole(alloc, self.directory, context, text, lexed, placed);
        }
        let change = self.change(alloc, text, at, cut, put, lexed, placed)?;
        change.apply(alloc, &self.records)
    }

    // What an edit that leaves the context puts in place of records: those of its stretch, read in the text as edited, and those
    // of its rerun.
    fn change<L: Ledger, M: Ledger>(
        &self,
        alloc: Global,
        text: &Text,
        at: usize,
        cut: usize,
        put: &[u8],
        lexed: &mut Steps<L>,
        placed: &mut Steps<M>,
    ) -> Result<Change, AllocError>
        requires inside { at + cut ≤ length self.now.text }
        requires text { text.now ≡ text_with self.now.text at cut put.now }
        requires short { length text.now ≤ LONGEST_TEXT }
        requires context { context_of text.now ≡ context_of self.now.text }
        ensures in_order { IfOk result (λ change. change.first ≤ change.next) }
        ensures within { IfOk result
            (λ change. change.next ≤ length (kept_in self.now.directory self.now.text)) }
        ensures records { IfOk result
            (λ change. changed_by change (kept_in self.now.directory self.now.text)
            ≡ kept_in self.now.directory text.now) }
        ensures lexed { lexed.new ≤ lexed.old + (segment_count_of text.now + 1) }
        ensures placed { placed.new ≤ placed.old + segment_count_of text.now }
        ensures reach { IfOk result (λ _. lexed.new ≤ lexed.old
            + reach_of self.now.text (record { at = at; cut = cut; put = put.now })) }
        ensures rerun { IfOk result (λ _. placed.new ≤ placed.old
            + rerun_of self.now.directory self.now.text
            (record { at = at; cut = cut; put = put.now })) }
    {
        let (directory, context, old) = (self.directory, &self.context, &self.records);
        let span = Span {
            at,
            cut,
            put: put.len(),
        };
        let (first, from) = stretch_start(old, context.service.body, at);
        let before = mode_after_first(&self.outside, old, first);
        let whole = whole_of(text);
        let Stretch {
            records: read,
            to,
            next,
        } = read_stretch(
            alloc, directory, context, self.kinds, before, &whole, from, old, span, lexed, placed,
        )?;
        let Some(next) = next else {
            return Ok(Change {
                first,
                next: old.len(),
                read,
                again: Vec::new(alloc),
            });
        };
        let last = mode_after(before, &read);
        let Rerun {
            records: again,
            next,
        } = place_again(alloc, directory, last, old, next, to, placed)?;
        Ok(Change {
            first,
            next,
            read,
            again,
        })
    }

    /// The directory that it checks by.
    pub fn directory(&self) -> &'d Directory
        ensures directory { result.now ≡ self.now.directory }
        ensures lawful { IsDirectory self.now.directory }
    {
        self.directory
    }

    /// How many octets the text has.
    pub fn text_len(&self) -> u64
        ensures length { result ≡ length self.now.text }
        ensures short { result ≤ LONGEST_TEXT }
    {
        self.text.len() as u64
    }

    /// How many segments it has.
    pub fn segment_count(&self) -> u32
        ensures { result ≡ segment_count_of self.now.text }
    {
        self.records.len() as u32
    }

    /// A copy of the text.
    pub fn copy_text(&self, alloc: Global) -> Result<Chunk, AllocError>
        ensures { IfOk result (λ octets. octets ≡ self.now.text) }
    {
        self.text.copy(alloc)
    }

    /// The mode after the first `k` segments.
    pub fn state_after(&self, k: u32) -> &Mode
        requires { k ≤ segment_count_of self.now.text }
        ensures { result.now ≡ mode_after self.now.directory (segments_of_text self.now.text) k }
    {
        mode_after_first(&self.outside, &self.records, k as usize)
    }

    /// Its segments in order, each with its number and place, which are worked out of the records before it.
    pub fn segments(&self) -> Segments<'_>
        ensures segments { result ≡ seen_in self.now.directory self.now.text }
        ensures follow { All (Follows self.now.directory) result }
        ensures inside { All (LiesIn self.now.text) result }
        ensures few { length result ≤ LONGEST_TEXT }
        ensures lawful { IsDirectory self.now.directory }
    {
        Segments::of(
            &self.records,
            self.context.service.body as u32,
            &self.outside,
        )
    }

    /// Its segments from place `count` on, counted from 0. Those before it are not looked at one by one.
    pub fn segments_after(&self, count: u32) -> Segments<'_>
        requires { count ≤ segment_count_of self.now.text }
        ensures { result ≡ drop count (seen_in self.now.directory self.now.text) }
    {
        Segments::after(
            &self.records,
            count as usize,
            self.context.service.body as u32,
            &self.outside,
        )
    }

    /// Its notable segments in order: those that have an error, that open, close or stop a message or a functional group, or
    /// that a message ends with. Those between them are not looked at.
    pub fn notable_segments(&self) -> NotableSegments<'_>
        ensures notable { result.0 ≡ notable_in self.now.directory self.now.text }
        ensures follow { All (Follows self.now.directory) result.0 }
        ensures inside { All (LiesIn self.now.text) result.0 }
        ensures few { length result.0 ≤ LONGEST_TEXT }
        ensures short { length self.now.text ≤ LONGEST_TEXT }
        ensures lawful { IsDirectory self.now.directory }
        ensures values { All (KeepsValues (context_of self.now.text).service self.now.text)
            result.0 }
    {
        NotableSegments::of(
            &self.records,
            self.context.service.body as u32,
            &self.outside,
        )
    }

    /// The whole text.
    pub fn whole(&self) -> View<'_>
        ensures text { result ≡ self.now.text }
        ensures short { length self.now.text ≤ LONGEST_TEXT }
    {
        whole_of(&self.text)
    }

    /// The service characters that its segments are read by.
    pub fn service(&self) -> &Service
        ensures service { result.now ≡ (context_of self.now.text).service }
        ensures usable { IsUsable result.now self.now.text }
    {
        &self.context.service
    }

    /// The context that its segments are read and checked by.
    pub fn context(&self) -> &Context
        ensures context { result.now ≡ context_of self.now.text }
        ensures usable { IsUsable result.now.service self.now.text }
    {
        &self.context
    }

    /// The octet after the last segment, or where the first would begin.
    pub fn last_boundary(&self) -> usize
        ensures { result ≡ slice_index (boundaries_of (service_of self.now.text) self.now.text)
            (length (ends_of (service_of self.now.text) self.now.text)) }
    {
        self.context.service.body + self.records.total() as usize
    }
}

// All octets of a text.
fn whole_of(text: &Text) -> View<'_>
    ensures { result ≡ text.now }
{
    text.view(0, text.len())
}

// The records of a whole text with this context. It is copied first: octets in one piece are read faster.
fn read_whole<L: Ledger, M: Ledger>(
    alloc: Global,
    directory: &Directory,
    context: &Context,
    text: &Text,
    lexed: &mut Steps<L>,
    placed: &mut Steps<M>,
) -> Result<Seq<Record>, AllocError>
    requires short { length text.now ≤ LONGEST_TEXT }
    requires context { context.now ≡ context_of text.now }
    ensures records { IfOk result (λ records. records ≡ kept_in directory.now text.now) }
    ensures lexed { lexed.new ≤ lexed.old + (segment_count_of text.now + 1) }
    ensures placed { placed.new ≤ placed.old + segment_count_of text.now }
{
    let whole = text.copy(alloc)?;
    read_body(alloc, directory, context, whole.octets(), lexed, placed)
}
