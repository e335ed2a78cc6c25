//! A text with the versions before it and those that were undone.
ghost use Rattle.std.specs.Prelude.{◌≡◌, ◌+◌, ◌≤◌, ◌⊎◌, ◌↔◌, [], IfOk, None, length};
ghost use Rattle.seg_lexer.specs.Context.{context_of};
ghost use Rattle.segment_records.specs.Count.{segment_count_of};
ghost use Rattle.kept_text.specs.Edit.{Edit, edited, text_with};
ghost use Rattle.kept_text.specs.Rerun.{IsRerunBounded, rerun_of};
ghost use Rattle.kept_text.specs.Stretch.{reach_of};
ghost use Rattle.edi_engine.specs.Edit.{stop_of};
ghost use Rattle.edi_history.specs.Back.{IsBack};
ghost use Rattle.edi_history.specs.Edit.{IsHistoryEdit};
ghost use Rattle.edi_history.specs.Past.{begun, redo_of, undo_of};
ghost use Rattle.edi_history.specs.Reading.{present_of, with_text};
ghost use Rattle.edi_octets.specs.declared.octets.TheConstants.{LONGEST_TEXT};

use crate::back::Back;
use circular_buffer::HeapCircularBuffer;
use dir_compile::Directory;
use edi_engine::{EditStop, Engine, stop_by};
use std::alloc::{AllocError, Global};
use std::marker::Model;
use std::mem;
use std::sync::ledger::Ledger;
use step_counter::Steps;

// How many versions are kept beside the present one.
const MOST_VERSIONS: usize = 100;

/// A text that is read by a directory, with the texts that it was and those that were undone: it is seen as these. At most a
/// hundred texts are kept beside it. Each is a version of the engine, which shares with the others what it can.
#[derive(Drop)]
pub struct History<'d> {
    // The versions before, the last one last.
    before: HeapCircularBuffer<Engine<'d>>,
    pub(crate) present: Engine<'d>,
    // The versions that were undone, the next one to redo first.
    undone: HeapCircularBuffer<Engine<'d>>,
}

impl<'d> Model for History<'d> {
    ghost use Rattle.edi_history.specs.Reading.{PastReading};

    ghost Value = { PastReading };

    ghost use Rattle.edi_history.specs.Kept.{IsHistory, past_reading};

    ghost view = { past_reading };

    ghost invariant = { IsHistory };
}

impl<'d> History<'d> {
    /// Reads a text, which has no other text before it. The room for all versions is taken here. Each call of the lexer and of
    /// the walk is counted. Only want of memory is an error.
    pub fn open<L: Ledger, M: Ledger>(
        alloc: Global,
        directory: &'d Directory,
        octets: &[u8],
        lexed: &mut Steps<L>,
        placed: &mut Steps<M>,
    ) -> Result<History<'d>, AllocError>
        requires { length octets.now ≤ LONGEST_TEXT }
        ensures opened { IfOk result
            (λ h. h ≡ record { directory = directory.now; past = begun octets.now }) }
        ensures lexed { lexed.new ≤ lexed.old + (segment_count_of octets.now + 2) }
        ensures placed { placed.new ≤ placed.old + segment_count_of octets.now }
    {
        History::open_vec(alloc, directory, octets.to_vec(alloc)?, lexed, placed)
    }

    /// The same with octets that it keeps.
    pub fn open_vec<L: Ledger, M: Ledger>(
        alloc: Global,
        directory: &'d Directory,
        octets: Vec<u8>,
        lexed: &mut Steps<L>,
        placed: &mut Steps<M>,
    ) -> Result<History<'d>, AllocError>
        requires { length octets.items ≤ LONGEST_TEXT }
        ensures opened { IfOk result
            (λ h. h ≡ record { directory = directory.now; past = begun octets.items }) }
        ensures lexed { lexed.new ≤ lexed.old + (segment_count_of octets.items + 2) }
        ensures placed { placed.new ≤ placed.old + segment_count_of octets.items }
    {
        let before = HeapCircularBuffer::with_capacity(alloc, MOST_VERSIONS)?;
        let undone = HeapCircularBuffer::with_capacity(alloc, MOST_VERSIONS)?;
        let present = Engine::open_vec(alloc, directory, octets, lexed, placed)?;
        Ok(History {
            before,
            present,
            undone,
        })
    }

    /// The engine of the text as it is now: its answers and its modes.
    pub fn engine(&self) -> &Engine<'d>
        ensures { result.now ≡ present_of self.now }
    {
        &self.present
    }

    /// Puts octets in place of the `cut` octets of the text from place `at` on, and answers its new length. The text as it was
    /// is kept before it, and none is left to redo; of more than a hundred texts before it the first is given up. The work and
    /// its counters are those of `Engine::replace`. After an error all is as it was. An edit that is out of range or too long
    /// takes no memory.
    pub fn replace<L: Ledger, M: Ledger>(
        &mut self,
        alloc: Global,
        at: u64,
        cut: u64,
        put: &[u8],
        lexed: &mut Steps<L>,
        placed: &mut Steps<M>,
    ) -> Result<u64, EditStop>
        ensures edit { IsHistoryEdit (stop_of self.old.past.text at cut put.now)
            (with_text self.old (text_with self.old.past.text at cut put.now))
            self.old self.new result }
        ensures lexed { lexed.new ≤ lexed.old
            + (segment_count_of (text_with self.old.past.text at cut put.now) + 2) }
        ensures placed { placed.new ≤ placed.old
            + segment_count_of (text_with self.old.past.text at cut put.now) }
        // Where the context stays, the lexer is called for the stretch of the edit and for the context, and the walk for its rerun.
        ensures reach { let edit : Edit = record { at = at; cut = cut; put = put.now } in
            context_of (edited self.old.past.text edit) ≡ context_of self.old.past.text
            → IfOk result (λ _. lexed.new ≤ lexed.old + (reach_of self.old.past.text edit + 1)) }
        ensures rerun { let edit : Edit = record { at = at; cut = cut; put = put.now } in
            context_of (edited self.old.past.text edit) ≡ context_of self.old.past.text
            → IfOk result (λ _. placed.new ≤ placed.old
            + rerun_of self.old.directory self.old.past.text edit) }
        ensures bounded { let edit : Edit = record { at = at; cut = cut; put = put.now } in
            context_of (edited self.old.past.text edit) ≡ context_of self.old.past.text
            → IfOk result (λ _. IsRerunBounded self.old.directory self.old.past.text edit) }
        ensures unread { (stop_of self.old.past.text at cut put.now ≡ None)
            ⊎ ((lexed.new ≡ lexed.old) × (placed.new ≡ placed.old)) }
    {
        if let Some(stop) = stop_by(self.present.text_len(), at, cut, put.len() as u64) {
            return Err(stop);
        }
        let mut next = self.present.share()?;
        let length = next.replace(alloc, at, cut, put, lexed, placed)?;
        self.keep(next);
        Ok(length)
    }

    // Makes an edited version the present one.
    pub(crate) fn keep(&mut self, next: Engine<'d>)
        requires { next.directory ≡ self.old.directory }
        ensures { self.new ≡ with_text self.old next.entry.text }
    {
        let before = mem::replace(&mut self.present, next);
        let _given_up = self.before.push_back(before);
        self.undone.clear();
    }

    /// Goes back to the last text before, if there is one. It takes no memory, and nothing is read.
    pub fn undo(&mut self) -> Back
        ensures back { IsBack (undo_of self.old.past) self.old self.new result }
        ensures empty { (result ≡ Back.Empty) ↔ (self.old.past.before ≡ []) }
    {
        let Some(earlier) = self.before.pop_back() else {
            return Back::Empty;
        };
        let length = earlier.text_len();
        let present = mem::replace(&mut self.present, earlier);
        let _given_up = self.undone.push_front(present);
        Back::Done { length }
    }

    /// Goes on to the text that was undone last, if there is one. It takes no memory, and nothing is read.
    pub fn redo(&mut self) -> Back
        ensures back { IsBack (redo_of self.old.past) self.old self.new result }
        ensures empty { (result ≡ Back.Empty) ↔ (self.old.past.undone ≡ []) }
    {
        let Some(later) = self.undone.pop_front() else {
            return Back::Empty;
        };
        let length = later.text_len();
        let present = mem::replace(&mut self.present, later);
        let _given_up = self.before.push_back(present);
        Back::Done { length }
    }

    /// How many texts are before it, at most a hundred.
    pub fn past_len(&self) -> u32
        ensures length { result ≡ length self.now.past.before }
        ensures few { result ≤ 100 }
    {
        self.before.len() as u32
    }

    /// How many texts can be redone, at most a hundred.
    pub fn future_len(&self) -> u32
        ensures length { result ≡ length self.now.past.undone }
        ensures few { result ≤ 100 }
    {
        self.undone.len() as u32
    }
}
