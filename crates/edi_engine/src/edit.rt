//! Edits of the text of an engine.
ghost use Rattle.std.specs.Prelude.{◌≡◌, ◌+◌, ◌≤◌, ◌⊎◌, IfOk, None};
ghost use Rattle.seg_lexer.specs.Context.{context_of};
ghost use Rattle.segment_records.specs.Count.{segment_count_of};
ghost use Rattle.edi_engine.specs.Edit.{IsEdit, stop_by, stop_of};
ghost use Rattle.kept_text.specs.Edit.{Edit, edited, reading_with, text_with};
ghost use Rattle.kept_text.specs.Rerun.{IsRerunBounded, rerun_of};
ghost use Rattle.kept_text.specs.Stretch.{reach_of};

use crate::Engine;
use edi_octets::LONGEST_TEXT;
use std::alloc::{AllocError, Global};
use std::sync::ledger::Ledger;
use step_counter::Steps;
use thiserror::Error;

/// Why the text of an engine was not edited.
#[derive(Clone, Copy, Debug, PartialEq, Eq, Error)]
pub enum EditStop {
    #[error("the edit reaches past the end of the text")]
    Range,
    #[error("the text would have over 4,194,304 octets")]
    TooLong,
    #[error("out of memory")]
    Memory,
}

impl From<AllocError> for EditStop {
    ghost use Rattle.std.specs.Prelude.{◌≡◌};
    ghost use Rattle.edi_engine.specs.declared.edit.EditStop.TheVariants.{Memory};

    ghost from_gives = { λ _ e. e ≡ Memory };

    fn from(_: AllocError) -> EditStop {
        EditStop::Memory
    }
}

impl<'d> Engine<'d> {
    /// Puts octets in place of the `cut` octets of the text from place `at` on, and answers its new length. Where the context of
    /// the text stays, the segments that the edit touches are read again, and later ones are placed again up to the first mode
    /// that is what it was; else the whole text is read again. Each call of the lexer and of the walk is counted. After an error
    /// all is as it was.
    pub fn replace<L: Ledger, M: Ledger>(
        &mut self,
        alloc: Global,
        at: u64,
        cut: u64,
        put: &[u8],
        lexed: &mut Steps<L>,
        placed: &mut Steps<M>,
    ) -> Result<u64, EditStop>
        ensures edit { IsEdit (stop_of self.old.text at cut put.now)
            (reading_with self.old at cut put.now) self.old self.new result }
        ensures lexed { lexed.new ≤ lexed.old
            + (segment_count_of (text_with self.old.text at cut put.now) + 2) }
        ensures placed { placed.new ≤ placed.old
            + segment_count_of (text_with self.old.text at cut put.now) }
        // Where the context stays, the lexer is called for the stretch of the edit and for the context, and the walk for its rerun.
        ensures reach { let edit : Edit = record { at = at; cut = cut; put = put.now } in
            context_of (edited self.old.text edit) ≡ context_of self.old.text
            → IfOk result (λ _. lexed.new ≤ lexed.old + (reach_of self.old.text edit + 1)) }
        ensures rerun { let edit : Edit = record { at = at; cut = cut; put = put.now } in
            context_of (edited self.old.text edit) ≡ context_of self.old.text
            → IfOk result (λ _. placed.new ≤ placed.old
            + rerun_of self.old.directory self.old.text edit) }
        ensures bounded { let edit : Edit = record { at = at; cut = cut; put = put.now } in
            context_of (edited self.old.text edit) ≡ context_of self.old.text
            → IfOk result (λ _. IsRerunBounded self.old.directory self.old.text edit) }
        ensures unread { (stop_of self.old.text at cut put.now ≡ None)
            ⊎ ((lexed.new ≡ lexed.old) × (placed.new ≡ placed.old)) }
    {
        if let Some(stop) = stop_by(self.text_len(), at, cut, put.len() as u64) {
            return Err(stop);
        }
        let kept = &self.kept;
        self.kept = kept.edited(alloc, at as usize, cut as usize, put, lexed, placed)?;
        Ok(self.text_len())
    }
}

/// Why an edit isn't made, if it isn't, by the length of the text and the number of octets that are put. It takes no memory.
pub fn stop_by(length: u64, at: u64, cut: u64, put: u64) -> Option<EditStop>
    requires { length ≤ LONGEST_TEXT }
    ensures { result ≡ stop_by length at cut put }
{
    if at > length || cut > length - at {
        Some(EditStop::Range)
    } else if put > LONGEST_TEXT as u64 || length - cut + put > LONGEST_TEXT as u64 {
        Some(EditStop::TooLong)
    } else {
        None
    }
}
