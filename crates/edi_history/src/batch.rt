//! Batches of edits, which are made or refused as a whole.
ghost use Rattle.std.specs.Prelude.{◌≡◌, ◌+◌, ◌-◌, ◌≤◌, ◌⊎◌, IfOk, None, length};
ghost use Rattle.edi_history.specs.Batch.{IsBatch, batch_stop, text_after_batch};
ghost use Rattle.edi_history.specs.Bounds.{AreEditsBounded, readings_after, segments_after};
ghost use Rattle.edi_history.specs.Reading.{with_text};

use crate::History;
use crate::stop::BatchStop;
use edi_engine::{EditStop, Engine, stop_by};
use edit_script::EditSpec;
use std::alloc::{AllocError, Global};
use std::sync::ledger::Ledger;
use step_counter::Steps;

impl<'d> History<'d> {
    /// Makes 1 to 16 edits in their order, each of the text that those before it leave, and answers the length of the last text.
    /// They are one step: the text as it was is kept before it, and none is left to redo. Each call of the lexer and of the walk
    /// is counted. After an error all is as it was. An edit that is out of range or too long is found before any is made, and
    /// takes no memory.
    pub fn batch<L: Ledger, M: Ledger>(
        &mut self,
        alloc: Global,
        edits: &[EditSpec],
        lexed: &mut Steps<L>,
        placed: &mut Steps<M>,
    ) -> Result<u64, BatchStop>
        requires some { 1 ≤ length edits.now }
        requires few { length edits.now ≤ 16 }
        ensures batch { IsBatch (batch_stop self.old.past.text edits.now)
            (with_text self.old (text_after_batch self.old.past.text edits.now))
            self.old self.new result }
        ensures lexed { lexed.new ≤ lexed.old + readings_after self.old.past.text edits.now }
        ensures placed { placed.new ≤ placed.old + segments_after self.old.past.text edits.now }
        // Both counters rise by sums of numbers that each meet the bounds of an edit.
        ensures bounded { IfOk result
            (λ _. AreEditsBounded self.old.directory self.old.past.text edits.now
            (lexed.new - lexed.old) (placed.new - placed.old)) }
        ensures unread { (batch_stop self.old.past.text edits.now ≡ None)
            ⊎ ((lexed.new ≡ lexed.old) × (placed.new ≡ placed.old)) }
    {
        if let Some((edit, why)) = first_stop(&self.present, edits) {
            return Err(match why {
                EditStop::Range => BatchStop::Range { edit },
                EditStop::TooLong => BatchStop::TooLong { edit },
                EditStop::Memory => BatchStop::Memory,
            });
        }
        let mut next = self.present.share()?;
        make_edits(&mut next, alloc, edits, lexed, placed)?;
        let length = next.text_len();
        self.keep(next);
        Ok(length)
    }
}

// The first edit that isn't made of the text of an engine, by its number from 1, and why. It is judged by lengths alone.
fn first_stop(engine: &Engine<'_>, edits: &[EditSpec]) -> Option<(u32, EditStop)>
    requires { length edits.now ≤ 16 }
    ensures { result ≡ batch_stop engine.now.text edits.now }
{
    let mut length = engine.text_len();
    for (i, edit) in edits.iter().enumerate() {
        let put = edit.put.octets().len() as u64;
        if let Some(why) = stop_by(length, edit.at, edit.cut, put) {
            return Some((i as u32 + 1, why));
        }
        length = length - edit.cut + put;
    }
    None
}

// Makes edits that may all be made.
fn make_edits<L: Ledger, M: Ledger>(
    engine: &mut Engine<'_>,
    alloc: Global,
    edits: &[EditSpec],
    lexed: &mut Steps<L>,
    placed: &mut Steps<M>,
) -> Result<(), AllocError>
    requires { batch_stop engine.old.text edits.now ≡ None }
    ensures directory { engine.new.directory ≡ engine.old.directory }
    ensures text { IfOk result
        (λ _. engine.new.text ≡ text_after_batch engine.old.text edits.now) }
    ensures lexed { lexed.new ≤ lexed.old + readings_after engine.old.text edits.now }
    ensures placed { placed.new ≤ placed.old + segments_after engine.old.text edits.now }
    ensures bounded { IfOk result
        (λ _. AreEditsBounded engine.old.directory engine.old.text edits.now
        (lexed.new - lexed.old) (placed.new - placed.old)) }
{
    for edit in edits {
        let put = edit.put.octets();
        match engine.replace(alloc, edit.at, edit.cut, put, lexed, placed) {
            Ok(_) => {}
            // Each may be made, so only memory is refused.
            Err(_) => return Err(AllocError),
        }
    }
    Ok(())
}
