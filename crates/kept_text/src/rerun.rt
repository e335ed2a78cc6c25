//! The records after an edit's stretch that are placed again, up to where the mode is what it was.
ghost use Rattle.std.specs.Prelude.{◌≡◌, ◌+◌, ◌-◌, ◌≤◌, ◌⊎◌, true, false, length, take, drop, IfOk};
ghost use Rattle.edi_octets.specs.declared.octets.TheConstants.{LONGEST_TEXT};
ghost use Rattle.segment_records.specs.Records.{IsModeOf};
ghost use Rattle.segment_records.specs.Bounds.{bounds_message as bounds_message_by};
ghost use Rattle.kept_text.specs.Again.{AreInner, AreOthers, StaysAfter, last_mode, placed_from};

use crate::read::mode_after;
use dir_compile::Directory;
use segment_records::{Mode, Record, bounds_message};
use seq_tree::Seq;
use std::alloc::{AllocError, Global};
use std::sync::ledger::Ledger;
use step_counter::Steps;

/// Records that were placed again, and the number of the first record after them, from which on all stay as they are.
#[derive(Drop)]
pub(crate) struct Rerun {
    pub(crate) records: Vec<Record>,
    pub(crate) next: usize,
}

/// Places the records from number `next` on again, after the mode that the segments before them leave now, up to the first
/// before which the mode is what it was, or whose step doesn't look at it. `from` octets are before them. Each call of the
/// walk is counted. Only want of memory is an error.
pub(crate) fn place_again<'a, L: Ledger>(
    alloc: Global,
    directory: &Directory,
    before: &'a Mode,
    old: &'a Seq<Record>,
    next: usize,
    from: usize,
    placed: &mut Steps<L>,
) -> Result<Rerun, AllocError>
    requires within { next ≤ length old.now }
    requires short { from + (length old.now - next) ≤ LONGEST_TEXT }
    // No node was counted more often than there are octets before.
    requires mode { IsModeOf directory.now from before.now }
    ensures next { IfOk result (λ rerun. rerun.next ≡ next + length rerun.records.items) }
    ensures within { IfOk result (λ rerun. rerun.next ≤ length old.now) }
    ensures again { IfOk result (λ rerun. rerun.records.items
        ≡ placed_from directory.now before.now
        (take (length rerun.records.items) (drop next old.now))) }
    ensures stays { IfOk result (λ rerun.
        StaysAfter (last_mode before.now rerun.records.items) old.now rerun.next) }
    ensures inner { IfOk result (λ rerun. AreInner old.now next (length rerun.records.items)) }
    ensures others { IfOk result (λ rerun.
        AreOthers directory.now before.now old.now next (length rerun.records.items)) }
    ensures placed { IfOk result (λ rerun. placed.new ≤ placed.old + length rerun.records.items) }
    ensures placed_most { placed.new ≤ placed.old + (length old.now - next) }
{
    // So the number after the last of them fits.
    let _len = old.len();
    let mut again: Vec<Record> = Vec::new(alloc);
    let mut kept = mode_after_first(before, old, next);
    for record in old.iter_from(next) {
        let mode = mode_after(before, &again);
        if stays_after(mode, kept, record) {
            let next = next + again.len();
            return Ok(Rerun {
                records: again,
                next,
            });
        }
        let placed_again = record.placed_again(alloc, directory, mode, placed)?;
        again.push(placed_again)?;
        kept = record.mode();
    }
    let next = next + again.len();
    Ok(Rerun {
        records: again,
        next,
    })
}

/// The mode after the first `count` of these records, or where there are none, the one before.
pub(crate) fn mode_after_first<'a>(
    before: &'a Mode,
    records: &'a Seq<Record>,
    count: usize,
) -> &'a Mode
    requires { count ≤ length records.now }
    ensures { result.now ≡ last_mode before.now (take count records.now) }
{
    if count == 0 {
        return before;
    }
    let Some(record) = records.iter_from(count - 1).next() else {
        unreachable!();
    };
    record.mode()
}

// Whether a record stays as it is after this mode: the one that was before it is the same, or its step doesn't look at it.
fn stays_after(mode: &Mode, kept: &Mode, segment: &Record) -> bool
    ensures stays { result ≡ true
        → (mode.now ≡ kept.now) ⊎ (bounds_message_by segment.now.tag ≡ true) }
    ensures other { result ≡ false → mode.now ≡ kept.now → ⊥ }
    ensures inner { result ≡ false → bounds_message_by segment.now.tag ≡ false }
{
    mode.same(kept) || bounds_message(segment.tag())
}
