//! The stretch of an edit: where it begins, and the records of its segments.
ghost use Rattle.std.specs.Prelude.{◌≡◌, ◌+◌, ◌-◌, ◌<◌, ◌≤◌, ℕ, ◌++◌, None, Some, drop, length, slice_get, take, IfNone, IfOk, IfSome};
ghost use Rattle.std.specs.Option.{ForSome};
ghost use Rattle.edi_octets.specs.declared.octets.TheConstants.{LONGEST_TEXT};
ghost use Rattle.kept_text.specs.Again.{IsEndOf, NoneBefore, last_mode, one_where_some};
ghost use Rattle.seg_lexer.specs.Segments.{IsBoundary, boundaries_of, ends_of};
ghost use Rattle.seg_lexer.specs.Service.{IsUsable};
ghost use Rattle.seg_lexer.specs.Whole.{at_start};
ghost use Rattle.segment_records.specs.Records.{IsModeOf, records_from};
ghost use Rattle.segment_records.specs.Segments.{segments_by};
ghost use Rattle.segment_records.specs.WalkedSegments.{octets_in};

use crate::read::mode_after;
use clean_segments::{CleanSegments, OctetKinds};
use dir_compile::Directory;
use edi_octets::Octets;
use seg_lexer::{Context, Lexed, next_segment};
use segment_records::{KnownSteps, Mode, Record, SegmentPlace};
use seq_tree::{Located, Seq};
use std::alloc::{AllocError, Global};
use std::marker::Brand;
use std::sync::ledger::{Blank, Ledger};
use step_counter::Steps;

/// Where an edit is: `put` octets are put in place of the `cut` octets from the place `at` on.
#[derive(Clone, Copy, Debug)]
pub(crate) struct Span {
    pub(crate) at: usize,
    pub(crate) cut: usize,
    pub(crate) put: usize,
}

/// What was read of a text that was edited: the records from the stretch's beginning on, the boundary after them, and the
/// number of the old record that comes next. There is none where the text was read to its end.
#[derive(Drop)]
pub(crate) struct Stretch {
    pub(crate) records: Vec<Record>,
    pub(crate) to: usize,
    pub(crate) next: Option<usize>,
}

/// How many records are before an edit's stretch, and the boundary that it begins at: the last one that isn't past the
/// edit's place, and not before the body.
pub(crate) fn stretch_start(records: &Seq<Record>, body: usize, at: usize) -> (usize, usize)
    requires short { body + octets_in records.now ≤ LONGEST_TEXT }
    ensures within { result.0 ≤ length records.now }
    ensures from { result.1 ≡ body + octets_in (take result.0 records.now) }
    ensures early { at < body → result.0 ≡ 0 }
    ensures not_past { body ≤ at → result.1 ≤ at }
    // The record after it ends past the edit's place.
    ensures last { result.0 < length records.now
        → body ≤ at
        → at < body + octets_in (take (result.0 + 1) records.now) }
{
    if at < body {
        return (0, body);
    }
    let total = records.total() as usize;
    if total <= at - body {
        return (records.len(), body + total);
    }
    let located = locate(records, at - body);
    (located.place, at - located.offset as usize)
}

/// The number of the record after the one that ended, before an edit, where this place of the edited text is now. There is
/// none where none of the records ended there.
pub(crate) fn record_after(
    records: &Seq<Record>,
    body: usize,
    span: Span,
    end: usize,
) -> Option<usize>
    requires short { body + octets_in records.now ≤ LONGEST_TEXT }
    requires end { end ≤ LONGEST_TEXT }
    requires cut { span.cut ≤ LONGEST_TEXT }
    ensures after { IfSome result (λ j. IsEndOf records.now body span end j) }
    ensures none { IfNone result ((j : ℕ) → IsEndOf records.now body span end j → ⊥) }
{
    if end < span.at || end - span.at < span.put {
        return None;
    }
    let old = end - span.put + span.cut;
    if old < body || records.total() as usize <= old - body {
        return None;
    }
    // So the number after one of them fits.
    let _len = records.len();
    let located = locate(records, old - body);
    if located.offset as usize + 1 < located.item.octets() as usize {
        return None;
    }
    Some(located.place + 1)
}

/// The record whose stretch an octet is in, counted from the first record's on, its number, and the octet's place there.
fn locate(records: &Seq<Record>, octet: usize) -> Located<'_, Record>
    requires within { octet < octets_in records.now }
    ensures is { slice_get records.now result.place ≡ Some result.item.now }
    ensures offset { octets_in (take result.place records.now) + result.offset ≡ octet }
    ensures within { result.offset < result.item.now.octets }
{
    locate_counted::<Brand>(records, octet, Blank::new(1))
}

fn locate_counted<L: Ledger>(
    records: &Seq<Record>,
    octet: usize,
    blank: Blank,
) -> Located<'_, Record>
    requires name { blank.name ≡ L.name }
    requires parts { blank.parts ≡ L.parts }
    requires some { 0 < blank.parts }
    requires within { octet < octets_in records.now }
    ensures is { slice_get records.now result.place ≡ Some result.item.now }
    ensures offset { octets_in (take result.place records.now) + result.offset ≡ octet }
    ensures within { result.offset < result.item.now.octets }
{
    let mut visited = Steps::<L>::start(blank);
    records.locate(octet as u64, &mut visited)
}

/// Reads the segments of an edited text from the boundary `from` on, after a mode, up to the first one that ends where a
/// segment of the text before the edit did, moved by the edit; or else all that follow. `old` are the records of the text
/// before. Each call of the lexer and of the walk is counted. Only want of memory is an error.
pub(crate) fn read_stretch<O: Octets, L: Ledger, M: Ledger>(
    alloc: Global,
    directory: &Directory,
    context: &Context,
    kinds: OctetKinds,
    before: &Mode,
    text: &O,
    from: usize,
    old: &Seq<Record>,
    span: Span,
    lexed: &mut Steps<L>,
    placed: &mut Steps<M>,
) -> Result<Stretch, AllocError>
    requires usable { IsUsable context.now.service (O.octets text.now) }
    requires short { length (O.octets text.now) ≤ LONGEST_TEXT }
    requires boundary { IsBoundary context.now.service (O.octets text.now) from }
    // No node was counted more often than there are octets before.
    requires mode { IsModeOf directory.now from before.now }
    requires old { context.now.service.body + octets_in old.now ≤ LONGEST_TEXT }
    requires cut { span.cut ≤ LONGEST_TEXT }
    // The boundary after them has a greater number, by one for each record.
    ensures number { (k : ℕ)
        → slice_get (boundaries_of context.now.service (O.octets text.now)) k ≡ Some from
        → IfOk result (λ s. slice_get (boundaries_of context.now.service (O.octets text.now))
        (k + length s.records.items) ≡ Some s.to) }
    // With the records of the octets after it they are all records from `from` on.
    ensures records { IfOk result (λ s. s.records.items
        ++ records_from directory.now context.now (last_mode before.now s.records.items)
        (drop s.to (O.octets text.now))
        ≡ records_from directory.now context.now before.now (drop from (O.octets text.now))) }
    ensures mode { IfOk result
        (λ s. IsModeOf directory.now s.to (last_mode before.now s.records.items)) }
    ensures kept { IfOk result (λ s. ForSome s.next
        (λ j. IsEndOf old.now context.now.service.body span (s.to - 1) j)) }
    ensures some { IfOk result (λ s. ForSome s.next (λ j. 0 < length s.records.items)) }
    // Where no old record comes next, all segments were read.
    ensures all { (k : ℕ)
        → slice_get (boundaries_of context.now.service (O.octets text.now)) k ≡ Some from
        → IfOk result (λ s. s.next ≡ None → k + length s.records.items
        ≡ length (ends_of context.now.service (O.octets text.now))) }
    // None but the last of them ends where an old one did.
    ensures apart { (k : ℕ)
        → slice_get (boundaries_of context.now.service (O.octets text.now)) k ≡ Some from
        → IfOk result (λ s. NoneBefore old.now context.now.service.body span
        (ends_of context.now.service (O.octets text.now))
        (k, k + length s.records.items - one_where_some s.next)) }
    ensures lexed { IfOk result (λ s. lexed.new
        ≤ lexed.old + (length s.records.items + (1 - one_where_some s.next))) }
    ensures placed { IfOk result (λ s. placed.new ≤ placed.old + length s.records.items) }
    ensures lexed_most { lexed.new ≤ lexed.old + (length
        (segments_by (at_start context.now.service) (drop from (O.octets text.now))) + 1) }
    ensures placed_most { placed.new ≤ placed.old
        + length (segments_by (at_start context.now.service) (drop from (O.octets text.now))) }
{
    let mut records = Vec::new(alloc);
    let mut clean = CleanSegments::forgetful(alloc, kinds);
    let mut known = KnownSteps::forgetful(alloc);
    let mut to = from;
    while let Lexed::Ended { start, end } = next_segment(text, &context.service, to, lexed) {
        let place = SegmentPlace {
            from: to,
            start,
            end,
        };
        let mode = mode_after(before, &records);
        let record = Record::read(
            alloc, directory, context, mode, text, place, &mut clean, &mut known, placed,
        )?;
        records.push(record)?;
        to = end + 1;
        let next = record_after(old, context.service.body, span, end);
        if next.is_some() {
            return Ok(Stretch { records, to, next });
        }
    }
    Ok(Stretch {
        records,
        to,
        next: None,
    })
}
