//! The errors of a text, segment by segment, and all of them in order.
ghost use Rattle.std.specs.Prelude.{◌≡◌, ◌++◌, OnOk, IfOk};
ghost use Rattle.segment_records.specs.Errors.{segment_lines};
ghost use Rattle.segment_records.specs.Line.{local_seen};
ghost use Rattle.segment_records.specs.Look.{seen_of};
ghost use Rattle.std.specs.List.{enumerate_from, flat_map};
ghost use Rattle.std.specs.List.Sorted.{IsPermutation};
ghost use Rattle.error_ledger.specs.Order.{IsAscending};
ghost use Rattle.envelope_check.specs.Envelope.{envelope_errors_of};
ghost use Rattle.seg_lexer.specs.Context.{context_of};
ghost use Rattle.seg_lexer.specs.Segments.{tail_of};
ghost use Rattle.seg_lexer.specs.Service.{service_of};
ghost use Rattle.segment_records.specs.Count.{segment_count_of};
ghost use Rattle.segment_records.specs.Segments.{segments_of_text};
ghost use Rattle.segment_records.specs.Heads.{heads_of, marks_of};
ghost use Rattle.text_reading.specs.Errors.{advice_lines, errors_found, errors_of, first_segment, syntax_lines, tail_lines};

use crate::heads::head_of;
use crate::marks::KeptMarks;
use crate::opening::{put_advice, put_syntax, put_tail};
use crate::structure::put_structure;
use envelope_check::{Head, envelope_errors};
use error_ledger::{ErrorLine, order_errors};
use kept_text::KeptText;
use segment_records::WalkedSegment;
use std::alloc::{AllocError, Global};

/// Puts the local errors of a segment. Only want of memory is an error.
#[inline(always)]
pub(crate) fn put_local(
    seen: &WalkedSegment<'_>,
    list: &mut Vec<ErrorLine>,
) -> Result<(), AllocError>
    ensures { OnOk result (list.new.items ≡ list.old.items ++ local_seen (seen_of seen.now)) }
{
    for error in seen.record.local() {
        list.push(seen.error(error.element, error.component, error.kind))?;
    }
    Ok(())
}

/// All errors of the text, in ascending order. Only want of memory is an error. The work grows with the notable segments.
pub fn list_errors(kept: &KeptText<'_>, alloc: Global) -> Result<Vec<ErrorLine>, AllocError>
    ensures exact { IfOk result
        (λ list. list.items ≡ errors_of kept.now.directory kept.now.text) }
    ensures ascending { IfOk result (λ list. IsAscending list.items) }
    ensures same { IfOk result
        (λ list. IsPermutation (errors_found kept.now.directory kept.now.text) list.items) }
{
    let mut list = find_errors(kept, alloc)?;
    order_errors(&mut list)?;
    Ok(list)
}

// All errors, as they are found.
fn find_errors(kept: &KeptText<'_>, alloc: Global) -> Result<Vec<ErrorLine>, AllocError>
    ensures { IfOk result (λ list. list.items ≡ errors_found kept.now.directory kept.now.text) }
{
    let Found { heads, lines } = walk_notable(kept, alloc)?;
    let mut list = judge_envelopes(kept, heads, alloc)?;
    put_ends(kept, &mut list)?;
    put_first(kept, &mut list)?;
    put_lines(lines, &mut list)?;
    Ok(list)
}

// Room for so many heads is made at once, if there are as many segments.
const MANY_HEADS: u32 = 2_048;

// What one walk over the notable segments of a text finds: the heads, and the errors of each segment by itself and by its
// message.
struct Found<'k> {
    heads: Vec<Head<'k>>,
    lines: Vec<ErrorLine>,
}

// That of a text. The other segments are no heads and have no error.
fn walk_notable<'k>(kept: &'k KeptText<'_>, alloc: Global) -> Result<Found<'k>, AllocError>
    ensures heads { IfOk result (λ found. found.heads.items
        ≡ heads_of kept.now.directory (segments_of_text kept.now.text)) }
    ensures lines { IfOk result (λ found. let segments = segments_of_text kept.now.text in
        found.lines.items
        ≡ flat_map (segment_lines kept.now.directory (context_of kept.now.text) segments)
        (enumerate_from 0 segments)) }
{
    let directory = kept.directory();
    let room = kept.segment_count().min(MANY_HEADS);
    let mut heads = Vec::with_capacity(alloc, room as usize)?;
    let mut lines = Vec::new(alloc);
    for seen in kept.notable_segments() {
        put_structure(alloc, directory, &seen, &mut lines)?;
        put_local(&seen, &mut lines)?;
        if let Some(head) = head_of(&seen) {
            heads.push(head)?;
        }
    }
    Ok(Found { heads, lines })
}

// The errors of the envelopes of a text with these heads.
fn judge_envelopes(
    kept: &KeptText<'_>,
    heads: Vec<Head<'_>>,
    alloc: Global,
) -> Result<Vec<ErrorLine>, AllocError>
    requires { heads.items ≡ heads_of kept.now.directory (segments_of_text kept.now.text) }
    ensures { IfOk result (λ errors. let segments = segments_of_text kept.now.text in
        errors.items
        ≡ envelope_errors_of (heads_of kept.now.directory segments) (marks_of segments)) }
{
    let mut marks = KeptMarks::of(kept);
    envelope_errors(alloc, &heads, kept.segment_count(), &mut marks)
}

// Puts what is wrong before the first segment of the text and after the last.
fn put_ends(kept: &KeptText<'_>, list: &mut Vec<ErrorLine>) -> Result<(), AllocError>
    ensures { OnOk result (let text = kept.now.text in
        list.new.items ≡ list.old.items ++ advice_lines (context_of text).service.sound
        ++ tail_lines (segment_count_of text) (tail_of (service_of text) text)) }
{
    let service = kept.service();
    put_advice(service, list)?;
    put_tail(
        &kept.whole(),
        service,
        kept.last_boundary(),
        kept.segment_count(),
        list,
    )
}

// Puts what is wrong with the syntax that the first segment names.
fn put_first(kept: &KeptText<'_>, list: &mut Vec<ErrorLine>) -> Result<(), AllocError>
    ensures { OnOk result (list.new.items
        ≡ list.old.items ++ syntax_lines (first_segment kept.now.text)) }
{
    put_syntax(&kept.whole(), kept.segments().next(), list)
}

/// Puts these errors at the end. Most often one of the lists is empty, and nothing is copied. Only want of memory is an error.
pub(crate) fn put_lines(lines: Vec<ErrorLine>, list: &mut Vec<ErrorLine>) -> Result<(), AllocError>
    ensures { OnOk result (list.new.items ≡ list.old.items ++ lines.items) }
{
    if list.is_empty() {
        *list = lines;
        return Ok(());
    }
    list.extend_from_slice(&lines)
}
