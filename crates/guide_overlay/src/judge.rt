//! The judging of a guide's lines, one after another.
ghost use Rattle.std.specs.Prelude.{◌≡◌, ◌≤◌, None, Some, true, length, IfOk, slice_get};
ghost use Rattle.dir_compile.specs.Ordered.{IsInOrder};
ghost use Rattle.edi_octets.specs.Lines.{cells_of, lines_of};
ghost use Rattle.edi_octets.specs.declared.octets.TheConstants.{LONGEST_TEXT};
ghost use Rattle.edi_tables.specs.First.{IsVerdict, unless_faulty};
ghost use Rattle.guide_overlay.specs.Guide.{detail_kinds, guide_faults, head_kinds, is_named, last_of, line_in, line_kinds, sections_in};
ghost use Rattle.guide_overlay.specs.Guide.GuideLine.{Head, Under};
ghost use Rattle.guide_overlay.specs.Kept.{IsGuideReading, detail_seen, sections_after, sections_seen};
ghost use Rattle.guide_overlay.specs.Stop.{fault_in};

use crate::base::{base_kind, is_known};
use crate::line::{DetailText, LineRead, Topic, read_line};
use crate::sections::Reading;
use crate::stop::{GuideKind, GuideStop};
use dir_compile::Parts;
use edi_octets::{Cells, Lines};
use std::alloc::{AllocError, Global};

/// Reads a guide: its sections, or its first fault.
pub(crate) fn read_guide<'a>(
    alloc: Global,
    parts: &Parts,
    file: &'a [u8],
) -> Result<Reading<'a>, GuideStop>
    requires few { length file.now ≤ LONGEST_TEXT }
    requires ordered { IsInOrder parts.now }
    ensures reads { IsVerdict sections_seen fault_in result
        (unless_faulty (guide_faults parts.now (lines_of file.now)) (sections_in (lines_of file.now))) }
    ensures kept { IfOk result IsGuideReading }
{
    let mut reading = Reading::new(alloc);
    for line in Lines::of(file) {
        if let Some(kind) = judge_line(alloc, parts, &mut reading, line.octets)? {
            return Err(GuideStop::Fault {
                line: line.number,
                kind,
            });
        }
    }
    Ok(reading)
}

// The first rule that a line breaks, if it breaks one; else it joins those that were read.
fn judge_line<'a>(
    alloc: Global,
    parts: &Parts,
    reading: &mut Reading<'a>,
    octets: &'a [u8],
) -> Result<Option<GuideKind>, AllocError>
    requires ordered { IsInOrder parts.now }
    requires kept { IsGuideReading reading.old }
    ensures first { IfOk result (λ kind. kind
        ≡ slice_get (line_kinds parts.now (sections_seen reading.old) (cells_of octets.now)) 0) }
    ensures joins { IfOk result (λ kind. kind ≡ None → sections_seen reading.new
        ≡ sections_after (sections_seen reading.old) (line_in (cells_of octets.now))) }
    ensures kept { IfOk result (λ kind. kind ≡ None → IsGuideReading reading.new) }
{
    if Cells::of(octets).next().is_none() {
        return Ok(None);
    }
    match read_line(octets) {
        None => Ok(Some(GuideKind::BadLine)),
        Some(LineRead::Head { topic, name }) => judge_head(alloc, parts, reading, topic, name),
        Some(LineRead::Under { detail }) => judge_detail(parts, reading, detail),
    }
}

// The same for a head.
fn judge_head<'a>(
    alloc: Global,
    parts: &Parts,
    reading: &mut Reading<'a>,
    topic: Topic,
    name: &'a [u8],
) -> Result<Option<GuideKind>, AllocError>
    requires ordered { IsInOrder parts.now }
    requires kept { IsGuideReading reading.old }
    requires named { is_named topic name.now ≡ true }
    ensures first { IfOk result (λ kind. kind
        ≡ slice_get (head_kinds parts.now (sections_seen reading.old) topic name.now) 0) }
    ensures joins { IfOk result (λ kind. kind ≡ None → sections_seen reading.new
        ≡ sections_after (sections_seen reading.old) (Some (Head topic name.now))) }
    ensures kept { IfOk result (λ kind. kind ≡ None → IsGuideReading reading.new) }
{
    if !is_known(parts, topic, name) {
        return Ok(Some(GuideKind::UnknownName));
    }
    if reading.add_head(alloc, topic, name)? {
        Ok(None)
    } else {
        Ok(Some(GuideKind::Twice))
    }
}

// The same for a detail.
fn judge_detail<'a>(
    parts: &Parts,
    reading: &mut Reading<'a>,
    detail: DetailText<'a>,
) -> Result<Option<GuideKind>, AllocError>
    requires ordered { IsInOrder parts.now }
    requires kept { IsGuideReading reading.old }
    ensures first { IfOk result (λ kind. kind ≡ slice_get
        (detail_kinds parts.now (last_of (sections_seen reading.old)) (detail_seen detail.entry)) 0) }
    ensures joins { IfOk result (λ kind. kind ≡ None → sections_seen reading.new
        ≡ sections_after (sections_seen reading.old) (Some (Under (detail_seen detail.entry)))) }
    ensures kept { IfOk result (λ kind. kind ≡ None → IsGuideReading reading.new) }
{
    let Some((topic, name)) = reading.last else {
        return Ok(Some(GuideKind::BadLine));
    };
    if !detail.is_under(topic) {
        return Ok(Some(GuideKind::BadLine));
    }
    if !reading.add_detail(detail)? {
        return Ok(Some(GuideKind::Twice));
    }
    Ok(base_kind(parts, name, detail))
}
