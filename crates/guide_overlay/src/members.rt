//! The composites and segments that a guide makes stricter.
ghost use Rattle.std.specs.Prelude.{◌≡◌, ◌≤◌, IfOk, find, map, true};
ghost use Rattle.std.specs.List.{enumerate_from};
ghost use Rattle.std.specs.Option.{option_map};
ghost use Rattle.dir_compile.specs.Compile.{composite_name, segment_name};
ghost use Rattle.dir_compile.specs.Directory.{IsDirectory};
ghost use Rattle.edi_tables.specs.Forms.{is_composite_code, reps_of};
ghost use Rattle.edi_tables.specs.Tag.{is_tag_of};
ghost use Rattle.guide_overlay.specs.Fitting.{AreItemsFitting, IsItemWithin};
ghost use Rattle.guide_overlay.specs.Guide.{details_for, is_item as is_item_of, is_part as is_part_of, item_by_line as item_by_line_of, item_with as item_with_of, narrowed_composite, narrowed_item, narrowed_part, narrowed_segment, part_by_line as part_by_line_of};
ghost use Rattle.guide_overlay.specs.Kept.{IsGuideReading, detail_seen, sections_seen};
ghost use Rattle.guide_overlay.specs.Narrowing.{AreNarrowing};
ghost use Rattle.guide_overlay.specs.declared.line.Topic.TheVariants.{OfSegment};

use crate::line::DetailText;
use crate::sections::Reading;
use dir_compile::Parts;
use edi_tables::{CompositeDef, ItemDef, List, PartDef, SegmentDef};
use std::alloc::{AllocError, Global};

/// The composites of a directory, each as the guide has it.
pub(crate) fn narrow_composites(
    alloc: Global,
    parts: &Parts,
    reading: &Reading<'_>,
) -> Result<List<CompositeDef>, AllocError>
    requires directory { IsDirectory parts.now }
    requires kept { IsGuideReading reading.now }
    ensures { IfOk result (λ made. made
        ≡ map (narrowed_composite (sections_seen reading.now)) parts.now.composites) }
{
    let composites = parts.composites.items();
    let mut made = Vec::with_capacity(alloc, composites.len())?;
    for composite in composites {
        made.push(narrow_composite(alloc, reading, composite)?)?;
    }
    Ok(List::of(made))
}

fn narrow_composite(
    alloc: Global,
    reading: &Reading<'_>,
    composite: &CompositeDef,
) -> Result<CompositeDef, AllocError>
    requires kept { IsGuideReading reading.now }
    requires named { is_composite_code (composite_name composite.now) ≡ true }
    ensures { IfOk result (λ made. made
        ≡ narrowed_composite (sections_seen reading.now) composite.now) }
{
    let details = reading.details_for(&composite.code.octets);
    Ok(CompositeDef {
        code: composite.code,
        parts: narrow_parts(alloc, composite.parts.items(), details)?,
    })
}

// Parts, each as its line has it.
fn narrow_parts(
    alloc: Global,
    parts: &[PartDef],
    details: &[DetailText<'_>],
) -> Result<List<PartDef>, AllocError>
    ensures { IfOk result (λ made. made
        ≡ map (narrowed_part (map detail_seen details.now)) (enumerate_from 1 parts.now)) }
{
    let mut made = Vec::with_capacity(alloc, parts.len())?;
    for (i, part) in parts.iter().enumerate() {
        made.push(part_by_line(*part, part_line(details, i as u64 + 1)))?;
    }
    Ok(List::of(made))
}

// The line of that part, if there is one.
fn part_line<'a>(details: &[DetailText<'a>], i: u64) -> Option<DetailText<'a>>
    ensures { result ≡ find (λ detail. is_part_of i (detail_seen detail)) details.now }
{
    details.iter().copied().find(|detail| is_part(*detail, i))
}

fn is_part(detail: DetailText<'_>, i: u64) -> bool
    ensures { result ≡ is_part_of i (detail_seen detail.entry) }
{
    match detail {
        DetailText::Part { part, .. } => part == i,
        _ => false,
    }
}

fn part_by_line(part: PartDef, line: Option<DetailText<'_>>) -> PartDef
    ensures { result ≡ part_by_line_of part (option_map detail_seen line.entry) }
{
    match line {
        Some(DetailText::Part { must, .. }) => PartDef { must, ..part },
        _ => part,
    }
}

/// The segments of a directory, each as the guide has it.
pub(crate) fn narrow_segments(
    alloc: Global,
    parts: &Parts,
    reading: &Reading<'_>,
) -> Result<List<SegmentDef>, AllocError>
    requires directory { IsDirectory parts.now }
    requires kept { IsGuideReading reading.now }
    requires narrowing { AreNarrowing parts.now (sections_seen reading.now) }
    ensures { IfOk result (λ made. made
        ≡ map (narrowed_segment (sections_seen reading.now)) parts.now.segments) }
{
    let segments = parts.segments.items();
    let mut made = Vec::with_capacity(alloc, segments.len())?;
    for segment in segments {
        made.push(narrow_segment(alloc, reading, segment)?)?;
    }
    Ok(List::of(made))
}

fn narrow_segment(
    alloc: Global,
    reading: &Reading<'_>,
    segment: &SegmentDef,
) -> Result<SegmentDef, AllocError>
    requires kept { IsGuideReading reading.now }
    requires named { is_tag_of (segment_name segment.now) ≡ true }
    requires fitting { AreItemsFitting segment.now.items
        (details_for (sections_seen reading.now) OfSegment (segment_name segment.now)) }
    ensures { IfOk result (λ made. made
        ≡ narrowed_segment (sections_seen reading.now) segment.now) }
{
    let details = reading.details_for(&segment.tag.octets);
    Ok(SegmentDef {
        tag: segment.tag,
        items: narrow_items(alloc, segment.items.items(), details)?,
    })
}

// Items, each as its line has it.
fn narrow_items(
    alloc: Global,
    items: &[ItemDef],
    details: &[DetailText<'_>],
) -> Result<List<ItemDef>, AllocError>
    requires { AreItemsFitting items.now (map detail_seen details.now) }
    ensures { IfOk result (λ made. made
        ≡ map (narrowed_item (map detail_seen details.now)) (enumerate_from 1 items.now)) }
{
    let mut made = Vec::with_capacity(alloc, items.len())?;
    for (i, item) in items.iter().enumerate() {
        made.push(item_by_line(*item, item_line(details, i as u64 + 1)))?;
    }
    Ok(List::of(made))
}

// The line of that item, if there is one.
fn item_line<'a>(details: &[DetailText<'a>], i: u64) -> Option<DetailText<'a>>
    ensures { result ≡ find (λ detail. is_item_of i (detail_seen detail)) details.now }
{
    details.iter().copied().find(|detail| is_item(*detail, i))
}

fn is_item(detail: DetailText<'_>, i: u64) -> bool
    ensures { result ≡ is_item_of i (detail_seen detail.entry) }
{
    match detail {
        DetailText::Item { item, .. } => item == i,
        _ => false,
    }
}

fn item_by_line(item: ItemDef, line: Option<DetailText<'_>>) -> ItemDef
    requires { IsItemWithin item (option_map detail_seen line) }
    ensures { result ≡ item_by_line_of item (option_map detail_seen line.entry) }
{
    match line {
        Some(DetailText::Item { must, reps, .. }) => item_with(must, reps, item),
        _ => item,
    }
}

// An item with that status and that greatest number of repetitions.
fn item_with(must: bool, reps: u64, item: ItemDef) -> ItemDef
    requires { reps ≤ reps_of item }
    ensures { result ≡ item_with_of must reps item }
{
    let reps = reps.min(u64::from(item.reps())) as u8;
    match item {
        ItemDef::Alone { part, .. } => ItemDef::Alone {
            part: PartDef { must, ..part },
            reps,
        },
        ItemDef::Composite { code, .. } => ItemDef::Composite { code, must, reps },
    }
}
