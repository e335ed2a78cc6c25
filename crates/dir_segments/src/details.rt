//! The detail lines of an item, and its end.
ghost use Rattle.std.specs.Prelude.{◌≡◌, ℕ, List, Some, IsTrue};
ghost use Rattle.std.specs.List.{flat_map};
ghost use Rattle.std.specs.Cmp.Lexicographic.{pointwise};
ghost use Rattle.edi_tables.specs.First.{IsVerdict, unless_faulty};
ghost use Rattle.edi_octets.specs.DirStop.{fault_in};
ghost use Rattle.edi_octets.specs.Left.{line_shown, body_left};
ghost use Rattle.edi_octets.specs.Profile.{fields_of};
ghost use Rattle.dir_segments.specs.Parts.{Passes, is_composite_form, part_in};
ghost use Rattle.dir_segments.specs.Segments as segments;

use crate::fields::{is_item_line, read_element};
use crate::known::KnownComposites;
use edi_octets::{Body, DirKind, DirStop, LineText, is_element_code};
use edi_tables::{ItemDef, PartDef};
use std::alloc::Global;

/// Reads the detail lines of an item, which come before the next item line: the parts that they repeat.
pub(crate) fn read_details(
    alloc: Global,
    below_composite: bool,
    behind: Body<'_>,
) -> Result<Vec<PartDef>, DirStop>
    ensures { let details = segments.details_of (body_left behind.entry) in
        IsVerdict (λ parts. parts.items) fault_in result
        (unless_faulty (flat_map (segments.detail_faults below_composite) details)
        (segments.repeated_parts details)) }
{
    let mut parts = Vec::new(alloc);
    for line in behind {
        if is_item_line(&line) {
            break;
        }
        if !is_part_line(&line) {
            continue;
        }
        let part = read_repeated(below_composite, &line)?;
        parts.push(part)?;
    }
    Ok(parts)
}

/// Whether an item is a composite.
pub(crate) fn is_composite_item(item: &ItemDef) -> bool
    ensures { (fields : List (List ℕ)) → (reps : ℕ) → segments.item_in fields reps ≡ Some item.now
        → result ≡ is_composite_form fields }
{
    matches!(item, ItemDef::Composite { .. })
}

/// Judges the end of an item: where its composite is known, its part lines are exactly that composite's parts.
pub(crate) fn judge_end(
    known: &KnownComposites<'_>,
    line: &LineText<'_>,
    item: &ItemDef,
    parts: &[PartDef],
) -> Result<(), DirStop>
    ensures { (fields : List (List ℕ)) → (reps : ℕ) → segments.item_in fields reps ≡ Some item.now
        → Passes result (segments.item_end_faults known.now.composites.now (line_shown line.now)
        fields parts.now) }
{
    let ItemDef::Composite { code, .. } = item else {
        return Ok(());
    };
    if parts.is_empty() {
        return Ok(());
    }
    match known.find(code) {
        Some(composite) if !are_same(parts, composite.parts.items()) => {
            Err(line.breaks(DirKind::PartsDiffer))
        }
        _ => Ok(()),
    }
}

/// Whether these are the same parts, in order.
fn are_same(parts: &[PartDef], others: &[PartDef]) -> bool
    ensures { result ≡ pointwise segments.is_same_part parts.now others.now }
{
    parts == others
}

/// Whether a detail line is a part line: its first field is an element code.
fn is_part_line(line: &LineText<'_>) -> bool
    ensures { result ≡ segments.is_part_line (line_shown line.now) }
{
    is_element_code(line.first_field())
}

/// Reads a part line below an item: the part that it repeats.
fn read_repeated(below_composite: bool, line: &LineText<'_>) -> Result<PartDef, DirStop>
    requires { IsTrue (segments.is_part_line (line_shown line.now)) }
    ensures { IsVerdict (λ part. Some part) fault_in result
        (unless_faulty (segments.detail_faults below_composite (line_shown line.now))
        (part_in (fields_of line.now.octets.now))) }
{
    match read_whole_element(line) {
        Some(part) if below_composite => Ok(part),
        _ => Err(line.breaks(DirKind::BadLine)),
    }
}

/// The part that a line without a position defines: an element code, a name, a status and a representation.
fn read_whole_element(line: &LineText<'_>) -> Option<PartDef>
    ensures { result ≡ part_in (fields_of line.now.octets.now) }
{
    let element = read_element(line.fields())?;
    Some(PartDef {
        code: element.code,
        must: element.must?,
        repr: element.repr?,
    })
}
