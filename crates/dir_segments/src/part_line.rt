//! Lines of parts and items, judged after the position before them.
ghost use Rattle.std.specs.Prelude.{◌≡◌, Some};
ghost use Rattle.edi_tables.specs.First.{IsVerdict, unless_faulty};
ghost use Rattle.edi_octets.specs.DirStop.{fault_in};
ghost use Rattle.edi_octets.specs.Left.{line_shown};
ghost use Rattle.edi_octets.specs.Profile as profile;
ghost use Rattle.dir_segments.specs.Parts as parts;

use crate::fields::{ElementFields, fields_past_position, read_element};
use edi_octets::{DirKind, DirStop, LineText, is_greater, read_position};
use edi_tables::PartDef;

/// How many digits a position has.
pub(crate) const POSITION_DIGITS: usize = 3;

/// Reads a part line after the position before: its position and its part.
pub(crate) fn read_part(before: Option<u64>, line: &LineText<'_>) -> Result<(u64, PartDef), DirStop>
    ensures { let shown = line_shown line.now in
        parts.GivesPlaced result (parts.part_faults before shown)
        (profile.position_of shown) (parts.part_in (parts.fields_past_position shown)) }
{
    let Some(position) = read_position(line, POSITION_DIGITS) else {
        return Err(line.breaks(DirKind::BadLine));
    };
    let Some(element) = read_element(fields_past_position(line)) else {
        return Err(line.breaks(DirKind::BadLine));
    };
    let part = judge_element(before, position, line, &element)?;
    Ok((position, part))
}

/// Judges the data element of a line with this position: its part.
pub(crate) fn judge_element(
    before: Option<u64>,
    position: u64,
    line: &LineText<'_>,
    element: &ElementFields,
) -> Result<PartDef, DirStop>
    requires { position ≡ profile.position_of (line_shown line.now) }
    ensures { let shown = line_shown line.now in
        let found = element.now in
        IsVerdict (λ part. Some part) fault_in result
        (unless_faulty
        (parts.fault_list shown (parts.element_fault before shown found.must found.repr))
        (parts.part_with found.code found.must found.repr)) }
{
    let must = judge_status(before, position, line, element.must)?;
    let Some(repr) = element.repr else {
        return Err(line.breaks(DirKind::BadRepr));
    };
    Ok(PartDef {
        code: element.code,
        must,
        repr,
    })
}

/// Judges the position and the status of a line, where it is good: the status.
pub(crate) fn judge_status(
    before: Option<u64>,
    position: u64,
    line: &LineText<'_>,
    status: Option<bool>,
) -> Result<bool, DirStop>
    requires { position ≡ profile.position_of (line_shown line.now) }
    ensures { let shown = line_shown line.now in
        IsVerdict (λ must. Some must) fault_in result
        (unless_faulty (parts.fault_list shown (parts.status_fault before shown status)) status) }
{
    if !is_greater(before, position) {
        return Err(line.breaks(DirKind::BadPosition));
    }
    match status {
        Some(must) => Ok(must),
        None => Err(line.breaks(DirKind::BadStatus)),
    }
}

/// Judges how many parts or items an entry with this head has: 1 to 99.
pub(crate) fn judge_count(head: &LineText<'_>, count: usize) -> Result<(), DirStop>
    ensures { parts.Passes result (parts.count_faults (line_shown head.now) count) }
{
    if count == 0 || count > 99 {
        return Err(head.breaks(DirKind::BadLine));
    }
    Ok(())
}
