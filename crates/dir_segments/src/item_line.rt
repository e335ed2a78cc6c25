//! Item lines, judged after the position before them.
ghost use Rattle.std.specs.Prelude.{◌≡◌, Some};
ghost use Rattle.edi_tables.specs.First.{IsVerdict, unless_faulty};
ghost use Rattle.edi_octets.specs.DirStop.{fault_in};
ghost use Rattle.edi_octets.specs.Left.{line_shown};
ghost use Rattle.edi_octets.specs.Profile as profile;
ghost use Rattle.dir_segments.specs.Parts as parts;
ghost use Rattle.dir_segments.specs.Repetitions.{item_fields, reps_in};
ghost use Rattle.dir_segments.specs.Segments as segments;

use crate::fields::{CompositeItem, fields_past_position, read_composite_item, read_element_item};
use crate::part_line::{POSITION_DIGITS, judge_element, judge_status};
use edi_octets::{DirKind, DirStop, LineText, read_position};
use edi_tables::ItemDef;

/// Reads an item line after the position before: its position and its item.
pub(crate) fn read_item(before: Option<u64>, line: &LineText<'_>) -> Result<(u64, ItemDef), DirStop>
    ensures { let shown = line_shown line.now in
        let fields = parts.fields_past_position shown in
        parts.GivesPlaced result (segments.line_faults before shown (item_fields fields))
        (profile.position_of shown) (segments.item_in (item_fields fields) (reps_in fields)) }
{
    let Some(position) = read_position(line, POSITION_DIGITS) else {
        return Err(line.breaks(DirKind::BadLine));
    };
    let fields = fields_past_position(line);
    if let Some(item) = read_element_item(fields) {
        let part = judge_element(before, position, line, &item.element)?;
        let reps = item.reps;
        return Ok((position, ItemDef::Alone { part, reps }));
    }
    let Some(composite) = read_composite_item(fields) else {
        return Err(line.breaks(DirKind::BadLine));
    };
    let item = judge_composite(before, position, line, &composite)?;
    Ok((position, item))
}

/// Judges the composite of a line with this position: its item.
fn judge_composite(
    before: Option<u64>,
    position: u64,
    line: &LineText<'_>,
    composite: &CompositeItem,
) -> Result<ItemDef, DirStop>
    requires { position ≡ profile.position_of (line_shown line.now) }
    ensures { let shown = line_shown line.now in
        IsVerdict (λ item. Some item) fault_in result
        (unless_faulty
        (parts.fault_list shown (parts.status_fault before shown composite.now.must))
        (segments.composite_item composite.now.code composite.now.must composite.now.reps)) }
{
    let must = judge_status(before, position, line, composite.must)?;
    Ok(ItemDef::Composite {
        code: composite.code,
        must,
        reps: composite.reps,
    })
}
