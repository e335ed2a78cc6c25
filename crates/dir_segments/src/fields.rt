//! What is on a line of a part or an item.
ghost use Rattle.std.specs.Prelude.{◌≡◌, ◌==◌, ◌&&◌, nat_le, length, slice_index, true, false, Some, None, MatchOption, if◌then◌else◌};
ghost use Rattle.std.specs.Str.Parse.{digits_value};
ghost use Rattle.edi_octets.specs.Left.{line_shown, cells_left};
ghost use Rattle.edi_octets.specs.Profile.{first_field};
ghost use Rattle.dir_segments.specs.Parts as parts;
ghost use Rattle.dir_segments.specs.Repetitions as repetitions;

use edi_octets::{
    Cells, LineText, after_position, is_composite_code, is_element_code, read_decimal, read_repr,
    read_status,
};
use edi_tables::{Code, Repr};

/// The most digits of a number of repetitions.
const MOST_NUMBER_DIGITS: usize = 2;

/// The fields of a data element: its code, and the status and the representation after its name, where they are good.
#[derive(Clone, Copy, Debug)]
pub(crate) struct ElementFields {
    pub code: Code,
    pub must: Option<bool>,
    pub repr: Option<Repr>,
}

/// The fields of an item that is a data element, and its greatest number of repetitions.
#[derive(Clone, Copy, Debug)]
pub(crate) struct ElementItem {
    pub element: ElementFields,
    pub reps: u8,
}

/// The fields of an item that is a composite: its code, the status after its name, where it is good, and its greatest
/// number of repetitions.
#[derive(Clone, Copy, Debug)]
pub(crate) struct CompositeItem {
    pub code: Code,
    pub must: Option<bool>,
    pub reps: u8,
}

/// Whether a line is one of a part or an item: it is indented by at most 4.
pub(crate) fn is_item_line(line: &LineText<'_>) -> bool
    ensures { result ≡ parts.is_item_line (line_shown line.now) }
{
    line.indentation() <= 4
}

/// The fields after the position of a line.
pub(crate) fn fields_past_position<'a>(line: &LineText<'a>) -> Cells<'a>
    ensures { cells_left result ≡ parts.fields_past_position (line_shown line.now) }
{
    let mut fields = line.fields();
    let _position = fields.next();
    after_position(fields)
}

/// The data element that fields define: a code, a name, a status and a representation.
pub(crate) fn read_element(fields: Cells<'_>) -> Option<ElementFields>
    ensures { MatchOption result (parts.is_element_form (cells_left fields.entry) ≡ false)
        (λ element. (parts.is_element_form (cells_left fields.entry) ≡ true)
        × parts.IsElement element (cells_left fields.entry)) }
{
    let first = first_of(fields);
    if !is_element_code(first) || !has_fourth(fields) {
        return None;
    }
    let code = Code::read(first)?;
    let (_third, before, last) = last_three(fields);
    Some(ElementFields {
        code,
        must: read_status(before),
        repr: read_repr(last),
    })
}

/// The data element that the fields of an item define: a code, a name, a status, perhaps a number of repetitions,
/// and a representation.
pub(crate) fn read_element_item(fields: Cells<'_>) -> Option<ElementItem>
    ensures { let own = repetitions.item_fields (cells_left fields.entry) in
        MatchOption result (parts.is_element_form own ≡ false)
        (λ item. (parts.is_element_form own ≡ true)
        × repetitions.IsElementItem item (cells_left fields.entry)) }
{
    let element = read_element(fields)?;
    let (status, number, _last) = last_three(fields);
    match read_number(number) {
        Some(reps) if has_fifth(fields) => Some(ElementItem {
            element: ElementFields {
                must: read_status(status),
                ..element
            },
            reps,
        }),
        _ => Some(ElementItem { element, reps: 1 }),
    }
}

/// The composite that the fields of an item define: a code, a name, a status, and perhaps a number of repetitions.
pub(crate) fn read_composite_item(fields: Cells<'_>) -> Option<CompositeItem>
    ensures { let own = repetitions.item_fields (cells_left fields.entry) in
        MatchOption result (parts.is_composite_form own ≡ false)
        (λ item. (parts.is_composite_form own ≡ true)
        × repetitions.IsCompositeItem item (cells_left fields.entry)) }
{
    let first = first_of(fields);
    if !is_composite_code(first) || !has_third(fields) {
        return None;
    }
    let code = Code::read(first)?;
    let (_third, before, last) = last_three(fields);
    let (status, reps) = match read_number(last) {
        Some(reps) if has_fourth(fields) => (before, reps),
        _ => (last, 1),
    };
    Some(CompositeItem {
        code,
        must: read_status(status),
        reps,
    })
}

/// The number of repetitions that a field is: one or two digits, 1 to 99, without leading zero.
fn read_number(field: &[u8]) -> Option<u8>
    ensures { result ≡ (if repetitions.is_repetition_number field.now
        then Some (digits_value 10 field.now) else None) }
{
    if field.len() > MOST_NUMBER_DIGITS || begins_with_zero(field) {
        return None;
    }
    let number = read_decimal(field)?;
    Some(number as u8)
}

fn begins_with_zero(field: &[u8]) -> bool
    ensures { result ≡ (slice_index field.now 0 == 48) }
{
    matches!(field, [b'0', ..])
}

/// The first of some fields; no octet where there is none.
fn first_of(fields: Cells<'_>) -> &[u8]
    ensures { result.now ≡ first_field (cells_left fields.entry) }
{
    let mut fields = fields;
    fields.next().unwrap_or(&[])
}

/// Whether there are three fields or more.
fn has_third(fields: Cells<'_>) -> bool
    ensures { result ≡ nat_le 3 (length (cells_left fields.entry)) }
{
    let mut fields = fields;
    matches!(
        (fields.next(), fields.next(), fields.next()),
        (Some(_), Some(_), Some(_))
    )
}

/// Whether there are four fields or more.
fn has_fourth(fields: Cells<'_>) -> bool
    ensures { result ≡ nat_le 4 (length (cells_left fields.entry)) }
{
    let mut fields = fields;
    fields.next().is_some() && has_third(fields)
}

/// Whether there are five fields or more.
fn has_fifth(fields: Cells<'_>) -> bool
    ensures { result ≡ nat_le 5 (length (cells_left fields.entry)) }
{
    let mut fields = fields;
    fields.next().is_some() && has_fourth(fields)
}

/// The last three fields; no octet where there are fewer.
fn last_three(fields: Cells<'_>) -> (&[u8], &[u8], &[u8])
    ensures third { result.0.now ≡ parts.field_from_end 3 (cells_left fields.entry) }
    ensures before { result.1.now ≡ parts.field_from_end 2 (cells_left fields.entry) }
    ensures last { result.2.now ≡ parts.field_from_end 1 (cells_left fields.entry) }
{
    let mut third: &[u8] = &[];
    let mut before: &[u8] = &[];
    let mut last: &[u8] = &[];
    for field in fields {
        third = before;
        before = last;
        last = field;
    }
    (third, before, last)
}
