//! What an acknowledgement tells of one error.
ghost use Rattle.std.specs.Prelude.{◌≡◌, map};
ghost use Rattle.contrl_segments.specs.Details.{code_told, has_position as has_position_of, is_envelope_tag, is_near as is_near_of, position_of, tag_told as tag_told_of};
ghost use Rattle.contrl_segments.specs.Lent.{value_lent};

use crate::segment::WrittenValue;
use edi_tables::Tag;
use error_ledger::{ErrorLine, Kind, code_of};

/// The greatest element whose position, one more, has at most three digits.
const LAST_ELEMENT: u32 = 998;

/// The greatest component that has at most three digits.
const LAST_COMPONENT: u32 = 999;

/// The code of an error.
pub fn told_code(error: &ErrorLine) -> WrittenValue<'_>
    ensures { value_lent result ≡ code_told error.now }
{
    WrittenValue::Number(u32::from(code_of(error.kind)))
}

// The envelope segment that is bad or missing, or that an error is at.
pub(crate) fn told_tag(error: &ErrorLine) -> WrittenValue<'_>
    ensures { value_lent result ≡ tag_told_of error.now.kind error.now.tag }
{
    WrittenValue::Octets(match error.kind {
        Kind::BadUna => b"UNA",
        Kind::NoUnz => b"UNZ",
        Kind::NoUne => b"UNE",
        _ => match &error.tag {
            Some(tag) if is_envelope(tag) => &tag.octets,
            _ => b"",
        },
    })
}

// Whether a tag opens or closes an interchange, a group or a message.
fn is_envelope(tag: &Tag) -> bool
    ensures { result ≡ is_envelope_tag tag.now.octets }
{
    matches!(
        &tag.octets,
        b"UNB" | b"UNG" | b"UNH" | b"UNT" | b"UNE" | b"UNZ"
    )
}

/// The position of an error in its segment: that of the element, counted with the tag, and the number of the component.
pub fn told_position(error: &ErrorLine) -> [WrittenValue<'_>; 2]
    ensures { map value_lent result ≡ position_of error.now }
{
    if !has_position(error) {
        return [WrittenValue::Octets(b""), WrittenValue::Octets(b"")];
    }
    let element = WrittenValue::Number(error.element + 1);
    if error.component == 0 {
        return [element, WrittenValue::Octets(b"")];
    }
    [element, WrittenValue::Number(error.component)]
}

// Whether an error is at an element, and near enough for its position to be given.
fn has_position(error: &ErrorLine) -> bool
    ensures { result ≡ has_position_of error.now }
{
    error.element >= 1 && is_near(error)
}

/// Whether the numbers of an error's place have at most three digits.
pub fn is_near(error: &ErrorLine) -> bool
    ensures { result ≡ is_near_of error.now }
{
    error.element <= LAST_ELEMENT && error.component <= LAST_COMPONENT
}
