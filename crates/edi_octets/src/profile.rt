//! The words of the directory text profile.
ghost use Rattle.std.specs.Prelude.{◌≡◌, ◌==◌, ◌++◌, ◌<◌, ◌≤◌, OnOk, OnErr, Some, None, drop, slice_index, if◌then◌else◌};
ghost use Rattle.edi_tables.specs.Forms as forms;
ghost use Rattle.edi_octets.specs.Profile as profile;
ghost use Rattle.edi_octets.specs.Left.{cells_left, line_shown};
ghost use Rattle.edi_tables.specs.Growing.{HasGrown};

use crate::cells::Cells;
use crate::decimal::{are_digits, read_decimal};
use crate::lines::LineText;
use edi_tables::{Chunk, Class, Code, Repr};
use std::alloc::AllocError;

/// The fewest `-` of a separator.
const LEAST_DASHES: usize = 10;

/// The most digits of a length.
const MOST_LENGTH_DIGITS: usize = 4;

/// Whether an octet is a mark of the published files: `+`, `*`, `#`, `|` or `X`.
pub(crate) fn is_mark(octet: u8) -> bool
    ensures { result ≡ profile.is_mark octet }
{
    matches!(octet, b'+' | b'*' | b'#' | b'|' | b'X')
}

/// Whether a field has ten or more `-` and nothing else.
pub(crate) fn is_rule(field: &[u8]) -> bool
    ensures { result ≡ profile.is_rule field.now }
{
    field.len() >= LEAST_DASHES && field.iter().all(|octet| *octet == b'-')
}

/// Whether a field is a single mark.
pub fn is_lone_mark(field: &[u8]) -> bool
    ensures { result ≡ profile.is_lone_mark field.now }
{
    match field {
        [octet] => is_mark(*octet),
        _ => false,
    }
}

/// Whether a field is a data element's code: four digits.
pub fn is_element_code(field: &[u8]) -> bool
    ensures { result ≡ forms.is_element_code field.now }
{
    field.len() == 4 && are_digits(field)
}

/// Whether a field is a composite's code: `C` and three digits.
pub fn is_composite_code(field: &[u8]) -> bool
    ensures { result ≡ forms.is_composite_code field.now }
{
    field.len() == 4 && field[0] == b'C' && are_digits(&field[1..])
}

/// The code of a data element that a field is.
pub fn read_element_code(field: &[u8]) -> Option<Code>
    ensures { result ≡ (if forms.is_element_code field.now
        then Some (record { octets = field.now }) else None) }
{
    if is_element_code(field) {
        Code::read(field)
    } else {
        None
    }
}

/// The code of a composite that a field is.
pub fn read_composite_code(field: &[u8]) -> Option<Code>
    ensures { result ≡ (if forms.is_composite_code field.now
        then Some (record { octets = field.now }) else None) }
{
    if is_composite_code(field) {
        Code::read(field)
    } else {
        None
    }
}

/// The representation that a field is: `a`, `n` or `an`, perhaps `..`, and a length from 1 to 9999
/// without leading zero.
#[tactic(auto, using(crate::proofs::ProfileLemmas::representations))]
pub fn read_repr(field: &[u8]) -> Option<Repr>
    ensures { result ≡ profile.repr_in field.now }
{
    match field {
        [b'a', rest @ ..] => read_behind_a(rest),
        [b'n', rest @ ..] => read_sized(Class::N, rest),
        _ => None,
    }
}

/// The representation that an `a` with this after it is.
fn read_behind_a(rest: &[u8]) -> Option<Repr>
    ensures { result ≡ (if slice_index rest.now 0 == 110
        then profile.repr_after Class.An (drop 1 rest.now)
        else profile.repr_after Class.A rest.now) }
{
    match rest {
        [b'n', rest @ ..] => read_sized(Class::An, rest),
        _ => read_sized(Class::A, rest),
    }
}

/// The representation of a class with this after it: a length, exact where no `..` is before it.
fn read_sized(class: Class, rest: &[u8]) -> Option<Repr>
    ensures { result ≡ profile.repr_after class rest.now }
{
    let (exact, length) = match rest {
        [b'.', b'.', length @ ..] => (false, length),
        _ => (true, rest),
    };
    let max = read_length(length)?;
    Some(Repr { class, exact, max })
}

/// A length: a number from 1 to 9999 without leading zero.
fn read_length(field: &[u8]) -> Option<u16>
    ensures { result ≡ profile.length_in field.now }
{
    if field.len() > MOST_LENGTH_DIGITS || begins_with_zero(field) {
        return None;
    }
    let length = read_decimal(field)?;
    Some(length as u16)
}

fn begins_with_zero(field: &[u8]) -> bool
    ensures { result ≡ (slice_index field.now 0 == 48) }
{
    matches!(field, [b'0', ..])
}

/// The status that a field is: `M`, which is mandatory (true), or `C`, which is conditional (false).
pub fn read_status(field: &[u8]) -> Option<bool>
    ensures { result ≡ profile.status_in field.now }
{
    match field {
        b"M" => Some(true),
        b"C" => Some(false),
        _ => None,
    }
}

/// Puts a status: `M` where it is mandatory, else `C`. Where memory is refused, nothing is put.
pub fn put_status(out: &mut Chunk, must: bool) -> Result<(), AllocError>
    ensures ok { OnOk result (out.new ≡ out.old ++ profile.status_text must) }
    ensures err { OnErr result (out.new ≡ out.old) }
    ensures grown { HasGrown out.old out.new }
{
    if must { out.add(b"M") } else { out.add(b"C") }
}

/// The position that a line begins with: its first field, where that has so many digits and no other octet.
pub fn read_position(line: &LineText<'_>, digits: usize) -> Option<u64>
    requires some { 0 < digits }
    requires few { digits ≤ 19 }
    ensures { let shown = line_shown line.now in
        result ≡ (if profile.has_position digits shown
        then Some (profile.position_of shown) else None) }
{
    let field = line.first_field();
    if field.len() != digits {
        return None;
    }
    read_decimal(field)
}

/// Whether a position is greater than the one before, if there is one.
pub fn is_greater(before: Option<u64>, position: u64) -> bool
    ensures { result ≡ profile.is_greater before position }
{
    match before {
        None => true,
        Some(before) => before < position,
    }
}

/// The fields after a position: a mark alone is skipped directly after it.
pub fn after_position(fields: Cells<'_>) -> Cells<'_>
    ensures { cells_left result ≡ profile.after_position (cells_left fields.entry) }
{
    let mut behind = fields;
    match behind.next() {
        Some(field) if is_lone_mark(field) => behind,
        _ => fields,
    }
}
