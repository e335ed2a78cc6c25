//! The words of a drawn message file: type lines, positions and numbers.
ghost use Rattle.std.specs.Prelude.{◌≡◌, false, true, MatchOption, option_copied};
ghost use Rattle.std.specs.Str.{str_eq_ignore_ascii_case};
ghost use Rattle.edi_octets.specs.Left.{line_shown};
ghost use Rattle.edi_octets.specs.Profile as profile;
ghost use Rattle.edi_octets.specs.Profile.{fields_of};
ghost use Rattle.dir_messages.specs.Message as message;
ghost use Rattle.dir_messages.specs.Message.{begins_type};

use edi_octets::{LineText, are_digits, is_message_name, read_position};

/// How deep a table line may be indented.
const MOST_INDENTATION: usize = 4;

/// How many digits a position has.
pub(crate) const POSITION_DIGITS: usize = 4;

/// The name on a type line; `None` for any other line.
pub(crate) fn type_name<'a>(line: &LineText<'a>) -> Option<&'a [u8]>
    ensures { option_copied result ≡ message.name_on (fields_of line.now.octets.now) }
{
    // Few lines begin so, and of the others no further field is looked at.
    if !line.begins_with(b"Message") {
        return None;
    }
    let mut fields = line.fields();
    let message = fields.next()?;
    let kind = fields.next()?;
    let colon = fields.next()?;
    let name = fields.next()?;
    if fields.next().is_none() && is_type(message, kind, colon) && is_message_name(name) {
        Some(name)
    } else {
        None
    }
}

/// Whether these are the words that a type line begins with.
fn is_type(message: &[u8], kind: &[u8], colon: &[u8]) -> bool
    ensures { result ≡ begins_type message.now kind.now colon.now }
{
    message == b"Message".as_slice() && kind == b"Type".as_slice() && colon == b":".as_slice()
}

/// The position of a table line; `None` for any other line.
pub(crate) fn position_of(line: &LineText<'_>) -> Option<u64>
    ensures { MatchOption result
        (message.is_table_line (line_shown line.now) ≡ false)
        (λ position. (message.is_table_line (line_shown line.now) ≡ true)
        × (profile.position_of (line_shown line.now) ≡ position)) }
{
    if line.indentation() > MOST_INDENTATION {
        return None;
    }
    read_position(line, POSITION_DIGITS)
}

/// Whether a field is a number without leading zero, of any length.
pub(crate) fn is_number(field: &[u8]) -> bool
    ensures { result ≡ message.is_plain_number field.now }
{
    match field {
        [] => false,
        [b'0'] => true,
        [b'0', ..] => false,
        _ => are_digits(field),
    }
}

/// Whether a field has `-` alone.
pub(crate) fn are_dashes(field: &[u8]) -> bool
    ensures { result ≡ message.is_dashes field.now }
{
    field.iter().all(|octet| *octet == b'-')
}

/// Whether a field is this word, in any case.
pub(crate) fn is_word(field: &[u8], word: &[u8]) -> bool
    ensures { result ≡ str_eq_ignore_ascii_case field.now word.now }
{
    field.eq_ignore_ascii_case(word)
}
