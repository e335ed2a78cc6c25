//! A table line as read: its status, greatest count, tail and middle.
ghost use Rattle.std.specs.Prelude.{◌≡◌, ◌≤◌, ◌==◌, false, true, Some, MatchOption, length, count_by};
ghost use Rattle.std.specs.List.{prefix_len, list_all};
ghost use Rattle.std.specs.Str.{all_ascii_digits};
ghost use Rattle.edi_tables.specs.Tag.{is_digit};
ghost use Rattle.edi_octets.specs.Left.{line_shown, cells_left};
ghost use Rattle.dir_messages.specs.Message as message;
ghost use Rattle.edi_octets.specs.Lines.{is_space, after_spaces};
ghost use Rattle.dir_messages.specs.Parts.{count_in, counts_in, StandsBehind};

use crate::status::cut_at_status;
use crate::words::POSITION_DIGITS;
use edi_octets::{Cells, LineText, after_position, read_decimal};

/// The most digits of a greatest count.
const MOST_DIGITS: usize = 6;

/// A table line with a status, a greatest count and a tail.
#[derive(Clone, Copy, Debug)]
pub(crate) struct TableLine<'a> {
    /// The fields between the position and the status.
    pub middle: Cells<'a>,
    pub must: bool,
    pub max: u32,
    /// How many `+` the tail has.
    pub ends: u64,
}

/// What follows a status: the greatest count, and how many `+` are in the tail.
#[derive(Clone, Copy, Debug)]
pub(crate) struct Counts {
    pub max: u32,
    pub ends: u64,
}

/// Reads a table line; `None` where it has no status, or not one to six digits and a tail after it.
pub(crate) fn read_table_line<'a>(line: &LineText<'a>) -> Option<TableLine<'a>>
    requires { message.is_table_line (line_shown line.now) ≡ true }
    ensures { MatchOption result
        (message.has_rest (line_shown line.now) ≡ false)
        (λ table_line. (message.has_rest (line_shown line.now) ≡ true)
        × (message.middle_of (line_shown line.now) ≡ cells_left table_line.middle)
        × (message.status_of (line_shown line.now) ≡ Some table_line.must)
        × (message.max_of (line_shown line.now) ≡ table_line.max)
        × (message.ends_drawn (line_shown line.now) ≡ table_line.ends)) }
{
    let behind = behind_position(line);
    let cut = cut_at_status(behind)?;
    let counts = read_counts(cut.behind)?;
    Some(TableLine {
        middle: after_position(Cells::of(cut.before)),
        must: cut.must,
        max: counts.max,
        ends: counts.ends,
    })
}

/// What comes after the position of a table line: nothing, or a space and more.
fn behind_position<'a>(line: &LineText<'a>) -> &'a [u8]
    requires { message.is_table_line (line_shown line.now) ≡ true }
    ensures { StandsBehind line.now.octets.now result.now }
{
    &line.octets[line.indentation() + POSITION_DIGITS..]
}

/// The counts after a status; `None` where anything else is there.
fn read_counts(text: &[u8]) -> Option<Counts>
    ensures { result ≡ counts_in (after_spaces text.now) }
{
    let rest = skip_spaces(text);
    let (digits, tail) = rest.split_at(digits_in_front(rest));
    if !is_tail(tail) {
        return None;
    }
    let max = read_count(digits)?;
    Some(Counts {
        max,
        ends: ends_in(tail),
    })
}

/// The greatest count that digits give: one to six of them, with leading zeros or without.
fn read_count(digits: &[u8]) -> Option<u32>
    requires { all_ascii_digits digits.now ≡ true }
    ensures { result ≡ count_in digits.now }
{
    if digits.len() > MOST_DIGITS {
        return None;
    }
    let count = read_decimal(digits)?;
    Some(count as u32)
}

/// Whether a tail has spaces, `-`, `|` and `+` alone.
fn is_tail(tail: &[u8]) -> bool
    ensures { result ≡ list_all message.is_tail_octet tail.now }
{
    tail.iter()
        .all(|octet| matches!(octet, b' ' | b'-' | b'|' | b'+'))
}

/// How many `+` are in a tail.
fn ends_in(tail: &[u8]) -> u64
    ensures { result ≡ count_by (λ x. x == 43) tail.now }
{
    tail.iter().filter(|octet| **octet == b'+').count() as u64
}

/// What comes after the spaces in front of a text.
fn skip_spaces(text: &[u8]) -> &[u8]
    ensures { result.now ≡ after_spaces text.now }
{
    &text[spaces_in_front(text)..]
}

/// How many spaces a text begins with.
fn spaces_in_front(text: &[u8]) -> usize
    ensures front { result ≡ prefix_len is_space text.now }
    ensures within { result ≤ length text.now }
{
    text.iter().take_while(|octet| **octet == b' ').count()
}

/// How many digits a text begins with.
fn digits_in_front(text: &[u8]) -> usize
    ensures front { result ≡ prefix_len is_digit text.now }
    ensures within { result ≤ length text.now }
{
    text.iter()
        .take_while(|octet| octet.is_ascii_digit())
        .count()
}
