//! The lines of a store, and what every kind of line has.
ghost use Rattle.std.specs.Prelude.{◌≡◌, ◌==◌, ◌&&◌, nat_lt, length, slice_index};
ghost use Rattle.std.specs.Option.{option_copied, option_map};
ghost use Rattle.edi_tables.specs.First.{IsVerdict};
ghost use Rattle.dir_store.specs.Lines.{line_at};
ghost use Rattle.dir_store.specs.Rules as rules;
ghost use Rattle.dir_store.specs.LineStop.{left_in};

use crate::line_stop::Stop;
use edi_octets::{read_decimal, two_words};
use memchr::memchr;

/// The first line, and the octets after the LF that ends it. Octets that have no LF are at fault at their end.
pub(crate) fn read_line(octets: &[u8]) -> Result<(&[u8], &[u8]), Stop>
    ensures { IsVerdict (λ x. (x.0.now, x.1.now)) left_in result (line_at octets.now) }
{
    match memchr(b'\n', octets) {
        Some(end) => Ok((&octets[..end], &octets[end + 1..])),
        None => Err(Stop::Fault { left: 0 }),
    }
}

/// A number: 1 to 19 digits without leading zero.
pub fn read_number(word: &[u8]) -> Option<u64>
    ensures { result ≡ rules.number_in word.now }
{
    if has_leading_zero(word) {
        return None;
    }
    read_decimal(word)
}

/// Whether a word of two octets or more begins with zero.
#[inline]
pub(crate) fn has_leading_zero(word: &[u8]) -> bool
    ensures { result ≡ (slice_index word.now 0 == 48 && nat_lt 1 (length word.now)) }
{
    matches!(word, [b'0', _, ..])
}

/// The head of a list: a name, and how many members follow.
pub fn read_head(line: &[u8]) -> Option<(&[u8], u64)>
    ensures { option_map (λ h. (h.0.now, h.1)) result ≡ rules.head_in line.now }
{
    let (name, count) = two_words(line)?;
    let count = read_number(count)?;
    Some((name, count))
}

/// The head of the section of that letter on a line.
pub(crate) fn section_on<'l>(line: &'l [u8], letter: &[u8]) -> Option<(&'l [u8], u64)>
    ensures { option_map (λ h. (h.0.now, h.1)) result ≡ rules.section_in letter.now line.now }
{
    let (name, count) = read_head(line)?;
    if name == letter {
        Some((name, count))
    } else {
        None
    }
}

/// Whether a name comes after that of the member before, if there is one, in octet order.
pub(crate) fn comes_after(before: Option<&[u8]>, name: &[u8]) -> bool
    ensures { result ≡ rules.comes_after (λ name. name) (option_copied before.entry) name.now }
{
    match before {
        None => true,
        Some(before) => before.cmp(&name).is_lt(),
    }
}
