//! Rows as most are: words of a few octets, which are read in one go, with no search for the end of the line before.
ghost use Rattle.std.specs.Prelude.{◌≡◌, ◌≤◌, Ok, Option, IfSome};
ghost use Rattle.edi_tables.specs.declared.segment.TableRow.{TableRow};
ghost use Rattle.edi_octets.specs.Profile.{status_in};
ghost use Rattle.dir_store.specs.Rules.{called, number_in};
ghost use Rattle.dir_store.specs.Store.{row_at};
ghost use Rattle.dir_store.specs.Usual.{IsFirstWord};

use crate::earlier::EarlierDefinitions;
use crate::line::has_leading_zero;
use crate::segment_line::read_row_name;
use edi_tables::{TableRow, Tag};

// The most digits of such a number.
const MOST_DIGITS: usize = 6;

/// The row on the first line, and the octets after that line. Where it is none, the line may still be a row.
#[inline]
pub(crate) fn usual_row<'o>(
    known: &EarlierDefinitions<'_>,
    octets: &'o [u8],
) -> Option<(TableRow, &'o [u8])>
    ensures { IfSome result (λ x. (before : Option TableRow)
        → row_at known.now.segments.now before octets.now ≡ Ok (x.0, x.1.now)) }
{
    let (depth, rest) = number_to(b' ', octets)?;
    let (tag, rest) = name_at(known, rest)?;
    let (must, rest) = status_at(rest)?;
    let (max, rest) = number_to(b'\n', rest)?;
    if depth > 16 || max == 0 {
        return None;
    }
    let row = TableRow {
        tag,
        must,
        max,
        depth: depth as u8,
    };
    Some((row, rest))
}

// The number that octets begin with, and the octets after the separator that ends it.
#[inline]
fn number_to(separator: u8, octets: &[u8]) -> Option<(u32, &[u8])>
    ensures word { IfSome result
        (λ x. IsFirstWord number_in separator octets.now x.0 x.1.now) }
    ensures small { IfSome result (λ x. x.0 ≤ 999999) }
{
    let mut n: u32 = 0;
    for (place, octet) in octets.iter().enumerate() {
        if *octet == separator && place != 0 {
            if has_leading_zero(&octets[..place]) {
                return None;
            }
            return Some((n, &octets[place + 1..]));
        }
        if !octet.is_ascii_digit() || place >= MOST_DIGITS {
            return None;
        }
        n = n * 10 + u32::from(*octet - b'0');
    }
    None
}

// What a row is called, and the octets after the space that ends it.
#[inline]
fn name_at<'o>(known: &EarlierDefinitions<'_>, octets: &'o [u8]) -> Option<(Option<Tag>, &'o [u8])>
    ensures { IfSome result
        (λ x. IsFirstWord (called known.now.segments.now) 32 octets.now x.0 x.1.now) }
{
    if octets.len() < 4 {
        return None;
    }
    if octets[0] == b'-' && octets[1] == b' ' {
        return Some((None, &octets[2..]));
    }
    if octets[3] != b' ' {
        return None;
    }
    let word = &octets[..3];
    let tag = Tag::read(word)?;
    if known.hints_at_segment(tag) {
        return Some((Some(tag), &octets[4..]));
    }
    let tag = read_row_name(word, known)?;
    Some((tag, &octets[4..]))
}

// The status that octets begin with, and the octets after the space that ends it.
#[inline]
fn status_at(octets: &[u8]) -> Option<(bool, &[u8])>
    ensures { IfSome result (λ x. IsFirstWord status_in 32 octets.now x.0 x.1.now) }
{
    match octets {
        [b'M', b' ', rest @ ..] => Some((true, rest)),
        [b'C', b' ', rest @ ..] => Some((false, rest)),
        _ => None,
    }
}
