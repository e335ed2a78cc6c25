//! The printed line of a segment.
ghost use Rattle.std.specs.Prelude.{◌≡◌, ◌∷◌, [], ◌+◌, ◌++◌, ◌≤◌, codes, decimal, drop, length, OnOk};
ghost use Rattle.std.specs.Option.{option_map as map_option};
ghost use Rattle.listing_printer.specs.Printing.{segment_line, tag_end};
ghost use Rattle.edi_octets.specs.declared.octets.TheConstants.{LONGEST_TEXT};

use edi_octets::Numeral;
use edi_tables::{Chunk, Tag};
use std::alloc::AllocError;

/// The most octets of a segment's line: three numbers of at most ten digits and the spaces after them, a tag and LF.
const MOST_OCTETS: usize = 40;

/// Where the tag is in a line that is laid out from its end.
const TAG_PLACE: usize = 36;

/// The numerals that the lines of a text's segments are put with.
#[derive(Debug, Drop)]
pub struct Numerals {
    /// For the number of a segment.
    number: Numeral,
    /// For its places.
    place: Numeral,
}

impl Numerals {
    /// Those that the first line is put with.
    pub fn new() -> Numerals {
        Numerals {
            number: Numeral::of(0),
            place: Numeral::of(0),
        }
    }
}

/// Puts the line of a segment in one piece: its number, its first octet, its terminator's place, and its tag, or `---` where it
/// has none.
pub fn put_line(
    lines: &mut Chunk,
    numerals: &mut Numerals,
    number: u32,
    start: usize,
    end: usize,
    tag: Option<Tag>,
) -> Result<(), AllocError>
    requires ordered { start ≤ end }
    requires short { end ≤ LONGEST_TEXT }
    ensures { let line = segment_line number (record { from = start; to = end }) in
        OnOk result (lines.new ≡ lines.old ++ line (map_option (λ t. t.octets) tag)) }
{
    let mut line = [b' '; MOST_OCTETS];
    line[TAG_PLACE..].copy_from_slice(&tag_and_end(tag));
    numerals.place.go_to(end as u32);
    let at = put_word(&mut line, &numerals.place, TAG_PLACE);
    numerals.place.go_to(start as u32);
    let at = put_word(&mut line, &numerals.place, at);
    numerals.number.go_to(number);
    let at = put_word(&mut line, &numerals.number, at);
    lines.add(&line[at..])
}

// The last part of a line: a tag, or `---` where there is none, and LF.
#[inline(always)]
fn tag_and_end(tag: Option<Tag>) -> [u8; 4]
    ensures { result ≡ tag_end (map_option (λ t. t.octets) tag) }
{
    match tag {
        Some(tag) => {
            let [first, second, third] = tag.octets;
            [first, second, third, b'\n']
        }
        None => *b"---\n",
    }
}

// Puts a number and a space before what begins there, and answers where the number begins.
#[inline(always)]
fn put_word(line: &mut [u8; MOST_OCTETS], numeral: &Numeral, end: usize) -> usize
    requires low { 11 ≤ end }
    requires within { end ≤ MOST_OCTETS }
    ensures few { end ≤ result + 11 }
    ensures before { result ≤ end }
    ensures written { drop result line.new
        ≡ decimal numeral.now ++ codes " " ++ drop end line.old }
{
    line[end - 1] = b' ';
    numeral.put_before(line, end - 1)
}
