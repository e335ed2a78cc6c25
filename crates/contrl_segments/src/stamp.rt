//! The stamp and the reference that an acknowledgement is made with.
ghost use Rattle.std.specs.Prelude.{◌≡◌, ◌↔◌, Some, None, if◌then◌else◌};
ghost use Rattle.edi_tables.specs.Tag.{is_tag_octet_of};
ghost use Rattle.edi_octets.specs.Profile.{has_digits};
ghost use Rattle.contrl_segments.specs.Stamp.{IsStamp, stamp_in, stamp_text, is_reference_of};
ghost use Rattle.contrl_segments.specs.declared.stamp.Stamp as stamps;

use edi_octets::are_digits;

/// The most octets of a reference.
const MOST_OCTETS: usize = 14;

/// When an interchange is made: year, month and day, and hour and minute, two digits each.
#[derive(Clone, Copy, Debug, PartialEq, Eq)]
pub struct Stamp {
    pub date: [u8; 6],
    pub time: [u8; 4],
}

/// The stamp that `YYMMDD:HHMM` is, of ten digits and a colon; no other word is one.
pub fn read_stamp(word: &[u8]) -> Option<Stamp>
    ensures reads { result ≡ stamp_in word.now }
    ensures exact { (stamp : stamps.Stamp)
        → (result ≡ Some stamp) ↔ (IsStamp stamp × (word.now ≡ stamp_text stamp)) }
{
    if word.len() != 11 || word[6] != b':' {
        return None;
    }
    let date = read_digits(&word[..6])?;
    let time = read_digits(&word[7..])?;
    Some(Stamp { date, time })
}

// The digits that a part is, if it is so many digits and nothing else.
fn read_digits<const N: usize>(part: &[u8]) -> Option<[u8; N]>
    ensures { result ≡ (if has_digits N part.now then Some part.now else None) }
{
    if !are_digits(part) {
        return None;
    }
    part.try_into().ok()
}

/// Whether a word is a reference: 1 to 14 octets of `A` to `Z` and `0` to `9`.
pub fn is_reference(word: &[u8]) -> bool
    ensures { result ≡ is_reference_of word.now }
{
    if word.is_empty() || word.len() > MOST_OCTETS {
        return false;
    }
    word.iter().all(|octet| is_octet(*octet))
}

fn is_octet(octet: u8) -> bool
    ensures { result ≡ is_tag_octet_of octet }
{
    octet.is_ascii_uppercase() || octet.is_ascii_digit()
}
