//! A printed line, laid out from its end.
//!
//! It lies at the end of a room of octets: each part is put in front of those that are there, and what is in front of these are
//! spaces, so that an indentation is there before it is put. Where the line begins is passed along, and not kept with the room.
ghost use Rattle.std.specs.Prelude.{◌≡◌, ◌+◌, ◌≤◌, ◌++◌, length, take, drop, replicate, decimal};

use edi_octets::{MOST_DIGITS, Numeral};
use itoa::write_digits;

/// The most octets of a line that is laid out.
pub(crate) const MOST_OCTETS: usize = 128;

/// A room without a line. One that is laid out in it begins at `MOST_OCTETS`.
pub(crate) const NO_LINE: [u8; MOST_OCTETS] = [b' '; MOST_OCTETS];

/// Puts octets in front of the line that begins at `at`, and answers where it begins then.
#[inline(always)]
pub(crate) fn put(room: &mut [u8; MOST_OCTETS], at: usize, part: &[u8]) -> usize
    requires within { at ≤ MOST_OCTETS }
    requires fits { length part.now ≤ at }
    requires before { take at room.old ≡ replicate at 32 }
    ensures start { result + length part.now ≡ at }
    ensures line { drop result room.new ≡ part.now ++ drop at room.old }
    ensures before { take result room.new ≡ replicate result 32 }
{
    let start = at - part.len();
    room[start..at].copy_from_slice(part);
    start
}

/// Puts a number in front, in decimal without leading zero: at most ten digits. Most have one or two.
#[inline(always)]
pub(crate) fn put_number(room: &mut [u8; MOST_OCTETS], at: usize, n: u32) -> usize
    requires within { at ≤ MOST_OCTETS }
    requires fits { MOST_DIGITS ≤ at }
    requires before { take at room.old ≡ replicate at 32 }
    ensures start { result ≤ at }
    ensures few_digits { at ≤ result + MOST_DIGITS }
    ensures line { drop result room.new ≡ decimal n ++ drop at room.old }
    ensures before { take result room.new ≡ replicate result 32 }
{
    if n < 10 {
        return put(room, at, &[b'0' + n as u8]);
    }
    if n < 100 {
        return put(room, at, &[b'0' + (n / 10) as u8, b'0' + (n % 10) as u8]);
    }
    write_digits(u64::from(n), room, at)
}

/// Puts a number in front whose digits are there already, with the spaces before them in one piece.
#[inline(always)]
pub(crate) fn put_numeral(room: &mut [u8; MOST_OCTETS], at: usize, numeral: &Numeral) -> usize
    requires within { at ≤ MOST_OCTETS }
    requires fits { MOST_DIGITS ≤ at }
    requires before { take at room.old ≡ replicate at 32 }
    ensures start { result ≤ at }
    ensures few_digits { at ≤ result + MOST_DIGITS }
    ensures line { drop result room.new ≡ decimal numeral.now ++ drop at room.old }
    ensures before { take result room.new ≡ replicate result 32 }
{
    let (digits, spaces) = numeral.octets();
    put(room, at, digits) + spaces
}

/// Puts so many spaces in front.
#[inline(always)]
pub(crate) fn put_spaces(room: &[u8; MOST_OCTETS], at: usize, spaces: usize) -> usize
    requires within { at ≤ MOST_OCTETS }
    requires fits { spaces ≤ at }
    requires before { take at room.now ≡ replicate at 32 }
    ensures start { result + spaces ≡ at }
    ensures line { drop result room.now ≡ replicate spaces 32 ++ drop at room.now }
    ensures before { take result room.now ≡ replicate result 32 }
{
    at - spaces
}
