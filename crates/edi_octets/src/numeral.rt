//! A number with its decimal digits.
ghost use Rattle.std.specs.Prelude.{◌≡◌, ◌+◌, ◌++◌, ◌≤◌, length, drop, replicate, decimal};

use itoa::write_digits;
use std::marker::Model;

/// The most digits of a numeral.
pub const MOST_DIGITS: usize = 10;

/// The place of the last three digits.
const LAST_THREE: usize = 7;

/// A number with its decimal digits, seen as that number. It goes to another number of the same thousand quickly: numbers that
/// rise line by line are put with one of these.
#[derive(Debug, Drop)]
pub struct Numeral {
    number: u32,
    // The greatest multiple of 1000 that isn't above it.
    thousands: u32,
    // Its digits, after spaces.
    digits: [u8; MOST_DIGITS],
    spaces: usize,
}

impl Model for Numeral {
    ghost use Rattle.std.specs.Prelude.{ℕ};
    ghost use Rattle.edi_octets.specs.Decimal.{IsWritten};

    ghost Value = { ℕ };

    ghost view = { λ n. n.number };

    ghost invariant = { λ n. IsWritten n.number n.thousands n.digits n.spaces };
}

impl Numeral {
    /// A number.
    #[inline(never)]
    pub fn of(n: u32) -> Numeral
        ensures { result ≡ n }
    {
        let mut digits = [b' '; MOST_DIGITS];
        let spaces = write_digits(u64::from(n), &mut digits, MOST_DIGITS);
        Numeral {
            number: n,
            thousands: n - n % 1000,
            digits,
            spaces,
        }
    }

    /// Makes it this number.
    #[inline(always)]
    pub fn go_to(&mut self, n: u32)
        ensures { self.new ≡ n }
    {
        if self.thousands > 0 && self.thousands <= n && n - self.thousands < 1000 {
            let low = n - self.thousands;
            self.number = n;
            self.digits[LAST_THREE..].copy_from_slice(&[
                b'0' + (low / 100) as u8,
                b'0' + (low / 10 % 10) as u8,
                b'0' + (low % 10) as u8,
            ]);
        } else {
            *self = Numeral::of(n);
        }
    }

    /// Its digits after spaces, and how many spaces these are.
    #[inline(always)]
    pub fn octets(&self) -> (&[u8; MOST_DIGITS], usize)
        ensures spaces { result.1 + length (decimal self.now) ≡ MOST_DIGITS }
        ensures digits { result.0.now ≡ replicate result.1 32 ++ decimal self.now }
    {
        (&self.digits, self.spaces)
    }

    /// Puts its digits before a place of a room, with the spaces in front of them in one piece, and answers where they begin.
    #[inline(always)]
    pub fn put_before(&self, room: &mut [u8], end: usize) -> usize
        requires low { MOST_DIGITS ≤ end }
        requires within { end ≤ length room.old }
        ensures start { result + length (decimal self.now) ≡ end }
        ensures few { end ≤ result + MOST_DIGITS }
        ensures written { drop result room.new ≡ decimal self.now ++ drop end room.old }
    {
        let from = end - MOST_DIGITS;
        room[from..end].copy_from_slice(&self.digits);
        from + self.spaces
    }
}
