//! The further words of a command's line.
ghost use Rattle.std.specs.Prelude.{◌≡◌, ◌<◌, ◌≤◌, ◌^◌, ◌&&◌, ◌∷◌, [], ℕ, nat_lt, length, IsFalse, IsErrOf, MatchOption};
ghost use Rattle.std.specs.Char.{is_ascii_digit};
ghost use Rattle.contrl_segments.specs.Stamp.{is_reference_of};
ghost use Rattle.edi_ports.specs.Faults.{IsFair};
ghost use Rattle.edit_script.specs.Reading.{Reads, supply_of};
ghost use Rattle.edit_script.specs.Texts.{IsNumberText, IsLonger, IsStampText, IsDigitsText, IsReferenceText};

use crate::allowance::Allowance;
use crate::stop::Halt;
use contrl_segments::{Stamp, is_reference};
use edi_ports::Source;
use edi_tables::Chunk;
use std::alloc::Global;

/// The most octets of a reference.
const LONGEST_REFERENCE: usize = 14;

/// The number from `least` to `most`, without leading zero, that the next octets up to `end` are.
pub(crate) fn take_number<I: Source>(
    allowance: &mut Allowance,
    input: &mut I,
    least: u64,
    most: u64,
    end: u8,
) -> Result<u64, Halt>
    requires low { least ≤ 1 }
    requires wide { 9 ≤ most }
    requires fits { most < 10 ^ 19 }
    requires apart { IsFalse (is_ascii_digit end) }
    ensures reads { Reads (IsNumberText least most end)
        (supply_of I.Source input.old allowance.old.left)
        (supply_of I.Source input.new allowance.new.left) result }
    ensures fair { IsFair I.faults I.is_steady input.old input.new (IsErrOf result Halt.Fault) }
{
    let first = allowance.take_octet(input)?;
    if !first.is_ascii_digit() {
        return Err(Halt::Bad);
    }
    let mut number = u64::from(first - b'0');
    if number < least {
        return Err(Halt::Bad);
    }
    loop {
        let octet = allowance.take_octet(input)?;
        if octet == end {
            return Ok(number);
        }
        match with_digit(number, octet, most) {
            Some(longer) => number = longer,
            None => return Err(Halt::Bad),
        }
    }
}

// The number with one more digit, where it has no leading zero and is at most `most`.
fn with_digit(number: u64, octet: u8, most: u64) -> Option<u64>
    requires wide { 9 ≤ most }
    requires fits { most < 10 ^ 19 }
    ensures { MatchOption result
        ((longer : ℕ) → IsLonger number octet longer → longer ≤ most → ⊥)
        (λ longer. IsLonger number octet longer × (longer ≤ most)) }
{
    if number == 0 || !octet.is_ascii_digit() {
        return None;
    }
    let digit = u64::from(octet - b'0');
    if number > (most - digit) / 10 {
        return None;
    }
    Some(number * 10 + digit)
}

/// The stamp that the next octets up to a space are.
pub(crate) fn take_stamp<I: Source>(allowance: &mut Allowance, input: &mut I) -> Result<Stamp, Halt>
    ensures reads { Reads IsStampText (supply_of I.Source input.old allowance.old.left)
        (supply_of I.Source input.new allowance.new.left) result }
    ensures fair { IsFair I.faults I.is_steady input.old input.new (IsErrOf result Halt.Fault) }
{
    let date = take_digits(allowance, input, b':')?;
    let time = take_digits(allowance, input, b' ')?;
    Ok(Stamp { date, time })
}

// The digits that the next octets up to `end` are.
fn take_digits<I: Source, const N: usize>(
    allowance: &mut Allowance,
    input: &mut I,
    end: u8,
) -> Result<[u8; N], Halt>
    requires apart { IsFalse (is_ascii_digit end) }
    ensures reads { Reads (IsDigitsText N end) (supply_of I.Source input.old allowance.old.left)
        (supply_of I.Source input.new allowance.new.left) result }
    ensures fair { IsFair I.faults I.is_steady input.old input.new (IsErrOf result Halt.Fault) }
{
    let mut digits = [0; N];
    for digit in digits.iter_mut() {
        let octet = allowance.take_octet(input)?;
        if !octet.is_ascii_digit() {
            return Err(Halt::Bad);
        }
        *digit = octet;
    }
    if allowance.take_octet(input)? != end {
        return Err(Halt::Bad);
    }
    Ok(digits)
}

/// The reference that the next octets up to a line feed are.
pub(crate) fn take_reference<I: Source>(
    allowance: &mut Allowance,
    alloc: Global,
    input: &mut I,
) -> Result<Chunk, Halt>
    ensures reads { Reads IsReferenceText (supply_of I.Source input.old allowance.old.left)
        (supply_of I.Source input.new allowance.new.left) result }
    ensures fair { IsFair I.faults I.is_steady input.old input.new (IsErrOf result Halt.Fault) }
{
    let mut reference = Chunk::empty(alloc);
    loop {
        let octet = allowance.take_octet(input)?;
        if octet == b'\n' {
            return if is_reference(reference.octets()) {
                Ok(reference)
            } else {
                Err(Halt::Bad)
            };
        }
        if !may_follow(reference.octets(), octet) {
            return Err(Halt::Bad);
        }
        reference.add(&[octet])?;
    }
}

// Whether an octet may follow the front of a reference.
fn may_follow(front: &[u8], octet: u8) -> bool
    ensures { result ≡ (nat_lt (length front.now) 14 && is_reference_of (octet ∷ [])) }
{
    front.len() < LONGEST_REFERENCE && is_reference(&[octet])
}
