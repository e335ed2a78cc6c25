//! Decimal numbers.
ghost use Rattle.std.specs.Prelude.{◌≡◌, ◌++◌, OnOk, OnErr, decimal};
ghost use Rattle.std.specs.Str.{all_ascii_digits};
ghost use Rattle.edi_octets.specs.Decimal.{count_line, decimal_in};
ghost use Rattle.edi_tables.specs.Growing.{HasGrown};

use edi_tables::Chunk;
use itoa::Buffer;
use std::alloc::AllocError;

/// The most digits that a number read has: so many always fit a `u64`.
const MOST_DIGITS: usize = 19;

/// The number that 1 to 19 digits give, with leading zeros or without; `None` for any other octets.
pub fn read_decimal(part: &[u8]) -> Option<u64>
    ensures { result ≡ decimal_in part.now }
{
    if part.is_empty() || part.len() > MOST_DIGITS || !are_digits(part) {
        return None;
    }
    let mut n: u64 = 0;
    for octet in part {
        n = n * 10 + u64::from(*octet - b'0');
    }
    Some(n)
}

/// Whether each octet is a digit.
pub fn are_digits(part: &[u8]) -> bool
    ensures { result ≡ all_ascii_digits part.now }
{
    part.iter().all(|octet| octet.is_ascii_digit())
}

/// Puts a number at the end, in decimal without leading zero. Where memory is refused, nothing is put.
pub fn put_decimal(out: &mut Chunk, n: u64) -> Result<(), AllocError>
    ensures ok { OnOk result (out.new ≡ out.old ++ decimal n) }
    ensures err { OnErr result (out.new ≡ out.old) }
    ensures grown { HasGrown out.old out.new }
{
    let mut buffer = Buffer::new();
    out.add(buffer.format(n).as_bytes())
}

/// Puts the line of a word and a number, with a space between them and LF after them. Where memory is refused, a part
/// of it may be put.
#[tactic(auto, using(edi_tables::proofs::GrowingLaws::grown_then))]
pub fn put_count(out: &mut Chunk, word: &[u8], n: usize) -> Result<(), AllocError>
    ensures ok { OnOk result (out.new ≡ out.old ++ count_line word.now n) }
    ensures grown { HasGrown out.old out.new }
{
    out.add(word)?;
    out.add(b" ")?;
    put_decimal(out, n as u64)?;
    out.add(b"\n")
}
