//! Short octets as one number, so that two of them are compared at once.
ghost use Rattle.std.specs.Prelude.{◌≡◌, ◌<◌, ◌≤◌, All, length};
ghost use Rattle.dir_compile.specs.Number.{number};

/// Octets that have a number are no more than these.
pub(crate) const MOST_OCTETS: usize = 7;

/// The number of these octets. Octets that differ have different numbers.
#[inline(always)]
pub(crate) fn number_of(octets: &[u8]) -> u64
    requires { length octets.now ≤ MOST_OCTETS }
    ensures number { result ≡ number octets.now }
    ensures small { All (λ octet. octet < 256) octets.now }
{
    let mut number = 1;
    for place in (0..octets.len()).rev() {
        number = number * 256 + u64::from(octets[place]);
    }
    number
}

/// Another number of 32 bits, from which a slot is taken: numbers that are near have others that aren't.
#[inline(always)]
pub(crate) fn spread(number: u64) -> u64 {
    number.wrapping_mul(0x9E37_79B9_7F4A_7C15) >> 32
}
