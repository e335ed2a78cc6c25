//! Octets of a text, as they are shown in printed lines.
ghost use Rattle.std.specs.Prelude.{false, ◌≡◌, ◌++◌, ◌<◌, OnOk, OnErr};
ghost use Rattle.std.specs.Fmt.{digit_glyph};
ghost use Rattle.edi_octets.specs.Shown.{octet_shown};
ghost use Rattle.edi_tables.specs.Growing.{HasGrown};

use edi_tables::Chunk;
use std::alloc::AllocError;

/// Puts an octet as it is shown: itself from 32 to 126 except the backslash, any other as a backslash and two lower-case
/// hexadecimal digits. Where memory is refused, nothing is put.
pub fn put_shown(out: &mut Chunk, octet: u8) -> Result<(), AllocError>
    ensures ok { OnOk result (out.new ≡ out.old ++ octet_shown octet) }
    ensures err { OnErr result (out.new ≡ out.old) }
    ensures grown { HasGrown out.old out.new }
{
    if (32..=126).contains(&octet) && octet != b'\\' {
        out.add(&[octet])
    } else {
        out.add(&[b'\\', hex_digit(octet / 16), hex_digit(octet % 16)])
    }
}

// The lower-case hexadecimal digit of a number below 16.
fn hex_digit(n: u8) -> u8
    requires { n < 16 }
    ensures { result ≡ digit_glyph false n }
{
    if n < 10 { b'0' + n } else { b'a' + (n - 10) }
}
