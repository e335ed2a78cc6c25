//! The repertoires of the levels.
ghost use Rattle.std.specs.Prelude.{◌≡◌};
ghost use Rattle.element_check.specs.Repertoire.{is_admitted, is_in_level_a as is_in_level_a_of, is_printable as is_printable_of};

use seg_lexer::Level;

/// Whether a level admits an octet in a value.
pub fn admits(level: Level, octet: u8) -> bool
    ensures { result ≡ is_admitted level octet }
{
    match level {
        Level::A => is_in_level_a(octet),
        Level::B => is_in_level_a(octet) || octet.is_ascii_lowercase(),
        Level::C | Level::D | Level::E | Level::F => is_printable(octet),
    }
}

// Its signs and its digits are side by side, but for `#` and `$`, which it lacks. Digits and capital letters are most: they are
// asked for first.
#[tactic(auto, unfolding(crate::specs::Repertoire::is_in_level_a))]
fn is_in_level_a(octet: u8) -> bool
    ensures { result ≡ is_in_level_a_of octet }
{
    matches!(octet, b'%'..=b'?' | b'A'..=b'Z' | b' '..=b'"')
}

fn is_printable(octet: u8) -> bool
    ensures { result ≡ is_printable_of octet }
{
    octet > 31 && !(127..=159).contains(&octet)
}
