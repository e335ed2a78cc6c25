//! The words of a line.
ghost use Rattle.std.specs.Prelude.{◌≡◌, ◌∷◌, [], MatchOption};
ghost use Rattle.std.specs.Option.{option_map};
ghost use Rattle.edi_octets.specs.Lines.{pieces_in};
ghost use Rattle.edi_octets.specs.Words.{two_in, three_in, four_in};

use crate::cells::first_space;

/// The two words of a line that has exactly two.
pub fn two_words(line: &[u8]) -> Option<(&[u8], &[u8])>
    ensures { option_map (λ p. (p.0.now, p.1.now)) result ≡ two_in line.now }
{
    let (first, rest) = cut_word(line);
    let (second, rest) = cut_word(rest?);
    match rest {
        None => Some((first, second)),
        Some(_) => None,
    }
}

/// The three words of a line that has exactly three.
pub fn three_words(line: &[u8]) -> Option<(&[u8], &[u8], &[u8])>
    ensures { option_map (λ p. (p.0.now, p.1.now, p.2.now)) result ≡ three_in line.now }
{
    let (first, rest) = cut_word(line);
    let (second, rest) = cut_word(rest?);
    let (third, rest) = cut_word(rest?);
    match rest {
        None => Some((first, second, third)),
        Some(_) => None,
    }
}

/// The four words of a line that has exactly four.
pub fn four_words(line: &[u8]) -> Option<(&[u8], &[u8], &[u8], &[u8])>
    ensures { option_map (λ p. (p.0.now, p.1.now, p.2.now, p.3.now)) result ≡ four_in line.now }
{
    let (first, rest) = cut_word(line);
    let (second, rest) = cut_word(rest?);
    let (third, rest) = cut_word(rest?);
    let (fourth, rest) = cut_word(rest?);
    match rest {
        None => Some((first, second, third, fourth)),
        Some(_) => None,
    }
}

// The first word of a line, and what follows the space after it, if there is one.
fn cut_word(line: &[u8]) -> (&[u8], Option<&[u8]>)
    ensures { MatchOption result.1 (pieces_in line.now ≡ result.0.now ∷ [])
        (λ rest. pieces_in line.now ≡ result.0.now ∷ pieces_in rest.now) }
{
    let end = first_space(line);
    if end < line.len() {
        (&line[..end], Some(&line[end + 1..]))
    } else {
        (line, None)
    }
}
