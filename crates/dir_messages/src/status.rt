//! The status of a table line, and what comes before and after it.
ghost use Rattle.std.specs.Prelude.{◌≡◌, ◌∷◌, [], false, MatchOption};
ghost use Rattle.std.specs.List.{slice_split, list_any, position_or_len};
ghost use Rattle.memchr.specs.Find.{IsLastByte, is_byte};
ghost use Rattle.dir_messages.specs.Message.{is_status};
ghost use Rattle.edi_octets.specs.Lines.{is_space};
ghost use Rattle.dir_messages.specs.Parts.{CutsAtStatus, CutsAtLastSpace};

use edi_octets::read_status;
use memchr::memrchr;

/// A text cut at its last field that is a status: what comes before and after it.
#[derive(Clone, Copy, Debug)]
pub(crate) struct StatusCut<'a> {
    pub before: &'a [u8],
    pub must: bool,
    pub behind: &'a [u8],
}

/// Cuts a text, which is empty or begins with a space, at its last field that is `M` or `C`;
/// `None` where it has no such field.
pub(crate) fn cut_at_status(text: &[u8]) -> Option<StatusCut<'_>>
    requires { position_or_len is_space text.now ≡ 0 }
    ensures { MatchOption result
        (list_any is_status (slice_split is_space text.now) ≡ false)
        (λ cut. CutsAtStatus text.now cut.before.now cut.must cut.behind.now) }
{
    let mut front = text;
    while let Some((before, field)) = cut_at_last_space(front) {
        if let Some(must) = read_status(field) {
            let behind = &text[front.len()..];
            return Some(StatusCut {
                before,
                must,
                behind,
            });
        }
        front = before;
    }
    None
}

/// What comes before and after the last space of a text; `None` where it has no space.
fn cut_at_last_space(text: &[u8]) -> Option<(&[u8], &[u8])>
    ensures { MatchOption result
        (slice_split is_space text.now ≡ text.now ∷ [])
        (λ cut. CutsAtLastSpace text.now cut.0.now cut.1.now) }
{
    let space = last_space(text)?;
    Some((&text[..space], &text[space + 1..]))
}

/// Where the last space of a text is. A name is padded with spaces, so most texts that are cut end with one.
#[tactic(auto, using(crate::proofs::PartLemmas::last_is))]
fn last_space(text: &[u8]) -> Option<usize>
    ensures { IsLastByte (is_byte 32) text.now result }
{
    let length = text.len();
    if length > 0 && text[length - 1] == b' ' {
        return Some(length - 1);
    }
    memrchr(b' ', text)
}
