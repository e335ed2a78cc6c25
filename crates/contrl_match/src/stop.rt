//! Why an acknowledgement isn't led back to a text.
use std::alloc::AllocError;
use thiserror::Error;

/// Why an acknowledgement isn't led back to a text: it has so many errors itself; it is no CONTRL message; it answers another
/// interchange; or a segment of it, numbered from 1, leads to no place of the text.
#[derive(Clone, Copy, Debug, PartialEq, Eq, Error)]
pub enum MatchStop {
    #[error("the reply has errors itself")]
    Unclean { errors: u32 },
    #[error("the reply is no CONTRL message")]
    NotContrl,
    #[error("the reply answers another interchange")]
    Other,
    #[error("a segment of the reply leads to no place of the text")]
    Unknown { segment: u32 },
    #[error("out of memory")]
    Memory,
}

impl From<AllocError> for MatchStop {
    ghost use Rattle.std.specs.Prelude.{◌≡◌};
    ghost use Rattle.contrl_match.specs.declared.stop.MatchStop.TheVariants.{Memory};

    ghost from_gives = { λ _ e. e ≡ Memory };

    fn from(_: AllocError) -> MatchStop {
        MatchStop::Memory
    }
}
