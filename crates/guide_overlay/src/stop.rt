//! What can be wrong in a guide.
ghost use Rattle.std.specs.Prelude.{◌≡◌};
ghost use Rattle.guide_overlay.specs.GuideKind.{word_of};

use std::alloc::{AllocError, AllocFailed};
use thiserror::Error;

/// The rule of guides that a line breaks.
#[derive(Clone, Copy, Debug, PartialEq, Eq)]
pub enum GuideKind {
    BadLine,
    UnknownName,
    Twice,
    BadIndex,
    NotNarrower,
}

impl GuideKind {
    /// The word that is printed for it, as `bad-line`.
    pub fn word(self) -> &'static [u8]
        ensures { result.now ≡ word_of self }
    {
        match self {
            GuideKind::BadLine => b"bad-line",
            GuideKind::UnknownName => b"unknown-name",
            GuideKind::Twice => b"twice",
            GuideKind::BadIndex => b"bad-index",
            GuideKind::NotNarrower => b"not-narrower",
        }
    }
}

/// Why a guide narrows no directory.
#[derive(Debug, Drop, Error)]
pub enum GuideStop {
    #[error("the guide breaks a rule of guides")]
    Fault { line: u32, kind: GuideKind },
    #[error("out of memory")]
    Memory,
}

impl From<AllocError> for GuideStop {
    ghost use Rattle.std.specs.Prelude.{◌≡◌};
    ghost use Rattle.guide_overlay.specs.declared.stop.GuideStop.TheVariants.{Memory};

    ghost from_gives = { λ _ e. e ≡ Memory };

    fn from(_: AllocError) -> GuideStop {
        GuideStop::Memory
    }
}

impl<T: Drop> From<AllocFailed<T>> for GuideStop {
    ghost use Rattle.std.specs.Prelude.{◌≡◌};
    ghost use Rattle.guide_overlay.specs.declared.stop.GuideStop.TheVariants.{Memory};

    ghost from_gives = { λ _ e. e ≡ Memory };

    fn from(_: AllocFailed<T>) -> GuideStop {
        GuideStop::Memory
    }
}
