//! What can be wrong in a directory file.
ghost use Rattle.std.specs.Prelude.{◌≡◌};
ghost use Rattle.edi_octets.specs.DirKind.{word_of};

use std::alloc::{AllocError, AllocFailed};
use thiserror::Error;

/// The rule of the directory text profile that a file breaks.
#[derive(Clone, Copy, Debug, PartialEq, Eq)]
pub enum DirKind {
    BadLine,
    BadCode,
    BadRepr,
    NoRepr,
    BadPosition,
    BadStatus,
    Twice,
    PartsDiffer,
    NoType,
    BadGroup,
    CloseWithoutOpen,
    NotClosed,
    TooMany,
    NoUnhUnt,
    EnvelopeTag,
    BadMax,
    TooDeep,
    NoTrigger,
}

impl DirKind {
    /// The word that is printed for it, as `bad-line`.
    pub fn word(self) -> &'static [u8]
        ensures { result.now ≡ word_of self }
    {
        match self {
            DirKind::BadLine => b"bad-line",
            DirKind::BadCode => b"bad-code",
            DirKind::BadRepr => b"bad-repr",
            DirKind::NoRepr => b"no-repr",
            DirKind::BadPosition => b"bad-position",
            DirKind::BadStatus => b"bad-status",
            DirKind::Twice => b"twice",
            DirKind::PartsDiffer => b"parts-differ",
            DirKind::NoType => b"no-type",
            DirKind::BadGroup => b"bad-group",
            DirKind::CloseWithoutOpen => b"close-without-open",
            DirKind::NotClosed => b"not-closed",
            DirKind::TooMany => b"too-many",
            DirKind::NoUnhUnt => b"no-unh-unt",
            DirKind::EnvelopeTag => b"envelope-tag",
            DirKind::BadMax => b"bad-max",
            DirKind::TooDeep => b"too-deep",
            DirKind::NoTrigger => b"no-trigger",
        }
    }
}

/// The first fault of a directory file: the line, from 1, and the rule that it breaks. Of a file without a type
/// line it is the number of lines, which may be 0.
#[derive(Clone, Copy, Debug, PartialEq, Eq)]
pub struct DirFault {
    pub line: u32,
    pub kind: DirKind,
}

/// Why a directory file gives no definitions.
#[derive(Debug, Drop, Error)]
pub enum DirStop {
    #[error("the directory file breaks a rule of the directory text profile")]
    Fault(DirFault),
    #[error("out of memory")]
    Memory,
}

impl DirStop {
    ghost use Rattle.std.specs.Prelude.{◌≡◌};
    ghost use Rattle.edi_octets.specs.declared.fault.DirStop.TheVariants.{Fault};

    /// The stop for a rule that is broken at a line.
    pub fn at(line: u32, kind: DirKind) -> DirStop
        ensures { result ≡ Fault (record { line = line; kind = kind }) }
    {
        DirStop::Fault(DirFault { line, kind })
    }
}

impl From<AllocError> for DirStop {
    ghost use Rattle.std.specs.Prelude.{◌≡◌};
    ghost use Rattle.edi_octets.specs.declared.fault.DirStop.TheVariants.{Memory};

    ghost from_gives = { λ _ e. e ≡ Memory };

    fn from(_: AllocError) -> DirStop {
        DirStop::Memory
    }
}

impl<T: Drop> From<AllocFailed<T>> for DirStop {
    ghost use Rattle.std.specs.Prelude.{◌≡◌};
    ghost use Rattle.edi_octets.specs.declared.fault.DirStop.TheVariants.{Memory};

    ghost from_gives = { λ _ e. e ≡ Memory };

    fn from(_: AllocFailed<T>) -> DirStop {
        DirStop::Memory
    }
}
