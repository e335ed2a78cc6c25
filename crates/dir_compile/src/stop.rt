//! Why parts give no directory.
ghost use Rattle.std.specs.Prelude.{◌≡◌};
ghost use Rattle.dir_compile.specs.CompileKind.{word_of};
ghost use Rattle.dir_compile.specs.Stop.{IsStopAt};

use edi_tables::Chunk;
use std::alloc::{AllocError, AllocFailed, Global};
use thiserror::Error;

/// The rule that the parts of a directory break.
#[derive(Clone, Copy, Debug, PartialEq, Eq)]
pub enum CompileKind {
    Twice,
    UnknownElement,
    ReprDiffers,
    Reserved,
    UnknownComposite,
    UnknownSegment,
    BadTable,
}

impl CompileKind {
    /// The word that is printed for it, as `unknown-element`.
    pub fn word(self) -> &'static [u8]
        ensures { result.now ≡ word_of self }
    {
        match self {
            CompileKind::Twice => b"twice",
            CompileKind::UnknownElement => b"unknown-element",
            CompileKind::ReprDiffers => b"repr-differs",
            CompileKind::Reserved => b"reserved",
            CompileKind::UnknownComposite => b"unknown-composite",
            CompileKind::UnknownSegment => b"unknown-segment",
            CompileKind::BadTable => b"bad-table",
        }
    }
}

/// The first fault of parts: the rule that they break, and the name that is doubled, unknown, different or reserved,
/// or the message's whose table is bad.
#[derive(Debug, Drop, Error)]
pub enum CompileStop {
    #[error("the parts of the directory break a rule")]
    Fault { kind: CompileKind, name: Chunk },
    #[error("out of memory")]
    Memory,
}

impl From<AllocError> for CompileStop {
    ghost use Rattle.std.specs.Prelude.{◌≡◌};
    ghost use Rattle.dir_compile.specs.declared.stop.CompileStop.TheVariants.{Memory};

    ghost from_gives = { λ _ e. e ≡ Memory };

    fn from(_: AllocError) -> CompileStop {
        CompileStop::Memory
    }
}

impl<T: Drop> From<AllocFailed<T>> for CompileStop {
    ghost use Rattle.std.specs.Prelude.{◌≡◌};
    ghost use Rattle.dir_compile.specs.declared.stop.CompileStop.TheVariants.{Memory};

    ghost from_gives = { λ _ e. e ≡ Memory };

    fn from(_: AllocFailed<T>) -> CompileStop {
        CompileStop::Memory
    }
}

/// The fault of this kind and name. Where memory is refused, it is that.
pub(crate) fn fault(alloc: Global, kind: CompileKind, name: &[u8]) -> CompileStop
    ensures { IsStopAt kind name.now result }
{
    match Chunk::of(alloc, name) {
        Ok(name) => CompileStop::Fault { kind, name },
        Err(_) => CompileStop::Memory,
    }
}
