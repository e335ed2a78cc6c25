//! Why no command was read.
ghost use Rattle.std.specs.Prelude.{◌≡◌};
ghost use Rattle.edit_script.specs.Stop.{script_stop_of};

use std::alloc::AllocError;
use thiserror::Error;

/// Why there is no next command. `number` is the command's, from 1.
#[derive(Clone, Copy, Debug, PartialEq, Eq, Error)]
pub enum ScriptStop {
    #[error("what was taken begins no command")]
    BadLine { number: u32 },
    #[error("the script ends inside a command")]
    CutShort { number: u32 },
    #[error("the script has more octets than the limit allows")]
    TooLong,
    #[error("the source failed")]
    Fault,
    #[error("out of memory")]
    Memory,
}

/// Why a part of a command was not read: as a stop, without the command's number.
#[derive(Clone, Copy, Debug, PartialEq, Eq)]
pub(crate) enum Halt {
    Bad,
    Cut,
    TooLong,
    Fault,
    Memory,
}

impl Halt {
    /// The stop that this is in the command of that number.
    pub fn at_command(self, number: u32) -> ScriptStop
        ensures { result ≡ script_stop_of number self }
    {
        match self {
            Halt::Bad => ScriptStop::BadLine { number },
            Halt::Cut => ScriptStop::CutShort { number },
            Halt::TooLong => ScriptStop::TooLong,
            Halt::Fault => ScriptStop::Fault,
            Halt::Memory => ScriptStop::Memory,
        }
    }
}

impl From<AllocError> for Halt {
    ghost use Rattle.std.specs.Prelude.{◌≡◌};
    ghost use Rattle.edit_script.specs.declared.stop.Halt.TheVariants.{Memory};

    ghost from_gives = { λ _ e. e ≡ Memory };

    fn from(_: AllocError) -> Halt {
        Halt::Memory
    }
}
