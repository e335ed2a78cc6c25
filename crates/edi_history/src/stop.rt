//! Why a batch was not made.
ghost use Rattle.std.specs.Prelude.{◌≡◌};

use edi_engine::EditStop;
use std::alloc::AllocError;
use thiserror::Error;

/// Why no edit of a batch was made. `edit` is the number of the first edit that can't be made, from 1.
#[derive(Clone, Copy, Debug, PartialEq, Eq, Error)]
pub enum BatchStop {
    #[error("an edit reaches past the end of the text")]
    Range { edit: u32 },
    #[error("the text would have over 4,194,304 octets")]
    TooLong { edit: u32 },
    #[error("out of memory")]
    Memory,
}

impl From<AllocError> for BatchStop {
    ghost use Rattle.std.specs.Prelude.{◌≡◌};
    ghost use Rattle.edi_history.specs.declared.stop.BatchStop.TheVariants.{Memory};

    ghost from_gives = { λ _ e. e ≡ Memory };

    fn from(_: AllocError) -> BatchStop {
        BatchStop::Memory
    }
}
