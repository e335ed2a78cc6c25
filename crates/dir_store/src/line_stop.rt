//! Why octets inside a store give nothing.
ghost use Rattle.std.specs.Prelude.{◌≡◌, length};
ghost use Rattle.dir_store.specs.declared.line_stop.Stop.TheVariants.{Fault};

use std::alloc::{AllocError, AllocFailed};

/// Why octets inside a store give nothing: how many octets there are from the fault on, or no memory.
#[derive(Clone, Copy, Debug)]
pub(crate) enum Stop {
    Fault { left: usize },
    Memory,
}

impl Stop {
    /// The stop for a fault where these octets begin.
    pub fn at(octets: &[u8]) -> Stop
        ensures { result ≡ Fault (length octets.now) }
    {
        Stop::Fault { left: octets.len() }
    }
}

impl From<AllocError> for Stop {
    ghost use Rattle.std.specs.Prelude.{◌≡◌};
    ghost use Rattle.dir_store.specs.declared.line_stop.Stop.TheVariants.{Memory};

    ghost from_gives = { λ _ e. e ≡ Memory };

    fn from(_: AllocError) -> Stop {
        Stop::Memory
    }
}

impl<T: Drop> From<AllocFailed<T>> for Stop {
    ghost use Rattle.std.specs.Prelude.{◌≡◌};
    ghost use Rattle.dir_store.specs.declared.line_stop.Stop.TheVariants.{Memory};

    ghost from_gives = { λ _ e. e ≡ Memory };

    fn from(_: AllocFailed<T>) -> Stop {
        Stop::Memory
    }
}
