//! Why octets are no store.
ghost use Rattle.std.specs.Prelude.{◌≡◌};

use crate::line_stop::Stop;
use thiserror::Error;

/// Why octets give no directory: the place of the first fault, or no memory.
#[derive(Debug, Drop, Error)]
pub enum StoreStop {
    /// The start of the first line that breaks a rule; for a bad segment table that of its name line. The octets' length,
    /// where they end before the last line does; the first octet after the last line, where some follow it.
    #[error("the octets are no store")]
    Fault { at: usize },
    #[error("out of memory")]
    Memory,
}

impl StoreStop {
    ghost use Rattle.std.specs.Prelude.{ℕ, ◌-◌};
    ghost use Rattle.std.specs.Option.{option_map};
    ghost use Rattle.dir_store.specs.Stop.{fault_in};
    ghost use Rattle.dir_store.specs.LineStop.{left_in};

    /// The stop of a store of so many octets, by one inside it.
    pub(crate) fn of(length: usize, stop: Stop) -> StoreStop
        ensures { fault_in result ≡ option_map (λ left. length - left) (left_in stop) }
    {
        match stop {
            Stop::Fault { left } => StoreStop::Fault {
                at: length.saturating_sub(left),
            },
            Stop::Memory => StoreStop::Memory,
        }
    }
}
