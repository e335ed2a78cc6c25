//! A source over a reader of std.
ghost use Rattle.std.specs.Prelude.{◌≡◌, ◌<◌, ◌^◌};

use crate::adapters::calls::take_once;
use crate::{Source, Taken};
use std::io::Read;

/// A source over a reader, which makes one call of `read` per call. Each error is a fault.
/// It tells what its reader tells: nothing, where the octets come from the system.
#[derive(Debug, Drop)]
pub struct StdSource<R> {
    reader: R,
    faults: u64,
    ghost fits: { faults < 2 ^ 64 },
}

impl<R: Read> StdSource<R> {
    /// A source over this reader.
    pub fn new(reader: R) -> StdSource<R>
        ensures faults { ⟦<StdSource<R> as Source>⟧.faults result ≡ 0 }
        ensures rest { ⟦<StdSource<R> as Source>⟧.rest result ≡ R.remaining reader }
    {
        StdSource { reader, faults: 0 }
    }
}

impl<R: Read> Source for StdSource<R> {
    ghost rest = { λ s. R.remaining s.reader };

    ghost faults = { λ s. s.faults };

    ghost is_steady = { λ _. ⊥ };

    ghost fits = { λ source. source.fits };

    fn take(&mut self, buffer: &mut [u8]) -> Taken {
        take_once(&mut self.reader, buffer, &mut self.faults)
    }
}
