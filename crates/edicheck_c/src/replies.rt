//! Replies, kept in memory as they are put.
ghost use Rattle.std.specs.Prelude.{◌≡◌, ◌<◌, ◌^◌, [], Some};

use edi_ports::{Put, Sink};
use edi_tables::Chunk;
use std::alloc::Global;

/// A sink in memory that grows. It fails only where memory is refused.
#[derive(Drop)]
pub(crate) struct Replies {
    pub(crate) octets: Chunk,
    faults: u64,
    ghost fits: { faults < 2 ^ 64 },
}

impl Replies {
    /// No replies yet. It takes no memory.
    pub(crate) fn new(alloc: Global) -> Replies
        ensures { ⟦<Replies as Sink>⟧.held result ≡ Some [] }
    {
        Replies {
            octets: Chunk::empty(alloc),
            faults: 0,
        }
    }

    /// The octets that were put.
    pub(crate) fn into_octets(self) -> Chunk
        ensures { ⟦<Replies as Sink>⟧.held self ≡ Some result }
    {
        self.octets
    }
}

impl Sink for Replies {
    ghost use Rattle.std.specs.Prelude.{Some};

    ghost held = { λ s. Some s.octets };

    ghost faults = { λ s. s.faults };

    ghost has_room = { λ _ _. ⊥ };

    ghost fits = { λ sink. sink.fits };

    fn put(&mut self, part: &[u8]) -> Put {
        match self.octets.add(part) {
            Ok(()) => Put::Took(part.len()),
            Err(_) => {
                self.faults = self.faults.saturating_add(1);
                Put::Failed
            }
        }
    }
}
