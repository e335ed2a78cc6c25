//! Owned octets.
ghost use Rattle.std.specs.Prelude.{[], ◌≡◌, ◌++◌, IfOk, OnOk, OnErr};
ghost use Rattle.edi_tables.specs.Growing.{HasGrown};

use std::alloc::{AllocError, Global};
use std::marker::Model;

/// Octets of its own, seen as their list.
#[derive(Debug, Drop)]
pub struct Chunk {
    items: Vec<u8>,
}

impl Model for Chunk {
    ghost use Rattle.std.specs.Prelude.{List, ℕ};

    ghost Value = { List ℕ };

    ghost view = { λ c. c.items.items };
}

impl Chunk {
    /// A copy of these octets. Only want of memory is an error.
    pub fn of(alloc: Global, part: &[u8]) -> Result<Chunk, AllocError>
        ensures { IfOk result (λ c. c ≡ part.now) }
    {
        Ok(Chunk {
            items: part.to_vec(alloc)?,
        })
    }

    /// No octets, made without memory.
    pub fn empty(alloc: Global) -> Chunk
        ensures { result ≡ [] }
    {
        Chunk {
            items: Vec::new(alloc),
        }
    }

    /// No octets, with room for at least this many.
    pub fn with_room(alloc: Global, room: usize) -> Result<Chunk, AllocError>
        ensures { IfOk result (λ c. c ≡ []) }
    {
        Ok(Chunk {
            items: Vec::with_capacity(alloc, room)?,
        })
    }

    /// All its octets.
    pub fn octets(&self) -> &[u8]
        ensures { result.now ≡ self.now }
    {
        &self.items
    }

    /// Puts these octets at the end. Where memory is refused, nothing is put.
    #[tactic(auto, using(crate::proofs::GrowingLaws::grown_same, crate::proofs::GrowingLaws::grown_more))]
    pub fn add(&mut self, part: &[u8]) -> Result<(), AllocError>
        ensures ok { OnOk result (self.new ≡ self.old ++ part.now) }
        ensures err { OnErr result (self.new ≡ self.old) }
        // So what was there is there in any case.
        ensures grown { HasGrown self.old self.new }
    {
        self.items.extend_from_slice(part)
    }
}
