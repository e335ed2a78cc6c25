//! A sink in memory.
ghost use Rattle.std.specs.Prelude.{◌≡◌, ◌≤◌, ◌<◌, ◌-◌, ◌^◌, ℕ, [], Some, length, vec_len, vec_capacity, IfOk};
ghost use Rattle.edi_ports.specs.Sink.{IsPut, KeepsRoom, count_after_put};

use crate::memory::calls::Calls;
use crate::{Put, Sink};
use std::alloc::{AllocError, Global};

/// A sink in memory with room for so many octets: it takes at most `most` octets per call, and fails at the calls
/// that `failing` numbers, from 0, and where no room is left.
#[derive(Debug, Drop)]
pub struct MemSink {
    octets: Vec<u8>,
    room: usize,
    most: usize,
    calls: Calls,
    ghost within: { vec_len octets ≤ room },
    ghost reserved: { room ≤ vec_capacity octets },
    ghost moves: { 0 < most },
    ghost fits: { calls.faults < 2 ^ 64 },
}

impl MemSink {
    ghost use Rattle.edi_ports.specs.MemSink.{IsMade, held_of};

    /// An empty sink, which takes its room at once. `most` is at least 1.
    pub fn new(
        alloc: Global,
        room: usize,
        most: usize,
        failing: Vec<u64>,
    ) -> Result<MemSink, AllocError>
        requires { 0 < most }
        ensures held { IfOk result (λ sink. ⟦<MemSink as Sink>⟧.held sink ≡ Some []) }
        ensures made { IfOk result (IsMade room most failing) }
        ensures faults { IfOk result (λ sink. ⟦<MemSink as Sink>⟧.faults sink ≡ 0) }
        ensures room { IfOk result (λ sink. failing.items ≡ []
            → ⟦<MemSink as Sink>⟧.has_room sink room) }
    {
        Ok(MemSink {
            octets: Vec::with_capacity(alloc, room)?,
            room,
            most,
            calls: Calls::new(failing),
        })
    }

    /// The octets that were put.
    pub fn octets(&self) -> &[u8]
        ensures { ⟦<MemSink as Sink>⟧.held self.now ≡ Some result.now }
    {
        &self.octets
    }
}

impl Sink for MemSink {
    ghost use Rattle.edi_ports.specs.MemSink.{held_of, faults_of, HasRoom, put_next, IsNextCall};

    ghost held = { λ s. Some (held_of s) };

    ghost faults = { faults_of };

    ghost has_room = { HasRoom };

    ghost fits = { λ sink. sink.fits };

    fn put(&mut self, part: &[u8]) -> Put
        requires { 0 < length part.now }
        ensures put { IsPut (Some (held_of self.old)) (Some (held_of self.new)) part.now result }
        ensures counted { faults_of self.new ≡ count_after_put (faults_of self.old) result }
        ensures room { (n : ℕ) → HasRoom self.old n → length part.now ≤ n
            → KeepsRoom (HasRoom self.new) n result }
        ensures exact { result ≡ put_next self.old (length part.now) }
        ensures next { IsNextCall self.old self.new (length part.now) }
    {
        if self.calls.next_fails() {
            return Put::Failed;
        }
        let n = part.len().min(self.most).min(self.room - self.octets.len());
        if n == 0 {
            self.calls.fail();
            return Put::Failed;
        }
        self.octets.extend_from_slice(&part[..n]).unwrap();
        Put::Took(n)
    }
}
