//! A source in memory.
ghost use Rattle.std.specs.Prelude.{◌≡◌, ◌<◌, ◌≤◌, ◌^◌, [], Some, length, vec_len};
ghost use Rattle.edi_ports.specs.Source.{IsTake, IsFailedTake, count_after_take};

use crate::memory::calls::{Calls, copy_front};
use crate::{Source, Taken};

/// A source in memory: it gives at most `most` octets per call, and fails at the calls that `failing` numbers, from 0.
#[derive(Debug, Drop)]
pub struct MemSource {
    octets: Vec<u8>,
    from: usize,
    most: usize,
    calls: Calls,
    ghost placed: { from ≤ vec_len octets },
    ghost moves: { 0 < most },
    ghost fits: { calls.faults < 2 ^ 64 },
}

impl MemSource {
    ghost use Rattle.edi_ports.specs.MemSource.{IsMade};

    /// A source with these octets. `most` is at least 1.
    pub fn new(rest: Vec<u8>, most: usize, failing: Vec<u64>) -> MemSource
        requires { 0 < most }
        ensures rest { ⟦<MemSource as Source>⟧.rest result ≡ Some rest.items }
        ensures made { IsMade most failing result }
        ensures faults { ⟦<MemSource as Source>⟧.faults result ≡ 0 }
        ensures steady { failing.items ≡ [] → ⟦<MemSource as Source>⟧.is_steady result }
    {
        MemSource {
            octets: rest,
            from: 0,
            most,
            calls: Calls::new(failing),
        }
    }
}

impl Source for MemSource {
    ghost use Rattle.edi_ports.specs.MemSource.{rest_of, faults_of, IsSteady, taken_next, IsNextCall};

    ghost rest = { λ s. Some (rest_of s) };

    ghost faults = { faults_of };

    ghost is_steady = { IsSteady };

    ghost fits = { λ source. source.fits };

    fn take(&mut self, buffer: &mut [u8]) -> Taken
        requires { 0 < length buffer.old }
        ensures taken { IsTake (Some (rest_of self.old)) (Some (rest_of self.new))
            buffer.new result }
        ensures counted { faults_of self.new ≡ count_after_take (faults_of self.old) result }
        ensures steady { IsSteady self.old → (IsFailedTake result → ⊥) × IsSteady self.new }
        ensures exact { result ≡ taken_next self.old (length buffer.old) }
        ensures next { IsNextCall self.old self.new }
    {
        if self.calls.next_fails() {
            return Taken::Failed;
        }
        let left = self.octets.len() - self.from;
        if left == 0 {
            return Taken::End;
        }
        let n = left.min(self.most).min(buffer.len());
        copy_front(buffer, &self.octets[self.from..self.from + n]);
        self.from += n;
        Taken::Got(n)
    }
}
