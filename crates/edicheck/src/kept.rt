//! Octets that were taken from a source and not yet handed out.
ghost use Rattle.std.specs.Prelude.{◌≡◌, ◌≤◌, ◌<◌, ◌+◌, ◌-◌, length, drop, take, slice_index, ◌==◌};
ghost use Rattle.edi_ports.specs.Source.{IsTake, IsFailedTake, count_after_take};
ghost use Rattle.edicheck.specs.Kept.{kept_octets, rest_after, IsKept, IsProvided};

use edi_ports::{Source, Taken};

// So many octets are kept at most.
const ROOM: usize = 8192;

/// Octets that were taken from a source and not yet handed out.
#[derive(Drop)]
pub struct Kept {
    pub octets: [u8; ROOM],
    pub from: usize,
    pub to: usize,
}

impl Kept {
    /// None of them.
    pub fn new() -> Kept
        ensures from { result.from ≡ 0 }
        ensures to { result.to ≡ 0 }
    {
        Kept {
            octets: [0; ROOM],
            from: 0,
            to: 0,
        }
    }

    /// How many there are.
    pub fn length(&self) -> usize
        requires { IsKept self.now }
        ensures { result ≡ self.now.to - self.now.from }
    {
        self.to - self.from
    }

    /// The first of them.
    pub fn first(&self) -> u8
        requires kept { IsKept self.now }
        requires some { self.now.from < self.now.to }
        ensures { result ≡ slice_index (kept_octets self.now) 0 }
    {
        self.octets[self.from]
    }

    /// Whether there are none.
    pub fn is_empty(&self) -> bool
        ensures { result ≡ (self.now.from == self.now.to) }
    {
        self.from == self.to
    }

    /// Sees that there are some: where there are none, takes up to so many octets of the source.
    pub fn provide<I: Source>(&mut self, source: &mut I, most: usize) -> Taken
        requires some { 0 < most }
        requires kept { IsKept self.old }
        requires few { self.old.to - self.old.from ≤ most }
        ensures kept { IsKept self.new }
        ensures few { self.new.to - self.new.from ≤ most }
        ensures provided { IsProvided (rest_after self.old (I.rest source.old))
            (rest_after self.new (I.rest source.new)) self.new result }
        ensures counted { I.faults source.new ≡ count_after_take (I.faults source.old) result }
        ensures steady { I.is_steady source.old
            → (IsFailedTake result → ⊥) × I.is_steady source.new }
    {
        if !self.is_empty() {
            return Taken::Got(self.length());
        }
        let taken = source.take(&mut self.octets[..most.min(ROOM)]);
        if let Taken::Got(n) = taken {
            self.from = 0;
            self.to = n;
        }
        taken
    }

    /// Moves so many octets as the buffer has from the front of these.
    pub fn move_to(&mut self, buffer: &mut [u8])
        requires kept { IsKept self.old }
        requires few { length buffer.old ≤ self.old.to - self.old.from }
        ensures kept { IsKept self.new }
        ensures handed { buffer.new ≡ take (length buffer.old) (kept_octets self.old) }
        ensures left { kept_octets self.new ≡ drop (length buffer.old) (kept_octets self.old) }
        ensures fewer { self.new.to - self.new.from
            ≡ (self.old.to - self.old.from) - length buffer.old }
    {
        let from = self.from;
        self.from += buffer.len();
        buffer.copy_from_slice(&self.octets[from..self.from]);
    }
}
