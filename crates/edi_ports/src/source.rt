//! Sources of octets.
ghost use Rattle.std.specs.Prelude.{◌≡◌, ◌<◌, ◌^◌, List, ℕ, Option, length};
ghost use Rattle.edi_ports.specs.Source.{IsTake, IsFailedTake, count_after_take};

/// What one call of `take` gave: so many octets, the end, or a fault.
#[derive(Clone, Copy, Debug, PartialEq, Eq)]
pub enum Taken {
    Got(usize),
    End,
    Failed,
}

/// Something that octets are taken from.
pub trait Source {
    /// The octets that are left, where the source tells them.
    ghost rest: { Self → Option (List ℕ) };

    /// How often it has failed: a count that never falls, and stays at 2^64 - 1 once it is there.
    ghost faults: { Self → ℕ };

    /// That none of its calls fails from here on.
    ghost is_steady: { Self → Type 0 };

    /// Moves octets from the front of the rest to the front of the buffer, one at least.
    /// `End` comes only where nothing is left. At `Failed`, and only there, the count rises, and the rest is as before.
    fn take(&mut self, buffer: &mut [u8]) -> Taken
        requires { 0 < length buffer.old }
        ensures taken { IsTake (rest self.old) (rest self.new) buffer.new result }
        ensures counted { faults self.new ≡ count_after_take (faults self.old) result }
        ensures steady { is_steady self.old → (IsFailedTake result → ⊥) × is_steady self.new };

    /// The count is a number of 64 bits.
    ghost fits: { (source : Self) → faults source < 2 ^ 64 };
}
