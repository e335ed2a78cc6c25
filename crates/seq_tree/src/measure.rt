//! What an item weighs, and whether it is marked.

ghost use Rattle.std.specs.Prelude.{◌≡◌, ◌≤◌, ℕ};

/// An item that has a weight and may be marked, always in the same way.
pub trait Measured: Drop {
    ghost measure: { Self → ℕ };

    ghost marks: { Self → ℕ };

    /// The item's weight, in the unit that the items' owner counts in, as octets.
    fn weight(&self) -> u32
        ensures { result ≡ measure self.now };

    /// 1 for an item that is marked, and else 0. A sequence finds those that are marked without a look at the others.
    fn marks(&self) -> u32
        ensures is { result ≡ marks self.now }
        ensures one { result ≤ 1 };
}
