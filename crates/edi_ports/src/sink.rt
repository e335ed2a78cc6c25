//! Sinks of octets.
ghost use Rattle.std.specs.Prelude.{◌≡◌, ◌-◌, ◌++◌, ◌<◌, ◌≤◌, ◌^◌, List, ℕ, Option, IfSome, IsTrue, Some, length};
ghost use Rattle.std.specs.Bool.{OnTrue, OnFalse};
ghost use Rattle.edi_ports.specs.Faults.{HasRisen};
ghost use Rattle.edi_ports.specs.Sink.{IsPut, KeepsRoom, IsCut, count_after_put};

/// What one call of `put` did: took so many octets, or failed.
#[derive(Clone, Copy, Debug, PartialEq, Eq)]
pub enum Put {
    Took(usize),
    Failed,
}

/// Something that octets are put to.
pub trait Sink {
    /// The octets that were put so far, where the sink tells them.
    ghost held: { Self → Option (List ℕ) };

    /// How often it has failed: a count that never falls, and stays at 2^64 - 1 once it is there.
    ghost faults: { Self → ℕ };

    /// That it takes so many more octets without a fault.
    ghost has_room: { Self → ℕ → Type 0 };

    /// Appends octets from the front of the part, one at least.
    /// At `Failed`, and only there, the count rises, and nothing is appended.
    fn put(&mut self, part: &[u8]) -> Put
        requires { 0 < length part.now }
        ensures put { IsPut (held self.old) (held self.new) part.now result }
        ensures counted { faults self.new ≡ count_after_put (faults self.old) result }
        ensures room { (n : ℕ) → has_room self.old n → length part.now ≤ n
            → KeepsRoom (has_room self.new) n result };

    /// The count is a number of 64 bits.
    ghost fits: { (sink : Self) → faults sink < 2 ^ 64 };
}

/// Appends the whole part. `false` comes only where the sink failed, and then a proper prefix was appended.
/// It takes no memory, and asks nothing of a sink that has failed.
pub fn put_all<O: Sink>(out: &mut O, part: &[u8]) -> bool
    ensures whole { OnTrue result
        (IfSome (O.held out.old) (λ held. O.held out.new ≡ Some (held ++ part.now))) }
    ensures cut { OnFalse result (IsCut (O.held out.old) (O.held out.new) part.now) }
    ensures counted { O.faults out.old ≤ O.faults out.new }
    ensures cause { OnFalse result (HasRisen (O.faults out.old) (O.faults out.new)) }
    ensures room { (n : ℕ) → O.has_room out.old n → length part.now ≤ n
        → IsTrue result × O.has_room out.new (n - length part.now) }
{
    let mut rest = part;
    while !rest.is_empty() {
        match out.put(rest) {
            Put::Took(n) => rest = rest.split_at(n).1,
            Put::Failed => return false,
        }
    }
    true
}
