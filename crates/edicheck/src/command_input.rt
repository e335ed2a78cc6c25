//! The input of a script: it is read in few calls, and no octet is taken past the end of a command.
//!
//! The reader of a script asks for one octet after another. Where none is left, as many are taken from the source at
//! once as the command must still have.
ghost use Rattle.std.specs.Prelude.{◌≡◌, ◌≤◌, ◌<◌, ◌^◌, ◌-◌, [], length, take};
ghost use Rattle.edi_ports.specs.Source.{IsTake, IsFailedTake, count_after_take};
ghost use Rattle.edicheck.specs.Place.{due_at, room_at, place_after, IsPlaceAfter};
ghost use Rattle.edicheck.specs.Kept.{rest_after, kept_octets, IsKept, IsHanded};
ghost use Rattle.edicheck.specs.declared.place.Place.TheVariants.{Name};

use crate::kept::Kept;
use crate::place::Place;
use edi_ports::{Source, Taken};

/// A source that hands out the octets of another, which is asked for what a command must still have, and for no more.
/// A caller that asks for more than that reads no script, and is given what the other source gives.
#[derive(Drop)]
pub struct CommandInput<I> {
    source: I,
    kept: Kept,
    place: Place,
    ghost within: { IsKept kept },
    ghost exact: { kept.to - kept.from ≤ room_at place },
}

impl<I: Source> CommandInput<I> {
    /// The input of a script that begins where the source is.
    pub fn new(source: I) -> CommandInput<I>
        ensures place { result.place ≡ Name 0 }
        ensures none { kept_octets result.kept ≡ [] }
        ensures source { result.source ≡ source }
    {
        CommandInput {
            source,
            kept: Kept::new(),
            place: Place::start(),
        }
    }
}

impl<I: Source> Source for CommandInput<I> {
    ghost rest = { λ s. rest_after s.kept (I.rest s.source) };

    ghost faults = { λ s. I.faults s.source };

    ghost is_steady = { λ s. I.is_steady s.source };

    ghost fits = { λ s. I.fits s.source };

    fn take(&mut self, buffer: &mut [u8]) -> Taken
        requires { 0 < length buffer.old }
        ensures taken { IsTake (rest_after self.old.kept (I.rest self.old.source))
            (rest_after self.new.kept (I.rest self.new.source)) buffer.new result }
        ensures counted { I.faults self.new.source
            ≡ count_after_take (I.faults self.old.source) result }
        ensures steady { I.is_steady self.old.source
            → (IsFailedTake result → ⊥) × I.is_steady self.new.source }
        ensures place { length buffer.old ≤ due_at self.old.place
            → IsPlaceAfter self.old.place self.new.place buffer.new result }
        ensures exact { self.new.place ≡ Name 0 → kept_octets self.new.kept ≡ [] }
    {
        let due = self.place.due();
        if self.kept.is_empty() && buffer.len() > due {
            self.place = Place::Unknown;
            return self.source.take(buffer);
        }
        let taken = self.kept.provide(&mut self.source, due);
        if !matches!(taken, Taken::Got(_)) {
            return taken;
        }
        let (n, place) = hand_out(&mut self.kept, self.place, buffer);
        self.place = place;
        Taken::Got(n)
    }
}

// Hands out octets that are kept: of those that are put as many as the buffer has room for, of others one. Tells how
// many, and the place after them.
fn hand_out(kept: &mut Kept, place: Place, buffer: &mut [u8]) -> (usize, Place)
    requires room { 0 < length buffer.old }
    requires kept { IsKept kept.old }
    requires some { kept.old.from < kept.old.to }
    requires few { kept.old.to - kept.old.from ≤ due_at place }
    ensures some { 0 < result.0 }
    ensures within { result.0 ≤ length buffer.new }
    ensures kept { IsKept kept.new }
    ensures few { kept.new.to - kept.new.from ≤ room_at result.1 }
    ensures handed { IsHanded (kept_octets kept.old) (kept_octets kept.new) buffer.new result.0 }
    ensures place { result.1 ≡ place_after place (take result.0 (kept_octets kept.old)) }
{
    let (n, next) = match place {
        Place::Put(_) => {
            let n = buffer.len().min(kept.length());
            (n, place.after_put(n))
        }
        _ => (1, place.after(kept.first())),
    };
    kept.move_to(&mut buffer[..n]);
    (n, next)
}
