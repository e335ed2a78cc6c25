//! Putting what a run came to.
ghost use Rattle.std.specs.Prelude.{◌≡◌, ◌≤◌, ℕ, length};
ghost use Rattle.run_outcome.specs.Finish.{IsFinish};
ghost use Rattle.run_outcome.specs.Held.{held_of};

use crate::outcome::Made;
use crate::put::put_pair;
use crate::status::Status;
use edi_ports::Sink;

/// Puts the whole output, and answers its status where the sink took it.
pub fn finish<O: Sink>(out: &mut O, made: &Made) -> Status
    ensures finish { IsFinish made.now (held_of O.Sink out.old) (held_of O.Sink out.new) result }
    ensures room { (n : ℕ) → O.has_room out.old n → length made.now.output ≤ n
        → result ≡ made.now.status }
{
    let (head, rest) = made.parts();
    if put_pair(out, head, rest) {
        made.status()
    } else {
        Status::WriteFault
    }
}
