//! Putting octets one after the other.
ghost use Rattle.std.specs.Prelude.{◌≡◌, ◌≤◌, ◌-◌, ◌++◌, ℕ, IfSome, IsTrue, length, decimal};
ghost use Rattle.std.specs.Bool.{OnFalse};
ghost use Rattle.edi_ports.specs.Faults.{HasRisen};
ghost use Rattle.run_outcome.specs.Put.{IsPutOut};

use arrayvec::ArrayVec;
use edi_ports::{Sink, put_all};
use itoa::Buffer;

/// Most replies to an edit are shorter.
const SHORT_LINE: usize = 64;

/// Puts two parts, one after the other. `false` comes only where the sink failed. It takes no memory.
pub fn put_pair<O: Sink>(out: &mut O, head: &[u8], rest: &[u8]) -> bool
    ensures put { IsPutOut (O.held out.old) (O.held out.new) (head.now ++ rest.now) result }
    ensures counted { O.faults out.old ≤ O.faults out.new }
    ensures cause { OnFalse result (HasRisen (O.faults out.old) (O.faults out.new)) }
    ensures room { (n : ℕ) → O.has_room out.old n → length (head.now ++ rest.now) ≤ n
        → IsTrue result × O.has_room out.new (n - length (head.now ++ rest.now)) }
{
    put_all(out, head) && put_all(out, rest)
}

/// Puts a number with words before and after it, as `put_pair` puts two parts. A short line is put at once.
pub fn put_numbered<O: Sink>(out: &mut O, head: &[u8], n: u64, rest: &[u8]) -> bool
    ensures put { IsPutOut (O.held out.old) (O.held out.new)
        (head.now ++ decimal n ++ rest.now) result }
    ensures counted { O.faults out.old ≤ O.faults out.new }
    ensures cause { OnFalse result (HasRisen (O.faults out.old) (O.faults out.new)) }
    ensures room { (room : ℕ) → O.has_room out.old room
        → length (head.now ++ decimal n ++ rest.now) ≤ room
        → IsTrue result × O.has_room out.new (room - length (head.now ++ decimal n ++ rest.now)) }
{
    let mut buffer = Buffer::new();
    let number = buffer.format(n).as_bytes();
    match short_line(head, number, rest) {
        Some(line) => put_all(out, line.as_slice()),
        None => put_pair(out, head, number) && put_all(out, rest),
    }
}

// Three parts in one, where they are short enough.
fn short_line(head: &[u8], number: &[u8], rest: &[u8]) -> Option<ArrayVec<u8, SHORT_LINE>>
    ensures { IfSome result (λ line. line.items ≡ head.now ++ number.now ++ rest.now) }
{
    let mut line = ArrayVec::new();
    line.try_extend_from_slice(head).ok()?;
    line.try_extend_from_slice(number).ok()?;
    line.try_extend_from_slice(rest).ok()?;
    Some(line)
}
