//! A sink over a writer of std.
ghost use Rattle.std.specs.Prelude.{◌≡◌, ◌<◌, ◌≤◌, ◌^◌, ℕ, None, length, IfOk, OnErr};
ghost use Rattle.edi_ports.specs.Sink.{IsPut, KeepsRoom, IsWritten, count_after_put};

use crate::adapters::calls::raise;
use crate::{Put, Sink};
use std::io;
use std::io::Write;

/// A sink over a writer, which makes one call of `write` and then one of `flush` per call.
/// Each error is a fault, and so is a write that takes nothing.
#[derive(Debug, Drop)]
pub struct StdSink<W> {
    writer: W,
    faults: u64,
    ghost fits: { faults < 2 ^ 64 },
}

impl<W: Write> StdSink<W> {
    ghost use Rattle.edi_ports.specs.StdSink.{written_by};

    /// A sink over this writer.
    pub fn new(writer: W) -> StdSink<W>
        ensures faults { ⟦<StdSink<W> as Sink>⟧.faults result ≡ 0 }
        ensures written { written_by W.contents result ≡ W.contents writer }
    {
        StdSink { writer, faults: 0 }
    }
}

impl<W: Write> Sink for StdSink<W> {
    ghost use Rattle.edi_ports.specs.StdSink.{faults_of, written_by};

    ghost held = { λ _. None };

    ghost faults = { faults_of };

    ghost has_room = { λ _ _. ⊥ };

    ghost fits = { λ sink. sink.fits };

    fn put(&mut self, part: &[u8]) -> Put
        requires { 0 < length part.now }
        ensures put { IsPut None None part.now result }
        ensures counted { faults_of self.new ≡ count_after_put (faults_of self.old) result }
        ensures room { (n : ℕ) → ⊥ → length part.now ≤ n → KeepsRoom (λ _. ⊥) n result }
        ensures written { IsWritten (written_by W.contents self.old)
            (written_by W.contents self.new) part.now result }
    {
        let taken = write_once(&mut self.writer, part).unwrap_or(0);
        if taken == 0 {
            raise(&mut self.faults);
            return Put::Failed;
        }
        Put::Took(taken)
    }
}

// One call of `write`, and one of `flush` after it.
fn write_once<W: Write>(writer: &mut W, part: &[u8]) -> io::Result<usize>
    ensures bound { IfOk result (λ n. n ≤ length part.now) }
    ensures ok { IfOk result (λ n. IsWritten (W.contents writer.old) (W.contents writer.new)
        part.now (Put.Took n)) }
    ensures err { OnErr result (IsWritten (W.contents writer.old) (W.contents writer.new)
        part.now Put.Failed) }
{
    let taken = writer.write(part)?;
    writer.flush()?;
    Ok(taken)
}
