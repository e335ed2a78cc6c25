//! `contrl`: the acknowledgement of a text.
ghost use Rattle.std.specs.Prelude.{◌≡◌, ◌⊎◌, ◌≤◌, length, IfOk, IsTrue};
ghost use Rattle.contrl_segments.specs.Stamp.{IsStamp, is_reference_of};
ghost use Rattle.text_reading.specs.Summary.{contrl_to};
ghost use Rattle.run_outcome.specs.Outcome.{memory_refused};
ghost use Rattle.edicheck_core.specs.About.{answered};
ghost use Rattle.edi_octets.specs.declared.octets.TheConstants.{LONGEST_TEXT};

use contrl_writer::{Contrl, Stamp};
use dir_compile::Directory;
use edi_engine::Engine;
use run_outcome::{Made, Status};
use std::alloc::{AllocError, Global};
use std::mem::forget;

/// The acknowledgement of a text, by a directory.
pub(crate) fn tell_contrl(
    alloc: Global,
    stamp: &Stamp,
    reference: &[u8],
    directory: &Directory,
    octets: Vec<u8>,
) -> Made
    requires stamp { IsStamp stamp.now }
    requires reference { IsTrue (is_reference_of reference.now) }
    requires short { length octets.items ≤ LONGEST_TEXT }
    ensures { (result ≡ answered (contrl_to directory.now octets.items stamp.now reference.now))
        ⊎ (result ≡ memory_refused) }
{
    match acknowledge(alloc, stamp, reference, directory, octets) {
        Ok(answer) => answered(answer),
        Err(_) => Made::memory_refused(),
    }
}

fn acknowledge(
    alloc: Global,
    stamp: &Stamp,
    reference: &[u8],
    directory: &Directory,
    octets: Vec<u8>,
) -> Result<Contrl, AllocError>
    requires stamp { IsStamp stamp.now }
    requires reference { IsTrue (is_reference_of reference.now) }
    requires short { length octets.items ≤ LONGEST_TEXT }
    ensures { IfOk result (λ answer. answer
        ≡ contrl_to directory.now octets.items stamp.now reference.now) }
{
    let engine = Engine::read(alloc, directory, octets)?;
    let answer = engine.contrl(alloc, stamp, reference)?;
    // The run ends after it, and its records needn't be freed one by one.
    forget(engine);
    Ok(answer)
}

// The octets of an acknowledgement and nothing else; or that there is no UNB, or a bad one.
fn answered(answer: Contrl) -> Made
    ensures { result ≡ answered answer }
{
    match answer {
        Contrl::Octets(octets) => Made::lines(Status::Done, Ok(octets)),
        Contrl::NoUnb => Made::fixed(Status::Found, b"no unb\n"),
        Contrl::BadUnb => Made::fixed(Status::Found, b"bad unb\n"),
    }
}
