//! What a run comes to before its first octet is put.
ghost use Rattle.std.specs.Prelude.{◌≡◌, ◌++◌, MatchResult};
ghost use Rattle.run_outcome.specs.Outcome.{memory_refused, no_form, read_failed};
ghost use Rattle.run_outcome.specs.Output.{octets_of};

use crate::status::Status;
use edi_tables::Chunk;
use std::alloc::AllocError;
use std::marker::Model;

/// A whole output: octets of the program, which need no memory; lines; or a head and the lines after it.
#[derive(Debug, Drop)]
pub enum Output {
    Fixed(&'static [u8]),
    Lines(Chunk),
    Headed { head: Chunk, lines: Chunk },
}

impl Output {
    // The two parts that are put one after the other.
    fn parts(&self) -> (&[u8], &[u8])
        ensures { result.0.now ++ result.1.now ≡ octets_of self.now }
    {
        match self {
            Output::Fixed(octets) => (octets, b""),
            Output::Lines(lines) => (lines.octets(), b""),
            Output::Headed { head, lines } => (head.octets(), lines.octets()),
        }
    }
}

/// A status, and the whole output that goes with it.
#[derive(Debug, Drop)]
pub struct Made {
    status: Status,
    output: Output,
}

impl Model for Made {
    ghost use Rattle.run_outcome.specs.Outcome.{Outcome};
    ghost use Rattle.run_outcome.specs.Output.{octets_of};

    ghost Value = { Outcome };

    ghost view = { λ m. record { status = m.status; output = octets_of m.output } };
}

impl Made {
    /// Its status.
    pub fn status(&self) -> Status
        ensures { result ≡ self.now.status }
    {
        self.status
    }

    /// Its output, in two parts that are put one after the other.
    pub fn parts(&self) -> (&[u8], &[u8])
        ensures { result.0.now ++ result.1.now ≡ self.now.output }
    {
        self.output.parts()
    }

    /// A status with octets that need no memory.
    pub fn fixed(status: Status, octets: &'static [u8]) -> Made
        ensures { result ≡ record { status = status; output = octets.now } }
    {
        Made {
            status,
            output: Output::Fixed(octets),
        }
    }

    /// That the words are of no form.
    pub fn no_form() -> Made
        ensures { result ≡ no_form }
    {
        Made::fixed(Status::Words, b"fault words\n")
    }

    /// That the input or the shelf failed.
    pub fn read_failed() -> Made
        ensures { result ≡ read_failed }
    {
        Made::fixed(Status::ReadFault, b"fault read\n")
    }

    /// That memory was refused.
    pub fn memory_refused() -> Made
        ensures { result ≡ memory_refused }
    {
        Made::fixed(Status::Memory, b"fault memory\n")
    }

    /// A status with printed lines, unless memory was refused for these.
    pub fn lines(status: Status, printed: Result<Chunk, AllocError>) -> Made
        ensures { MatchResult printed (λ lines. result ≡ record { status = status; output = lines })
            (λ _. result ≡ memory_refused) }
    {
        match printed {
            Ok(lines) => Made {
                status,
                output: Output::Lines(lines),
            },
            Err(_) => Made::memory_refused(),
        }
    }

    /// A status with a printed head and the printed lines after it.
    pub fn headed(status: Status, head: Chunk, lines: Chunk) -> Made
        ensures { result ≡ record { status = status; output = head ++ lines } }
    {
        Made {
            status,
            output: Output::Headed { head, lines },
        }
    }
}
