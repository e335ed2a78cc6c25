//! How a run ends.
ghost use Rattle.std.specs.Prelude.{◌≡◌};
ghost use Rattle.run_outcome.specs.Status.{number_of};

/// How a run ends; its number is the program's exit status.
#[derive(Clone, Copy, Debug, PartialEq, Eq)]
pub enum Status {
    /// All was written, and a text was read to its end.
    Done,
    /// A text has an error.
    Found,
    /// The words are of no form.
    Words,
    /// The manifest, a file or a store breaks its grammar, or its parts give no directory.
    BadDirectory,
    /// The input or the shelf failed.
    ReadFault,
    /// The sink failed.
    WriteFault,
    /// The script breaks its grammar.
    BadScript,
    /// A file, a text or a script is longer than its limit.
    TooLarge,
    /// Memory was refused.
    Memory,
    /// A named file isn't there.
    Absent,
}

impl Status {
    /// Its number, from 0 in the order above.
    pub fn number(&self) -> u8
        ensures { result ≡ number_of self.now }
    {
        match self {
            Status::Done => 0,
            Status::Found => 1,
            Status::Words => 2,
            Status::BadDirectory => 3,
            Status::ReadFault => 4,
            Status::WriteFault => 5,
            Status::BadScript => 6,
            Status::TooLarge => 7,
            Status::Memory => 8,
            Status::Absent => 9,
        }
    }
}
