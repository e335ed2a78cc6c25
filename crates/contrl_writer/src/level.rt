//! At which level of an acknowledgement an error is reported.
ghost use Rattle.std.specs.Prelude.{◌≡◌};
ghost use Rattle.contrl_writer.specs.Levels.{is_of_group as is_of_group_in_table, is_of_interchange as is_of_interchange_in_table};

use error_ledger::{ErrorLine, Kind};

/// What an error is reported for: the interchange, a functional group, or a message.
#[derive(Clone, Copy, Debug, PartialEq, Eq)]
pub enum ErrorLevel {
    Interchange,
    Group,
    Message,
}

impl ErrorLevel {
    ghost use Rattle.contrl_writer.specs.Levels.{is_level};

    /// Whether it is this level.
    pub(crate) fn is(self, other: ErrorLevel) -> bool
        ensures { result ≡ is_level self other }
    {
        self == other
    }
}

/// An error and its level.
#[derive(Clone, Copy, Debug, PartialEq, Eq)]
pub struct Levelled {
    pub error: ErrorLine,
    pub level: ErrorLevel,
}

/// Whether errors of a kind are reported for the interchange, wherever they are.
pub(crate) fn is_of_interchange(kind: Kind) -> bool
    ensures { result ≡ is_of_interchange_in_table kind }
{
    kind.number() <= 10
}

/// Whether errors of a kind are reported for a functional group, wherever they are.
pub(crate) fn is_of_group(kind: Kind) -> bool
    ensures { result ≡ is_of_group_in_table kind }
{
    (13..=15).contains(&kind.number())
}
