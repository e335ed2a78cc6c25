//! What one segment leaves to the next.
ghost use Rattle.std.specs.Prelude.{◌≡◌, ◌↔◌, IsTrue};
ghost use Rattle.segment_records.specs.Notable.{is_within};

use table_walk::State;

/// Where a text is after one of its segments: outside of messages, inside a message that the directory has no segment
/// table for, or inside one with the table of this number, with the state of its walk.
///
/// After the UNT that closes a message it is outside.
#[derive(Debug)]
pub enum Mode {
    Outside,
    Untabled,
    Within { table: u32, state: State },
}

impl Mode {
    /// Whether two modes are one. Inside a table they are where the table is the same, and each pair of the walk with its
    /// count.
    pub fn same(&self, other: &Mode) -> bool
        ensures { IsTrue result ↔ (self.now ≡ other.now) }
    {
        match (self, other) {
            (Mode::Outside, Mode::Outside) | (Mode::Untabled, Mode::Untabled) => true,
            (
                Mode::Within { table, state },
                Mode::Within {
                    table: other_table,
                    state: other_state,
                },
            ) => table == other_table && state.same(other_state),
            _ => false,
        }
    }

    // Whether a message with a table is open.
    pub(crate) fn is_within(&self) -> bool
        ensures { result ≡ is_within self.now }
    {
        matches!(self, Mode::Within { table: _, state: _ })
    }
}

// Written by hand so that a drop is one call to its caller's proof, and no case of the mode.
impl Drop for Mode {
    #[inline(always)]
    fn drop(self) {
        match self {
            Mode::Outside | Mode::Untabled => {}
            Mode::Within { table: _, state } => drop(state),
        }
    }
}
