//! What an undo or a redo came to.

/// A text is back, with this many octets; or there was none to go to, and nothing has changed.
#[derive(Clone, Copy, Debug, PartialEq, Eq)]
pub enum Back {
    Done { length: u64 },
    Empty,
}
