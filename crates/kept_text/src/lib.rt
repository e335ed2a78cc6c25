//! A text kept with the records of its segments, by a directory, and its edits.
#![tactic(auto)]

mod change;
mod kept;
mod passing;
mod read;
mod rerun;
mod stretch;

pub use kept::KeptText;
pub use passing::PassingSegments;
pub use read::{read_records, read_text};
