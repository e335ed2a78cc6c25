//! The drill: an interchange, edits and a directory made from numbers alone, to measure with.
#![tactic(auto)]

mod edit;
mod interchange;
mod reduced;
mod tables;

pub use edit::{DrillEdit, make_edit};
pub use interchange::make_interchange;
pub use reduced::{reduced_directory, reduced_parts};
