//! The walk of a message through its segment table: at which entry each segment is, and what is missing or too many there.
#![tactic(auto)]

mod few_pairs;
mod position;
mod read;
mod state;

pub use few_pairs::FewPairs;
pub use read::read_tags;
pub use state::{Placed, State, start};
