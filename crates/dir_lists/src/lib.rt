//! Element and code files of a directory.
#![tactic(auto)]

mod codes;
mod elements;
mod head;

pub use codes::read_codes;
pub use elements::read_elements;
