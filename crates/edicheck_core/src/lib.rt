//! All that the program does, over any source, sink and shelf.
#![tactic(auto)]

mod about;
mod check;
mod contrl;
mod decide;
mod drill;
mod guided;
mod help;
mod listing;
mod matched;
mod program;
mod script;
mod tables;
mod words;
mod wrong_word;

pub use program::{refuse_memory, run};
pub use run_outcome::Status;
pub use wrong_word::{Expected, WrongWord, find_wrong_word};
