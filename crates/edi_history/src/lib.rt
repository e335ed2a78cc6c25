//! A history of the text of an engine: edits and batches of edits that are made or refused as a whole, undo and redo.
#![tactic(auto)]

mod back;
mod batch;
mod history;
mod stop;

pub use back::Back;
pub use history::History;
pub use stop::BatchStop;
