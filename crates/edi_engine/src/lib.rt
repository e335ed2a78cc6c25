//! The kept reading of an interchange, over edits: its errors, its tree, and the mode after each segment.
#![tactic(auto)]

mod checked;
mod edit;
mod engine;
mod errors;
mod group_heads;
mod heads;
mod marks;
mod message_heads;
mod opening;
mod parties;
mod places;
mod structure;
mod summary;
mod tail;
mod told;
mod tree;

pub use checked::{Checked, check_text, list_text_errors};
pub use edit::{EditStop, stop_by};
pub use engine::Engine;
pub use kept_text::read_records;
pub use segment_records::Mode;
pub use tree::PrintedTree;
