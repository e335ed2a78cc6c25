//! Directories in one file: a store, which spells a directory in one way.
#![tactic(auto)]

mod definition_line;
mod definitions;
mod earlier;
mod entry;
mod hints;
mod label_line;
mod line;
mod line_stop;
mod reading;
mod segment_line;
mod segments;
mod stop;
mod usual_row;
mod version;
mod writing;

pub use reading::read_store;
pub use stop::StoreStop;
pub use writing::write_store;
