//! Composite files and segment files of a directory.
#![tactic(auto)]

mod composite_head;
mod composites;
mod details;
mod fields;
mod head;
mod item_line;
mod known;
mod part_line;
mod segments;

pub use composites::read_composites;
pub use segments::read_segments;
