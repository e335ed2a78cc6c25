//! What is listed: the segments of a text, or these with their values, and the segment tables of a directory.
#![tactic(auto)]

mod segment_line;
mod tables;
mod text;
mod value_lines;

pub use tables::print_tables;
pub use text::{Detail, PrintedText, print_text};
