//! Drawn message files: a type line, and a segment table as lines with their groups drawn beside them.
#![tactic(auto)]

mod drawing;
mod form;
mod reader;
mod status;
mod table_line;
mod words;

pub use reader::read_message;
