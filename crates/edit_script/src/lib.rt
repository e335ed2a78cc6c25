//! The script of an edit or of a session: its commands, and their words, read from any source.
#![tactic(auto)]

mod allowance;
mod batch;
mod command;
mod data;
mod grammar;
mod name;
mod reader;
mod stop;
mod words;

pub use command::{Command, EditSpec};
pub use grammar::Grammar;
pub use reader::ScriptReader;
pub use stop::ScriptStop;
