//! How a run ends: its status and its whole output. And what a run on files begins with: a directory, and other files.
#![tactic(auto)]

mod directory;
mod ending;
mod file;
mod opening;
mod outcome;
mod put;
mod refusal;
mod status;

pub use directory::load_directory;
pub use ending::finish;
pub use file::load_file;
pub use opening::{OpenedText, open_both};
pub use outcome::Made;
pub use put::{put_numbered, put_pair};
pub use refusal::refuse_rule;
pub use status::Status;
