//! A directory from its parts, unless they break a rule, with its segment tables and their collisions.
#![tactic(auto)]

mod build;
mod codes;
mod directory;
mod judge;
mod known;
mod names;
mod number;
mod order;
mod parts;
mod stop;
mod verdict;

pub use build::compile;
pub use codes::Codes;
pub use directory::Directory;
pub use names::Named;
pub use parts::Parts;
pub use stop::{CompileKind, CompileStop};
