//! Guides: files of lines that make a directory stricter.
#![tactic(auto)]

mod base;
mod judge;
mod line;
mod lists;
mod members;
mod overlay;
mod sections;
mod stop;
mod tables;

pub use overlay::narrow;
pub use stop::{GuideKind, GuideStop};
