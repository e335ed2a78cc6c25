//! Directories from the files of a shelf: a manifest is a store, or names files in lines; these are read and compiled together.
#![tactic(auto)]

mod counted;
mod gather;
mod loading;
mod manifest;
mod stop;

pub use loading::load;
pub use stop::{FileFault, LoadStop, Refusal};
