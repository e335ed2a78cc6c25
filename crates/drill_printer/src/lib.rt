//! The printed form of a drill: an interchange that is made from numbers and edited, to measure with.
#![tactic(auto)]

mod drill;

pub use drill::print_drill;
