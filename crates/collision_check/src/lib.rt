//! Collisions: where a segment table can place one list of segments in two ways.
#![tactic(auto)]

mod follow;
mod front;
mod list;
mod marks;
mod numbers;
mod ranks;
mod suspect;

pub use list::{Collision, list_collisions};
