//! A sequence of weighed items whose versions share what they have in common: a tree of nodes held by `Rc`, balanced by height.
#![tactic(auto)]

mod gathered;
mod items;
mod join;
mod look;
mod marks;
mod measure;
mod run;
mod sequence;
mod tree;
mod walk;

pub use gathered::Gathered;
pub use look::Located;
pub use marks::{Marked, MarkedItems};
pub use measure::Measured;
pub use sequence::Seq;
pub use walk::Iter;
