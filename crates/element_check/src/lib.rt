//! The local errors of a segment: what is wrong in it by itself, against a directory.
#![tactic(auto)]

mod check;
mod element;
mod error;
mod merge;
mod repeated;
mod repertoire;
mod rules;
mod tally;
mod value;
mod values;

pub use check::{check_components, check_segment};
pub use error::LocalError;
pub use repertoire::admits;
pub use rules::Rules;
pub use value::passes_admitted;
