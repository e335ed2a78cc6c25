//! The local errors of the segments of one text. Most have none: a look at the octets shows it, and a segment that is spelled
//! like an earlier one without an error isn't checked again. A plain segment's components are found quicker than others.
#![tactic(auto)]

mod clean;
mod fields;
mod kinds;
mod look;
mod looked;
mod same;

pub use clean::CleanSegments;
pub use fields::{PlainComponent, PlainFields};
pub use kinds::OctetKinds;
pub use look::clean_tag;
