//! The service segments, their composites, and the segment table of CONTRL.
#![tactic(auto)]

mod composites;
mod contrl;
mod macros;
mod segments;

pub use composites::service_composite;
pub use contrl::contrl_rows;
pub use segments::service_segment;
