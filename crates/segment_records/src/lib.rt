//! What a reading keeps of each segment of a text: its local errors, where it is in its message, and the mode after it. And
//! the walks over these, each by its record, the text and the directory: all segments of a text, one after the other, or the
//! notable ones alone.
//!
//! `Count`, `Errors`, `Heads` and `Openers` of its definitions are rules on segments by themselves. `Groups`, `Line`, `Look`,
//! `Spans`, `Told`, `Walked` and `WalkedSegments` say the same of a segment by what is seen of it in a walk over records, and
//! laws in `proofs` lead from these to those. `Notable` says which segments have to be looked at.
#![tactic(auto)]

mod errors;
mod head_values;
mod known;
mod mode;
mod notable;
mod record;
mod step;
mod tags;
mod values;
mod walked_segment;

pub use errors::error_with;
pub use known::KnownSteps;
pub use mode::Mode;
pub use notable::NotableSegments;
pub use record::{Record, SegmentPlace};
pub use tags::{bounds_message, is_named, is_no_part, stops_message};
pub use values::{copy_two, copy_value, lend_found};
pub use walked_segment::{Segments, WalkedSegment};
