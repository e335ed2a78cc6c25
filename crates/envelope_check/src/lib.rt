//! What is wrong with the envelopes of a text: of its interchange, its functional groups and its messages.
#![tactic(auto)]

mod envelope;
mod head;
mod heads;
mod known;
mod marks;
mod rules;
mod step;

pub use envelope::envelope_errors;
pub use head::{Head, HeadKind, HeadValue, HeadValues, SegmentMark};
pub use marks::{MarkList, SegmentMarks};
