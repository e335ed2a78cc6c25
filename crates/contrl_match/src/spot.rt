//! What a segment of an acknowledgement is about, by those before it.
use contrl_segments::MessageHead;

/// The place of a functional group among those of the text, a message, and the number of a segment, from 1: each is the one
/// that the last segment for it led to, if it led to one.
#[derive(Drop)]
pub(crate) struct Spot<'s> {
    pub group: Option<usize>,
    pub message: Option<&'s MessageHead>,
    pub segment: Option<u32>,
}
