//! What an acknowledgement tells of one place of the text that it answers.
use edi_tables::Chunk;

/// What a finding is about: the interchange, a functional group, a message, or a segment.
#[derive(Clone, Copy, Debug, PartialEq, Eq)]
pub enum Where {
    Interchange,
    Group,
    Message,
    Segment,
}

/// What an acknowledgement tells of a place of the text: the number of the segment, from 1, which is 0 for the interchange,
/// and the UNG or the UNH for a group or a message; the service segment (0013) that is named, or no octets; the numbers of the
/// element and the component, from 1, each 0 where it isn't named; and the code (0085) of what is wrong there.
#[derive(Debug, Drop)]
pub struct Finding {
    pub level: Where,
    pub segment: u32,
    pub tag: Chunk,
    pub element: u32,
    pub component: u32,
    pub code: Chunk,
}
