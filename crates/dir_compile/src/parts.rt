//! The parts of a directory, as they are given.
use edi_tables::{Chunk, CodeList, CompositeDef, ElementDef, List, MessageDef, SegmentDef};

/// What a directory is made of. The version and the release have 1 to 3 octets, the agency 1 to 2.
#[derive(Debug, Drop)]
pub struct Parts {
    pub version: Chunk,
    pub release: Chunk,
    pub agency: Chunk,
    pub elements: List<ElementDef>,
    pub lists: List<CodeList>,
    pub composites: List<CompositeDef>,
    pub segments: List<SegmentDef>,
    pub messages: List<MessageDef>,
}
