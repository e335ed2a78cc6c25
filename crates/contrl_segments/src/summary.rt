//! What an acknowledgement is made from: what the segments of an interchange say of it, and its errors.
use edi_tables::{Chunk, List};
use error_ledger::ErrorLine;
use seg_lexer::Level;

/// A sender or a recipient: its identification, the qualifier of that, and an address for routing. The parties of a
/// functional group have no address.
#[derive(Debug, Drop)]
pub struct Party {
    pub id: Chunk,
    pub qualifier: Chunk,
    pub route: Chunk,
}

/// What opens an interchange: no UNB, a UNB with a local error, or a good one, with the level and version that the
/// text is read by, its sender, its recipient and its reference.
#[derive(Debug, Drop)]
pub enum Opening {
    NoUnb,
    BadUnb,
    Good {
        level: Level,
        version: u8,
        sender: Party,
        recipient: Party,
        reference: Chunk,
    },
}

/// A functional group: the numbers of its first and last segments, from 1, and what its UNG says. The first is the
/// UNG, and the UNE that closes it, if one does, is the last.
#[derive(Debug, Drop)]
pub struct GroupHead {
    pub first: u32,
    pub last: u32,
    pub reference: Chunk,
    pub sender: Party,
    pub recipient: Party,
}

/// A message: the numbers of its first and last segments, from 1, the place of its group among the groups of the
/// interchange, from 0, and what its UNH says: its reference, and the type, version, release, agency and association
/// assigned code of the message. The first segment is the UNH.
#[derive(Debug, Drop)]
pub struct MessageHead {
    pub first: u32,
    pub last: u32,
    pub group: Option<u32>,
    pub reference: Chunk,
    pub kind: Chunk,
    pub version: Chunk,
    pub release: Chunk,
    pub agency: Chunk,
    pub association: Chunk,
}

/// What an acknowledgement tells of an interchange: how it is opened, its functional groups and messages in order, and
/// all errors of the text.
#[derive(Debug, Drop)]
pub struct Summary {
    pub opening: Opening,
    pub groups: List<GroupHead>,
    pub messages: List<MessageHead>,
    pub errors: List<ErrorLine>,
}
