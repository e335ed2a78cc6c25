//! Segments of a directory, and the rows of its message tables.
ghost use Rattle.std.specs.Prelude.{◌≡◌};

use crate::{Chunk, Code, List, PartDef, Tag};

/// One data element of a segment: stand-alone, or a composite that the directory defines; and its greatest number of
/// repetitions, from 1 to 99.
#[derive(Clone, Copy, Debug, PartialEq, Eq)]
pub enum ItemDef {
    Alone { part: PartDef, reps: u8 },
    Composite { code: Code, must: bool, reps: u8 },
}

impl ItemDef {
    ghost use Rattle.edi_tables.specs.Forms.{reps_of};

    /// Its greatest number of repetitions.
    pub fn reps(&self) -> u8
        ensures { result ≡ reps_of self.now }
    {
        match *self {
            ItemDef::Alone { reps, .. } | ItemDef::Composite { reps, .. } => reps,
        }
    }
}

/// A segment and its data elements, in order.
#[derive(Debug, Drop)]
pub struct SegmentDef {
    pub tag: Tag,
    pub items: List<ItemDef>,
}

/// A row of a segment table: a segment with its tag, or a group, which has none. The depth is the number of groups round it.
#[derive(Clone, Copy, Debug, PartialEq, Eq)]
pub struct TableRow {
    pub tag: Option<Tag>,
    pub must: bool,
    pub max: u32,
    pub depth: u8,
}

/// A message and the rows of its segment table.
#[derive(Debug, Drop)]
pub struct MessageDef {
    pub name: Chunk,
    pub rows: List<TableRow>,
}
