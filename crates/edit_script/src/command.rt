//! The commands of a script.
use contrl_segments::Stamp;
use edi_tables::{Chunk, List};

/// One command. Places and lengths are in octets, places from 0. The last three are a session's alone.
#[derive(Debug, Drop)]
pub enum Command {
    Replace { at: u64, cut: u64, put: Chunk },
    Errors,
    Tree,
    Contrl { stamp: Stamp, reference: Chunk },
    Text,
    End,
    Undo,
    Redo,
    Batch { edits: List<EditSpec> },
}

/// One edit of a batch: what a `replace` tells.
#[derive(Debug, Drop)]
pub struct EditSpec {
    pub at: u64,
    pub cut: u64,
    pub put: Chunk,
}
