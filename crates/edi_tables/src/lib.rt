//! The records of a directory: octets, tags, data elements, composites, segments and segment tables.
#![tactic(auto)]

mod build;
mod candidates;
mod chunk;
mod element;
mod levels;
mod list;
mod missing;
mod segment;
mod table;
mod tag;

pub use candidates::Candidates;
pub use chunk::Chunk;
pub use element::{Class, Code, CodeList, CompositeDef, ElementDef, PartDef, Repr};
pub use levels::{Groups, LaterSiblings};
pub use list::List;
pub use missing::Missing;
pub use segment::{ItemDef, MessageDef, SegmentDef, TableRow};
pub use table::{Node, RowFault, Table, TableKind, TableStop};
pub use tag::{Tag, is_tag};
