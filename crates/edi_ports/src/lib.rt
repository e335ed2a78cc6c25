//! What lies outside: sources that are read, sinks that are written, shelves of files; and objects in memory for each.
#![tactic(auto)]

mod adapters;
mod memory;
mod named;
mod read;
mod shelf;
mod sink;
mod source;

pub use adapters::{FolderShelf, StdSink, StdSource};
pub use memory::{MemShelf, MemSink, MemSource};
pub use named::{NamedStop, Unread, read_named};
pub use read::{ReadStop, read_all, read_file};
pub use shelf::{Opened, Shelf, ShelfFile};
pub use sink::{Put, Sink, put_all};
pub use source::{Source, Taken};
