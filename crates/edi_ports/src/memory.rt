//! Sources, sinks and shelves in memory, which tell what they hold and fail where they are told to.
mod calls;
mod shelf;
mod sink;
mod source;

pub use shelf::MemShelf;
pub use sink::MemSink;
pub use source::MemSource;
