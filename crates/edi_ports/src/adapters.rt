//! Sources, sinks and shelves over std: the trusted edge. Each call makes one call of std at most, a sink's a `write`
//! and a `flush`, and counts its error. No clause says which octets the system gives or takes, so over the system's
//! own readers they tell nothing.
mod calls;
mod shelf;
mod sink;
mod source;

pub use shelf::FolderShelf;
pub use sink::StdSink;
pub use source::StdSource;
