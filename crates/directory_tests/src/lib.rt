//! Tests of public calls on directories: the files of elements and code lists, of composites and segments, and of messages;
//! stores, loading, and the directory of a drill.
//!
//! They are in a crate of their own, over the proved libraries: a crate with tests in it is proved twice.
#![tactic(auto)]

#[cfg(test)]
mod dir_lists_calls;
#[cfg(test)]
mod dir_load_calls;
#[cfg(test)]
mod dir_messages_calls;
#[cfg(test)]
mod dir_segments_calls;
#[cfg(test)]
mod dir_store_calls;
#[cfg(test)]
mod drill_maker_calls;
