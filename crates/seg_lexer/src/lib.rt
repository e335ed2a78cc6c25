//! The reading of a text: service characters, segments, fields and values, context; and the scan for an octet that no release
//! character releases.
#![tactic(auto)]

mod components;
mod context;
mod scan;
mod segment;
mod service;
mod stretch;
mod tag;
mod value;

pub use components::{Component, Fields, has_separator};
pub use context::{Context, Level, read_context};
pub use segment::{Lexed, fields, next_segment};
pub use service::{Separators, Service, read_service};
pub use tag::read_tag;
pub use value::{Value, ValueOctets, has_release};
