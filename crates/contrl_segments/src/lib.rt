//! The segments of an acknowledgement: what they are made from, what they tell of an error, and how they are written.
#![tactic(auto)]

mod details;
mod segment;
mod service;
mod stamp;
mod summary;

pub use details::{is_near, told_code, told_position};
pub use segment::{Element, WrittenValue, put_answer, put_segment};
pub use service::{group_party, put_uci, put_unb, put_unh, put_unt, put_unz};
pub use stamp::{Stamp, is_reference, read_stamp};
pub use summary::{GroupHead, MessageHead, Opening, Party, Summary};
