//! The acknowledgement of an interchange: a CONTRL message.
#![tactic(auto)]

mod answer;
mod errors;
mod groups;
mod level;
mod lower;
mod members;
mod report;
mod write;

pub use answer::Contrl;
pub use contrl_segments::{
    GroupHead, MessageHead, Opening, Party, Stamp, Summary, is_reference, read_stamp,
};
pub use write::write_contrl;
