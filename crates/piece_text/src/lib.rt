//! A text in shared pieces: an edit makes a new version, which shares the octets that it keeps with the old one.
#![tactic(auto)]

mod piece;
mod pieces;
mod text;
mod view;

pub use text::Text;
pub use view::View;
