//! What is wrong in a text: the kinds of errors, their order, and the printed error list and tree.
#![tactic(auto)]

mod error;
mod error_text;
mod kind;
mod line;
mod put;
mod tree;
mod tree_text;

pub use error::{ErrorLine, order_errors};
pub use error_text::print_errors;
pub use kind::{Kind, code_of};
pub use tree::{GroupMark, TreeLine, TreePlace};
pub use tree_text::{print_tree, put_tree_head, put_tree_line};
