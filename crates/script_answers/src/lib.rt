//! The answers to a script of commands, put to any sink: in turn, whatever they do; those of an edit; those of a session.
#![tactic(auto)]

mod answering;
mod edit;
mod reply;
mod script;
mod session;

pub use answering::Answering;
pub use edit::Editor;
pub use script::answer_script;
pub use session::Session;
