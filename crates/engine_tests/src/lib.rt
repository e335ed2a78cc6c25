//! Tests of public calls of the engine, with edits in the middle of a long text.
//!
//! They are in a crate of their own, over the proved libraries: a crate with tests in it is proved twice.
#![tactic(auto)]

#[cfg(test)]
mod checked_text;
#[cfg(test)]
mod edi_engine_calls;
#[cfg(test)]
mod long_text;
