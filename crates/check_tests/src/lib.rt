//! Tests of public calls that check: a segment by itself, envelopes, the walk, printed errors, and the acknowledgement.
//!
//! They are in a crate of their own, over the proved libraries: a crate with tests in it is proved twice.
#![tactic(auto)]

#[cfg(test)]
mod clean_segments_calls;
#[cfg(test)]
mod contrl_writer_calls;
#[cfg(test)]
mod element_check_calls;
#[cfg(test)]
mod envelope_check_calls;
#[cfg(test)]
mod error_ledger_calls;
#[cfg(test)]
mod table_walk_calls;
