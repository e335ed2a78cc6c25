//! Tests of public calls at the bottom: octets; segment tables and their collisions; and the outside, in memory and over the
//! standard library.
//!
//! They are in a crate of their own, over the proved libraries: a crate with tests in it is proved twice.
#![tactic(auto)]

#[cfg(test)]
mod adapter_calls;
#[cfg(test)]
mod collision_check_calls;
#[cfg(test)]
mod edi_octets_calls;
#[cfg(test)]
mod edi_tables_calls;
#[cfg(test)]
mod memory_calls;
#[cfg(test)]
mod rows;
