//! Tests of public calls of the program: scripts, a drill, runs over objects that fail, and large texts.
//!
//! They are in a crate of their own, over the proved libraries: a crate with tests in it is proved twice.
#![tactic(auto)]

#[cfg(test)]
mod drill_printer_calls;
#[cfg(test)]
mod edicheck_core_calls;
#[cfg(test)]
mod edit_script_calls;
#[cfg(test)]
mod large_texts;
#[cfg(test)]
mod objects;
#[cfg(test)]
mod script_faults;
