//! Tests of public calls on texts: the sequence under them, texts in pieces, segments and values, and their printed form.
//!
//! They are in a crate of their own, over the proved libraries: a crate with tests in it is proved twice.
#![tactic(auto)]

#[cfg(test)]
mod listing_printer_calls;
#[cfg(test)]
mod piece_text_calls;
#[cfg(test)]
mod seg_lexer_calls;
#[cfg(test)]
mod seq_tree_calls;
