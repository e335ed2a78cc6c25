//! What the errors, the tree and the summary of a text are, and laws of these: where a tree places the segments of messages,
//! and why an acknowledgement has no error itself.
#![tactic(auto)]
