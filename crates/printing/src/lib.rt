//! What `afx` writes: outcomes, pairs of labels, the pieces of messages, and the progress of a run.

#![tactic(auto)]

pub mod emit;
pub mod labels;
pub mod progress;
pub mod reasons;
