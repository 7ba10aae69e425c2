//! Lemmas about booleans, numbers, lists and results that the proofs of several crates use and the
//! standard library doesn't have.

#![tactic(auto)]
