//! Programs as their texts spell them.

#![tactic(auto)]

pub mod tree;
