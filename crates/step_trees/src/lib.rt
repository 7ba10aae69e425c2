//! Step trees: all tasks of a program over one shared store.

#![tactic(auto)]

pub mod explore;
pub mod laws;
pub mod leaf;
pub mod rest;
pub mod standing;
pub mod tree;
pub mod turn;
pub mod walk;
