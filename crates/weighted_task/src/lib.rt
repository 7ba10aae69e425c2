//! Tasks with their weights.
//!
//! A task is a run that has a weight in each scope that it belongs to. One turn of a task is one
//! turn of its run, and moves the weights accordingly.

#![tactic(auto)]

mod advance;
pub mod finish;
pub mod laws;
mod outcome;
pub mod rooms;
pub mod stake;
pub mod task;
pub mod turn;
