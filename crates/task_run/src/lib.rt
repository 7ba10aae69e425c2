//! Tasks that run apart, and their results. The job of a run.

#![tactic(auto)]

mod advance;
mod at_once;
mod copy;
pub mod frame;
pub mod job;
pub mod laws;
pub mod memory;
pub mod needed;
pub mod result;
pub mod rooms;
pub mod run;
pub mod start;
pub mod turn;
pub mod whole;
