//! The answers for the trace of a run.

#![tactic(auto)]

pub mod drawing;
pub mod objects;
pub mod remarks;
pub mod schedules;
mod statements;
pub mod tables;
mod traces;
pub mod upgrading;
