//! The numbers of a trace: what its tasks did, and what limited its parallelism.

#![tactic(auto)]

pub mod chains;
pub mod counts;
pub mod faults;
mod hands;
pub mod summary;
mod tasks;
pub mod text;
