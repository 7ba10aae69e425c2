//! The events of a run, as plain data for the crates that write, read or check them.

#![tactic(auto)]

pub mod event;
pub mod worker_id;
