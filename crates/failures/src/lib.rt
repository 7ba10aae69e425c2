//! Why a command failed: the failure, its exit status, and its line.

#![tactic(auto)]

pub mod escaped;
pub mod failure;
pub mod least_race;
pub mod message;
pub mod names;
