//! Witnesses of races: why two accesses may run together and share places.

#![tactic(auto)]

pub mod aim;
pub mod crossing;
mod known;
pub mod laws;
mod own;
mod search;
mod settling;
pub mod sharing;
pub mod step;
pub mod witness;
