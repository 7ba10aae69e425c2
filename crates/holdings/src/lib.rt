//! Held places: what a task has of the arrays, owned or as copies.

#![tactic(auto)]

pub mod carving;
mod copy;
pub mod error;
pub mod holdings;
mod making;
mod pasting;
mod pieces;
pub mod presence;
mod putting;
mod row;
pub mod rows;
mod sharing;
