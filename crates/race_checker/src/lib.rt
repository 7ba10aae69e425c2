//! Which programs have no race.

#![tactic(auto)]

pub mod accepted;
pub mod check;
mod found;
pub mod laws;
pub mod race;
mod search;
mod walk;
