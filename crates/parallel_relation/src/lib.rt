//! Which statements of a program, and which of its accesses, may run together.

#![tactic(auto)]

pub mod found;
pub mod labels;
pub mod laws;
pub mod listing;
pub mod meeting;
pub mod meetings;
pub mod pairs;
pub mod rows;
pub mod spread;
pub mod statements;
pub mod walk;
