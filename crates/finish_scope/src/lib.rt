//! Scopes under locks, and their positions.
//!
//! A scope has the results of the tasks that were started in it and have finished, the book of its
//! weight, and its owner once that is parked. The worker that returns the last of its weight
//! continues with that owner.

#![tactic(auto)]

pub mod causes;
pub mod inner;
pub mod late;
pub mod laws;
pub mod resting;
pub mod run_error;
pub mod running;
pub mod scope_table;
pub mod settling;
