//! The page in which the run of a trace can be explored.

#![tactic(auto)]

mod after;
mod before;
pub mod births;
pub mod changes;
pub mod costs;
pub mod escaped;
pub mod held;
pub mod layouts;
pub mod moments;
pub mod page;
pub mod programs;
pub mod replayed;
pub mod tasks;
pub mod told;
pub mod values;
