//! The results of tasks, put together by path.

#![tactic(auto)]

pub mod error;
mod filling;
pub mod laws;
pub mod settle;
mod strays;
mod table;
pub mod told;
mod unused;
