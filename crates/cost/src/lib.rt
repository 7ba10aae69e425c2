//! What a run on one thread costs.

#![tactic(auto)]

pub mod account;
pub mod book;
pub mod copied;
pub mod cost;
pub mod frame;
pub mod kept;
pub mod laws;
pub mod machine;
pub mod shares;
mod splits;
pub mod tally;
pub mod text;
