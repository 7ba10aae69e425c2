//! Runs a program on one thread by flat code.
#![tactic(auto)]

pub mod applied;
pub mod arrays;
pub mod blocks;
pub mod code;
pub mod environment;
pub mod frame;
pub mod fused;
pub mod guards;
pub mod machine;
pub mod numbers;
pub mod parts;
pub mod passing;
pub mod procedures;
pub mod programs;
pub mod run;
pub mod safe;
pub mod spot;
pub mod telling;
pub mod writer;

pub use programs::{serial, serial_watched};
