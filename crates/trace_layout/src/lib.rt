//! The layout of a trace's picture: plain data, with the numbers of events as times.

#![tactic(auto)]

pub mod axis;
pub mod busy;
pub mod chain;
mod children;
pub mod finishes;
mod hands;
pub mod layout;
pub mod moves;
pub mod rows;
pub mod spells;
pub mod stretch;
