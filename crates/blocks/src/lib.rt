//! Blocks: what is held of up to 256 neighbouring places of an array, and its numbers.

#![tactic(auto)]

mod adding;
pub mod block;
pub mod cut;
pub mod kind;
pub mod mixed;
pub mod numbers;
mod opening;
mod pasting;
pub mod whole;
mod writing;
