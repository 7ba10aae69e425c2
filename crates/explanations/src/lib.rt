//! Explanations of rejected texts and inputs, and of races.

#![tactic(auto)]

mod all;
mod brackets;
mod characters;
mod elements;
mod expected;
mod habits;
pub mod input_errors;
mod lines;
mod mends;
mod names;
mod starts;
pub mod syntax_errors;
pub mod told;
mod way;
