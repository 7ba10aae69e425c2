//! Excerpts of a program's text for explanations: lines with a caret, statements, and the names in
//! them.

#![tactic(auto)]

pub mod escaped;
pub mod heading;
mod indices;
pub mod named;
pub mod nouns;
pub mod paint;
mod procedures;
pub mod sides;
pub mod similar;
pub mod source;
pub mod statements;
