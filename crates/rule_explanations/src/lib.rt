//! Explanations of broken rules, with names and kinds found anew over the tokens of a program.

#![tactic(auto)]

pub mod arguments;
pub mod declared;
pub mod expressions;
pub mod kind;
mod limits;
pub mod rule_errors;
mod rule_texts;
