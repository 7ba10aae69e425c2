//! Well-typed programs, and the plain data that runs use.

#![tactic(auto)]

pub mod budget;
pub mod check;
pub mod child_number;
pub mod code;
pub mod element;
pub mod error;
pub mod fault;
pub mod ids;
pub mod input;
pub mod input_error;
pub mod laws;
pub mod outcome;
pub mod path;
pub mod scope_id;
pub mod typed;
pub mod value;
