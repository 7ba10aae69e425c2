//! What a command reads from files: texts, programs, inputs and choices.

#![tactic(auto)]

mod bytes_input;
pub mod choices;
pub mod file_source;
pub mod input_file;
mod replacing;
