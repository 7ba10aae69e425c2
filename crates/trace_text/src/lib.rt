//! The text of a trace: the settings of a run and its events, as lines of JSON, and as a table.

#![tactic(auto)]

mod cut;
pub mod error;
pub mod format;
pub mod header;
pub mod kind;
pub mod laws;
mod line;
mod path;
pub mod read;
pub mod table;
pub mod write;
