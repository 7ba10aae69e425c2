//! Parses the arguments of a command line as an order.

#![tactic(auto)]

pub mod by_clap;
mod files;
mod inputs;
pub mod limits;
pub mod manners;
pub mod order;
pub mod plain;
pub mod settings;
mod several;
mod taking;
pub mod words;
