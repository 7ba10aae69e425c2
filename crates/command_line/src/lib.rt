//! Requests: what the arguments of a command line ask for.

#![tactic(auto)]

pub mod lists;
pub mod manner;
pub mod request;
