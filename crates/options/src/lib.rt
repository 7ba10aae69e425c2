//! The commands and options of `afx`, and the replies to command lines that need no program file.

#![tactic(auto)]

pub mod reply;
pub mod table;
