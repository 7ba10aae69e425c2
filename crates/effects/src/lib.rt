//! What statements may do to the sections in scope, and what they leave pending.

#![tactic(auto)]

pub mod access;
pub mod accesses;
pub mod asyncs;
pub mod closing;
pub mod doings;
pub mod firsts;
pub mod flows;
pub mod label_set;
pub mod laws;
pub mod needs;
pub mod outlines;
pub mod own;
pub mod roots;
pub mod starts;
pub mod summaries;
pub mod summary;
pub mod tables;
pub mod uses;
pub mod visits;
