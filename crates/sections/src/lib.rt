//! Sections of arrays: where they come from, which of them can share places, and the windows that
//! they denote.

#![tactic(auto)]

pub mod cover;
pub mod id;
pub mod laws;
pub mod origin;
pub mod tree;
pub mod window;
