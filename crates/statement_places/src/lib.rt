//! The positions of a program's statements in its text.

#![tactic(auto)]

pub mod listing;
pub mod statements;

pub use listing::placed_listing;
pub use statements::statement_places;
