//! The layout of a program's text, with its comments.

#![tactic(auto)]

pub mod gap;
pub mod pieces;
pub mod spot;
pub mod text;
pub mod writer;

pub use text::laid_out;
