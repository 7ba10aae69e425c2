//! Weights that can't be dropped, and the book of a scope.
//!
//! A scope issues weight. Its tasks divide the weight among themselves and return it when they
//! finish. If all weight is back, all tasks have finished.

#![tactic(auto)]

pub mod book;
mod entries;
pub mod entry;
pub mod weight;
