//! Warnings: what is probably a mistake in a program that breaks no rule.

#![tactic(auto)]

pub mod ends;
pub mod finding;
pub mod laws;
pub mod telling;
pub mod uses;
pub mod warning;
