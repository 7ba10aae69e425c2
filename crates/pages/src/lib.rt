//! The texts that `afx` has about itself: a page for each message, shell completions, and a manual
//! page.

#![tactic(auto)]

pub mod bash;
pub mod faults;
pub mod files;
pub mod find;
pub mod fish;
pub mod idioms;
pub mod inputs;
pub mod manual;
pub mod offers;
pub mod page;
pub mod quoting;
pub mod races;
pub mod rules;
pub mod runs;
pub mod shell;
pub mod tasks;
pub mod texts;
pub mod traces;
pub mod words;
pub mod zsh;
