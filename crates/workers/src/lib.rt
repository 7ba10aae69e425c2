//! Runs accepted programs on worker threads. Each `async` is a task, or runs in place.

#![tactic(auto)]

mod code;
pub mod error;
pub mod gate;
mod locked_log;
mod log_guard;
mod main_loop;
mod open_scopes;
mod opening;
mod ordering;
mod passing;
mod pool;
mod ready;
mod recorded;
pub mod reports;
pub mod run;
mod scopes;
pub mod settings;
pub mod word;
mod worker;
