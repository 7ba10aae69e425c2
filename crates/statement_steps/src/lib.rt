//! The statements of one step, executed on a memory.

#![tactic(auto)]

pub mod control;
pub mod flow;
pub mod memory;
pub mod next;
pub mod quick;
pub mod store;
pub mod thread;
pub mod turns;
pub mod watch;
