//! Logs of runs: the events so far, with the world that they lead to. And traces of format 1 in
//! format 2.

#![tactic(auto)]

pub mod log;
pub mod upgrade;
