//! The answers of commands as JSON: one object, followed by a line feed.

#![tactic(auto)]

pub mod all_ends;
pub mod costs;
pub mod exploring;
pub mod failed;
pub mod faults;
pub mod found;
pub mod inspecting;
pub mod laws;
pub mod line;
pub mod names;
pub mod object_line;
pub mod outcomes;
pub mod programs;
pub mod races;
pub mod reason;
pub mod refusals;
pub mod refused_program;
pub mod run_outcomes;
pub mod running;
pub mod shares;
pub mod standings;
pub mod statements;
pub mod steps;
pub mod summaries;
pub mod telling;
pub mod text_places;
pub mod told;
pub mod witnesses;
pub mod writing;
