//! Explanations of faults, of stopped runs, and of invalid traces. A second run finds the causes.

#![tactic(auto)]

pub mod cause;
mod causes;
mod chains;
mod faults;
pub mod headings;
mod notes;
pub mod run;
pub mod runs;
pub mod seen;
pub mod steps;
mod stops;
pub mod tasks;
mod trace_lines;
pub mod traces;
mod tried;
