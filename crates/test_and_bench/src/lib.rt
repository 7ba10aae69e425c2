//! Programs run in several ways: compared with their expected output, and timed.

#![tactic(auto)]

pub mod clock;
mod counting;
pub mod describing;
mod differences;
pub mod folders;
mod hunks;
pub mod listed;
pub mod outcomes;
mod own_options;
pub mod runs;
pub mod stems;
pub mod testing;
mod tests_object;
pub mod times;
pub mod times_object;
pub mod timing;
pub mod trial;
mod trial_lines;
mod writing;
