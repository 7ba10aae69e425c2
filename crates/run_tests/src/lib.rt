//! Tests of runs: on one thread, in parallel, by events and by choices; of their costs and traces.

#![tactic(auto)]

#[cfg(test)]
mod tests;
