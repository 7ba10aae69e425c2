//! Tests of programs before they run.

#![tactic(auto)]

#[cfg(test)]
mod tests;
