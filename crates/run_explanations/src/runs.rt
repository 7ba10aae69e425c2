//! Runs that had faults, or were stopped.

use crate::faults::push_faults;
use crate::seen::SeenRun;
use crate::stops::push_stop;
use excerpts::statements::PlacedStatements;
use std::alloc::{AllocError, Global};
use types::budget::Budget;
use types::code::Program;

/// Returns the text after the outcome of a run with faults or of a stopped run: where, why, and how
/// to fix it. The text is that of the program, in the file with this name; the budget is that of the
/// run. For a run without faults it is empty.
pub fn explained_run(
    alloc: Global,
    text: &str,
    code: &Program,
    budget: Budget,
    seen: &SeenRun,
    file: &str,
) -> Result<String, AllocError> {
    let mut told = String::new(alloc);
    let Some(statements) = PlacedStatements::of(alloc, text)? else {
        return Ok(told);
    };
    match &seen.overrun {
        Some(overrun) => push_stop(&mut told, &statements, budget, seen, overrun, file)?,
        None => push_faults(&mut told, &statements, code, seen, file)?,
    }
    Ok(told)
}
