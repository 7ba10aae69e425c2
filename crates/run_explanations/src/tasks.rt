//! Runs that exceed the task limit.

use crate::chains::push_calls;
use crate::seen::SurplusTask;
use excerpts::heading::Heading;
use excerpts::statements::PlacedStatements;
use std::alloc::{AllocError, Global};
use types::budget::MOST_TASKS;

/// Returns the text after the line of a run that would have started more tasks than allowed, with
/// the first async that starts one too many on one thread, if it is known.
pub fn explained_tasks(
    alloc: Global,
    text: &str,
    tasks: u64,
    heading: Heading<'_>,
    surplus: Option<SurplusTask>,
) -> Result<String, AllocError> {
    let mut told = String::new(alloc);
    let noun = if tasks == 1 { "task" } else { "tasks" };
    let calls = push_heading(alloc, &mut told, text, heading, &surplus)?;
    write!(
        told,
        "The run would have started more than {tasks} {noun}.\n"
    )?;
    told.push_str(calls.as_str())?;
    push_fewer(&mut told, tasks)?;
    Ok(told)
}

/// Adds the first line, and the line of the async. Returns what there is to say about the async.
fn push_heading(
    alloc: Global,
    told: &mut String,
    text: &str,
    heading: Heading<'_>,
    surplus: &Option<SurplusTask>,
) -> Result<String, AllocError> {
    let mut calls = String::new(alloc);
    if let Some(surplus) = surplus {
        if let Some(statements) = PlacedStatements::of(alloc, text)? {
            let label = surplus.label;
            heading.push(told, statements.place(label))?;
            statements.push_at(told, label, None)?;
            write!(
                calls,
                "On one thread, the async at label {label} would be the first to start one task too many.\n"
            )?;
            push_calls(&mut calls, &statements, &surplus.calls)?;
            return Ok(calls);
        }
    }
    heading.push(told, None)?;
    Ok(calls)
}

/// Adds how to start fewer tasks, or how to raise the limit.
fn push_fewer(told: &mut String, tasks: u64) -> Result<(), AllocError> {
    if tasks >= MOST_TASKS {
        return told.push_str(
            "help: start fewer tasks and give each more work; the limit can't be raised further.\n",
        );
    }
    let more = tasks.saturating_mul(2).min(MOST_TASKS);
    write!(
        told,
        "help: start fewer tasks and give each more work, or raise the limit with `--tasks {more}`.\n"
    )
}
