//! Tasks that exceed their budget.

use crate::chains::push_calls;
use crate::headings::heading_of;
use crate::seen::{Overrun, SeenRun};
use cost::book::BudgetPart;
use excerpts::statements::PlacedStatements;
use std::alloc::AllocError;
use types::budget::{Budget, MOST_NEST, MOST_STEPS};

/// Adds which task exceeded which part of its budget, where, what was printed until then, and which
/// option raises the limit.
pub fn push_stop(
    told: &mut String,
    statements: &PlacedStatements<'_>,
    budget: Budget,
    seen: &SeenRun,
    overrun: &Overrun,
    file: &str,
) -> Result<(), AllocError> {
    let label = overrun.label;
    heading_of(file, "stopped").push(told, statements.place(label))?;
    statements.push_at(told, label, None)?;
    push_overrun(told, budget, overrun)?;
    push_calls(told, statements, &overrun.calls)?;
    push_printed(told, seen)?;
    match overrun.part {
        BudgetPart::Steps => push_more_steps(told, budget.steps),
        BudgetPart::Nest => push_more_nest(told, budget.nest),
    }
}

/// Adds which task exceeded which part of its budget.
fn push_overrun(told: &mut String, budget: Budget, overrun: &Overrun) -> Result<(), AllocError> {
    let label = overrun.label;
    let path = &overrun.path;
    match overrun.part {
        BudgetPart::Steps => {
            let steps = budget.steps;
            write!(told, "Task {path} had used ")?;
            if steps == 1 {
                told.push_str("its only step")?;
            } else {
                write!(told, "all of its {steps} steps")?;
            }
            write!(told, " before this statement, label {label}.\n")
        }
        BudgetPart::Nest => {
            let nest = budget.nest;
            write!(
                told,
                "Task {path} would start another task at label {label}, but asyncs can be nested at most {nest} deep.\n"
            )
        }
    }
}

/// Adds the first lines that were printed, and the number of the others.
fn push_printed(told: &mut String, seen: &SeenRun) -> Result<(), AllocError> {
    if seen.printed == 0 {
        return Ok(());
    }
    told.push_str("Printed until then, on one thread:\n")?;
    let mut more = seen.printed;
    for line in &seen.lines {
        push_line(told, line)?;
        more = more.saturating_sub(1);
    }
    match more {
        0 => Ok(()),
        1 => told.push_str("  .. and 1 more line\n"),
        _ => write!(told, "  .. and {more} more lines\n"),
    }
}

/// Adds the numbers of a printed line.
fn push_line(told: &mut String, numbers: &[i64]) -> Result<(), AllocError> {
    told.push(' ')?;
    for number in numbers {
        write!(told, " {number}")?;
    }
    told.push('\n')
}

/// Adds how to raise the step limit.
fn push_more_steps(told: &mut String, steps: u32) -> Result<(), AllocError> {
    if steps >= MOST_STEPS {
        return told.push_str(
            "help: look for an infinite loop or recursion; no task can take more than 1000000000 steps.\n",
        );
    }
    let more = steps.saturating_mul(2).min(MOST_STEPS);
    write!(
        told,
        "help: raise the limit with `--steps {more}`, or look for an infinite loop or recursion.\n"
    )
}

/// Adds how to raise the nesting limit.
fn push_more_nest(told: &mut String, nest: u32) -> Result<(), AllocError> {
    if nest >= MOST_NEST {
        return told.push_str(
            "help: look for infinite recursion; the limit can't be more than 1000.\n",
        );
    }
    let more = nest.saturating_mul(2).saturating_add(1).min(MOST_NEST);
    write!(
        told,
        "help: raise the limit with `--nest {more}`, or look for infinite recursion.\n"
    )
}
