//! All numbers of a trace.

ghost use Rattle.std.specs.Prelude.{IfOk};
ghost use Rattle.trace_numbers.specs.Summary.{IsSummary};

use crate::chains::span;
use crate::counts::{replenishings, spawns, steals, steps};
use crate::faults::{FinishFaults, finish_faults};
use crate::hands::steps_of_workers;
use crate::tasks::{deepest_nest, most_tasks};
use events::event::Event;
use std::alloc::{AllocError, Global};

/// The numbers of a trace.
#[derive(Debug, Drop)]
pub struct TraceSummary {
    /// The number of tasks, including the root.
    pub tasks: usize,
    /// The number of steps of all tasks.
    pub steps: usize,
    /// The cost of the longest chain of steps.
    pub span: usize,
    /// The number of steals.
    pub steals: usize,
    /// How often a scope issued more weight to a task.
    pub replenishings: usize,
    /// The number of asyncs that the deepest task is nested in.
    pub deepest_nest: usize,
    /// The maximum number of tasks that were live at the same time.
    pub most_tasks: usize,
    /// The number of steps of each of the 64 workers that a run can have, by its number.
    pub by_worker: Vec<usize>,
    /// The finishes that have gathered faults, in the order in which their owners continue. A trace
    /// of format 1 has no number of faults, so this is empty.
    pub faults: Vec<FinishFaults>,
}

/// Returns the numbers of a list of events, in any order.
pub fn summarize(alloc: Global, events: &[Event]) -> Result<TraceSummary, AllocError>
    ensures { IfOk result (IsSummary events.now) }
{
    Ok(TraceSummary {
        tasks: spawns(events) + 1,
        steps: steps(events),
        span: span(alloc, events)?,
        steals: steals(events),
        replenishings: replenishings(events),
        deepest_nest: deepest_nest(events),
        most_tasks: most_tasks(events),
        by_worker: steps_of_workers(alloc, events)?,
        faults: finish_faults(alloc, events)?,
    })
}
