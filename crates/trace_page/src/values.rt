//! What an event changes in the state of its task. No contract states which changes these are.

use crate::changes::ValueChange;
use crate::held::{environment_of, flow_of, next_store, run_of};
use crate::moments::{Moment, innermost};
use crate::tasks::path_of;
use event_worlds::doing::TaskProgress;
use event_worlds::world::World;
use events::event::Event;
use sections::window::Window;
use statement_steps::flow::Flow;
use std::alloc::{AllocError, Global};
use types::code::Label;
use types::path::Path;
use types::value::Environment;

/// Returns what an event changes in the state of its task.
pub fn values_of(alloc: Global, moment: Moment<'_, '_>) -> Result<Vec<ValueChange>, AllocError> {
    let mut changes = Vec::new(alloc);
    let path = path_of(moment.event);
    let Some(before) = moment.before.tasks.get(path) else {
        return Ok(changes);
    };
    let Some(after) = moment.after.tasks.get(path) else {
        push_end(&mut changes, moment, path)?;
        return Ok(changes);
    };
    match moment.event {
        Event::Step { .. } => push_step(&mut changes, &before.doing, &after.doing)?,
        Event::Resume { .. } => push_gathered(&mut changes, &before.doing, &after.doing)?,
        Event::Spawn { .. } => push_given(&mut changes, moment, &after.doing)?,
        _ => {}
    }
    push_environment(&mut changes, &before.doing, &after.doing)?;
    push_flow(&mut changes, &before.doing, &after.doing)?;
    Ok(changes)
}

/// Adds that a task ended because it was over its budget, if it was.
fn push_end(
    changes: &mut Vec<ValueChange>,
    moment: Moment<'_, '_>,
    path: &Path,
) -> Result<(), AllocError> {
    if has_stopped(moment, path) {
        changes.push(ValueChange::Flows(Flow::Stopped))?;
    }
    Ok(())
}

/// Returns whether the result that a task gave to its scope is that of a stopped task.
fn has_stopped(moment: Moment<'_, '_>, path: &Path) -> bool {
    let Some(scope) = innermost(moment.before, path) else {
        return false;
    };
    let Some(found) = moment.after.scopes.get(scope) else {
        return false;
    };
    match &found.results {
        Some(results) => match results.last() {
            Some(result) => result.stopped,
            None => false,
        },
        None => false,
    }
}

/// Adds what a step did: its fault, or the line that it has printed, or the element that it has stored.
fn push_step(
    changes: &mut Vec<ValueChange>,
    before: &TaskProgress<'_>,
    after: &TaskProgress<'_>,
) -> Result<(), AllocError> {
    let Some(run) = run_of(after) else {
        return Ok(());
    };
    let (lines, faults) = printed(before);
    if faults < run.thread.faults.len() {
        if let Some(fault) = run.thread.faults.last() {
            changes.push(ValueChange::Fault(fault.kind))?;
        }
        return Ok(());
    }
    if lines < run.thread.lines.len() {
        if let Some(line) = run.thread.lines.last() {
            changes.push(ValueChange::Line(line.clone()?))?;
        }
    }
    if let Some(place) = next_store(before) {
        let value = run.thread.store.holdings.number(place);
        changes.push(ValueChange::Store { place, value })?;
    }
    Ok(())
}

/// Returns the number of lines and of faults of a run.
fn printed(doing: &TaskProgress<'_>) -> (usize, usize) {
    match run_of(doing) {
        Some(run) => (run.thread.lines.len(), run.thread.faults.len()),
        None => (0, 0),
    }
}

/// Adds the number of faults that a finish has gathered, if it has.
fn push_gathered(
    changes: &mut Vec<ValueChange>,
    before: &TaskProgress<'_>,
    after: &TaskProgress<'_>,
) -> Result<(), AllocError> {
    let TaskProgress::AtFinish(paused, _) = before else {
        return Ok(());
    };
    let Some(run) = run_of(after) else {
        return Ok(());
    };
    if let Flow::Faulted = run.thread.flow {
        let outer = paused.outer.faults.len();
        let count = run.thread.faults.len().saturating_sub(outer);
        changes.push(ValueChange::Gathered(count))?;
    }
    Ok(())
}

/// Adds the elements that a child starts with, in the environment of its parent.
fn push_given(
    changes: &mut Vec<ValueChange>,
    moment: Moment<'_, '_>,
    parent: &TaskProgress<'_>,
) -> Result<(), AllocError> {
    let Some(environment) = environment_of(parent) else {
        return Ok(());
    };
    let after = moment.after;
    let accepted = after.job.job.accepted;
    let Some(needs) = accepted.summaries().needs(moment.label) else {
        return Ok(());
    };
    for section in &needs.writes {
        push_part(changes, true, environment.window(*section))?;
    }
    for section in &needs.reads {
        push_part(changes, false, environment.window(*section))?;
    }
    Ok(())
}

/// Adds a part of an array that a child starts with, unless the part is empty.
fn push_part(
    changes: &mut Vec<ValueChange>,
    may_write: bool,
    window: Window,
) -> Result<(), AllocError> {
    if window.len > 0 {
        changes.push(ValueChange::Given { may_write, window })?;
    }
    Ok(())
}

/// Adds the scalars and the sections that have another value, or had none.
fn push_environment(
    changes: &mut Vec<ValueChange>,
    before: &TaskProgress<'_>,
    after: &TaskProgress<'_>,
) -> Result<(), AllocError> {
    let Some(had) = environment_of(before) else {
        return Ok(());
    };
    let Some(has) = environment_of(after) else {
        return Ok(());
    };
    for (slot, value) in has.scalars.iter().enumerate() {
        if !is_at(&had.scalars, slot, value) {
            let value = *value;
            changes.push(ValueChange::Scalar { slot, value })?;
        }
    }
    for (number, window) in has.windows.iter().enumerate() {
        if !is_at(&had.windows, number, window) {
            let window = *window;
            changes.push(ValueChange::Section { number, window })?;
        }
    }
    Ok(())
}

/// Adds a task's flow, if it is another one.
fn push_flow(
    changes: &mut Vec<ValueChange>,
    before: &TaskProgress<'_>,
    after: &TaskProgress<'_>,
) -> Result<(), AllocError> {
    let Some(flow) = flow_of(after) else {
        return Ok(());
    };
    if flow_of(before).unwrap_or(Flow::On) != flow {
        changes.push(ValueChange::Flows(flow))?;
    }
    Ok(())
}

/// Returns whether an item is in a list at a position.
fn is_at<T: PartialEq>(items: &[T], number: usize, item: &T) -> bool {
    match items.get(number) {
        Some(known) => *known == *item,
        None => false,
    }
}
