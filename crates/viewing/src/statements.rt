//! The statements at the events of a trace, and its rescues.

use crate::traces::JudgedTrace;
use events::event::Event;
use excerpts::statements::PlacedStatements;
use run_explanations::run::steps_again;
use run_explanations::steps::TaskSteps;
use std::alloc::{AllocError, Global};
use std::collections::HashMap;
use trace_pictures::statements::Statements;
use types::code::Label;
use types::path::Path;

/// The statements at the events of a trace, their descriptions, and the rescues.
#[derive(Drop)]
pub struct EventStatements {
    labels: Vec<Label>,
    descriptions: Vec<String>,
    rescued: Vec<u64>,
}

impl EventStatements {
    /// Lends them to a picture.
    pub fn lent(&self) -> Statements<'_> {
        Statements {
            labels: &self.labels,
            descriptions: &self.descriptions,
            rescued: &self.rescued,
        }
    }
}

/// Finds the statements at the events of a trace, by a run of the program on one thread: a task
/// takes the same steps in each run.
pub fn statements_of(
    alloc: Global,
    text: &str,
    judged: &JudgedTrace,
) -> Result<EventStatements, AllocError> {
    let mut steps = steps_of(alloc, judged)?;
    let events = &judged.trace.events;
    Ok(EventStatements {
        labels: labels_at(alloc, events, &mut steps)?,
        descriptions: descriptions_in(alloc, text)?,
        rescued: rescued_at(alloc, events, &mut steps)?,
    })
}

/// Finds the label of the statement at each event of a trace, or 0.
pub fn labels_of(alloc: Global, judged: &JudgedTrace) -> Result<Vec<Label>, AllocError> {
    let mut steps = steps_of(alloc, judged)?;
    labels_at(alloc, &judged.trace.events, &mut steps)
}

/// Runs the program of a trace again, and returns the steps of its tasks.
fn steps_of(alloc: Global, judged: &JudgedTrace) -> Result<TaskSteps, AllocError> {
    let given = &judged.given;
    let budget = judged.trace.header.budget;
    steps_again(alloc, given.accepted.typed(), &given.input, budget)
}

/// Returns the label of the statement at each event, or 0.
fn labels_at(
    alloc: Global,
    events: &[Event],
    steps: &mut TaskSteps,
) -> Result<Vec<Label>, AllocError> {
    let mut labels = Vec::new(alloc);
    for event in events {
        let label = match event {
            Event::Step { path } | Event::Spawn { path } | Event::Open { path } => steps.take_next(
                path,
            ),
            _ => None,
        };
        labels.push(label.unwrap_or(0))?;
    }
    Ok(labels)
}

/// Returns the number of faults that a rescue has dropped: at the event that opens its finish, and at
/// the one at which the owner continues. Returns 0 at all other events.
fn rescued_at(
    alloc: Global,
    events: &[Event],
    steps: &mut TaskSteps,
) -> Result<Vec<u64>, AllocError> {
    let mut opened: HashMap<Path, Vec<usize>> = HashMap::new(alloc);
    let mut rescued: Vec<u64> = Vec::new(alloc);
    for (number, event) in events.iter().enumerate() {
        let faults = match event {
            Event::Resume { path, .. } => steps.take_end(path),
            _ => 0,
        };
        rescued.push(faults)?;
        match event {
            Event::Open { path } => push_opened(alloc, &mut opened, path, number)?,
            Event::Resume { path, .. } => {
                if let Some(place) = rescued.get_mut(last_opened(&mut opened, path)) {
                    *place = faults;
                }
            }
            _ => {}
        }
    }
    Ok(rescued)
}

/// Records that a task opens a finish at an event.
fn push_opened(
    alloc: Global,
    opened: &mut HashMap<Path, Vec<usize>>,
    path: &Path,
    number: usize,
) -> Result<(), AllocError> {
    if let Some(numbers) = opened.get_mut(path) {
        numbers.push(number)?;
        return Ok(());
    }
    let mut numbers = Vec::new(alloc);
    numbers.push(number)?;
    opened.insert(path.copied(alloc)?, numbers)?;
    Ok(())
}

/// Returns the number of the event at which a task has opened its innermost finish, which it leaves.
/// Returns a number that no event has if there is none.
fn last_opened(opened: &mut HashMap<Path, Vec<usize>>, path: &Path) -> usize {
    match opened.get_mut(path) {
        Some(numbers) => numbers.pop().unwrap_or(usize::MAX),
        None => usize::MAX,
    }
}

/// Returns the description of each statement of a text, by its label.
fn descriptions_in(alloc: Global, text: &str) -> Result<Vec<String>, AllocError> {
    let mut descriptions = Vec::new(alloc);
    let Some(statements) = PlacedStatements::of(alloc, text)? else {
        return Ok(descriptions);
    };
    descriptions.push(String::new(alloc))?;
    for number in 0..statements.places.len() {
        let label = Label::try_from(number).unwrap_or(0).saturating_add(1);
        descriptions.push(statements.described(label)?)?;
    }
    Ok(descriptions)
}
