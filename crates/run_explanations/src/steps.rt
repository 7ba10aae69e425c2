//! The statements at which tasks take their steps, and the ends of their finishes.

use cost::book::Book;
use statement_steps::store::Store;
use statement_steps::thread::Thread;
use std::alloc::{AllocError, Global};
use std::collections::HashMap;
use types::code::Label;
use types::path::Path;

/// For each task, the labels of the statements at which it takes its steps, and the ends of its
/// finishes.
#[derive(Drop)]
pub struct TaskSteps {
    alloc: Global,
    by_task: HashMap<Path, StepLabels>,
}

/// The labels of a task's steps, in order, and how many of them were taken; and the same for the ends
/// of its finishes: the number of faults that a rescue has dropped there, or 0.
#[derive(Drop)]
struct StepLabels {
    labels: Vec<Label>,
    taken: usize,
    rescued: Vec<u64>,
    ended: usize,
}

impl Book for TaskSteps {
    fn step(&mut self, thread: &Thread<Store>, label: Label) -> Result<(), AllocError> {
        self.add(&thread.path, label)
    }

    fn leave(&mut self, thread: &Thread<Store>, rescued: usize) -> Result<(), AllocError> {
        self.add_end(&thread.path, rescued as u64)
    }
}

impl TaskSteps {
    /// Creates the record of a run without steps.
    pub(crate) fn new(alloc: Global) -> TaskSteps {
        TaskSteps {
            alloc,
            by_task: HashMap::new(alloc),
        }
    }

    /// Adds a step of a task.
    fn add(&mut self, path: &Path, label: Label) -> Result<(), AllocError> {
        if let Some(steps) = self.by_task.get_mut(path) {
            steps.labels.push(label)?;
            return Ok(());
        }
        let mut labels = Vec::new(self.alloc);
        labels.push(label)?;
        let steps = StepLabels {
            labels,
            taken: 0,
            rescued: Vec::new(self.alloc),
            ended: 0,
        };
        self.by_task.insert(path.copied(self.alloc)?, steps)?;
        Ok(())
    }

    /// Adds the end of a finish of a task, with the number of faults that a rescue drops there, or 0.
    fn add_end(&mut self, path: &Path, rescued: u64) -> Result<(), AllocError> {
        // The task has taken a step at the finish.
        if let Some(steps) = self.by_task.get_mut(path) {
            steps.rescued.push(rescued)?;
        }
        Ok(())
    }

    /// Returns the label of the next step of a task, and counts the step as taken. Returns None if
    /// no more steps are known.
    pub fn take_next(&mut self, path: &Path) -> Option<Label> {
        let steps = self.by_task.get_mut(path)?;
        let label = steps.labels.get(steps.taken).copied();
        steps.taken = steps.taken.saturating_add(1);
        label
    }

    /// Returns the number of faults that a rescue has dropped at the next end of a finish of a task, and
    /// counts that end as passed. Returns 0 if there was no rescue, or if no more ends are known.
    pub fn take_end(&mut self, path: &Path) -> u64 {
        let Some(steps) = self.by_task.get_mut(path) else {
            return 0;
        };
        let rescued = steps.rescued.get(steps.ended).copied();
        steps.ended = steps.ended.saturating_add(1);
        rescued.unwrap_or(0)
    }
}
