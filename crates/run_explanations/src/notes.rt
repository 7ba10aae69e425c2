//! What is recorded of a second run.

use crate::chains::chain_of;
use crate::seen::{FaultNote, Overrun, SurplusTask};
use crate::tried::cause_of;
use cost::book::{Book, BudgetPart, Faulty};
use statement_steps::store::Store;
use statement_steps::thread::{Plan, Thread};
use std::alloc::{AllocError, Global};
use types::code::Label;

/// The maximum number of faults that are explained.
pub const MOST_FAULTS: usize = 4;

/// How the faults of a run come about, and which task is over its budget.
#[derive(Drop)]
pub struct RunNotes {
    alloc: Global,
    /// The labels of the calls that haven't ended, the last call last.
    calls: Vec<Label>,
    /// The first faults, without those that a rescue has dropped.
    pub faults: Vec<FaultNote>,
    /// The number of faults, without those that a rescue has dropped.
    many: usize,
    pub overrun: Option<Overrun>,
}

impl RunNotes {
    /// Returns the notes before a run.
    pub fn new(alloc: Global) -> RunNotes {
        RunNotes {
            alloc,
            calls: Vec::new(alloc),
            faults: Vec::new(alloc),
            many: 0,
            overrun: None,
        }
    }
}

impl Book for RunNotes {
    fn fault(
        &mut self,
        plan: Plan<'_>,
        thread: &Thread<Store>,
        faulty: Faulty<'_>,
    ) -> Result<(), AllocError> {
        if self.many < MOST_FAULTS {
            let note = FaultNote {
                calls: chain_of(self.alloc, &self.calls)?,
                cause: cause_of(plan.program, thread, faulty),
            };
            self.faults.push(note)?;
        }
        self.many = self.many.saturating_add(1);
        Ok(())
    }

    fn leave(&mut self, _thread: &Thread<Store>, rescued: usize) -> Result<(), AllocError> {
        // The faults of the finish are the last ones.
        self.many = self.many.saturating_sub(rescued);
        self.faults.truncate(self.many);
        Ok(())
    }

    fn stopped(
        &mut self,
        thread: &Thread<Store>,
        label: Label,
        part: BudgetPart,
    ) -> Result<(), AllocError> {
        self.overrun = Some(Overrun {
            path: thread.path.copied(self.alloc)?,
            label,
            calls: chain_of(self.alloc, &self.calls)?,
            part,
        });
        Ok(())
    }

    fn call(&mut self, label: Label) -> Result<(), AllocError> {
        self.calls.push(label)?;
        Ok(())
    }

    fn returned(&mut self) {
        let _ = self.calls.pop();
    }
}

/// The async that starts one task more than there may be.
#[derive(Drop)]
pub struct TaskLimit {
    alloc: Global,
    /// The labels of the calls that haven't ended, the last call last.
    calls: Vec<Label>,
    /// The number of tasks that may still be started.
    spare: u64,
    pub surplus: Option<SurplusTask>,
}

impl TaskLimit {
    /// Returns the limit before a run that may have this number of tasks, including the root.
    pub fn new(alloc: Global, tasks: u64) -> TaskLimit {
        TaskLimit {
            alloc,
            calls: Vec::new(alloc),
            spare: tasks.saturating_sub(1),
            surplus: None,
        }
    }
}

impl Book for TaskLimit {
    fn begin(&mut self, label: Label) -> Result<(), AllocError> {
        if self.spare == 0 {
            self.surplus = Some(SurplusTask {
                label,
                calls: chain_of(self.alloc, &self.calls)?,
            });
        }
        self.spare = self.spare.saturating_sub(1);
        Ok(())
    }

    fn call(&mut self, label: Label) -> Result<(), AllocError> {
        self.calls.push(label)?;
        Ok(())
    }

    fn returned(&mut self) {
        let _ = self.calls.pop();
    }
}
