//! The work so far in a run, and the length of its chains.

ghost use Rattle.std.specs.Prelude.{◌≡◌, ◌+◌, IfOk, OnOk};
ghost use Rattle.cost.specs.Costs.{as_small as small_by, begins_task, ends_task, enters_finish};
ghost use Rattle.cost.specs.Costs.{leaves_finish, one_more};

use std::alloc::AllocError;

/// The work so far. The chains belong to the running task.
#[derive(Clone, Copy, PartialEq, Eq, Debug)]
pub struct Tally {
    /// The steps of all tasks.
    pub work: usize,
    /// The length of the longest chain of steps to the task's current position.
    pub here: usize,
    /// The length of the longest chain to the end of a task that ended in its innermost finish.
    pub ended: usize,
    /// The number of tasks started, including the root.
    pub tasks: usize,
    /// The number of asyncs around the deepest task.
    pub deepest: usize,
    /// The number of finishes started, including the one around `main`.
    pub finishes: usize,
    /// The number of places counted as copied at the asyncs that started tasks, for both ways.
    pub copied: usize,
    /// The steps that the running task and the tasks around it have taken.
    pub along: usize,
    /// The number of ended tasks with few steps.
    pub small: usize,
}

/// A task with fewer steps has few: it costs more than another worker can gain.
pub const FEW_STEPS: usize = 1_000;

impl Tally {
    /// No work: there is only the root, in the finish around `main`.
    pub const START: Tally = Tally {
        work: 0,
        here: 0,
        ended: 0,
        tasks: 1,
        deepest: 0,
        finishes: 1,
        copied: 0,
        along: 0,
        small: 0,
    };

    /// Counts a step of the task.
    pub fn one_more(&mut self) -> Result<(), AllocError>
        ensures { OnOk result (self.new ≡ one_more self.old) }
    {
        self.work = more(self.work)?;
        self.here = more(self.here)?;
        self.along = more(self.along)?;
        Ok(())
    }

    /// Counts the step of an async, and its new task, which is inside `depth` asyncs and copies
    /// `copied` places.
    pub fn begin_task(&mut self, depth: usize, copied: usize) -> Result<(), AllocError>
        ensures { OnOk result (self.new ≡ begins_task depth copied self.old) }
    {
        self.one_more()?;
        self.tasks = more(self.tasks)?;
        self.copied = self.copied.checked_add(copied).ok_or(AllocError)?;
        self.deepest = self.deepest.max(depth);
        Ok(())
    }

    /// Counts the end of an async's task. Its parent continues at `here`, with the steps `along` the
    /// way to it.
    pub fn end_task(&mut self, here: usize, along: usize) -> Result<(), AllocError>
        ensures { OnOk result (self.new ≡ ends_task here along self.old) }
    {
        let small = as_small(self.along.saturating_sub(along));
        self.small = self.small.checked_add(small).ok_or(AllocError)?;
        self.ended = self.ended.max(self.here);
        self.here = here;
        self.along = along;
        Ok(())
    }

    /// Counts the step of a finish, and starts the finish.
    pub fn enter_finish(&mut self) -> Result<(), AllocError>
        ensures { OnOk result (self.new ≡ enters_finish self.old) }
    {
        self.one_more()?;
        self.ended = 0;
        self.finishes = more(self.finishes)?;
        Ok(())
    }

    /// Counts the end of a finish. In the surrounding finish, tasks had ended at `ended`.
    pub fn leave_finish(&mut self, ended: usize)
        ensures { self.new ≡ leaves_finish ended self.old }
    {
        self.here = self.here.max(self.ended);
        self.ended = ended;
    }
}

/// Returns 1 for a task with few steps, and 0 for any other.
pub(crate) fn as_small(steps: usize) -> usize
    ensures { result ≡ small_by steps }
{
    if steps < FEW_STEPS { 1 } else { 0 }
}

/// Returns a number plus one. Fails as if memory ran out if the result is too large.
fn more(number: usize) -> Result<usize, AllocError>
    ensures { IfOk result (λ n. n ≡ number + 1) }
{
    number.checked_add(1).ok_or(AllocError)
}
