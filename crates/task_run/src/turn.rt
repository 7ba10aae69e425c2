//! The values that a turn returns.

use crate::frame::{Outer, TaskFrame};
use crate::result::TaskResult;
use crate::run::Run;
use crate::start::Start;
use statement_steps::thread::Plan;
use types::path::Path;
use types::value::Environment;

/// What a turn did, with the run after it.
#[derive(Drop)]
pub enum Turn<'p> {
    /// It took a step. Or it took none, because a block ended or was skipped.
    Going(Run<'p>),
    /// It spawned a task with this start.
    Spawns(Run<'p>, Start<'p>),
    /// It started a finish.
    EntersFinish(Run<'p>),
    /// It is at the end of a finish, with what it has made since that began.
    EndsFinish(Paused<'p>, TaskResult),
    /// It has ended, with what it has made.
    Ended(TaskResult),
    /// It went over its budget, and is stopped.
    Over(Run<'p>),
}

/// A run that waits at the end of a finish. What it made is in its result.
#[derive(Drop)]
pub struct Paused<'p> {
    pub plan: Plan<'p>,
    pub path: Path,
    pub spawned: u32,
    pub environment: Environment,
    pub steps: u32,
    pub nest: u32,
    pub frames: Vec<TaskFrame<'p>>,
    /// Its lines and faults, and the tasks that it had listed, when the finish began.
    pub outer: Outer,
}

/// What a step in place did.
#[derive(Drop)]
pub enum Step<'p> {
    /// The run did this, and continues.
    Did(Done<'p>),
    /// It is at the end of a finish, or at its own end, and did nothing.
    AtEnd,
}

/// What a run did in a turn after which it continues. The type is small, so it is cheap to return.
#[derive(Drop)]
pub enum Done<'p> {
    /// A step, or nothing.
    Gone,
    /// A task with this start was spawned.
    Spawned(Box<Start<'p>>),
    /// A finish was started.
    Entered,
    /// It went over its budget.
    Exceeded,
}
