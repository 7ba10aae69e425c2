//! Results of a turn of a task.

ghost use Rattle.std.specs.Prelude.{◌≡◌, ◌≤◌};
ghost use Rattle.weighted_task.specs.Turns.{Parts};
ghost use Rattle.weighted_task.specs.declared.turn.WeightedTurn.TheVariants.{Spawns};

use crate::finish::{Ending, Entering};
use crate::stake::{ScopeMark, Share};
use crate::task::{Body, Child, Task};
use task_run::job::Job;
use task_run::result::TaskResult as RunResult;
use task_run::start::Start;
use weights::weight::Weight;

/// What a task did, and its state after it. Each state of a task is a separate type.
#[derive(Drop)]
pub enum WeightedTurn<'p> {
    /// It took a step, or none if a block was at its end or was skipped.
    Going(Task<'p>),
    /// It spawned a task, which has half of its weight.
    Spawns(Task<'p>, Child<'p>),
    /// It spawned a task, and has a weight of 1: the scope must issue more.
    WantsWeight(Wanting<'p>),
    /// It started a finish, and needs a weight of its scope.
    EntersFinish(Entering<'p>),
    /// It is at the end of a finish; or it is the root, at the end of `main`.
    EndsFinish(Ending<'p>),
    /// It has finished, with this result.
    Ended(WeightedResult<'p>),
    /// It is over its budget, and is stopped.
    Over(Task<'p>),
}

/// A task that has too little weight for the child that it spawned.
#[derive(Drop)]
pub struct Wanting<'p> {
    pub body: Box<Body<'p>>,
    /// The start of the child.
    pub start: Box<Start<'p>>,
    pub share: Share,
}

/// The same task while its weight is with the scope.
#[derive(Drop)]
pub struct WeightedPaused<'p> {
    pub body: Box<Body<'p>>,
    pub start: Box<Start<'p>>,
}

/// The result of a task, with its weight in the scope that it was started in.
#[derive(Drop)]
pub struct WeightedResult<'p> {
    pub job: Job<'p>,
    pub made: RunResult,
    pub scope: ScopeMark,
    pub share: Share,
}

/// What a whole run of a spawned task comes to.
#[derive(Drop)]
pub enum WholeChild<'p> {
    /// Its result, with all its weight, and the number of asyncs that were begun in place.
    Made(WeightedResult<'p>, u64),
    /// The run was cut off after this many asyncs.
    Cut(u64),
    /// The task is to run in another way, from its start.
    Again(Child<'p>),
}

impl<'p> Wanting<'p> {
    /// Returns its weight, to which the scope adds, and the rest of the task.
    pub fn take_weight(self) -> (Weight, WeightedPaused<'p>)
        ensures weight { result.0 ≡ self.entry.share.weight }
        ensures body { result.1.body ≡ self.entry.body }
        ensures start { result.1.start ≡ self.entry.start }
    {
        let Wanting { body, start, share } = self;
        (share.into_weight(), WeightedPaused { body, start })
    }
}

impl<'p> WeightedPaused<'p> {
    /// Returns the task with more weight, and its child with half of that.
    pub fn with_weight(self, weight: Weight) -> (Task<'p>, Child<'p>)
        requires enough { 2 ≤ weight }
        ensures parts { Parts self.entry.body.value weight self.entry.start.value
            (Spawns result.0 result.1) }
    {
        let WeightedPaused { body, start } = self;
        let share = Share { weight };
        let Ok((half, share)) = share.divide() else {
            unreachable!()
        };
        let child = Child {
            job: body.job,
            start,
            scope: body.scope,
            share: half,
        };
        (Task { body, share }, child)
    }
}

impl<'p> WeightedResult<'p> {
    /// Returns the weight that goes back to its scope, and the result.
    pub fn take_weight(self) -> (Weight, RunResult)
        ensures weight { result.0 ≡ self.entry.share.weight }
        ensures made { result.1 ≡ self.entry.made }
    {
        let WeightedResult { made, share, .. } = self;
        (share.into_weight(), made)
    }
}
