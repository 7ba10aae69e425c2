//! Tasks at the starts and ends of finishes.

ghost use Rattle.std.specs.Prelude.{◌≡◌, IfOk};
ghost use Rattle.types.specs.Translation.{outcome as outcome_in};
ghost use Rattle.task_run.specs.Jobs.{outcome_of};
ghost use Rattle.weighted_task.specs.Ends.{Comes, GoesBehind, IsAtFinish, IsAtMain};
ghost use Rattle.weighted_task.specs.Tasks.{IsTask};
ghost use Rattle.weighted_task.specs.Units.{held, units_of};

use crate::outcome::outcome;
use crate::stake::{ScopeMark, Share, Stake};
use crate::task::{Body, Task};
use std::alloc::AllocError;
use task_run::job::Job;
use task_run::result::{Settled, TaskResult as RunResult};
use task_run::turn::Paused as RunPaused;
use types::outcome::Outcome;
use types::path::Path;
use weights::weight::Weight;

/// A task that started a finish, and has no weight of its scope yet.
#[derive(Drop)]
pub struct Entering<'p> {
    pub body: Box<Body<'p>>,
}

/// The owner that waits until all tasks of a scope have finished.
#[derive(Drop)]
pub enum Owner<'p> {
    /// The root, at the end of `main`.
    Main,
    /// A task, at the end of a finish.
    Finish(RunPaused<'p>),
}

/// A task at the end of a finish, or of `main`, with its weight in that scope. The rest of it is in
/// a box, to keep turns and the type that it is parked in small.
#[derive(Drop)]
pub struct Ending<'p> {
    pub parked: Box<Parked<'p>>,
    pub scope: ScopeMark,
    pub share: Share,
}

/// A task that is parked at its scope.
#[derive(Drop)]
pub struct Parked<'p> {
    pub job: Job<'p>,
    pub owner: Owner<'p>,
    /// The result of what it has done since the finish started.
    pub made: RunResult,
    pub outer: Vec<Stake>,
    pub opened: u32,
}

/// A task that waits for the settled results of its scope.
#[derive(Drop)]
pub struct Waiting<'p> {
    pub job: Job<'p>,
    pub owner: Owner<'p>,
    pub outer: Vec<Stake>,
    pub opened: u32,
}

impl<'p> Entering<'p> {
    /// Returns the task, with the weight that the scope issued.
    pub fn enter(self, weight: Weight) -> Task<'p>
        ensures body { result.body ≡ self.entry.body }
        ensures weight { result.share.weight ≡ weight }
    {
        Task {
            body: self.body,
            share: Share { weight },
        }
    }
}

impl<'p> Ending<'p> {
    /// Returns its weight in the scope, which goes back, and the task to be parked there.
    pub fn set_down(self) -> (Weight, Box<Parked<'p>>)
        ensures weight { result.0 ≡ self.entry.share.weight }
        ensures parked { result.1 ≡ self.entry.parked }
    {
        let Ending { parked, share, .. } = self;
        (share.into_weight(), parked)
    }
}

impl<'p> Parked<'p> {
    /// Returns its path.
    pub fn path(&self) -> &Path
        ensures { result.now ≡ self.now.made.path }
    {
        &self.made.path
    }

    /// Returns the task, and the result that is to be settled with the results of the scope.
    pub fn open(parked: Box<Parked<'p>>) -> (Waiting<'p>, RunResult)
        ensures made { result.1 ≡ parked.entry.value.made }
        ensures job { result.0.job ≡ parked.entry.value.job }
        ensures owner { result.0.owner ≡ parked.entry.value.owner }
        ensures outer { result.0.outer ≡ parked.entry.value.outer }
        ensures opened { result.0.opened ≡ parked.entry.value.opened }
    {
        let Parked {
            job,
            owner,
            made,
            outer,
            opened,
        } = Box::into_inner(parked);
        let waiting = Waiting {
            job,
            owner,
            outer,
            opened,
        };
        (waiting, made)
    }
}

impl<'p> Waiting<'p> {
    /// Continues after the finish, with the settled results.
    pub fn go_on(self, settled: Settled) -> Result<Task<'p>, AllocError>
        requires finish { IsAtFinish self }
        requires comes { Comes self settled }
        ensures behind { IfOk result (GoesBehind self.entry settled) }
        ensures task { IfOk result IsTask }
        ensures units { IfOk result (λ t. units_of t ≡ held self.entry.outer.items) }
    {
        let Waiting {
            job,
            owner,
            mut outer,
            opened,
        } = self;
        let Owner::Finish(paused) = owner else {
            unreachable!()
        };
        let Some(Stake { scope, share }) = outer.pop() else {
            unreachable!()
        };
        let run = paused.go_on(settled)?;
        let body = Body {
            job,
            run: Some(run),
            scope,
            outer,
            opened,
        };
        Ok(Task {
            body: Box::new(job.alloc, body)?,
            share,
        })
    }

    /// Returns the outcome of the run. The root doesn't continue.
    pub fn outcome(self, settled: Settled) -> Result<Outcome, AllocError>
        requires main { IsAtMain self }
        requires comes { Comes self settled }
        ensures told { IfOk result (λ o. outcome_in o ≡ outcome_of self.entry.job) }
    {
        outcome(self.job, settled)
    }
}
