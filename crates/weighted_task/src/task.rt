//! Tasks, and the children that they spawn.

ghost use Rattle.std.specs.Prelude.{◌≡◌, IfErr, IfOk, IfSome, OnOk};
ghost use Rattle.plain_code.specs.Pieces.{IsCodeOfProgram};
ghost use Rattle.task_run.specs.Jobs.{IsJob, program_of};
ghost use Rattle.weighted_task.specs.Tasks.{IsBegun, IsChild, IsRoot, IsRootBody, IsTask, StartsAs};
ghost use Rattle.weighted_task.specs.Turns.{EndsWhole};

use crate::rooms::TaskRooms;
use crate::stake::{ScopeMark, Share, Stake};
use crate::turn::{WeightedResult, WholeChild};
use plain_code::pieces::ProgramCode;
use serial_run::passing::Limit;
use std::alloc::AllocError;
use task_run::job::Job;
use task_run::run::Run;
use task_run::start::Start;
use task_run::whole::WholeRun;
use types::path::Path;
use weights::weight::Weight;

/// A task: a run, with a weight in each scope that it belongs to.
#[derive(Drop)]
pub struct Task<'p> {
    pub body: Box<Body<'p>>,
    /// The weight in its innermost scope.
    pub share: Share,
}

/// A task without its weight in its innermost scope.
#[derive(Drop)]
pub struct Body<'p> {
    pub job: Job<'p>,
    /// Once it has reached an end, what is left of it is good only for the start of another task.
    pub run: Option<Run<'p>>,

    // The scopes that it belongs to.
    /// The innermost.
    pub scope: ScopeMark,
    /// The weights in the others, the innermost last.
    pub outer: Vec<Stake>,
    /// The number of finishes that it has started.
    pub opened: u32,
}

/// A task that was spawned and has taken no turn.
#[derive(Drop)]
pub struct Child<'p> {
    pub job: Job<'p>,
    pub start: Box<Start<'p>>,
    /// The scope that it was started in.
    pub scope: ScopeMark,
    pub share: Share,
}

impl<'p> Task<'p> {
    /// Returns the root at its start, with its weight in the root scope.
    pub fn root(job: Job<'p>, weight: Weight) -> Result<Task<'p>, Weight>
        requires job { IsJob job }
        ensures task { IfOk result (IsRoot job.entry) }
        ensures weight { IfOk result (λ t. t.share.weight ≡ weight) }
        ensures refused { IfErr result (λ w. w ≡ weight) }
    {
        match root_body(job) {
            Ok(body) => {
                let share = Share { weight };
                Ok(Task { body, share })
            }
            Err(_) => Err(weight),
        }
    }

    /// Returns its path.
    pub fn path(&self) -> &Path
        requires task { IsTask self.now }
        ensures { IfSome self.now.body.value.run (λ r. result.now ≡ r.thread.path) }
    {
        let Some(run) = &self.body.run else {
            unreachable!()
        };
        &run.thread.path
    }

    /// Returns the number of steps that it may still take.
    pub fn steps(&self) -> u32
        requires task { IsTask self.now }
        ensures { IfSome self.now.body.value.run (λ r. result ≡ r.thread.steps) }
    {
        let Some(run) = &self.body.run else {
            unreachable!()
        };
        run.thread.steps
    }
}

impl<'p> Child<'p> {
    /// Returns the task, before its first turn.
    pub fn begin(self, rooms: &mut TaskRooms<'p>) -> Result<Task<'p>, AllocError>
        requires child { IsChild self }
        ensures task { IfOk result (IsBegun self.entry) }
    {
        let Child {
            job,
            start,
            scope,
            share,
        } = self;
        let start = rooms.runs.take_out(start);
        let body = first_body(job, start, scope, rooms)?;
        Ok(Task { body, share })
    }

    /// Runs the task with all tasks below it in place, if it can.
    pub fn run_whole<L: Limit>(
        self,
        code: &ProgramCode<'p>,
        limit: &L,
        rooms: &mut TaskRooms<'p>,
    ) -> Result<WholeChild<'p>, AllocError>
        requires child { IsChild self }
        requires code { IsCodeOfProgram (program_of self.job) code.now }
        ensures { IfOk result (EndsWhole self.entry) }
    {
        let Child {
            job,
            start,
            scope,
            share,
        } = self;
        let start = rooms.runs.take_out(start);
        match start.run_whole(job.plan(), code, limit, &mut rooms.runs)? {
            WholeRun::Made(made, begun) => Ok(WholeChild::Made(
                WeightedResult {
                    job,
                    made,
                    scope,
                    share,
                },
                begun,
            )),
            WholeRun::Cut(begun) => Ok(WholeChild::Cut(begun)),
            WholeRun::Again(start) => {
                let start = rooms.runs.boxed(start)?;
                Ok(WholeChild::Again(Child {
                    job,
                    start,
                    scope,
                    share,
                }))
            }
        }
    }
}

impl<'p> Body<'p> {
    /// Makes a body that has ended the body of another task, at its start. The run is made in its
    /// place.
    fn begin_again(
        &mut self,
        job: Job<'p>,
        start: Start<'p>,
        scope: ScopeMark,
    ) -> Result<(), AllocError>
        ensures { OnOk result (StartsAs job.entry start.entry scope self.new) }
    {
        self.outer.clear();
        self.job = job;
        self.scope = scope;
        self.opened = 0;
        match &mut self.run {
            Some(run) => {
                run.begin_again(job.plan(), start)?;
                Ok(())
            }
            None => {
                let run = Run::begin(job.plan(), start)?;
                self.run = Some(run);
                Ok(())
            }
        }
    }
}

/// Returns the root's body.
fn root_body<'p>(job: Job<'p>) -> Result<Box<Body<'p>>, AllocError>
    requires { IsJob job }
    ensures { IfOk result (λ b. IsRootBody job.entry b.value) }
{
    let scope = ScopeMark {
        depth: 0,
        number: 0,
    };
    new_body(job, job.root()?, scope)
}

/// Returns the body of a task at its start, in this scope.
fn first_body<'p>(
    job: Job<'p>,
    start: Start<'p>,
    scope: ScopeMark,
    rooms: &mut TaskRooms<'p>,
) -> Result<Box<Body<'p>>, AllocError>
    ensures { IfOk result (λ b. StartsAs job.entry start.entry scope b.value) }
{
    match rooms.body() {
        Some(room) => {
            let mut body = room;
            body.begin_again(job, start, scope)?;
            Ok(body)
        }
        None => new_body(job, start, scope),
    }
}

/// Returns such a body in a new box.
#[inline(never)]
fn new_body<'p>(
    job: Job<'p>,
    start: Start<'p>,
    scope: ScopeMark,
) -> Result<Box<Body<'p>>, AllocError>
    ensures { IfOk result (λ b. StartsAs job.entry start.entry scope b.value) }
{
    let run = Run::begin(job.plan(), start)?;
    let body = Body {
        job,
        run: Some(run),
        scope,
        outer: Vec::new(job.alloc),
        opened: 0,
    };
    let body = Box::new(job.alloc, body)?;
    Ok(body)
}
