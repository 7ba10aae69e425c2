//! The turns of a task.

ghost use Rattle.std.specs.Prelude.{◌≡◌, ◌+◌, ◌<◌, IfOk, Some};
ghost use Rattle.plain_code.specs.Pieces.{IsCodeOfProgram};
ghost use Rattle.task_run.specs.RunTurns.{StepSpawns, turn_of};
ghost use Rattle.task_run.specs.declared.run.Run.{Run as AnyRun};
ghost use Rattle.task_run.specs.declared.turn.Turn.TheVariants.{Ended};
ghost use Rattle.task_run.specs.Jobs.{program_of};
ghost use Rattle.weighted_task.specs.Tasks.{IsAsyncOf, IsBody, IsTask};
ghost use Rattle.weighted_task.specs.Turns.{AreTasks, Becomes, EndsBy, GoesInPlace, HasDone, IsEndOf, Opens};
ghost use Rattle.weighted_task.specs.Turns.{Parts, RunsToEnd, TakesOneTurn, TakesTurn, TurnsInPlace, turning};
ghost use Rattle.weighted_task.specs.Units.{held, units_after, units_of};

use crate::finish::{Ending, Entering, Owner, Parked};
use crate::rooms::TaskRooms;
use crate::stake::{ScopeMark, Share, Stake};
use crate::task::{Body, Child, Task};
use crate::turn::{Wanting, WeightedResult, WeightedTurn};
use plain_code::pieces::ProgramCode;
use std::alloc::AllocError;
use task_run::result::TaskResult as RunResult;
use task_run::rooms::Rooms;
use task_run::start::Start;
use task_run::turn::{Done, Step, Turn as RunTurn};

impl<'p> Task<'p> {
    /// Takes turns as long as nobody else sees them. Returns the first turn that is more. Uses the
    /// program's flat code where it can.
    pub fn go(
        self,
        code: &ProgramCode<'p>,
        rooms: &mut TaskRooms<'p>,
    ) -> Result<WeightedTurn<'p>, AllocError>
        requires task { IsTask self }
        requires code { IsCodeOfProgram (program_of self.body.value.job) code.now }
        ensures turn { IfOk result (TakesTurn self.entry) }
        ensures tasks { IfOk result AreTasks }
        ensures units { IfOk result (λ t. units_after t ≡ units_of self.entry) }
    {
        let Task { mut body, share } = self;
        match body.go(code, &mut rooms.runs)? {
            Step::Did(done) => did(body, share, done),
            Step::AtEnd => at_end(body, share, rooms),
        }
    }

    /// Takes one turn.
    pub fn advance(self, rooms: &mut TaskRooms<'p>) -> Result<WeightedTurn<'p>, AllocError>
        requires task { IsTask self }
        ensures turn { IfOk result (TakesOneTurn self.entry) }
        ensures tasks { IfOk result AreTasks }
        ensures units { IfOk result (λ t. units_after t ≡ units_of self.entry) }
    {
        let Task { mut body, share } = self;
        match body.advance(&mut rooms.runs)? {
            Step::Did(done) => did(body, share, done),
            Step::AtEnd => at_end(body, share, rooms),
        }
    }
}

impl<'p> Body<'p> {
    /// Runs on in place, as far as nobody else sees it.
    fn go(&mut self, code: &ProgramCode<'p>, rooms: &mut Rooms<'p>) -> Result<Step<'p>, AllocError>
        requires body { IsBody self.old }
        requires code { IsCodeOfProgram (program_of self.old.job) code.now }
        ensures goes { IfOk result (λ s. GoesInPlace self.old s self.new) }
        ensures label { IfOk result (StepSpawns (IsAsyncOf self.old)) }
    {
        let accepted = self.job.accepted;
        let Some(run) = &mut self.run else {
            unreachable!()
        };
        match run.go(accepted, code, rooms) {
            Ok(step) => Ok(step),
            Err(_) => Err(AllocError),
        }
    }

    /// Takes one turn of its run in place.
    fn advance(&mut self, rooms: &mut Rooms<'p>) -> Result<Step<'p>, AllocError>
        requires { IsBody self.old }
        ensures turn { IfOk result (λ s. TurnsInPlace self.old s self.new) }
        ensures label { IfOk result (StepSpawns (IsAsyncOf self.old)) }
    {
        let accepted = self.job.accepted;
        let Some(run) = &mut self.run else {
            unreachable!()
        };
        match run.step(accepted, rooms) {
            Ok(step) => Ok(step),
            Err(_) => Err(AllocError),
        }
    }
}

/// Returns what a turn of its run makes of a task that continues.
fn did<'p>(
    body: Box<Body<'p>>,
    share: Share,
    done: Done<'p>,
) -> Result<WeightedTurn<'p>, AllocError>
    requires done { HasDone body.value done }
    ensures becomes { IfOk result (λ t. (r : AnyRun) → body.entry.value.run ≡ Some r
        → Becomes (turning body.entry.value) share.weight (turn_of r done.entry) t) }
    ensures tasks { IfOk result AreTasks }
    ensures units { IfOk result (λ t. units_after t
        ≡ share.weight + held body.entry.value.outer.items) }
{
    match done {
        Done::Gone => Ok(WeightedTurn::Going(Task { body, share })),
        Done::Exceeded => Ok(WeightedTurn::Over(Task { body, share })),
        Done::Spawned(start) => Ok(spawned(body, share, start)),
        Done::Entered => Ok(WeightedTurn::EntersFinish(entered(body, share)?)),
    }
}

/// Gives half of the task's weight to the child that it spawned. At a weight of 1 the task needs
/// more first.
fn spawned<'p>(body: Box<Body<'p>>, share: Share, start: Box<Start<'p>>) -> WeightedTurn<'p>
    ensures { Parts body.entry.value share.weight start.entry.value result }
{
    match share.divide() {
        Ok((half, share)) => {
            let child = Child {
                job: body.job,
                start,
                scope: body.scope,
                share: half,
            };
            WeightedTurn::Spawns(Task { body, share }, child)
        }
        Err(share) => WeightedTurn::WantsWeight(Wanting { body, start, share }),
    }
}

/// Adds a scope to a task that started a finish.
fn entered<'p>(body: Box<Body<'p>>, share: Share) -> Result<Entering<'p>, AllocError>
    requires run { (r : AnyRun) × (body.value.run ≡ Some r) }
    requires few { body.value.opened < 4294967295 }
    ensures { IfOk result (λ e. (r : AnyRun) → body.entry.value.run ≡ Some r
        → Opens (turning body.entry.value) share.weight r e.body.value) }
{
    let mut body = body;
    let Some(run) = &body.run else { unreachable!() };
    let depth = run.thread.path.turns.len();
    let scope = body.scope;
    body.outer.push(Stake { scope, share })?;
    body.opened += 1;
    body.scope = ScopeMark {
        depth,
        number: body.opened,
    };
    Ok(Entering { body })
}

/// Returns the turn of a task whose run is at the end of a finish, or has finished.
fn at_end<'p>(
    body: Box<Body<'p>>,
    share: Share,
    rooms: &mut TaskRooms<'p>,
) -> Result<WeightedTurn<'p>, AllocError>
    requires end { RunsToEnd body.value }
    ensures ends { IfOk result (EndsBy body.entry.value share.weight) }
    ensures tasks { IfOk result AreTasks }
    ensures units { IfOk result (λ t. units_after t
        ≡ share.weight + held body.entry.value.outer.items) }
{
    let mut body = body;
    let Some(run) = &mut body.run else {
        unreachable!()
    };
    match run.end(&mut rooms.runs)? {
        RunTurn::EndsFinish(paused, made) => {
            let owner = Owner::Finish(paused);
            Ok(WeightedTurn::EndsFinish(ending(body, share, owner, made, rooms)?))
        }
        RunTurn::Ended(made) => ended(body, share, made, rooms),
        RunTurn::Going(_) | RunTurn::Spawns(_, _) | RunTurn::EntersFinish(_) | RunTurn::Over(_) => {
            unreachable!()
        }
    }
}

/// Returns a task at the end of a finish, or of `main`.
#[inline(never)]
fn ending<'p>(
    body: Box<Body<'p>>,
    share: Share,
    owner: Owner<'p>,
    made: RunResult,
    rooms: &mut TaskRooms<'p>,
) -> Result<Ending<'p>, AllocError>
    ensures { IfOk result (IsEndOf body.entry.value share.weight owner.entry made) }
{
    let mut body = body;
    let job = body.job;
    let scope = body.scope;
    let opened = body.opened;
    let outer = std::mem::replace(&mut body.outer, Vec::new(job.alloc));
    rooms.keep(body);
    let parked = Parked {
        job,
        owner,
        made,
        outer,
        opened,
    };
    Ok(Ending {
        parked: Box::new(job.alloc, parked)?,
        scope,
        share,
    })
}

/// Returns the turn of a task that has finished. The root is at the end of `main`.
fn ended<'p>(
    body: Box<Body<'p>>,
    share: Share,
    made: RunResult,
    rooms: &mut TaskRooms<'p>,
) -> Result<WeightedTurn<'p>, AllocError>
    ensures { IfOk result (Becomes body.entry.value share.weight (Ended made)) }
{
    if made.path.turns.is_empty() {
        let ending = ending(body, share, Owner::Main, made, rooms)?;
        return Ok(WeightedTurn::EndsFinish(ending));
    }
    let job = body.job;
    let scope = body.scope;
    rooms.keep(body);
    Ok(WeightedTurn::Ended(WeightedResult {
        job,
        made,
        scope,
        share,
    }))
}
