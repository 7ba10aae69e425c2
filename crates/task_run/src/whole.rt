//! Tasks that run whole: with all tasks below them in place, in the order of one thread.

ghost use Rattle.std.specs.Prelude.{◌≡◌, IfOk, IfSome, true};
ghost use Rattle.types.specs.Code.{Async};
ghost use Rattle.types.specs.Translation.{codes as codes_of, program as program_of};
ghost use Rattle.effects.specs.Statements.{HasStatement};
ghost use Rattle.plain_code.specs.Pieces.{IsCodeOfProgram};
ghost use Rattle.serial_run.specs.Machines.{AreCodes};
ghost use Rattle.serial_run.specs.Limits.{IfDone};
ghost use Rattle.task_run.specs.Standings.{state_of};
ghost use Rattle.task_run.specs.Translation.{owned_by, task_result};
ghost use Rattle.task_run.specs.WholeRuns.{EndsBody, FitsBody, RunsWhole, result_by};

use crate::advance::is_stopped;
use crate::memory::TaskMemory;
use crate::result::TaskResult;
use crate::rooms::Rooms;
use crate::start::Start;
use plain_code::pieces::{BodyCode, ProgramCode};
use serial_run::passing::{Limit, Limited, has_room_for, pass_within};
use statement_steps::flow::Flow;
use statement_steps::thread::{Plan, Thread};
use std::alloc::{AllocError, Global};

/// What a whole run of a task comes to.
#[derive(Drop)]
pub enum WholeRun<'p> {
    /// The result of the task, which has no children, and the number of asyncs that were begun in
    /// place.
    Made(TaskResult, u64),
    /// The run was cut off after this many asyncs.
    Cut(u64),
    /// The task is to run in another way, from its start: its body has no code, or a task went over
    /// its budget.
    Again(Start<'p>),
}

impl<'p> Start<'p> {
    /// Runs the task with all tasks below it in place, by the flat code of its body.
    ///
    /// On one thread, everything stops as soon as a task is over its budget, but tasks apart go on.
    /// So a run that stops isn't kept, unless the body is plain.
    pub fn run_whole<L: Limit>(
        self,
        plan: Plan<'p>,
        code: &ProgramCode<'p>,
        limit: &L,
        rooms: &mut Rooms<'p>,
    ) -> Result<WholeRun<'p>, AllocError>
        requires code { IsCodeOfProgram (program_of plan.program.now) code.now }
        requires body { HasStatement (program_of plan.program.now) self.label
            (Async (codes_of self.body.now)) }
        ensures { IfOk result (RunsWhole (program_of plan.entry.program.now)
            plan.entry.budget.steps self.entry) }
    {
        let Some(body) = self.fitting_body(code) else {
            return Ok(WholeRun::Again(self));
        };
        if body.is_plain {
            self.run_plain(plan, code, body, limit, rooms)
        } else {
            self.run_others(plan, code, body, limit, rooms)
        }
    }

    /// Runs the task if its body is plain. There are no tasks below it.
    fn run_plain<L: Limit>(
        self,
        plan: Plan<'p>,
        code: &ProgramCode<'p>,
        body: BodyCode,
        limit: &L,
        rooms: &mut Rooms<'p>,
    ) -> Result<WholeRun<'p>, AllocError>
        requires code { IsCodeOfProgram (program_of plan.program.now) code.now }
        requires body { HasStatement (program_of plan.program.now) self.label
            (Async (codes_of self.body.now)) }
        requires fits { FitsBody code.now self body }
        requires plain { body.is_plain ≡ true }
        ensures { IfOk result (RunsWhole (program_of plan.entry.program.now)
            plan.entry.budget.steps self.entry) }
    {
        let ran = self.run_by(plan, code, body, limit)?;
        match ran {
            Limited::Done(thread, begun) => {
                let result = made(plan.alloc, thread, rooms);
                Ok(WholeRun::Made(result, begun))
            }
            Limited::Cut(begun) => Ok(WholeRun::Cut(begun)),
        }
    }

    /// Runs the task with those below it. If it is stopped, a copy of its start is returned.
    fn run_others<L: Limit>(
        self,
        plan: Plan<'p>,
        code: &ProgramCode<'p>,
        body: BodyCode,
        limit: &L,
        rooms: &mut Rooms<'p>,
    ) -> Result<WholeRun<'p>, AllocError>
        requires code { IsCodeOfProgram (program_of plan.program.now) code.now }
        requires body { HasStatement (program_of plan.program.now) self.label
            (Async (codes_of self.body.now)) }
        requires fits { FitsBody code.now self body }
        ensures { IfOk result (RunsWhole (program_of plan.entry.program.now)
            plan.entry.budget.steps self.entry) }
    {
        let kept = self.clone(plan.alloc)?;
        let ran = self.run_by(plan, code, body, limit)?;
        match ran {
            Limited::Done(thread, begun) => {
                if is_stopped(thread.flow) {
                    return Ok(WholeRun::Again(kept));
                }
                let result = made(plan.alloc, thread, rooms);
                Ok(WholeRun::Made(result, begun))
            }
            Limited::Cut(begun) => Ok(WholeRun::Cut(begun)),
        }
    }

    /// Returns the code of its body, if there is some and it has room for the environment.
    fn fitting_body(&self, code: &ProgramCode<'p>) -> Option<BodyCode>
        ensures { IfSome result (FitsBody code.now self.now) }
    {
        let Some(body) = code.body(self.label) else {
            return None;
        };
        let Some(flat) = code.codes.get(body.number) else {
            return None;
        };
        if has_room_for(flat, &self.environment) {
            Some(body)
        } else {
            None
        }
    }

    /// Runs the code of its body on what it holds.
    fn run_by<L: Limit>(
        self,
        plan: Plan<'p>,
        code: &ProgramCode<'p>,
        body: BodyCode,
        limit: &L,
    ) -> Result<Limited<TaskMemory>, AllocError>
        requires codes { AreCodes (program_of plan.program.now) code.now.codes.items }
        requires fits { FitsBody code.now self body }
        ensures { IfOk result (IfDone (EndsBody (program_of plan.entry.program.now)
            plan.entry.budget.steps code.now body self.entry)) }
    {
        let thread = Thread {
            flow: Flow::On,
            store: TaskMemory {
                holdings: self.holdings,
            },
            lines: Vec::new(plan.alloc),
            faults: Vec::new(plan.alloc),
            path: self.path,
            spawned: 0,
            environment: self.environment,
            steps: plan.budget.steps,
            nest: self.nest,
            spare: Vec::new(plan.alloc),
        };
        pass_within(plan, &code.codes, body.number, thread, limit)
    }
}

/// Returns the result of a task that has run whole. Its environment is left to the next tasks.
fn made(alloc: Global, thread: Thread<TaskMemory>, rooms: &mut Rooms<'_>) -> TaskResult
    ensures { task_result result ≡ result_by (state_of thread) (owned_by thread.store.holdings) }
{
    let stopped = is_stopped(thread.flow);
    rooms.keep_environment(thread.environment);
    TaskResult {
        path: thread.path,
        stopped,
        holdings: thread.store.holdings,
        lines: thread.lines,
        faults: thread.faults,
        children: Vec::new(alloc),
    }
}
