//! The kind of a task's next action. To find it takes no memory, unlike the action itself.

ghost use Rattle.std.specs.Prelude.{◌≡◌};
ghost use Rattle.task_run.specs.Jobs.{IsJob};
ghost use Rattle.task_run.specs.declared.job.Job.{Job as AnyJob};
ghost use Rattle.event_worlds.specs.Courses.{Course, IsRunOf};
ghost use Rattle.event_worlds.specs.NextKinds.{HasNext, IsLeft, IsNextKind, after_frame, block_does, does};
ghost use Rattle.event_worlds.specs.NextKinds.{does_nested, handler_does, kind_by, top_does};
ghost use Rattle.task_run.specs.Frames.{Frame as Left};
ghost use Rattle.task_run.specs.OwnRun.{Own};
ghost use Rattle.task_run.specs.Standings.{ShowsFrame, further};
ghost use Rattle.types.specs.Translation.{code as code_of, codes as codes_of, environment as environment_of};

use crate::doing::TaskProgress;
use statement_steps::flow::Flow;
use statement_steps::turns::TurnsToCome;
use task_run::frame::TaskFrame;
use task_run::job::Job;
use task_run::run::Run;
use types::code::{Stmt, StmtKind};
use types::value::Environment;

/// The kind of a task's next action.
#[derive(Clone, Copy, PartialEq, Eq, Debug)]
pub enum NextKind {
    /// It takes a step, as `a[0] = 7;` does.
    Step,
    /// It spawns a task.
    Spawn,
    /// It starts a finish.
    Open,
    /// It is at the end of a finish.
    Finish,
    /// It is at its own end.
    End,
}

/// What the top frame of a task does.
#[derive(Clone, Copy)]
enum First {
    /// An action of this kind.
    Acts(NextKind),
    /// Nothing that another task can see. The frame goes away, and the flow is this one.
    Goes(Flow),
}

impl NextKind {
    ghost use Rattle.std.specs.Prelude.{◌≡◌};
    ghost use Rattle.event_worlds.specs.NextKinds.{ends_by, is_open, is_spawn, is_step, waits_by};

    pub(crate) fn is_step(self) -> bool
        ensures { result ≡ is_step self }
    {
        match self {
            NextKind::Step => true,
            NextKind::Spawn | NextKind::Open | NextKind::Finish | NextKind::End => false,
        }
    }

    pub(crate) fn is_spawn(self) -> bool
        ensures { result ≡ is_spawn self }
    {
        match self {
            NextKind::Spawn => true,
            NextKind::Step | NextKind::Open | NextKind::Finish | NextKind::End => false,
        }
    }

    pub(crate) fn is_open(self) -> bool
        ensures { result ≡ is_open self }
    {
        match self {
            NextKind::Open => true,
            NextKind::Step | NextKind::Spawn | NextKind::Finish | NextKind::End => false,
        }
    }

    /// Returns whether a task, which is the root or not, is at the end of a finish. The root's own
    /// end counts as one.
    pub(crate) fn waits(self, root: bool) -> bool
        ensures { result ≡ waits_by root self }
    {
        match self {
            NextKind::Finish => true,
            NextKind::End => root,
            NextKind::Step | NextKind::Spawn | NextKind::Open => false,
        }
    }

    /// Returns whether a task is at its end and isn't the root.
    pub(crate) fn ends(self, root: bool) -> bool
        ensures { result ≡ ends_by root self }
    {
        match self {
            NextKind::End => !root,
            NextKind::Step | NextKind::Spawn | NextKind::Open | NextKind::Finish => false,
        }
    }
}

impl<'p> TaskProgress<'p> {
    /// Returns the kind of the next action.
    pub fn next_kind(&self, job: Job<'p>) -> NextKind
        requires { IsJob job }
        ensures { IsNextKind job.entry self.now result }
    {
        match self {
            TaskProgress::Starts(start) => {
                match first_in(start.body, Flow::On, job.budget.steps, start.nest) {
                    First::Acts(kind) => kind,
                    First::Goes(_) => NextKind::End,
                }
            }
            TaskProgress::Runs(run) => kind_of_run(run),
            TaskProgress::Steps(_) => NextKind::Step,
            TaskProgress::Spawns(_, _) => NextKind::Spawn,
            TaskProgress::Opens(_) => NextKind::Open,
            TaskProgress::AtFinish(_, _) => NextKind::Finish,
            TaskProgress::AtEnd(_) => NextKind::End,
        }
    }
}

/// Returns the kind of a run's next action.
pub(crate) fn kind_of_run(run: &Run) -> NextKind
    ensures { (j : AnyJob) (c : Course) → IsJob j → IsRunOf j c run.now → HasNext j c result }
{
    let thread = &run.thread;
    kind_of_frames(
        &run.frames,
        &thread.environment,
        thread.flow,
        thread.steps,
        thread.nest,
    )
}

/// Returns the kind of the next action of a task with these frames. Frames that do nothing are
/// passed over.
fn kind_of_frames(
    frames: &[TaskFrame],
    environment: &Environment,
    flow: Flow,
    steps: u32,
    nest: u32,
) -> NextKind
    ensures { (j : AnyJob) (c : Course) → IsJob j → nest ≡ c.start.nest
        → IsLeft j c frames.now (environment_of environment.now) flow steps → HasNext j c result }
{
    let mut environment = environment;
    let mut flow = flow;
    let mut left = frames.len();
    'frames: while 0 < left {
        left -= 1;
        let Some(top) = frames.get(left) else {
            unreachable!()
        };
        match first_of(top, environment, flow, steps, nest) {
            First::Acts(kind) => return kind,
            First::Goes(next) => flow = next,
        }
        environment = environment_after(top, environment);
    }
    NextKind::End
}

/// Returns the environment after a frame that does nothing, except for scalars: the end of a call
/// restores the caller's.
fn environment_after<'a>(frame: &'a TaskFrame, environment: &'a Environment) -> &'a Environment
    ensures { (f : Left Own) → ShowsFrame frame.entry.now f
        → environment_of result.now ≡ after_frame f (environment_of environment.entry.now) }
{
    match frame {
        TaskFrame::EndCall {
            environment: caller,
        } => caller,
        TaskFrame::Rest(_)
        | TaskFrame::Again { .. }
        | TaskFrame::Turns(_)
        | TaskFrame::EndFinish(_)
        | TaskFrame::OnFault { .. } => environment,
    }
}

/// Returns what a frame does at the top, in this environment.
fn first_of(
    frame: &TaskFrame,
    environment: &Environment,
    flow: Flow,
    steps: u32,
    nest: u32,
) -> First
    ensures { (f : Left Own) → ShowsFrame frame.now f
        → result ≡ top_does nest steps flow (environment_of environment.now).windows f }
{
    match frame {
        TaskFrame::Rest(block) => first_in(block, flow, steps, nest),
        TaskFrame::Again { .. } => first_by(NextKind::Step, flow, steps, nest),
        TaskFrame::Turns(turns) => first_turn(*turns, environment, flow, steps, nest),
        TaskFrame::EndFinish(_) => First::Acts(NextKind::Finish),
        TaskFrame::OnFault { handler, .. } => first_handled(handler, flow, steps, nest),
        TaskFrame::EndCall { .. } => First::Goes(flow),
    }
}

/// Returns what the turns to come of a `parts` do, in this environment.
fn first_turn(
    turns: TurnsToCome<'_>,
    environment: &Environment,
    flow: Flow,
    steps: u32,
    nest: u32,
) -> First
    ensures { result ≡ top_does nest steps flow (environment_of environment.now).windows
        (further turns.entry) }
{
    match turns.next_piece(environment) {
        None => First::Goes(flow),
        Some(_) => first_by(NextKind::Step, flow, steps, nest),
    }
}

/// Returns what the handler of a finish does.
fn first_handled(handler: &[Stmt], flow: Flow, steps: u32, nest: u32) -> First
    ensures { result ≡ handler_does nest steps flow (codes_of handler.now) }
{
    match flow {
        Flow::On => First::Goes(Flow::On),
        Flow::Faulted => first_in(handler, Flow::On, steps, nest),
        Flow::Stopped => First::Goes(Flow::Stopped),
    }
}

/// Returns what the first statement of a block does.
fn first_in(block: &[Stmt], flow: Flow, steps: u32, nest: u32) -> First
    ensures { result ≡ block_does nest steps flow (codes_of block.now) }
{
    match block.split_first() {
        None => First::Goes(flow),
        Some((stmt, _)) => first_by(kind_of(&stmt.kind), flow, steps, nest),
    }
}

/// Returns what a statement does whose action is of this kind.
fn first_by(kind: NextKind, flow: Flow, steps: u32, nest: u32) -> First
    ensures { result ≡ does nest steps flow kind }
{
    match flow {
        Flow::On => {
            if steps == 0 {
                First::Goes(Flow::Stopped)
            } else {
                first_nested(kind, nest)
            }
        }
        Flow::Faulted => First::Goes(Flow::Faulted),
        Flow::Stopped => First::Goes(Flow::Stopped),
    }
}

/// Returns what a statement does that has a step left.
fn first_nested(kind: NextKind, nest: u32) -> First
    ensures { result ≡ does_nested nest kind }
{
    match kind {
        NextKind::Spawn => {
            if nest == 0 {
                First::Goes(Flow::Stopped)
            } else {
                First::Acts(NextKind::Spawn)
            }
        }
        NextKind::Step => First::Acts(NextKind::Step),
        NextKind::Open => First::Acts(NextKind::Open),
        NextKind::Finish => First::Acts(NextKind::Finish),
        NextKind::End => First::Acts(NextKind::End),
    }
}

/// Returns the kind of a statement's action.
fn kind_of(kind: &StmtKind) -> NextKind
    ensures { result ≡ kind_by (code_of kind.now) }
{
    match kind {
        StmtKind::Async { .. } => NextKind::Spawn,
        StmtKind::Finish { .. } => NextKind::Open,
        StmtKind::Rescue { .. } => NextKind::Open,
        StmtKind::Do(_) => NextKind::Step,
        StmtKind::If { .. } => NextKind::Step,
        StmtKind::While { .. } => NextKind::Step,
        StmtKind::Split { .. } => NextKind::Step,
        StmtKind::Parts { .. } => NextKind::Step,
        StmtKind::Call { .. } => NextKind::Step,
    }
}
