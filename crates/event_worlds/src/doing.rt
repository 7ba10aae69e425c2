//! The next actions of live tasks.

ghost use Rattle.std.specs.Prelude.{◌≡◌, ◌⊎◌, IfErr, IfOk, MatchOption, None, OnOk, Some};
ghost use Rattle.task_run.specs.Jobs.{IsJob};
ghost use Rattle.event_worlds.specs.Courses.{Course, IsDoing, IsKnown, IsLooked, IsNotToStep, IsRunOf};
ghost use Rattle.event_worlds.specs.Courses.{behind, begun_by, made_at};
ghost use Rattle.event_worlds.specs.NextKinds.{IsNextKind};
ghost use Rattle.event_worlds.specs.declared.next.NextKind.TheVariants.{Step as ToStep};
ghost use Rattle.event_worlds.specs.declared.error.EventError.TheVariants.{Illegal, NoMemory};

use crate::error::EventError;
use crate::next::kind_of_run;
use task_run::job::Job;
use task_run::result::TaskResult;
use task_run::rooms::Rooms;
use task_run::run::Run;
use task_run::start::Start;
use task_run::turn::{Done, Paused, Step, Turn};

/// The progress of a task's own run. If the next action is known, the run is already past it.
#[derive(Drop)]
pub enum TaskProgress<'p> {
    /// It hasn't started yet.
    Starts(Start<'p>),
    /// Its next action isn't known yet.
    Runs(Run<'p>),
    /// It takes a step, and then continues with this run.
    Steps(Run<'p>),
    /// It spawns a task with this start.
    Spawns(Run<'p>, Start<'p>),
    /// It starts a finish.
    Opens(Run<'p>),
    /// It is at the end of a finish, with what it has made since that began.
    AtFinish(Paused<'p>, TaskResult),
    /// It is at its end, with what it has made.
    AtEnd(TaskResult),
}

impl<'p> TaskProgress<'p> {
    /// Returns a version whose next action is known, or None if it is known already. A copy of the
    /// run turns, so an out-of-memory error loses nothing.
    pub fn look(&self, job: Job<'p>) -> Result<Option<TaskProgress<'p>>, EventError>
        requires job { IsJob job }
        requires task { (c : Course) × IsDoing job c self.now }
        ensures looked { IfOk result (λ o. MatchOption o (IsKnown self.now)
            (IsLooked job.entry self.now)) }
        ensures refused { IfErr result (λ e. e ≡ NoMemory) }
    {
        match self {
            TaskProgress::Starts(start) => {
                let copy = start.clone(job.alloc)?;
                let run = Run::begin(job.plan(), copy)?;
                let known = ahead(job, run)?;
                Ok(Some(known))
            }
            TaskProgress::Runs(run) => {
                let copy = run.clone()?;
                let known = ahead(job, copy)?;
                Ok(Some(known))
            }
            TaskProgress::Steps(_) => Ok(None),
            TaskProgress::Spawns(_, _) => Ok(None),
            TaskProgress::Opens(_) => Ok(None),
            TaskProgress::AtFinish(_, _) => Ok(None),
            TaskProgress::AtEnd(_) => Ok(None),
        }
    }

    /// Returns a version whose next action is known. The run itself turns, so an out-of-memory
    /// error loses it.
    pub fn known(self, job: Job<'p>) -> Result<TaskProgress<'p>, EventError>
        requires job { IsJob job }
        requires task { (c : Course) × IsDoing job c self }
        ensures same { IfOk result (λ d. (d ≡ self.entry) ⊎ IsLooked job.entry self.entry d) }
        ensures known { IfOk result IsKnown }
        ensures refused { IfErr result (λ e. e ≡ NoMemory) }
    {
        match self {
            TaskProgress::Starts(start) => {
                let run = Run::begin(job.plan(), start)?;
                ahead(job, run)
            }
            TaskProgress::Runs(run) => ahead(job, run),
            TaskProgress::Steps(run) => Ok(TaskProgress::Steps(run)),
            TaskProgress::Spawns(run, start) => Ok(TaskProgress::Spawns(run, start)),
            TaskProgress::Opens(run) => Ok(TaskProgress::Opens(run)),
            TaskProgress::AtFinish(paused, made) => Ok(TaskProgress::AtFinish(paused, made)),
            TaskProgress::AtEnd(made) => Ok(TaskProgress::AtEnd(made)),
        }
    }

    /// Returns what the task has made, if it is at the end of a finish or at its own end.
    pub fn made(&self) -> Option<&TaskResult>
        ensures { MatchOption result (made_at self.now ≡ None)
            (λ made. made_at self.now ≡ Some made.now) }
    {
        match self {
            TaskProgress::AtFinish(_, made) => Some(made),
            TaskProgress::AtEnd(made) => Some(made),
            TaskProgress::Starts(_) | TaskProgress::Runs(_) | TaskProgress::Steps(_) => None,
            TaskProgress::Spawns(_, _) | TaskProgress::Opens(_) => None,
        }
    }

    /// Returns the run after its next action. If this action spawns a task, it also returns the
    /// start of that task. `replace_with` passes it a unit value.
    pub fn goes_on(self, _behind: ()) -> (TaskProgress<'p>, Option<Start<'p>>)
        ensures now { result.0 ≡ behind self.entry }
        ensures child { result.1 ≡ begun_by self.entry }
    {
        match self {
            TaskProgress::Steps(run) => (TaskProgress::Runs(run), None),
            TaskProgress::Opens(run) => (TaskProgress::Runs(run), None),
            TaskProgress::Spawns(run, start) => (TaskProgress::Runs(run), Some(start)),
            TaskProgress::Starts(start) => (TaskProgress::Starts(start), None),
            TaskProgress::Runs(run) => (TaskProgress::Runs(run), None),
            TaskProgress::AtFinish(paused, made) => (TaskProgress::AtFinish(paused, made), None),
            TaskProgress::AtEnd(made) => (TaskProgress::AtEnd(made), None),
        }
    }
}

/// Runs on up to the next action. A run that takes a step has fewer steps left afterwards.
fn ahead<'p>(job: Job<'p>, run: Run<'p>) -> Result<TaskProgress<'p>, EventError>
    requires job { IsJob job }
    requires task { (c : Course) × IsRunOf job c run }
    ensures same { IfOk result (λ d. (c : Course) → IsRunOf job.entry c run.entry
        → IsDoing job.entry c d) }
    ensures known { IfOk result IsKnown }
    ensures refused { IfErr result (λ e. e ≡ NoMemory) }
{
    let mut run = run;
    'turns: loop {
        let steps = run.thread.steps;
        match run.advance(job.accepted) {
            Ok(Turn::Going(next)) => {
                if next.thread.steps < steps {
                    return Ok(TaskProgress::Steps(next));
                }
                run = next;
            }
            Ok(Turn::Over(next)) => run = next,
            Ok(Turn::Spawns(next, start)) => return Ok(TaskProgress::Spawns(next, start)),
            Ok(Turn::EntersFinish(next)) => return Ok(TaskProgress::Opens(next)),
            Ok(Turn::EndsFinish(paused, made)) => return Ok(TaskProgress::AtFinish(paused, made)),
            Ok(Turn::Ended(made)) => return Ok(TaskProgress::AtEnd(made)),
            Err(_) => return Err(EventError::NoMemory),
        }
    }
}

/// Runs on in place up to the next action, which has to be a step. After an error the run can't be
/// used.
pub(crate) fn take_step<'p>(job: Job<'p>, run: &mut Run<'p>) -> Result<(), EventError>
    requires job { IsJob job }
    requires task { (c : Course) × IsRunOf job c run.old }
    ensures stepped { OnOk result
        (IsLooked job.entry (TaskProgress.Runs run.old) (TaskProgress.Steps run.new)) }
    ensures refused { IfErr result
        (λ e. e ≡ Illegal → IsNotToStep job.entry (TaskProgress.Runs run.old)) }
    ensures memory { IfErr result
        (λ e. e ≡ NoMemory → IsNextKind job.entry (TaskProgress.Runs run.old) ToStep) }
{
    if !kind_of_run(run).is_step() {
        return Err(EventError::Illegal);
    }
    let mut rooms = Rooms::new(job.alloc);
    'turns: loop {
        let steps = run.thread.steps;
        match run.step(job.accepted, &mut rooms) {
            Ok(Step::Did(done)) => match done {
                Done::Gone => {
                    if run.thread.steps < steps {
                        return Ok(());
                    }
                }
                Done::Exceeded => {}
                Done::Spawned(_) => return Err(EventError::Illegal),
                Done::Entered => return Err(EventError::Illegal),
            },
            Ok(Step::AtEnd) => return Err(EventError::Illegal),
            Err(_) => return Err(EventError::NoMemory),
        }
    }
}
