//! Copies of runs and results, in their own memory.

ghost use Rattle.std.specs.Prelude.{◌≡◌, IfOk, List, map};
ghost use Rattle.types.specs.Run.{State};
ghost use Rattle.types.specs.Translation.{fault as fault_of};
ghost use Rattle.task_run.specs.Copies.{IsCopy, IsPausedCopy};
ghost use Rattle.task_run.specs.Frames.{Frame as AnyFrame};
ghost use Rattle.task_run.specs.OwnRun.{Own};
ghost use Rattle.task_run.specs.Standings.{IsEnd, ShowsFrame, Stacked, state_of};
ghost use Rattle.task_run.specs.Translation.{listed, owned_by, start as start_of, task_result};

use crate::frame::{Outer, TaskFrame};
use crate::memory::TaskMemory;
use crate::result::{Listed, TaskResult};
use crate::run::Run;
use crate::start::Start;
use crate::turn::Paused;
use statement_steps::thread::Thread;
use std::alloc::{AllocError, Global};
use types::fault::Fault;

impl<'p> Run<'p> {
    /// Returns an equal run: the copy represents each task that this run represents.
    pub fn clone(&self) -> Result<Run<'p>, AllocError>
        ensures { IfOk result (IsCopy self.now) }
    {
        let alloc = self.plan.alloc;
        Ok(Run {
            plan: self.plan,
            thread: thread(alloc, &self.thread)?,
            frames: frames(alloc, &self.frames)?,
            pending: children(alloc, &self.pending)?,
        })
    }
}

impl<'p> Paused<'p> {
    /// Returns an equal waiting run.
    pub fn clone(&self) -> Result<Paused<'p>, AllocError>
        ensures { IfOk result (IsPausedCopy self.now) }
    {
        let alloc = self.plan.alloc;
        Ok(Paused {
            plan: self.plan,
            path: self.path.copied(alloc)?,
            spawned: self.spawned,
            environment: self.environment.copied(alloc)?,
            steps: self.steps,
            nest: self.nest,
            frames: frames(alloc, &self.frames)?,
            outer: self.outer.clone(alloc)?,
        })
    }
}

impl<'p> Start<'p> {
    /// Returns an equal start.
    pub fn clone(&self, alloc: Global) -> Result<Start<'p>, AllocError>
        ensures start { IfOk result (λ s. start_of s ≡ start_of self.now) }
        ensures label { IfOk result (λ s. s.label ≡ self.now.label) }
    {
        Ok(Start {
            body: self.body,
            environment: self.environment.copied(alloc)?,
            holdings: self.holdings.clone(alloc)?,
            nest: self.nest,
            path: self.path.copied(alloc)?,
            label: self.label,
        })
    }
}

impl TaskResult {
    /// Returns an equal result.
    pub fn clone(&self, alloc: Global) -> Result<TaskResult, AllocError>
        ensures { IfOk result (λ r. task_result r ≡ task_result self.now) }
    {
        Ok(TaskResult {
            path: self.path.copied(alloc)?,
            stopped: self.stopped,
            holdings: self.holdings.clone(alloc)?,
            lines: lines(alloc, &self.lines)?,
            faults: faults(alloc, &self.faults)?,
            children: children(alloc, &self.children)?,
        })
    }
}

impl Listed {
    /// Returns an equal entry.
    fn clone(&self, alloc: Global) -> Result<Listed, AllocError>
        ensures { IfOk result (λ c. listed c ≡ listed self.now) }
    {
        Ok(Listed {
            path: self.path.copied(alloc)?,
            windows: Vec::from_slice(alloc, &self.windows)?,
            lines: lines(alloc, &self.lines)?,
            faults: faults(alloc, &self.faults)?,
        })
    }
}

impl<'p> TaskFrame<'p> {
    /// Returns an equal frame.
    fn clone(&self, alloc: Global) -> Result<TaskFrame<'p>, AllocError>
        ensures { IfOk result (λ g. (f : AnyFrame Own) → ShowsFrame self.now f → ShowsFrame g f) }
    {
        match self {
            TaskFrame::Rest(block) => Ok(TaskFrame::Rest(*block)),
            TaskFrame::Again { label, guard, body } => Ok(TaskFrame::Again {
                label: *label,
                guard: *guard,
                body: *body,
            }),
            TaskFrame::Turns(turns) => Ok(TaskFrame::Turns(*turns)),
            TaskFrame::EndFinish(outer) => Ok(TaskFrame::EndFinish(outer.clone(alloc)?)),
            TaskFrame::OnFault {
                before,
                faults: slot,
                handler,
            } => Ok(TaskFrame::OnFault {
                before: faults(alloc, before)?,
                faults: *slot,
                handler: *handler,
            }),
            TaskFrame::EndCall { environment } => {
                let environment = environment.copied(alloc)?;
                Ok(TaskFrame::EndCall { environment })
            }
        }
    }
}

impl Outer {
    /// Returns an equal value.
    fn clone(&self, alloc: Global) -> Result<Outer, AllocError>
        ensures { IfOk result (λ o. (before : State Own) → IsEnd self.now before → IsEnd o before) }
    {
        Ok(Outer {
            lines: lines(alloc, &self.lines)?,
            faults: faults(alloc, &self.faults)?,
            pending: children(alloc, &self.pending)?,
        })
    }
}

/// Copies the state of a run. Spare room for the environments of calls isn't copied.
fn thread(alloc: Global, thread: &Thread<TaskMemory>) -> Result<Thread<TaskMemory>, AllocError>
    ensures state { IfOk result (λ t. state_of t ≡ state_of thread.now) }
    ensures owned { IfOk result (λ t. owned_by t.store.holdings
        ≡ owned_by thread.now.store.holdings) }
    ensures nest { IfOk result (λ t. t.nest ≡ thread.now.nest) }
{
    let holdings = thread.store.holdings.clone(alloc)?;
    Ok(Thread {
        flow: thread.flow,
        store: TaskMemory { holdings },
        lines: lines(alloc, &thread.lines)?,
        faults: faults(alloc, &thread.faults)?,
        path: thread.path.copied(alloc)?,
        spawned: thread.spawned,
        environment: thread.environment.copied(alloc)?,
        steps: thread.steps,
        nest: thread.nest,
        spare: Vec::new(alloc),
    })
}

/// Copies frames in their order.
fn frames<'p>(alloc: Global, frames: &[TaskFrame<'p>]) -> Result<Vec<TaskFrame<'p>>, AllocError>
    ensures { IfOk result (λ v. (fs : List (AnyFrame Own)) → Stacked frames.now fs
        → Stacked v.items fs) }
{
    let mut copies = Vec::new(alloc);
    for frame in frames {
        let copy = frame.clone(alloc)?;
        copies.push(copy)?;
    }
    Ok(copies)
}

/// Copies what is known of spawned tasks.
fn children(alloc: Global, children: &[Listed]) -> Result<Vec<Listed>, AllocError>
    ensures { IfOk result (λ v. map listed v.items ≡ map listed children.now) }
{
    let mut copies = Vec::new(alloc);
    for child in children {
        let copy = child.clone(alloc)?;
        copies.push(copy)?;
    }
    Ok(copies)
}

/// Copies the printed lines.
fn lines(alloc: Global, lines: &[Vec<i64>]) -> Result<Vec<Vec<i64>>, AllocError>
    ensures { IfOk result (λ v. map (λ l. l.items) v.items ≡ map (λ l. l.items) lines.now) }
{
    let mut copies = Vec::new(alloc);
    for line in lines {
        let copy = Vec::from_slice(alloc, line)?;
        copies.push(copy)?;
    }
    Ok(copies)
}

/// Copies the faults.
pub(crate) fn faults(alloc: Global, faults: &[Fault]) -> Result<Vec<Fault>, AllocError>
    ensures { IfOk result (λ v. map fault_of v.items ≡ map fault_of faults.now) }
{
    let mut copies = Vec::new(alloc);
    for fault in faults {
        let path = fault.path.copied(alloc)?;
        copies.push(Fault {
            path,
            label: fault.label,
            kind: fault.kind,
        })?;
    }
    Ok(copies)
}
