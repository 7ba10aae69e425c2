//! What a worker does while it holds a scope's lock.

ghost use Rattle.std.specs.Prelude.{◌≡◌, IfErr, IfOk, IfSome};
ghost use Rattle.finish_scope.specs.Own.{IsOwnPassing, IsOwnResting, IsResultOfRun};
ghost use Rattle.finish_scope.specs.Scopes.{IsEven};
ghost use Rattle.workers.specs.Causes.{Happens, HappensAtScope, trouble_of};
ghost use Rattle.workers.specs.Own.{IsOwnChild, IsOwnTask, IsOwnWanting};

use crate::error::Trouble;
use crate::gate::Gate;
use crate::locked_log::{LockedLog, hold};
use crate::log_guard::LogGuard;
use crate::pool::Pool;
use crate::recorded::Recording;
use finish_scope::inner::{Inner, Scope};
use finish_scope::late::{Late, Reason};
use finish_scope::resting::{Passing, Resting};
use finish_scope::running::Running;
use std::sync::Wait;
use task_run::result::TaskResult;
use weighted_task::stake::ScopeMark;
use weighted_task::task::{Child, Task};
use weighted_task::turn::Wanting;
use weights::book::Back;
use weights::weight::Weight;

/// The log and the gate of a run, for what a worker does at a scope. The log's lock is taken while the
/// scope's lock is held, never the other way round.
#[derive(Drop)]
pub struct ScopeRecorder<'c, 'p, J: Running, G: Gate> {
    pub log: &'c Option<LockedLog<'p, J>>,
    pub gate: &'c G,
    pub pool: &'c Pool<'p, J>,
    /// The scope, identified relative to the task that gives back.
    pub scope: ScopeMark,
}

impl<'c, 'p, J: Running + Recording, G: Gate> ScopeRecorder<'c, 'p, J, G> {
    /// Takes the log's lock, if events are recorded.
    fn hold<R: Wait>(&self, rt: &R) -> LogGuard<'c, 'p, J> {
        hold::<J, R>(self.log, rt, self.pool)
    }
}

/// Issues more weight to a task that has too little for its child.
pub fn replenish<'p, J: Running + Recording, G: Gate, R: Wait>(
    rt: &R,
    scope: &Scope<'p, J>,
    wanting: Wanting<'p>,
    recorder: &ScopeRecorder<'_, 'p, J, G>,
) -> Result<(Task<'p>, Child<'p>), Trouble>
    requires { IsOwnWanting J.job wanting }
    ensures task { IfOk result (λ p. IsOwnTask J.job p.0) }
    ensures child { IfOk result (λ p. IsOwnChild J.job p.1) }
    ensures scope { IfErr result (HappensAtScope J.job) }
    ensures cause { IfErr result (Happens J.job) }
{
    let (weight, paused) = wanting.take_weight();
    let mut guard = scope.lock(rt);
    let mut log_guard = recorder.hold(rt);
    let issued = guard.replenish(weight);
    drop(guard);
    match issued {
        Ok(weight) => {
            let (task, child) = paused.with_weight(weight);
            note_more::<J>(&mut log_guard, &task);
            Ok((task, child))
        }
        Err(late) => Err(not_issued(late)),
    }
}

/// Records that a task was given more weight, and spawned another.
fn note_more<'p, J: Running + Recording>(log_guard: &mut LogGuard<'_, 'p, J>, task: &Task<'p>)
    requires { IsOwnTask J.job task.now }
{
    log_guard.replenished(task.path());
}

/// Gives back the weight and the result of a task that has finished. If it was the last, the
/// scope's owner is returned.
pub fn give_back<'p, J: Running + Recording, G: Gate, R: Wait>(
    rt: &R,
    scope: &Scope<'p, J>,
    weight: Weight,
    made: TaskResult,
    recorder: &ScopeRecorder<'_, 'p, J, G>,
) -> Result<Option<Passing<'p>>, Trouble>
    requires own { IsResultOfRun J.job made }
    ensures own { IfOk result (λ p. IfSome p (IsOwnPassing J.job)) }
    ensures scope { IfErr result (HappensAtScope J.job) }
    ensures cause { IfErr result (Happens J.job) }
{
    let mut guard = scope.lock(rt);
    recorder.gate.hold();
    let inner = &mut *guard;
    let mut log_guard = recorder.hold(rt);
    let path = log_guard.copy(&made.path);
    match inner.give_back(weight, made) {
        Ok(back) => {
            log_guard.ended(path);
            drop(log_guard);
            passes::<J, G, R>(rt, inner, back, recorder)
        }
        Err(late) => {
            let Late { reason, back } = late;
            let (weight, _) = back;
            weight.forfeit();
            Err(Trouble::NotDue(reason))
        }
    }
}

/// Parks a task as the owner of the scope. If all tasks of the scope have finished, the owner is
/// returned.
pub fn park<'p, J: Running + Recording, G: Gate, R: Wait>(
    rt: &R,
    scope: &Scope<'p, J>,
    weight: Weight,
    owner: Resting<'p>,
    recorder: &ScopeRecorder<'_, 'p, J, G>,
) -> Result<Option<Passing<'p>>, Trouble>
    requires own { IsOwnResting J.job owner }
    ensures own { IfOk result (λ p. IfSome p (IsOwnPassing J.job)) }
    ensures scope { IfErr result (HappensAtScope J.job) }
    ensures cause { IfErr result (Happens J.job) }
{
    let mut guard = scope.lock(rt);
    recorder.gate.hold();
    let inner = &mut *guard;
    let mut log_guard = recorder.hold(rt);
    let path = log_guard.copy(owner.parked.path());
    match inner.park(weight, owner) {
        Ok(back) => {
            log_guard.parked(path);
            drop(log_guard);
            passes::<J, G, R>(rt, inner, back, recorder)
        }
        Err(late) => {
            let Late { reason, back } = late;
            let (weight, _) = back;
            weight.forfeit();
            Err(Trouble::NotDue(reason))
        }
    }
}

/// Takes the owner out of a scope if the weight that came back was the last.
fn passes<'p, J: Running + Recording, G: Gate, R: Wait>(
    rt: &R,
    inner: &mut Inner<'p, J>,
    back: Back,
    recorder: &ScopeRecorder<'_, 'p, J, G>,
) -> Result<Option<Passing<'p>>, Trouble>
    requires { (back ≡ Back.Complete) → IsEven inner.old }
    ensures own { IfOk result (λ p. IfSome p (IsOwnPassing J.job)) }
    ensures scope { IfErr result (HappensAtScope J.job) }
    ensures cause { IfErr result (Happens J.job) }
{
    if inner.marked() {
        return Err(Trouble::OutOfMemory);
    }
    match back {
        Back::Open => Ok(None),
        Back::Complete => {
            let mut log_guard = recorder.hold(rt);
            match inner.resume() {
                Some(passing) => {
                    log_guard.passed(recorder.scope.number, passing.owner.parked.path());
                    Ok(Some(passing))
                }
                None => Err(Trouble::NoOwner(inner.ownerless())),
            }
        }
    }
}

/// Returns the reason why a scope issued nothing.
fn not_issued(late: Late<Reason, Weight>) -> Trouble
    ensures { result ≡ trouble_of late.reason }
{
    let Late { reason, back } = late;
    back.forfeit();
    match reason {
        Reason::NotDue(cause) => Trouble::NotDue(cause),
        Reason::IssuedTooOften(cause) => Trouble::IssuedTooOften(cause),
    }
}
