//! The events at the ends of finishes and of tasks.

ghost use Rattle.std.specs.Prelude.{◌≡◌, ◌∷◌, [], IfErr, IfOk, OnOk, Some, None, map};
ghost use Rattle.std.specs.Bool.{OnTrue, OnFalse};
ghost use Rattle.std.specs.HashMap.{get};
ghost use Rattle.task_run.specs.Translation.{task_result};
ghost use Rattle.task_run.specs.declared.result.TaskResult.{TaskResult as Made};
ghost use Rattle.gather.specs.GivesBack.{GiveBack};
ghost use Rattle.event_worlds.specs.Ending.{GivesBack, GoesBehind, HasMade, IsGoneOn, IsOutside, IsSetDown};
ghost use Rattle.event_worlds.specs.Ending.{MayGoOn, MayLeave, NoneIsLate, ScopeBecomes, StandsAt};
ghost use Rattle.event_worlds.specs.Ending.{TaskBecomes};
ghost use Rattle.event_worlds.specs.Ending.{has_ended, is_waiting};
ghost use Rattle.event_worlds.specs.Events.{Ends as IsEnd, Parks as IsPark, Resume as IsResume};
ghost use Rattle.event_worlds.specs.Leaving.{HasLeft};
ghost use Rattle.types.specs.Translation.{is_path};
ghost use Rattle.event_worlds.specs.Shown.{Becomes, IsLegal, IsWorld, Refuses, ScopeStays, Shows};
ghost use Rattle.event_worlds.specs.Shown.{next_world};
ghost use Rattle.event_worlds.specs.Walks.{IsIllegal};
ghost use Rattle.event_worlds.specs.World.{World as AnyWorld};
ghost use Rattle.event_worlds.specs.declared.doing.TaskProgress.TheVariants.{AtEnd as IsAtEnd};
ghost use Rattle.event_worlds.specs.declared.error.EventError.TheVariants.{Illegal, NoMemory};
ghost use Rattle.event_worlds.specs.declared.task.WorldTask.{WorldTask as AnyTask};

use crate::doing::TaskProgress;
use crate::error::EventError;
use crate::task::{Whereabouts, WorldTask};
use crate::world::World;
use events::worker_id::WorkerId;
use gather::settle::settle;
use std::alloc::{AllocError, Global};
use task_run::result::TaskResult;
use task_run::run::Run;
use task_run::turn::Paused;
use types::path::Path;

impl<'p> World<'p> {
    /// Parks a task at the end of its innermost finish. The task gives back its weight there, and
    /// waits.
    pub(crate) fn park(&mut self, path: &Path) -> Result<(), EventError>
        requires { IsWorld self.old }
        ensures parked { OnOk result (Becomes (IsPark path.now.turns.items) self.old self.new) }
        ensures refused { IfErr result
            (Refuses (IsPark path.now.turns.items) self.old self.new) }
        ensures job { self.new.job ≡ self.old.job }
    {
        let worker = self.look_at(path)?;
        if !self.is_waiting(path) {
            return Err(EventError::Illegal);
        }
        self.return_weight(path);
        self.set_down(path);
        self.hands.remove(&worker);
        Ok(())
    }

    /// Ends a task, which gives back its weight and its result.
    pub(crate) fn end(&mut self, path: &Path) -> Result<(), EventError>
        requires { IsWorld self.old }
        ensures ended { OnOk result (Becomes (IsEnd path.now.turns.items) self.old self.new) }
        ensures refused { IfErr result (Refuses (IsEnd path.now.turns.items) self.old self.new) }
        ensures job { self.new.job ≡ self.old.job }
    {
        let worker = self.look_at(path)?;
        if !self.has_ended(path) {
            return Err(EventError::Illegal);
        }
        let made = self.made(path)?;
        self.hand_on(path, made)?;
        self.tasks.remove(path);
        self.hands.remove(&worker);
        Ok(())
    }

    /// Takes a task that was parked at a passed scope. The task continues with the settled result
    /// of the finish.
    pub(crate) fn resume(&mut self, worker: WorkerId, path: &Path) -> Result<(), EventError>
        requires { IsWorld self.old }
        ensures resumed { OnOk result
            (Becomes (IsResume worker path.now.turns.items None) self.old self.new) }
        ensures refused { IfErr result
            (Refuses (IsResume worker path.now.turns.items None) self.old self.new) }
        ensures job { self.new.job ≡ self.old.job }
    {
        if self.hands.contains(&worker) {
            return Err(EventError::Illegal);
        }
        if !self.may_leave(path) {
            return Err(EventError::Illegal);
        }
        self.hands.reserve(1)?;
        let run = self.settled_run(path)?;
        // Nothing below can run out of memory.
        self.drop_results(path);
        self.go_behind(worker, path, run);
        self.hands.insert(worker)?;
        Ok(())
    }

    /// Resumes a task in a world that is discarded after an error. The results are moved, not
    /// copied.
    pub(crate) fn go_on_behind(&mut self, worker: WorkerId, path: &Path) -> Result<(), EventError>
        requires { IsWorld self.old }
        ensures resumed { OnOk result
            (Becomes (IsResume worker path.now.turns.items None) self.old self.new) }
        ensures refused { IfErr result (λ e. e ≡ Illegal
            → IsIllegal self.old (IsResume worker path.now.turns.items None)) }
        ensures memory { IfErr result (λ e. e ≡ NoMemory
            → IsLegal self.old (IsResume worker path.now.turns.items None)) }
        ensures job { OnOk result (self.new.job ≡ self.old.job) }
    {
        if self.hands.contains(&worker) {
            return Err(EventError::Illegal);
        }
        if !self.may_leave(path) {
            return Err(EventError::Illegal);
        }
        self.leave(worker, path)?;
        self.hands.insert(worker)?;
        Ok(())
    }

    /// Continues a task after its finish, with the results of its innermost scope. After an error
    /// both are lost.
    fn leave(&mut self, worker: WorkerId, path: &Path) -> Result<(), EventError>
        requires stands { StandsAt self.old path.now }
        requires may { MayGoOn self.old path.now }
        ensures others { OnOk result (self.new
            ≡ record self.old { tasks = self.new.tasks; scopes = self.new.scopes }) }
        ensures left { OnOk result ((a : StandsAt self.old path.now)
            → HasLeft self.old self.new path.now worker a) }
        ensures refused { IfErr result (λ e. e ≡ NoMemory) }
    {
        let alloc = self.job.job.alloc;
        let Some((name, task)) = self.tasks.remove_entry(path) else {
            unreachable!()
        };
        let WorldTask {
            doing,
            opened,
            stakes,
            ..
        } = task;
        let mut stakes = stakes;
        let Some(stake) = stakes.pop_front() else {
            unreachable!()
        };
        let Some(scope) = self.scopes.get_mut(&stake.scope) else {
            unreachable!()
        };
        let kept = scope.results.take();
        let (TaskProgress::AtFinish(paused, made), Some(results)) = (doing, kept) else {
            return Err(EventError::NoMemory);
        };
        let run = settled_on(alloc, paused, made, results)?;
        let task = WorldTask {
            doing: TaskProgress::Runs(run),
            opened,
            stakes,
            place: Whereabouts::Hand(worker),
        };
        self.tasks.insert(name, task)?;
        Ok(())
    }

    /// Returns whether a task is at the end of a finish.
    fn is_waiting(&self, path: &Path) -> bool
        ensures { (k : AnyTask) → get is_path self.now.tasks path.now ≡ Some k
            → result ≡ is_waiting path.now.turns.items k.doing }
    {
        let Some(task) = self.tasks.get(path) else {
            return false;
        };
        match &task.doing {
            TaskProgress::AtFinish(_, _) => true,
            TaskProgress::AtEnd(_) => path.turns.is_empty(),
            _ => false,
        }
    }

    /// Returns whether a task other than the root is at its end.
    fn has_ended(&self, path: &Path) -> bool
        ensures { (k : AnyTask) → get is_path self.now.tasks path.now ≡ Some k
            → result ≡ has_ended path.now.turns.items k.doing }
    {
        let Some(task) = self.tasks.get(path) else {
            return false;
        };
        match &task.doing {
            TaskProgress::AtEnd(_) => !path.turns.is_empty(),
            _ => false,
        }
    }

    /// Gives back a task's weight in its innermost scope.
    fn return_weight(&mut self, path: &Path)
        requires stands { StandsAt self.old path.now }
        requires late { NoneIsLate self.old }
        ensures others { self.new ≡ record self.old { scopes = self.new.scopes } }
        ensures given { (a : StandsAt self.old path.now)
            → ScopeBecomes self.old self.new a.inner.scope (GivesBack a.inner.weight [] a.book) }
    {
        let Some(task) = self.tasks.get(path) else {
            unreachable!()
        };
        let Some(stake) = task.stakes.front() else {
            unreachable!()
        };
        let Some(scope) = self.scopes.get_mut(&stake.scope) else {
            unreachable!()
        };
        scope.give_back(stake.weight);
    }

    /// Parks a task and sets its weight in its innermost scope to 0.
    fn set_down(&mut self, path: &Path)
        ensures others { self.new ≡ record self.old { tasks = self.new.tasks } }
        ensures parked { (k : AnyTask) → get is_path self.old.tasks path.now ≡ Some k
            → TaskBecomes self.old self.new path.now (IsSetDown k) }
    {
        if let Some(task) = self.tasks.get_mut(path) {
            task.set_down();
        }
    }

    /// Returns a copy of the result of a task at its end.
    fn made(&self, path: &Path) -> Result<TaskResult, AllocError>
        requires { HasMade self.now path.now }
        ensures { IfOk result (λ made. (k : AnyTask) (m : Made)
            → get is_path self.now.tasks path.now ≡ Some k → k.doing ≡ IsAtEnd m
            → task_result made ≡ task_result m) }
    {
        let Some(task) = self.tasks.get(path) else {
            unreachable!()
        };
        let TaskProgress::AtEnd(made) = &task.doing else {
            unreachable!()
        };
        made.clone(self.job.job.alloc)
    }

    /// Gives back a task's weight in its innermost scope, together with its result.
    fn hand_on(&mut self, path: &Path, made: TaskResult) -> Result<(), EventError>
        requires stands { StandsAt self.old path.now }
        requires late { NoneIsLate self.old }
        ensures others { self.new ≡ record self.old { scopes = self.new.scopes } }
        ensures given { OnOk result ((a : StandsAt self.old path.now)
            → ScopeBecomes self.old self.new a.inner.scope
            (GivesBack a.inner.weight (task_result made ∷ []) a.book)) }
        ensures refused { IfErr result (λ e. (e ≡ NoMemory) × ((a : StandsAt self.old path.now)
            → ScopeBecomes self.old self.new a.inner.scope (ScopeStays a.book))) }
    {
        let Some(task) = self.tasks.get(path) else {
            unreachable!()
        };
        let Some(stake) = task.stakes.front() else {
            unreachable!()
        };
        let Some(scope) = self.scopes.get_mut(&stake.scope) else {
            unreachable!()
        };
        scope.end(stake.weight, made)
    }

    /// Returns whether a task is parked at a passed scope, and is in another scope around it.
    pub(crate) fn may_leave(&self, path: &Path) -> bool
        ensures may { OnTrue result (MayLeave self.now path.now) }
        ensures not { OnFalse result ((w : AnyWorld) (worker : _) → Shows self.now w
            → next_world self.now.job (IsResume worker path.now.turns.items None) w ≡ None) }
    {
        let Some(task) = self.tasks.get(path) else {
            return false;
        };
        if task.place != Whereabouts::Parked {
            return false;
        }
        // No task leaves the root's scope.
        let Some(_around) = task.stakes.get(1) else {
            return false;
        };
        let Some(stake) = task.stakes.front() else {
            return false;
        };
        match self.scopes.get(&stake.scope) {
            Some(scope) => scope.passed,
            None => false,
        }
    }

    /// Returns the run that continues after a task's finish. It settles copies of the results that
    /// the innermost scope keeps.
    fn settled_run(&self, path: &Path) -> Result<Run<'p>, EventError>
        requires stands { StandsAt self.now path.now }
        requires may { MayGoOn self.now path.now }
        ensures goes { IfOk result (λ run. (a : StandsAt self.now path.now)
            → IsGoneOn self.now path.now a run) }
        ensures refused { IfErr result (λ e. e ≡ NoMemory) }
    {
        let Some(task) = self.tasks.get(path) else {
            unreachable!()
        };
        let Some(stake) = task.stakes.front() else {
            unreachable!()
        };
        let Some(scope) = self.scopes.get(&stake.scope) else {
            unreachable!()
        };
        let (TaskProgress::AtFinish(paused, made), Some(results)) = (&task.doing, &scope.results)
        else {
            return Err(EventError::NoMemory);
        };
        run_behind(self.job.job.alloc, paused, made, results)
    }

    /// Removes the results from a task's innermost scope, because the owner has them now.
    fn drop_results(&mut self, path: &Path)
        requires stands { StandsAt self.old path.now }
        ensures others { self.new ≡ record self.old { scopes = self.new.scopes } }
        ensures taken { (a : StandsAt self.old path.now)
            → ScopeBecomes self.old self.new a.inner.scope
            (λ to. to ≡ record a.book { results = None }) }
    {
        let Some(task) = self.tasks.get(path) else {
            unreachable!()
        };
        let Some(stake) = task.stakes.front() else {
            unreachable!()
        };
        let Some(scope) = self.scopes.get_mut(&stake.scope) else {
            unreachable!()
        };
        scope.results = None;
    }

    /// Continues a task with this run in a hand, in the scope around its innermost one.
    fn go_behind(&mut self, worker: WorkerId, path: &Path, run: Run<'p>)
        ensures others { self.new ≡ record self.old { tasks = self.new.tasks } }
        ensures behind { (k : AnyTask) → get is_path self.old.tasks path.now ≡ Some k
            → TaskBecomes self.old self.new path.now (IsOutside worker run.entry k) }
    {
        if let Some(task) = self.tasks.get_mut(path) {
            task.go_behind(worker, run);
        }
    }
}

impl<'p> WorldTask<'p> {
    /// Parks the task and sets its weight in its innermost scope to 0.
    fn set_down(&mut self)
        ensures { IsSetDown self.old self.new }
    {
        self.place = Whereabouts::Parked;
        if let Some(stake) = self.stakes.front_mut() {
            stake.weight = 0;
        }
    }

    /// Continues with this run in a hand, in the scope around the innermost one.
    fn go_behind(&mut self, worker: WorkerId, run: Run<'p>)
        ensures { IsOutside worker run.entry self.old self.new }
    {
        self.doing = TaskProgress::Runs(run);
        self.stakes.pop_front();
        self.place = Whereabouts::Hand(worker);
    }
}

/// Returns the run that continues after a finish, with its settled results. It settles copies, so
/// an out-of-memory error loses nothing.
fn run_behind<'p>(
    alloc: Global,
    paused: &Paused<'p>,
    made: &TaskResult,
    results: &[TaskResult],
) -> Result<Run<'p>, EventError>
    requires { GiveBack (task_result made.now) (map task_result results.now) }
    ensures goes { IfOk result (GoesBehind paused.now made.now
        (map task_result results.now)) }
    ensures refused { IfErr result (λ e. e ≡ NoMemory) }
{
    let made = made.clone(alloc)?;
    let results = copies(alloc, results)?;
    settled_on(alloc, paused.clone()?, made, results)
}

/// Returns the run that continues after a finish. It settles the values themselves, without copies.
fn settled_on<'p>(
    alloc: Global,
    paused: Paused<'p>,
    made: TaskResult,
    results: Vec<TaskResult>,
) -> Result<Run<'p>, EventError>
    requires { GiveBack (task_result made) (map task_result results.items) }
    ensures goes { IfOk result (GoesBehind paused.entry made
        (map task_result results.items)) }
    ensures refused { IfErr result (λ e. e ≡ NoMemory) }
{
    let Ok(settled) = settle(alloc, made, results) else {
        return Err(EventError::NoMemory);
    };
    let run = paused.go_on(settled)?;
    Ok(run)
}

/// Copies results.
pub(crate) fn copies(alloc: Global, results: &[TaskResult]) -> Result<Vec<TaskResult>, AllocError>
    ensures { IfOk result (λ v. map task_result v.items ≡ map task_result results.now) }
{
    let mut copies = Vec::new(alloc);
    for made in results {
        let copy = made.clone(alloc)?;
        copies.push(copy)?;
    }
    Ok(copies)
}
