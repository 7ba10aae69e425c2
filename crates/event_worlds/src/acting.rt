//! The events by which a task in a hand takes a step, spawns another task or starts a finish.

ghost use Rattle.std.specs.Prelude.{◌≡◌, ◌≤◌, ◌<◌, ◌-◌, ◌/◌, ◌∷◌, [], List, None, Some, map};
ghost use Rattle.std.specs.Prelude.{IfErr, IfOk, MatchOption, OnErr, OnOk};
ghost use Rattle.std.specs.Bool.{OnFalse, OnTrue};
ghost use Rattle.std.specs.HashMap.{get};
ghost use Rattle.task_run.specs.declared.run.Run.{Run as AnyRun};
ghost use Rattle.task_run.specs.Jobs.{IsJob};
ghost use Rattle.event_worlds.specs.Acting.{DidIssue, DidOpen, DidSpawn, DidStep, IsHeavy};
ghost use Rattle.event_worlds.specs.Acting.{SteppedIf, TookStepIf};
ghost use Rattle.event_worlds.specs.Acting.{IsReady, IsSame, IsShare, IsShort, IsToSpawn, IsWanting};
ghost use Rattle.event_worlds.specs.Courses.{IsKnown, IsNotToStep, behind, begun_by};
ghost use Rattle.event_worlds.specs.Events.{Opens as IsOpen, Replenish as IsReplenish};
ghost use Rattle.event_worlds.specs.Events.{Spawns as IsSpawn, Steps as IsStep};
ghost use Rattle.event_worlds.specs.NextKinds.{StepsInHand};
ghost use Rattle.event_worlds.specs.Shown.{Becomes, IsLegal, IsTaskOf, IsWorld, Refuses, TaskStays};
ghost use Rattle.event_worlds.specs.Shown.{WorldStays};
ghost use Rattle.types.specs.Translation.{is_path};
ghost use Rattle.event_worlds.specs.Shown.{scope_id, stake, whereabouts};
ghost use Rattle.event_worlds.specs.Walks.{IsIllegal};
ghost use Rattle.event_worlds.specs.World.{Live, hand_of};
ghost use Rattle.event_worlds.specs.declared.error.EventError.TheVariants.{Illegal, NoMemory};
ghost use Rattle.types.specs.declared.scope_id.ScopeId.{ScopeId as AnyScopeId};
ghost use Rattle.event_worlds.specs.declared.task.WorldStake.{WorldStake as AnyStake};
ghost use Rattle.event_worlds.specs.declared.task.WorldTask.{WorldTask as AnyTask};

use crate::doing::{TaskProgress, take_step};
use crate::error::EventError;
use crate::job::WeightedJob;
use crate::scope::WorldScope;
use crate::task::{Whereabouts, WorldStake, WorldTask};
use crate::world::World;
use events::worker_id::WorkerId;
use std::alloc::{AllocError, Global};
use std::collections::VecDeque;
use task_run::job::Job;
use task_run::start::Start;
use types::path::Path;
use types::scope_id::ScopeId;

impl<'p> World<'p> {
    /// Takes one step of a task, of a statement other than async and finish.
    pub(crate) fn step(&mut self, path: &Path) -> Result<(), EventError>
        requires { IsWorld self.old }
        ensures job { self.new.job ≡ self.old.job }
        ensures stepped { OnOk result (Becomes (IsStep path.now.turns.items) self.old self.new) }
        ensures refused { IfErr result (Refuses (IsStep path.now.turns.items) self.old self.new) }
    {
        self.look_at(path)?;
        match self.tasks.get_mut(path) {
            Some(task) => task.step(),
            None => Err(EventError::Illegal),
        }
    }

    /// Gives more weight to a task that is about to spawn another, if it has weight 1 in its
    /// innermost scope.
    pub(crate) fn replenish(&mut self, path: &Path) -> Result<(), EventError>
        requires { IsWorld self.old }
        ensures job { self.new.job ≡ self.old.job }
        ensures given { OnOk result (Becomes (IsReplenish path.now.turns.items) self.old self.new) }
        ensures refused { IfErr result
            (Refuses (IsReplenish path.now.turns.items) self.old self.new) }
    {
        self.look_at(path)?;
        if !self.is_short(path) {
            return Err(EventError::Illegal);
        }
        self.issue_to(path);
        Ok(())
    }

    /// Spawns a task, which gets part of its parent's weight.
    pub(crate) fn spawn(&mut self, path: &Path) -> Result<(), EventError>
        requires { IsWorld self.old }
        ensures job { self.new.job ≡ self.old.job }
        ensures spawned { OnOk result (Becomes (IsSpawn path.now.turns.items) self.old self.new) }
        ensures refused { IfErr result (Refuses (IsSpawn path.now.turns.items) self.old self.new) }
    {
        let worker = self.look_at(path)?;
        self.tasks.reserve(1)?;
        let Some(task) = self.tasks.get_mut(path) else {
            return Err(EventError::Illegal);
        };
        let (child, begun) = task.spawn(self.job.job.alloc, worker)?;
        // There is room for it, so this can't fail.
        self.tasks.insert(child, begun)?;
        Ok(())
    }

    /// Starts a finish, whose scope issues its first weight to the task.
    pub(crate) fn open(&mut self, path: &Path) -> Result<(), EventError>
        requires { IsWorld self.old }
        ensures job { self.new.job ≡ self.old.job }
        ensures opened { OnOk result (Becomes (IsOpen path.now.turns.items) self.old self.new) }
        ensures refused { IfErr result (Refuses (IsOpen path.now.turns.items) self.old self.new) }
    {
        self.look_at(path)?;
        let job = self.job;
        self.scopes.reserve(1)?;
        let Some(task) = self.tasks.get_mut(path) else {
            return Err(EventError::Illegal);
        };
        let scope = task.open(path, job)?;
        // There is room for it, so this can't fail.
        self.scopes
            .insert(scope, WorldScope::new(job.job.alloc, job.w0))?;
        Ok(())
    }

    /// Returns the worker in whose hand a task is, and makes sure that the task's next action is
    /// known.
    pub(crate) fn look_at(&mut self, path: &Path) -> Result<WorkerId, EventError>
        requires { IsWorld self.old }
        ensures others { self.new ≡ record self.old { tasks = self.new.tasks } }
        ensures stays { WorldStays self.old self.new }
        ensures ready { IfOk result (IsReady self.new path.now) }
        ensures nowhere { IfErr result (λ e. e ≡ Illegal → (k : AnyTask)
            → get is_path self.old.tasks path.now ≡ Some k
            → hand_of (whereabouts k.place) ≡ None) }
    {
        match self.tasks.get_mut(path) {
            Some(task) => task.in_hand(self.job.job),
            None => Err(EventError::Illegal),
        }
    }

    /// Makes sure that a task's next action is known. The task leaves the table while its run
    /// turns, without a copy. After an error the task is lost.
    pub(crate) fn look_ahead(&mut self, path: &Path) -> Result<(), EventError>
        requires { IsWorld self.old }
        ensures stays { OnOk result (WorldStays self.old self.new) }
        ensures refused { IfErr result (λ e. e ≡ NoMemory) }
    {
        let job = self.job.job;
        let Some((name, task)) = self.tasks.remove_entry(path) else {
            return Ok(());
        };
        let task = task.known(job)?;
        self.tasks.insert(name, task)?;
        Ok(())
    }

    /// Takes one step of a task in a world that is discarded after an error. If possible, the run
    /// turns in place.
    pub(crate) fn step_ahead(&mut self, path: &Path) -> Result<(), EventError>
        requires { IsWorld self.old }
        ensures job { OnOk result (self.new.job ≡ self.old.job) }
        ensures stepped { OnOk result (Becomes (IsStep path.now.turns.items) self.old self.new) }
        ensures refused { IfErr result (λ e. e ≡ Illegal
            → IsIllegal self.old (IsStep path.now.turns.items)) }
        ensures memory { IfErr result (λ e. e ≡ NoMemory
            → IsLegal self.old (IsStep path.now.turns.items)) }
    {
        if self.take_step(path)? {
            return Ok(());
        }
        if !self.may_step(path) {
            return Err(EventError::Illegal);
        }
        self.look_ahead(path)?;
        self.step(path)
    }

    /// Takes a step in place and returns true if the task is in a hand and its next action isn't
    /// known yet. Otherwise it returns false. After an error the run can't be used.
    fn take_step(&mut self, path: &Path) -> Result<bool, EventError>
        requires { IsWorld self.old }
        ensures job { self.new.job ≡ self.old.job }
        ensures stepped { IfOk result
            (λ did. SteppedIf did path.now.turns.items self.old self.new) }
        ensures refused { IfErr result (λ e. e ≡ Illegal
            → IsIllegal self.old (IsStep path.now.turns.items)) }
        ensures memory { IfErr result (λ e. e ≡ NoMemory
            → IsLegal self.old (IsStep path.now.turns.items)) }
    {
        match self.tasks.get_mut(path) {
            Some(task) => task.take_step(self.job.job),
            None => Ok(false),
        }
    }

    /// Returns whether a task is about to spawn another and has weight 1, and its innermost scope
    /// may issue more.
    fn is_short(&self, path: &Path) -> bool
        requires { self.now.job.w0 ≤ 4294967296 }
        ensures is { OnTrue result (IsShort self.now path.now) }
        ensures not { OnFalse result (IsShort self.now path.now → ⊥) }
    {
        let Some(task) = self.tasks.get(path) else {
            return false;
        };
        let Some(scope) = task.wants() else {
            return false;
        };
        match self.scopes.get(scope) {
            Some(book) => book.may_issue(self.job.w0),
            None => false,
        }
    }

    /// Issues more weight to such a task from its innermost scope.
    fn issue_to(&mut self, path: &Path)
        requires few { self.old.job.w0 ≤ 4294967296 }
        requires short { IsShort self.old path.now }
        ensures job { self.new.job ≡ self.old.job }
        ensures hands { self.new.hands ≡ self.old.hands }
        ensures told { self.new.told ≡ self.old.told }
        ensures issued { (s : IsShort self.old path.now) → DidIssue self.old self.new path.now s }
    {
        let w0 = self.job.w0;
        let Some(task) = self.tasks.get_mut(path) else {
            return;
        };
        let Some(stake) = task.stakes.front_mut() else {
            return;
        };
        let Some(book) = self.scopes.get_mut(&stake.scope) else {
            return;
        };
        book.issue(w0);
        stake.weight += w0;
    }
}

impl<'p> WorldTask<'p> {
    /// Returns the worker in whose hand the task is, and makes sure that its next action is known.
    fn in_hand(&mut self, job: Job<'p>) -> Result<WorkerId, EventError>
        requires job { IsJob job }
        requires task { (t : Live) × IsTaskOf job self.old t }
        ensures stays { TaskStays job.entry self.old self.new }
        ensures hand { IfOk result (λ worker. hand_of (whereabouts self.new.place) ≡ Some worker) }
        ensures known { OnOk result (IsKnown self.new.doing) }
        ensures nowhere { IfErr result (λ e. e ≡ Illegal
            → hand_of (whereabouts self.old.place) ≡ None) }
    {
        let Some(worker) = self.place.hand() else {
            return Err(EventError::Illegal);
        };
        if let Some(known) = self.doing.look(job)? {
            self.doing = known;
        }
        Ok(worker)
    }

    /// Returns the same task with its next action known.
    fn known(self, job: Job<'p>) -> Result<WorldTask<'p>, EventError>
        requires job { IsJob job }
        requires task { (t : Live) × IsTaskOf job self t }
        ensures stays { IfOk result (TaskStays job.entry self.entry) }
        ensures known { IfOk result (λ k. IsKnown k.doing) }
        ensures refused { IfErr result (λ e. e ≡ NoMemory) }
    {
        let WorldTask {
            doing,
            opened,
            stakes,
            place,
        } = self;
        let doing = doing.known(job)?;
        Ok(WorldTask {
            doing,
            opened,
            stakes,
            place,
        })
    }

    /// Moves the task past its next action. If this action spawns a task, it returns the start of
    /// that task.
    fn goes_on(&mut self) -> Option<Start<'p>>
        ensures now { self.new ≡ record self.old { doing = behind self.old.doing } }
        ensures child { result ≡ begun_by self.old.doing }
    {
        core::mem::replace_with(&mut self.doing, (), TaskProgress::goes_on)
    }

    /// Takes the step that is known to be next.
    fn step(&mut self) -> Result<(), EventError>
        ensures stepped { OnOk result (DidStep self.old self.new) }
        ensures same { OnErr result (self.new ≡ self.old) }
        ensures refused { IfErr result (λ e. e ≡ Illegal) }
        ensures other { OnErr result ((r : AnyRun) → self.old.doing ≡ TaskProgress.Steps r → ⊥) }
    {
        let TaskProgress::Steps(_) = &self.doing else {
            return Err(EventError::Illegal);
        };
        self.goes_on();
        Ok(())
    }

    /// Takes a step in place, and returns whether it did. After an error the run can't be used.
    fn take_step(&mut self, job: Job<'p>) -> Result<bool, EventError>
        requires job { IsJob job }
        requires task { (t : Live) × IsTaskOf job self.old t }
        ensures stepped { IfOk result (λ did. TookStepIf did job.entry self.old self.new) }
        ensures refused { IfErr result (λ e. e ≡ Illegal → IsNotToStep job.entry self.old.doing) }
        ensures memory { IfErr result (λ e. e ≡ NoMemory → StepsInHand job.entry self.old) }
    {
        let Some(_worker) = self.place.hand() else {
            return Ok(false);
        };
        let TaskProgress::Runs(run) = &mut self.doing else {
            return Ok(false);
        };
        take_step(job, run)?;
        Ok(true)
    }

    /// Returns the innermost scope if the task has weight 1 there and is about to spawn a task.
    fn wants(&self) -> Option<&ScopeId>
        ensures { MatchOption result ((id : AnyScopeId) → IsWanting self.now id → ⊥)
            (λ id. IsWanting self.now id.now) }
    {
        let TaskProgress::Spawns(_, _) = &self.doing else {
            return None;
        };
        match self.stakes.front() {
            Some(stake) if stake.weight == 1 => Some(&stake.scope),
            _ => None,
        }
    }

    /// Spawns a task, which gets half of the weight and goes to the queue of the same worker.
    fn spawn(
        &mut self,
        alloc: Global,
        worker: WorkerId,
    ) -> Result<(Path, WorldTask<'p>), EventError>
        ensures spawned { IfOk result (λ r. DidSpawn self.old self.new r.1 r.0 worker) }
        ensures same { OnErr result (IsSame self.old self.new) }
        ensures light { IfErr result (λ e. e ≡ Illegal
            → IsToSpawn self.old → IsHeavy self.old → ⊥) }
    {
        let (path, stakes) = self.share(alloc)?;
        let Some(start) = self.goes_on() else {
            unreachable!()
        };
        self.halve();
        let child = WorldTask {
            doing: TaskProgress::Starts(start),
            opened: 0,
            stakes,
            place: Whereabouts::Queue(worker),
        };
        Ok((path, child))
    }

    /// Returns the path of the task to spawn, and its half of the weight.
    fn share(&self, alloc: Global) -> Result<(Path, VecDeque<WorldStake>), EventError>
        ensures share { IfOk result (λ r. IsShare self.now r.0 r.1.items) }
        ensures light { IfErr result (λ e. e ≡ Illegal
            → IsToSpawn self.now → IsHeavy self.now → ⊥) }
    {
        let TaskProgress::Spawns(_, start) = &self.doing else {
            return Err(EventError::Illegal);
        };
        let Some(stake) = self.stakes.front() else {
            return Err(EventError::Illegal);
        };
        if stake.weight < 2 {
            return Err(EventError::Illegal);
        }
        let path = start.path.clone()?;
        let stakes = only(alloc, &stake.scope, stake.weight / 2)?;
        Ok((path, stakes))
    }

    /// Gives away half of the weight in the innermost scope, rounded down.
    fn halve(&mut self)
        ensures others { self.new ≡ record self.old { stakes = self.new.stakes } }
        ensures halved { (inner : AnyStake) (outer : List AnyStake)
            → self.old.stakes.items ≡ inner ∷ outer → self.new.stakes.items
            ≡ record inner { weight = inner.weight - inner.weight / 2 } ∷ outer }
    {
        if let Some(stake) = self.stakes.front_mut() {
            stake.weight -= stake.weight / 2;
        }
    }

    /// Starts a finish, in whose scope the task has the weight w0. Returns the name of the scope.
    fn open(&mut self, path: &Path, job: WeightedJob<'p>) -> Result<ScopeId, EventError>
        requires { (r : AnyRun) → self.old.doing ≡ TaskProgress.Opens r
            → self.old.opened < job.job.budget.steps }
        ensures opened { IfOk result
            (λ id. DidOpen self.old self.new path.now id job.entry.w0) }
        ensures same { OnErr result (IsSame self.old self.new) }
        ensures other { IfErr result (λ e. e ≡ Illegal
            → (r : AnyRun) → self.old.doing ≡ TaskProgress.Opens r → ⊥) }
    {
        let TaskProgress::Opens(_) = &self.doing else {
            return Err(EventError::Illegal);
        };
        let number = self.opened + 1;
        let owner = path.clone()?;
        let name = ScopeId { owner, number };
        let scope = name.clone()?;
        let weight = job.w0;
        self.stakes.push_front(WorldStake { scope, weight })?;
        self.opened = number;
        self.goes_on();
        Ok(name)
    }
}

/// Returns a single stake.
fn only(alloc: Global, scope: &ScopeId, weight: u64) -> Result<VecDeque<WorldStake>, AllocError>
    ensures { IfOk result (λ d. map stake d.items
        ≡ record { scope = scope_id scope.now; weight = weight } ∷ []) }
{
    let mut stakes = VecDeque::new(alloc);
    let scope = scope.clone()?;
    stakes.push_front(WorldStake { scope, weight })?;
    Ok(stakes)
}
