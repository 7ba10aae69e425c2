//! A world of tasks and scopes, and the events that don't change the run of a task.

ghost use Rattle.std.specs.Prelude.{◌≡◌, ◌&&◌, IfErr, IfOk, OnOk, Some, true, false, not, nat_eq};
ghost use Rattle.std.specs.Bool.{OnTrue, OnFalse};
ghost use Rattle.std.specs.HashMap.{get};
ghost use Rattle.types.specs.Contents.{FitsArrays};
ghost use Rattle.task_run.specs.Jobs.{program_of, lists_of, budget_of};
ghost use Rattle.event_worlds.specs.Events.{Pass as IsPass, Steal as IsSteal, Take as IsTake};
ghost use Rattle.event_worlds.specs.Shown.{Becomes, IsWorld, PutsScope, PutsTask, Refuses, Shows};
ghost use Rattle.types.specs.Translation.{is_path};
ghost use Rattle.event_worlds.specs.Shown.{is_scope, scope_id, whereabouts};
ghost use Rattle.event_worlds.specs.World.{World as AnyWorld, book, has_passed, in_queue, weight_of};
ghost use Rattle.event_worlds.specs.World.{root_scope as the_root_scope};
ghost use Rattle.event_worlds.specs.Replay.{start_of as first_of};
ghost use Rattle.event_worlds.specs.declared.error.EventError.TheVariants.{NoMemory};
ghost use Rattle.event_worlds.specs.declared.scope.WorldScope.{WorldScope as AnyScope};
ghost use Rattle.event_worlds.specs.declared.task.WorldTask.{WorldTask as AnyTask};

use crate::doing::TaskProgress;
use crate::error::EventError;
use crate::job::WeightedJob;
use crate::scope::WorldScope;
use crate::task::{Whereabouts, WorldStake, WorldTask};
use events::worker_id::WorkerId;
use std::alloc::Global;
use std::collections::{HashMap, HashSet, VecDeque};
use types::outcome::Outcome;
use types::path::Path;
use types::scope_id::ScopeId;

/// The live tasks by their paths, and the scopes by their names.
#[derive(Drop)]
pub struct World<'p> {
    pub job: WeightedJob<'p>,
    pub tasks: HashMap<Path, WorldTask<'p>>,
    pub scopes: HashMap<ScopeId, WorldScope>,
    /// The workers that have a task in their hand.
    pub hands: HashSet<WorkerId>,
    /// The outcome, once the root's scope has passed.
    pub told: Option<Outcome>,
}

impl<'p> World<'p> {
    /// Creates the world at the start. The root is in the first worker's queue, with the weight of
    /// its scope.
    pub fn start(job: WeightedJob<'p>) -> Result<World<'p>, EventError>
        requires { FitsArrays (program_of job.job).arrays (lists_of job.job) }
        ensures shows { IfOk result (λ r. Shows r (first_of (program_of job.entry.job) job.entry.w0
            (lists_of job.entry.job) (budget_of job.entry.job))) }
        ensures refused { IfErr result (λ e. e ≡ NoMemory) }
        ensures job { IfOk result (λ r. r.job ≡ job.entry) }
    {
        let alloc = job.job.alloc;
        let root = job.job.root()?;
        let mut stakes = VecDeque::new(alloc);
        let scope = root_scope(alloc);
        stakes.push_front(WorldStake {
            scope,
            weight: job.w0,
        })?;
        let task = WorldTask {
            doing: TaskProgress::Starts(root),
            opened: 0,
            stakes,
            place: Whereabouts::Queue(WorkerId::first()),
        };
        let mut tasks = HashMap::new(alloc);
        let path = Path::root(alloc);
        tasks.insert(path, task)?;
        let mut scopes = HashMap::new(alloc);
        scopes.insert(root_scope(alloc), WorldScope::new(alloc, job.w0))?;
        Ok(World {
            job,
            tasks,
            scopes,
            hands: HashSet::new(alloc),
            told: None,
        })
    }

    /// Moves a task from a worker's queue to the worker's hand.
    pub(crate) fn take(&mut self, worker: WorkerId, path: &Path) -> Result<(), EventError>
        ensures taken { OnOk result
            (Becomes (IsTake worker path.now.turns.items) self.old self.new) }
        ensures refused { IfErr result
            (Refuses (IsTake worker path.now.turns.items) self.old self.new) }
        ensures job { self.new.job ≡ self.old.job }
    {
        if !self.is_in_queue(path, worker) || self.hands.contains(&worker) {
            return Err(EventError::Illegal);
        }
        self.hands.insert(worker)?;
        self.move_to(path, Whereabouts::Hand(worker));
        Ok(())
    }

    /// Moves a task from another worker's queue to the queue of this worker.
    pub(crate) fn steal(
        &mut self,
        worker: WorkerId,
        from: WorkerId,
        path: &Path,
    ) -> Result<(), EventError>
        ensures stolen { OnOk result
            (Becomes (IsSteal worker from path.now.turns.items) self.old self.new) }
        ensures refused { IfErr result
            (Refuses (IsSteal worker from path.now.turns.items) self.old self.new) }
        ensures job { self.new.job ≡ self.old.job }
    {
        if from == worker || !self.is_in_queue(path, from) {
            return Err(EventError::Illegal);
        }
        self.move_to(path, Whereabouts::Queue(worker));
        Ok(())
    }

    /// Passes a scope, because all its weight has come back. If it is the root's scope, the outcome
    /// is known from then on. What this scope keeps settles what the root has made.
    pub(crate) fn pass(&mut self, scope: &ScopeId) -> Result<(), EventError>
        requires { scope_id scope.now ≡ the_root_scope → IsWorld self.old }
        ensures passed { OnOk result (Becomes (IsPass (scope_id scope.now)) self.old self.new) }
        ensures refused { IfErr result (Refuses (IsPass (scope_id scope.now)) self.old self.new) }
        ensures job { self.new.job ≡ self.old.job }
    {
        if !self.is_complete(scope) {
            return Err(EventError::Illegal);
        }
        if is_root_scope(scope) {
            return self.pass_root(scope);
        }
        self.mark_passed(scope);
        Ok(())
    }

    /// Returns whether a scope has passed.
    pub fn passed(&self, scope: &ScopeId) -> bool
        ensures { (w : AnyWorld) → Shows self.now w → result ≡ has_passed (scope_id scope.now) w }
    {
        match self.scopes.get(scope) {
            Some(book) => book.passed,
            None => false,
        }
    }

    /// Returns the weight that a scope has issued, and the weight that came back.
    pub fn book(&self, scope: &ScopeId) -> Option<(u64, u64)>
        ensures { (w : AnyWorld) → Shows self.now w → result ≡ book (scope_id scope.now) w }
    {
        match self.scopes.get(scope) {
            Some(book) => Some((book.issued, book.returned)),
            None => None,
        }
    }

    /// Returns the weight of a live task in its innermost scope.
    pub fn weight(&self, path: &Path) -> Option<u64>
        ensures { (w : AnyWorld) → Shows self.now w → result ≡ weight_of path.now.turns.items w }
    {
        match self.tasks.get(path)?.stakes.front() {
            Some(stake) => Some(stake.weight),
            None => None,
        }
    }

    /// Returns whether a live task is in this worker's queue.
    pub(crate) fn is_in_queue(&self, path: &Path, worker: WorkerId) -> bool
        ensures there { OnTrue result ((k : AnyTask)
            × (get is_path self.now.tasks path.now ≡ Some k)
            × (in_queue (whereabouts k.place) worker ≡ true)) }
        ensures other { OnFalse result ((k : AnyTask) → get is_path self.now.tasks path.now ≡ Some k
            → in_queue (whereabouts k.place) worker ≡ false) }
    {
        match self.tasks.get(path) {
            Some(task) => task.place.is_in_queue(worker),
            None => false,
        }
    }

    /// Sets the location of a live task.
    fn move_to(&mut self, path: &Path, place: Whereabouts)
        ensures others { self.new ≡ record self.old { tasks = self.new.tasks } }
        ensures moved { (k : AnyTask) → get is_path self.old.tasks path.now ≡ Some k
            → PutsTask self.old self.new path.now (record k { place = place }) }
    {
        if let Some(task) = self.tasks.get_mut(path) {
            task.place = place;
        }
    }

    /// Returns whether all weight of a scope has come back and it hasn't passed yet.
    pub(crate) fn is_complete(&self, scope: &ScopeId) -> bool
        ensures there { OnTrue result ((s : AnyScope)
            × (get is_scope self.now.scopes scope.now ≡ Some s)
            × ((not s.passed && nat_eq s.issued s.returned) ≡ true)) }
        ensures other { OnFalse result ((s : AnyScope)
            → get is_scope self.now.scopes scope.now ≡ Some s
            → (not s.passed && nat_eq s.issued s.returned) ≡ false) }
    {
        match self.scopes.get(scope) {
            Some(book) => book.is_complete(),
            None => false,
        }
    }

    /// Marks a scope as passed.
    pub(crate) fn mark_passed(&mut self, scope: &ScopeId)
        ensures others { self.new ≡ record self.old { scopes = self.new.scopes } }
        ensures marked { (s : AnyScope) → get is_scope self.old.scopes scope.now ≡ Some s
            → PutsScope self.old self.new scope.now (record s { passed = true }) }
    {
        if let Some(book) = self.scopes.get_mut(scope) {
            book.passed = true;
        }
    }
}

/// Returns whether this is the scope around `main`.
fn is_root_scope(scope: &ScopeId) -> bool
    ensures root { OnTrue result (scope_id scope.now ≡ the_root_scope) }
    ensures other { OnFalse result (scope_id scope.now ≡ the_root_scope → ⊥) }
{
    scope.owner.turns.is_empty() && scope.number == 0
}

/// Returns the name of the scope around `main`.
pub(crate) fn root_scope(alloc: Global) -> ScopeId
    ensures { scope_id result ≡ the_root_scope }
{
    ScopeId {
        owner: Path::root(alloc),
        number: 0,
    }
}
