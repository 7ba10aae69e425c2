//! Whether an event is legal, found without memory.

ghost use Rattle.std.specs.Prelude.{◌≤◌, MatchOption, None};
ghost use Rattle.std.specs.Bool.{OnFalse, OnTrue};
ghost use Rattle.event_worlds.specs.Events.{Ends as IsEnd, Opens as IsOpen, Parks as IsPark};
ghost use Rattle.event_worlds.specs.Events.{Pass as IsPass, Replenish as IsReplenish};
ghost use Rattle.event_worlds.specs.Events.{Resume as IsResume, Spawns as IsSpawn, Steal as IsSteal};
ghost use Rattle.event_worlds.specs.Events.{Steps as IsStep, Take as IsTake};
ghost use Rattle.event_worlds.specs.NextKinds.{HasHalf, IsNextAt, IsNowhere, NeedsMore};
ghost use Rattle.event_worlds.specs.Replaying.{event as event_of};
ghost use Rattle.event_worlds.specs.Shown.{IsLegal, IsWorld, scope_id};
ghost use Rattle.event_worlds.specs.Walks.{IsIllegal};

use crate::next::NextKind;
use crate::world::World;
use events::event::Event;
use events::worker_id::WorkerId;
use types::path::Path;
use types::scope_id::ScopeId;

impl<'p> World<'p> {
    /// Returns whether an event is legal now.
    pub fn is_legal(&self, event: &Event) -> bool
        requires { IsWorld self.now }
        ensures legal { OnTrue result (IsLegal self.now (event_of event.now)) }
        ensures illegal { OnFalse result (IsIllegal self.now (event_of event.now)) }
    {
        match event {
            Event::Take { worker, path } => self.may_take(*worker, path),
            Event::Steal { worker, from, path } => self.may_steal(*worker, *from, path),
            Event::Step { path } => self.may_step(path),
            Event::Replenish { path } => self.may_replenish(path),
            Event::Spawn { path } => self.may_spawn(path),
            Event::Open { path } => self.may_open(path),
            Event::Park { path } => self.may_park(path),
            Event::End { path } => self.may_end(path),
            Event::Pass { scope } => self.may_pass(scope),
            Event::Resume {
                worker,
                path,
                faults,
            } => self.may_resume_telling(*worker, path, *faults),
        }
    }

    /// Returns whether a task is in this worker's queue, and the worker's hand is free.
    fn may_take(&self, worker: WorkerId, path: &Path) -> bool
        ensures legal { OnTrue result (IsLegal self.now (IsTake worker path.now.turns.items)) }
        ensures illegal { OnFalse result
            (IsIllegal self.now (IsTake worker path.now.turns.items)) }
    {
        if !self.is_in_queue(path, worker) {
            return false;
        }
        !self.hands.contains(&worker)
    }

    /// Returns whether a task is in the queue of this other worker.
    fn may_steal(&self, worker: WorkerId, from: WorkerId, path: &Path) -> bool
        ensures legal { OnTrue result
            (IsLegal self.now (IsSteal worker from path.now.turns.items)) }
        ensures illegal { OnFalse result
            (IsIllegal self.now (IsSteal worker from path.now.turns.items)) }
    {
        if from == worker {
            return false;
        }
        self.is_in_queue(path, from)
    }

    /// Returns whether all weight of a scope has come back and it hasn't passed yet.
    fn may_pass(&self, scope: &ScopeId) -> bool
        ensures legal { OnTrue result (IsLegal self.now (IsPass (scope_id scope.now))) }
        ensures illegal { OnFalse result (IsIllegal self.now (IsPass (scope_id scope.now))) }
    {
        self.is_complete(scope)
    }

    /// Returns whether a task is parked at a passed scope, and this worker's hand is free.
    pub(crate) fn may_resume(&self, worker: WorkerId, path: &Path) -> bool
        ensures legal { OnTrue result (IsLegal self.now (IsResume worker path.now.turns.items None)) }
        ensures illegal { OnFalse result
            (IsIllegal self.now (IsResume worker path.now.turns.items None)) }
    {
        if self.hands.contains(&worker) {
            return false;
        }
        self.may_leave(path)
    }

    /// Returns whether a task in a hand is about to take a step.
    pub(crate) fn may_step(&self, path: &Path) -> bool
        requires { IsWorld self.now }
        ensures legal { OnTrue result (IsLegal self.now (IsStep path.now.turns.items)) }
        ensures illegal { OnFalse result (IsIllegal self.now (IsStep path.now.turns.items)) }
    {
        match self.next_kind(path) {
            Some(kind) => kind.is_step(),
            None => false,
        }
    }

    /// Returns whether a task in a hand is about to spawn another and has weight 1, and its scope
    /// may issue more.
    fn may_replenish(&self, path: &Path) -> bool
        requires { IsWorld self.now }
        ensures legal { OnTrue result (IsLegal self.now (IsReplenish path.now.turns.items)) }
        ensures illegal { OnFalse result
            (IsIllegal self.now (IsReplenish path.now.turns.items)) }
    {
        let Some(kind) = self.next_kind(path) else {
            return false;
        };
        if !kind.is_spawn() {
            return false;
        }
        self.needs_more(path)
    }

    /// Returns whether a task in a hand is about to spawn another and has weight for it.
    fn may_spawn(&self, path: &Path) -> bool
        requires { IsWorld self.now }
        ensures legal { OnTrue result (IsLegal self.now (IsSpawn path.now.turns.items)) }
        ensures illegal { OnFalse result (IsIllegal self.now (IsSpawn path.now.turns.items)) }
    {
        let Some(kind) = self.next_kind(path) else {
            return false;
        };
        if !kind.is_spawn() {
            return false;
        }
        self.has_half(path)
    }

    /// Returns whether a task in a hand is about to start a finish.
    fn may_open(&self, path: &Path) -> bool
        requires { IsWorld self.now }
        ensures legal { OnTrue result (IsLegal self.now (IsOpen path.now.turns.items)) }
        ensures illegal { OnFalse result (IsIllegal self.now (IsOpen path.now.turns.items)) }
    {
        match self.next_kind(path) {
            Some(kind) => kind.is_open(),
            None => false,
        }
    }

    /// Returns whether a task in a hand is at the end of a finish.
    fn may_park(&self, path: &Path) -> bool
        requires { IsWorld self.now }
        ensures legal { OnTrue result (IsLegal self.now (IsPark path.now.turns.items)) }
        ensures illegal { OnFalse result (IsIllegal self.now (IsPark path.now.turns.items)) }
    {
        match self.next_kind(path) {
            Some(kind) => kind.waits(path.turns.is_empty()),
            None => false,
        }
    }

    /// Returns whether a task in a hand is at its end and isn't the root.
    fn may_end(&self, path: &Path) -> bool
        requires { IsWorld self.now }
        ensures legal { OnTrue result (IsLegal self.now (IsEnd path.now.turns.items)) }
        ensures illegal { OnFalse result (IsIllegal self.now (IsEnd path.now.turns.items)) }
    {
        match self.next_kind(path) {
            Some(kind) => kind.ends(path.turns.is_empty()),
            None => false,
        }
    }

    /// Returns the kind of the next action of a task in a hand.
    fn next_kind(&self, path: &Path) -> Option<NextKind>
        requires { IsWorld self.now }
        ensures { MatchOption result (IsNowhere self.now path.now) (IsNextAt self.now path.now) }
    {
        let Some(task) = self.tasks.get(path) else {
            return None;
        };
        let Some(_worker) = task.place.hand() else {
            return None;
        };
        Some(task.doing.next_kind(self.job.job))
    }

    /// Returns whether a task has at least weight 2 in its innermost scope.
    fn has_half(&self, path: &Path) -> bool
        ensures has { OnTrue result (HasHalf self.now path.now) }
        ensures not { OnFalse result (HasHalf self.now path.now → ⊥) }
    {
        let Some(task) = self.tasks.get(path) else {
            return false;
        };
        match task.stakes.front() {
            Some(stake) => 2 <= stake.weight,
            None => false,
        }
    }

    /// Returns whether a task has weight 1 in its innermost scope, which may issue more.
    fn needs_more(&self, path: &Path) -> bool
        requires { self.now.job.w0 ≤ 4294967296 }
        ensures needs { OnTrue result (NeedsMore self.now path.now) }
        ensures not { OnFalse result (NeedsMore self.now path.now → ⊥) }
    {
        let Some(task) = self.tasks.get(path) else {
            return false;
        };
        let Some(stake) = task.stakes.front() else {
            return false;
        };
        if stake.weight != 1 {
            return false;
        }
        match self.scopes.get(&stake.scope) {
            Some(book) => book.may_issue(self.job.w0),
            None => false,
        }
    }
}
