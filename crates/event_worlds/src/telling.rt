//! Resumes with the number of faults that the finish has gathered.

ghost use Rattle.std.specs.Prelude.{◌≡◌, IfErr, IfOk, OnOk, Some};
ghost use Rattle.std.specs.Bool.{OnFalse, OnTrue};
ghost use Rattle.event_worlds.specs.Ending.{MayLeave};
ghost use Rattle.event_worlds.specs.Events.{Resume as IsResume};
ghost use Rattle.event_worlds.specs.Shown.{Becomes, IsLegal, IsWorld, Refuses, Shows};
ghost use Rattle.event_worlds.specs.Replaying.{event as event_of};
ghost use Rattle.event_worlds.specs.Telling.{HasGathered, IsNumbered, MayNotTell, MayTell};
ghost use Rattle.event_worlds.specs.Walks.{IsIllegal};
ghost use Rattle.event_worlds.specs.World.{World as AnyWorld};
ghost use Rattle.event_worlds.specs.declared.error.EventError.TheVariants.{Illegal, NoMemory};

use crate::error::EventError;
use crate::scope::more_faults;
use crate::world::World;
use events::event::Event;
use events::worker_id::WorkerId;
use types::path::Path;

impl<'p> World<'p> {
    /// Returns whether a task may be resumed with this number of faults, if there is one.
    pub(crate) fn may_resume_telling(
        &self,
        worker: WorkerId,
        path: &Path,
        faults: Option<u64>,
    ) -> bool
        requires { IsWorld self.now }
        ensures legal { OnTrue result (IsLegal self.now (IsResume worker path.now.turns.items faults)) }
        ensures illegal { OnFalse result
            (IsIllegal self.now (IsResume worker path.now.turns.items faults)) }
    {
        if !self.tells(path, faults) {
            return false;
        }
        self.may_resume(worker, path)
    }

    /// Resumes a task. If there is a number of faults, the finish has to have gathered that many.
    pub(crate) fn resume_telling(
        &mut self,
        worker: WorkerId,
        path: &Path,
        faults: Option<u64>,
    ) -> Result<(), EventError>
        requires { IsWorld self.old }
        ensures resumed { OnOk result
            (Becomes (IsResume worker path.now.turns.items faults) self.old self.new) }
        ensures refused { IfErr result
            (Refuses (IsResume worker path.now.turns.items faults) self.old self.new) }
        ensures job { self.new.job ≡ self.old.job }
    {
        if !self.tells(path, faults) {
            return Err(EventError::Illegal);
        }
        self.resume(worker, path)
    }

    /// Resumes a task in this way, in a world that is discarded after an error.
    pub(crate) fn go_on_telling(
        &mut self,
        worker: WorkerId,
        path: &Path,
        faults: Option<u64>,
    ) -> Result<(), EventError>
        requires { IsWorld self.old }
        ensures resumed { OnOk result
            (Becomes (IsResume worker path.now.turns.items faults) self.old self.new) }
        ensures refused { IfErr result (λ e. e ≡ Illegal
            → IsIllegal self.old (IsResume worker path.now.turns.items faults)) }
        ensures memory { IfErr result (λ e. e ≡ NoMemory
            → IsLegal self.old (IsResume worker path.now.turns.items faults)) }
        ensures job { OnOk result (self.new.job ≡ self.old.job) }
    {
        if !self.tells(path, faults) {
            return Err(EventError::Illegal);
        }
        self.go_on_behind(worker, path)
    }

    /// Returns a copy of an event, with the number of faults that the finish has gathered if it is a
    /// resume. A number that isn't a u64 counts as out of memory.
    pub fn numbered(&self, event: &Event) -> Result<Event, EventError>
        requires { IsWorld self.now }
        ensures numbered { IfOk result (λ e. IsNumbered self.now (event_of event.now) (event_of e)) }
        ensures refused { IfErr result (λ e. e ≡ NoMemory) }
    {
        let Event::Resume { worker, path, .. } = event else {
            return copy(event);
        };
        if !self.may_leave(path) {
            return copy(event);
        }
        let Some(faults) = self.gathered(path) else {
            return Err(EventError::NoMemory);
        };
        let path = path.clone()?;
        Ok(Event::Resume {
            worker: *worker,
            path,
            faults: Some(faults),
        })
    }

    /// Returns whether a resume may have this number of faults. If the task can't be resumed, any
    /// number will do.
    fn tells(&self, path: &Path, faults: Option<u64>) -> bool
        requires { IsWorld self.now }
        ensures right { OnTrue result (MayTell self.now path.now.turns.items faults) }
        ensures wrong { OnFalse result (MayNotTell self.now path.now.turns.items faults) }
    {
        match faults {
            Some(number) => self.tells_number(path, number),
            None => true,
        }
    }

    /// Returns whether a resume may have this number of faults.
    fn tells_number(&self, path: &Path, number: u64) -> bool
        requires { IsWorld self.now }
        ensures right { OnTrue result (MayTell self.now path.now.turns.items (Some number)) }
        ensures wrong { OnFalse result (MayNotTell self.now path.now.turns.items (Some number)) }
    {
        if !self.may_leave(path) {
            return true;
        }
        match self.gathered(path) {
            Some(all) => number == all,
            None => false,
        }
    }

    /// Returns the number of faults that a finish has gathered whose owner waits at its passed
    /// scope, or None if that isn't a u64.
    fn gathered(&self, path: &Path) -> Option<u64>
        requires world { IsWorld self.now }
        requires may { MayLeave self.now path.now }
        ensures { (w : AnyWorld) → Shows self.now w
            → HasGathered self.now path.now.turns.items w result }
    {
        let Some(task) = self.tasks.get(path) else {
            unreachable!()
        };
        let Some(stake) = task.stakes.front() else {
            unreachable!()
        };
        let Some(scope) = self.scopes.get(&stake.scope) else {
            unreachable!()
        };
        let Some(made) = task.doing.made() else {
            unreachable!()
        };
        more_faults(scope.faults, made)
    }
}

/// Returns a copy of an event.
fn copy(event: &Event) -> Result<Event, EventError>
    ensures same { IfOk result (λ e. event_of e ≡ event_of event.now) }
    ensures refused { IfErr result (λ e. e ≡ NoMemory) }
{
    let copy = event.clone()?;
    Ok(copy)
}
