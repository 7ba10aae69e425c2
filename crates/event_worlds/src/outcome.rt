//! The outcome of a world, once the root's scope has passed.

ghost use Rattle.std.specs.Prelude.{◌≡◌, ◌&&◌, IfErr, IfOk, IfSome, OnOk, Some, nat_eq, not};
ghost use Rattle.std.specs.Prelude.{option_map, true};
ghost use Rattle.std.specs.HashMap.{get};
ghost use Rattle.task_run.specs.Jobs.{budget_of, lists_of, program_of};
ghost use Rattle.event_worlds.specs.Events.{Pass as IsPass};
ghost use Rattle.event_worlds.specs.Shown.{Becomes, IsWorld, Refuses, Shows, is_scope, scope_id};
ghost use Rattle.event_worlds.specs.World.{World as AnyWorld, root_scope as the_root_scope};
ghost use Rattle.event_worlds.specs.Worlds.{outcome_of as outcome_in};
ghost use Rattle.event_worlds.specs.declared.error.EventError.TheVariants.{NoMemory};
ghost use Rattle.event_worlds.specs.declared.scope.WorldScope.{WorldScope as AnyScope};
ghost use Rattle.types.specs.Outcome.{outcome as one_thread};
ghost use Rattle.types.specs.Translation.{outcome as outcome_of};

use crate::doing::TaskProgress;
use crate::ending::copies;
use crate::error::EventError;
use crate::world::World;
use gather::settle::settle;
use gather::told::told;
use types::outcome::Outcome;
use types::path::Path;
use types::scope_id::ScopeId;

impl<'p> World<'p> {
    /// Returns the outcome, once the root's scope has passed.
    pub fn outcome(&self) -> Option<&Outcome>
        requires { IsWorld self.now }
        ensures told { (w : AnyWorld) → Shows self.now w
            → option_map (λ o. outcome_of o.now) result
            ≡ outcome_in (program_of self.now.job.job) self.now.job.w0 (budget_of self.now.job.job) w }
        ensures one_thread { IfSome result (λ x. outcome_of x.now ≡ one_thread
            (program_of self.now.job.job) (lists_of self.now.job.job) (budget_of self.now.job.job)) }
    {
        match &self.told {
            Some(told) => Some(told),
            None => None,
        }
    }

    /// Passes the root's scope, and stores the outcome.
    pub(crate) fn pass_root(&mut self, scope: &ScopeId) -> Result<(), EventError>
        requires world { IsWorld self.old }
        requires root { scope_id scope.now ≡ the_root_scope }
        requires complete { (s : AnyScope) × (get is_scope self.old.scopes scope.now ≡ Some s)
            × ((not s.passed && nat_eq s.issued s.returned) ≡ true) }
        ensures passed { OnOk result (Becomes (IsPass (scope_id scope.now)) self.old self.new) }
        ensures refused { IfErr result (Refuses (IsPass (scope_id scope.now)) self.old self.new) }
        ensures job { self.new.job ≡ self.old.job }
    {
        let told = self.settled(scope)?;
        self.mark_passed(scope);
        self.told = Some(told);
        Ok(())
    }

    /// Returns the outcome of a world whose root scope is about to pass. It settles copies.
    fn settled(&self, scope: &ScopeId) -> Result<Outcome, EventError>
        requires world { IsWorld self.now }
        requires root { scope_id scope.now ≡ the_root_scope }
        requires complete { (s : AnyScope) × (get is_scope self.now.scopes scope.now ≡ Some s)
            × ((not s.passed && nat_eq s.issued s.returned) ≡ true) }
        ensures told { IfOk result (λ x. outcome_of x ≡ one_thread (program_of self.now.job.job)
            (lists_of self.now.job.job) (budget_of self.now.job.job)) }
        ensures refused { IfErr result (λ e. e ≡ NoMemory) }
    {
        let alloc = self.job.job.alloc;
        let Some(book) = self.scopes.get(scope) else {
            return Err(EventError::NoMemory);
        };
        let path = Path::root(alloc);
        let Some(task) = self.tasks.get(&path) else {
            return Err(EventError::NoMemory);
        };
        let (TaskProgress::AtEnd(made), Some(results)) = (&task.doing, &book.results) else {
            return Err(EventError::NoMemory);
        };
        let made = made.clone(alloc)?;
        let results = copies(alloc, results)?;
        let Ok(settled) = settle(alloc, made, results) else {
            return Err(EventError::NoMemory);
        };
        let told = told(alloc, self.job.job.plan().program, settled)?;
        Ok(told)
    }
}
