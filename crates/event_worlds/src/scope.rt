//! The scope of a finish: the weight issued, the weight that came back, and the results.

ghost use Rattle.std.specs.Prelude.{◌≡◌, ◌+◌, ◌*◌, ◌<◌, ◌≤◌, ◌&&◌, [], ◌∷◌, ◌++◌, not, nat_eq};
ghost use Rattle.std.specs.Prelude.{◌↔◌, ◌^◌, IfErr, IsTrue, OnOk, SomeIff, map};
ghost use Rattle.task_run.specs.Translation.{listed, task_result};
ghost use Rattle.event_worlds.specs.Events.{give_back, issue, may_issue, new_scope};
ghost use Rattle.event_worlds.specs.Gathered.{before_children as faults_before, faults_in, faults_of};
ghost use Rattle.event_worlds.specs.World.{Scope as Book};
ghost use Rattle.event_worlds.specs.Shown.{IsBookOf, ScopeStays};
ghost use Rattle.event_worlds.specs.declared.error.EventError.TheVariants.{NoMemory};

use crate::error::EventError;
use std::alloc::Global;
use task_run::result::{Listed, TaskResult};
use weights::book::MOST_ISSUES;

/// The weight that a scope has issued, the weight that came back, and the results of tasks that
/// ended in it.
#[derive(Drop)]
pub struct WorldScope {
    pub issued: u64,
    pub returned: u64,
    pub passed: bool,
    /// None once the results were handed to the owner.
    pub results: Option<Vec<TaskResult>>,
    /// The number of faults in all its results.
    pub faults: u64,
}

impl WorldScope {
    /// Creates a scope whose owner has all its weight.
    pub fn new(alloc: Global, w0: u64) -> WorldScope
        ensures { (id : _) → IsBookOf result (new_scope id w0) }
    {
        WorldScope {
            issued: w0,
            returned: 0,
            passed: false,
            results: Some(Vec::new(alloc)),
            faults: 0,
        }
    }

    /// Returns whether the scope may issue w0 once more.
    pub fn may_issue(&self, w0: u64) -> bool
        requires { w0 ≤ 4294967296 }
        ensures same { (book : Book) → IsBookOf self.now book → result ≡ may_issue w0 book }
        ensures few { IsTrue result ↔ (self.now.issued < 2147483648 * w0) }
    {
        self.issued < MOST_ISSUES * w0
    }

    /// Issues w0 once more.
    pub fn issue(&mut self, w0: u64)
        requires few { w0 ≤ 4294967296 }
        requires may { self.old.issued < 2147483648 * w0 }
        ensures { (book : Book) → IsBookOf self.old book → IsBookOf self.new (issue w0 book) }
    {
        self.issued += w0;
    }

    /// Takes back weight.
    pub fn give_back(&mut self, weight: u64)
        requires { self.old.returned + weight ≤ self.old.issued }
        ensures { (book : Book) → IsBookOf self.old book
            → IsBookOf self.new (give_back weight [] book) }
    {
        self.returned += weight;
    }

    /// Takes back weight, together with a result.
    pub fn end(&mut self, weight: u64, made: TaskResult) -> Result<(), EventError>
        requires { self.old.returned + weight ≤ self.old.issued }
        ensures ended { OnOk result ((book : Book) → IsBookOf self.old book
            → IsBookOf self.new (give_back weight (task_result made ∷ []) book)) }
        ensures refused { IfErr result (λ e. (e ≡ NoMemory)
            × ScopeStays self.old self.new) }
    {
        let Some(faults) = more_faults(self.faults, &made) else {
            return Err(EventError::NoMemory);
        };
        self.keep(weight, made)?;
        self.faults = faults;
        Ok(())
    }

    /// Takes back weight, together with a result, whose faults aren't counted yet.
    fn keep(&mut self, weight: u64, made: TaskResult) -> Result<(), EventError>
        requires { self.old.returned + weight ≤ self.old.issued }
        ensures kept { OnOk result ((book : Book) → IsBookOf self.old book
            → IsBookOf (record self.new { faults = faults_of (book.results ++ task_result made ∷ []) })
            (give_back weight (task_result made ∷ []) book)) }
        ensures refused { IfErr result (λ e. (e ≡ NoMemory)
            × ScopeStays self.old self.new) }
    {
        let Some(results) = &mut self.results else {
            return Err(EventError::NoMemory);
        };
        results.push(made)?;
        self.returned += weight;
        Ok(())
    }

    /// Returns whether all weight has come back and the scope hasn't passed yet.
    pub fn is_complete(&self) -> bool
        ensures { result ≡ not self.now.passed && nat_eq self.now.issued self.now.returned }
    {
        !self.passed && self.issued == self.returned
    }
}

/// Returns a number with the number of faults in a result added, or None if that isn't a u64.
pub(crate) fn more_faults(number: u64, made: &TaskResult) -> Option<u64>
    ensures { SomeIff result (number + faults_in (task_result made.now) < 2 ^ 64)
        (number + faults_in (task_result made.now)) }
{
    let Some(own) = number.checked_add(made.faults.len() as u64) else {
        return None;
    };
    before_children(own, &made.children)
}

/// Returns a number with the number of a task's faults before its children added, or None if that
/// isn't a u64.
fn before_children(number: u64, children: &[Listed]) -> Option<u64>
    ensures { SomeIff result (number + faults_before (map listed children.now) < 2 ^ 64)
        (number + faults_before (map listed children.now)) }
{
    let mut all = number;
    'children: for child in children {
        let Some(more) = all.checked_add(child.faults.len() as u64) else {
            return None;
        };
        all = more;
    }
    Some(all)
}
