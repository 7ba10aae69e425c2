//! The faults of finishes, as resumes record them.

ghost use Rattle.std.specs.Prelude.{◌≡◌, IfOk, OnOk, Some, map};
ghost use Rattle.trace_numbers.specs.Faults.{Finishes as AnyFinishes, faults_of, no_finishes};
ghost use Rattle.trace_numbers.specs.Faults.{passed, resumed, told};
ghost use Rattle.trace_numbers.specs.Tables.{ShowsFinishes, gathered, last_at};

use events::event::Event;
use std::alloc::{AllocError, Global};
use std::collections::HashMap;
use types::path::Path;
use types::scope_id::ScopeId;

/// A finish, and the number of faults that it has gathered.
#[derive(Debug, Drop)]
pub struct FinishFaults {
    pub finish: ScopeId,
    pub faults: u64,
}

/// The scope of each task that has passed last, by its number, and the finishes with faults so far.
#[derive(Drop)]
struct Finishes {
    last: HashMap<Path, u32>,
    found: Vec<FinishFaults>,
}

/// Returns the finishes that have gathered at least one fault, in the order in which their owners
/// continue. A trace of format 1 has no number of faults, so none of its finishes is found.
pub fn finish_faults(alloc: Global, events: &[Event]) -> Result<Vec<FinishFaults>, AllocError>
    ensures { IfOk result (λ found. map gathered found.items ≡ faults_of events.now) }
{
    let mut finishes = Finishes::start(alloc);
    for event in events {
        finishes.happens(event)?;
    }
    Ok(finishes.found)
}

impl Finishes {
    /// Starts before any scope has passed.
    fn start(alloc: Global) -> Finishes
        ensures { ShowsFinishes result no_finishes }
    {
        Finishes {
            last: HashMap::new(alloc),
            found: Vec::new(alloc),
        }
    }

    /// Applies an event.
    fn happens(&mut self, event: &Event) -> Result<(), AllocError>
        ensures { OnOk result ((f : AnyFinishes) → ShowsFinishes self.old f
            → ShowsFinishes self.new (told event.now f)) }
    {
        match event {
            Event::Pass { scope } => self.pass(scope),
            Event::Resume { path, faults, .. } => self.resume(path, *faults),
            Event::Take { .. }
            | Event::Steal { .. }
            | Event::Step { .. }
            | Event::Replenish { .. }
            | Event::Spawn { .. }
            | Event::Open { .. }
            | Event::Park { .. }
            | Event::End { .. } => Ok(()),
        }
    }

    /// Records that a scope passes.
    fn pass(&mut self, scope: &ScopeId) -> Result<(), AllocError>
        ensures { OnOk result ((f : AnyFinishes) → ShowsFinishes self.old f
            → ShowsFinishes self.new (passed scope.now.owner.turns.items scope.now.number f)) }
    {
        if let Some(number) = self.last.get_mut(&scope.owner) {
            *number = scope.number;
            return Ok(());
        }
        self.last.insert(scope.owner.clone()?, scope.number)?;
        Ok(())
    }

    /// Lets a task continue after a finish with this number of faults, if the number is known.
    fn resume(&mut self, path: &Path, faults: Option<u64>) -> Result<(), AllocError>
        ensures { OnOk result ((f : AnyFinishes) → ShowsFinishes self.old f
            → ShowsFinishes self.new (resumed path.now.turns.items faults f)) }
    {
        match faults {
            Some(number) => self.leave(path, number),
            None => Ok(()),
        }
    }

    /// Lets a task continue after a finish with this number of faults.
    fn leave(&mut self, path: &Path, faults: u64) -> Result<(), AllocError>
        ensures { OnOk result ((f : AnyFinishes) → ShowsFinishes self.old f
            → ShowsFinishes self.new (resumed path.now.turns.items (Some faults) f)) }
    {
        if faults == 0 {
            return Ok(());
        }
        let number = self.last(path);
        let owner = path.clone()?;
        let finish = ScopeId { owner, number };
        self.found.push(FinishFaults { finish, faults })?;
        Ok(())
    }

    /// Returns the number of a task's scope that has passed last, or 0.
    fn last(&self, path: &Path) -> u32
        ensures { result ≡ last_at self.now.last path.now }
    {
        match self.last.get(path) {
            Some(number) => *number,
            None => 0,
        }
    }
}
