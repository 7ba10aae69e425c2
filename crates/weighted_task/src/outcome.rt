//! The outcome of a run.

ghost use Rattle.std.specs.Prelude.{◌≡◌, IfOk};
ghost use Rattle.types.specs.Translation.{outcome as outcome_of};
ghost use Rattle.types.specs.Typed.{code_of};
ghost use Rattle.task_run.specs.Given.{told_of};
ghost use Rattle.task_run.specs.Translation.{settled as settled_of};

use gather::told::told;
use std::alloc::AllocError;
use task_run::job::Job;
use task_run::result::Settled;
use types::outcome::Outcome;

/// Returns the outcome of a run of the job whose results settled to this.
pub fn outcome(job: Job<'_>, settled: Settled) -> Result<Outcome, AllocError>
    ensures told { IfOk result (λ o. outcome_of o
        ≡ told_of (code_of job.entry.accepted.now.typed) (settled_of settled)) }
{
    told(job.alloc, job.plan().program, settled)
}
