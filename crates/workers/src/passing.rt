//! What follows a scope that passes.

ghost use Rattle.std.specs.Prelude.{IfErr, IfOk, Some};
ghost use Rattle.task_run.specs.Lists.{Each};
ghost use Rattle.weighted_task.specs.Ends.{IsParked};
ghost use Rattle.weighted_task.specs.Tasks.{IsResultOf};
ghost use Rattle.workers.specs.Causes.{Happens, IsOfResults};
ghost use Rattle.workers.specs.Own.{IsNext};

use crate::error::Trouble;
use crate::open_scopes::Next;
use crate::ordering::in_order;
use finish_scope::settling::settle;
use task_run::result::TaskResult;
use weighted_task::finish::{Owner, Parked};

/// Continues the owner with the settled results of its scope. For the root, returns the outcome.
/// Also returns the number of faults that the scope has gathered.
pub fn pass<'p>(
    owner: Box<Parked<'p>>,
    results: Vec<TaskResult>,
) -> Result<(Next<'p>, u64), Trouble>
    requires ends { IsParked owner.value }
    requires results { Each (IsResultOf owner.value.job) results.items }
    ensures next { IfOk result (λ r. IsNext owner.entry.value.job r.0) }
    ensures cause { IfErr result (Happens (Some owner.entry.value.job)) }
    ensures unsettled { IfErr result (IsOfResults owner.entry.value results.items) }
{
    let results = in_order(owner.job.alloc, results);
    let (waiting, settled) = settle(owner, results)?;
    let faults = settled.faults.len() as u64;
    match &waiting.owner {
        Owner::Main => Ok((Next::Told(waiting.outcome(settled)?), faults)),
        Owner::Finish(_) => Ok((Next::Goes(waiting.go_on(settled)?), faults)),
    }
}
