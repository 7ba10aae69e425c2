//! Settling the results of a scope.

ghost use Rattle.std.specs.Prelude.{◌≡◌, IfErr, IfOk};
ghost use Rattle.task_run.specs.Lists.{Each};
ghost use Rattle.weighted_task.specs.Ends.{Comes, IsParked};
ghost use Rattle.weighted_task.specs.Tasks.{IsResultOf};
ghost use Rattle.finish_scope.specs.Settling.{IsUnsettledBy, TellsUnsettled};

use crate::causes::Unsettled;
use gather::error::GatherError;
use gather::settle::settle as settle_results;
use task_run::result::{Settled, TaskResult};
use weighted_task::finish::{Parked, Waiting};

/// Why the results of a scope don't settle.
#[derive(Debug, Drop)]
pub enum SettleError {
    /// Out of memory.
    OutOfMemory,
    /// The results are inconsistent.
    Inconsistent(Unsettled),
}

/// Settles the results of a scope with that of its owner, which continues with them.
pub fn settle<'p>(
    owner: Box<Parked<'p>>,
    results: Vec<TaskResult>,
) -> Result<(Waiting<'p>, Settled), SettleError>
    requires ends { IsParked owner.value }
    requires results { Each (IsResultOf owner.value.job) results.items }
    ensures job { IfOk result (λ r. r.0.job ≡ owner.entry.value.job) }
    ensures comes { IfOk result (λ r. Comes r.0 r.1) }
    ensures why { IfErr result (TellsUnsettled owner.entry.value results.items) }
{
    let alloc = owner.job.alloc;
    let (waiting, made) = Parked::open(owner);
    match settle_results(alloc, made, results) {
        Ok(settled) => Ok((waiting, settled)),
        Err(error) => Err(unsettled(error)),
    }
}

/// Returns the error for results that aren't gathered.
fn unsettled(error: GatherError) -> SettleError
    ensures { IsUnsettledBy error result }
{
    match error {
        GatherError::OutOfMemory => SettleError::OutOfMemory,
        GatherError::Lost(_) | GatherError::Double(_) | GatherError::Stranger(_) => {
            SettleError::Inconsistent(Unsettled { error })
        }
    }
}
