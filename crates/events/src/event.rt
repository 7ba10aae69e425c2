//! What tasks, workers and scopes do, one at a time.

use crate::worker_id::WorkerId;
use types::path::Path;
use types::scope_id::ScopeId;

/// One event of a run, which changes a world.
#[derive(Clone, PartialEq, Eq, Debug, Drop)]
pub enum Event {
    /// `take 1 0.2`: a worker takes a task from its queue into its hand.
    Take {
        worker: WorkerId,
        path: Path,
    },
    /// `steal 1 0 0.2`: a worker takes a task from another's queue into its own.
    Steal {
        worker: WorkerId,
        from: WorkerId,
        path: Path,
    },
    /// `step 0.1`: a task does one step, of a statement other than async and finish.
    Step {
        path: Path,
    },
    /// `replenish 0.1`: a task of weight 1 gets more weight from its innermost scope.
    Replenish {
        path: Path,
    },
    /// `spawn 0`: a task spawns another task, and shares its weight with it.
    Spawn {
        path: Path,
    },
    /// `open 0`: a task starts a finish.
    Open {
        path: Path,
    },
    /// `park 0`: a task is at the end of its innermost finish, and gives back its weight there.
    Park {
        path: Path,
    },
    /// `end 0.1`: a task is at its end, and gives back its weight and its result.
    End {
        path: Path,
    },
    /// `pass 0#1`: a scope passes, because all its weight has come back.
    Pass {
        scope: ScopeId,
    },
    /// `resume 0 0`: a worker takes a task that was parked at a passed scope. In a trace of format 2
    /// there is the number of faults that its finish has gathered.
    Resume {
        worker: WorkerId,
        path: Path,
        faults: Option<u64>,
    },
}
