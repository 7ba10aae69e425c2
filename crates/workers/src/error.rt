//! Reasons why a run has no outcome.

ghost use Rattle.std.specs.Prelude.{◌≡◌};
ghost use Rattle.workers.specs.declared.error.Trouble.TheVariants.{OutOfMemory};

use finish_scope::causes::{Missing, Ownerless, Spent, Undue, Unsettled};
pub use finish_scope::run_error::RunError;
use finish_scope::scope_table::FindError;
use finish_scope::settling::SettleError;
use std::alloc::{AllocError, AllocFailed};
use worker_threads::NoRoom;

/// The reason why a worker ends a run, except a missing ticket. `RunError` has the same variants,
/// with examples.
#[derive(Drop)]
pub enum Trouble {
    /// Out of memory.
    OutOfMemory,
    /// The worker's deque rejected a task.
    RefusedPush(NoRoom),
    /// A scope has issued weight as often as its book can count.
    IssuedTooOften(Spent),
    /// The results of tasks are inconsistent.
    Gather(Unsettled),
    /// A scope rejected what was given back to it.
    NotDue(Undue),
    /// A scope is complete, and has no owner.
    NoOwner(Ownerless),
    /// No scope was found at a position.
    NoScope(Missing),
}

impl From<Trouble> for RunError {
    ghost use Rattle.workers.specs.Causes.{Becomes};

    ghost from_gives = { Becomes };

    fn from(trouble: Trouble) -> RunError {
        match trouble {
            Trouble::OutOfMemory => RunError::OutOfMemory,
            Trouble::RefusedPush(cause) => RunError::RefusedPush(cause),
            Trouble::IssuedTooOften(cause) => RunError::IssuedTooOften(cause),
            Trouble::Gather(cause) => RunError::Gather(cause),
            Trouble::NotDue(cause) => RunError::NotDue(cause),
            Trouble::NoOwner(cause) => RunError::NoOwner(cause),
            Trouble::NoScope(cause) => RunError::NoScope(cause),
        }
    }
}

impl From<AllocError> for Trouble {
    ghost from_gives = { λ _ e. e ≡ OutOfMemory };

    fn from(_error: AllocError) -> Trouble {
        Trouble::OutOfMemory
    }
}

impl<T: Drop> From<AllocFailed<T>> for Trouble {
    ghost from_gives = { λ _ e. e ≡ OutOfMemory };

    fn from(_error: AllocFailed<T>) -> Trouble {
        Trouble::OutOfMemory
    }
}

impl From<SettleError> for Trouble {
    ghost use Rattle.workers.specs.Causes.{trouble_by};

    ghost from_gives = { λ error t. t ≡ trouble_by error };

    fn from(error: SettleError) -> Trouble {
        match error {
            SettleError::OutOfMemory => Trouble::OutOfMemory,
            SettleError::Inconsistent(cause) => Trouble::Gather(cause),
        }
    }
}

impl From<FindError> for Trouble {
    ghost use Rattle.workers.specs.Causes.{trouble_at};

    ghost from_gives = { λ error t. t ≡ trouble_at error };

    fn from(error: FindError) -> Trouble {
        match error {
            FindError::OutOfMemory => Trouble::OutOfMemory,
            FindError::NoScope(cause) => Trouble::NoScope(cause),
        }
    }
}

impl From<Missing> for Trouble {
    ghost use Rattle.workers.specs.declared.error.Trouble.TheVariants.{NoScope};

    ghost from_gives = { λ cause t. t ≡ NoScope cause };

    fn from(cause: Missing) -> Trouble {
        Trouble::NoScope(cause)
    }
}
