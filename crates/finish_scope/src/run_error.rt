//! The reasons why a run has no outcome.

ghost use Rattle.std.specs.Prelude.{◌≡◌, ◌⊎◌, IfErr, IfOk, None, Some};
ghost use Rattle.finish_scope.specs.RunErrors.{IsSilence, error_code};
ghost use Rattle.finish_scope.specs.declared.run_error.RunError.TheVariants.{OutOfMemory};

use crate::causes::{Missing, Ownerless, Silent, Spent, Undue, Unsettled};
use std::alloc::AllocError;
use tickets::Ticket;
use worker_threads::{NoRoom, Unstarted};

/// The first reason why a run has no outcome, with an example of such a run if one is known. The
/// comments give the code that the program prints. A ticket or a cause in it is created only by the
/// call that drew or met it.
#[derive(Debug, Drop)]
pub enum RunError {
    /// E1: out of memory. Example: `main { }`, if an allocation fails.
    OutOfMemory,
    /// E1: a worker's deque rejected a task, because it couldn't grow. Example: a loop of asyncs,
    /// if that allocation fails.
    RefusedPush(NoRoom),
    /// E1: a worker's thread couldn't be started. Example: `main { }` on two workers, if the system
    /// has no more threads.
    RefusedThread(Unstarted),
    /// E1: a scope has issued weight 2^31 times. No run is known in which this happens: that takes
    /// more tasks than a run may have.
    IssuedTooOften(Spent),
    /// E2: this ticket was drawn, whose number is at least the maximum number of tasks of the run.
    /// Example: ticket 1 of `main { async { } }`, if the maximum is 1.
    TooManyTasks(Ticket),
    /// E3: the results of tasks don't fit together. No run is known in which this happens.
    Gather(Unsettled),
    /// E4: a scope was given more weight than was out, or a second owner. No run is known in which
    /// this happens.
    NotDue(Undue),
    /// E4: all weight of a scope came back, but no owner was parked there. No run is known in which
    /// this happens.
    NoOwner(Ownerless),
    /// E4: no scope was found at the position of an outer scope. No run is known in which this
    /// happens.
    NoScope(Missing),
    /// E4: no worker reported an outcome or an error. No run is known in which this happens.
    NoReport(Silent),
    /// E5: an event of the workers isn't legal, or the events don't lead to the end of the run. It
    /// happens only in a run with a log, and no such run is known.
    Unlogged,
}

impl RunError {
    /// Returns the code that the program prints.
    pub fn code(&self) -> &'static str
        ensures { result.now ≡ error_code self.now }
    {
        match self {
            RunError::OutOfMemory
            | RunError::RefusedPush(_)
            | RunError::RefusedThread(_)
            | RunError::IssuedTooOften(_) => "E1",
            RunError::TooManyTasks(_) => "E2",
            RunError::Gather(_) => "E3",
            RunError::NotDue(_)
            | RunError::NoOwner(_)
            | RunError::NoScope(_)
            | RunError::NoReport(_) => "E4",
            RunError::Unlogged => "E5",
        }
    }
}

impl From<AllocError> for RunError {
    ghost from_gives = { λ _ e. e ≡ OutOfMemory };

    fn from(_error: AllocError) -> RunError {
        RunError::OutOfMemory
    }
}

/// Returns what so many workers reported together: their error if there is one, or else their
/// outcome. If there is neither, the error is that no worker reported anything.
pub fn reported<T: Drop>(
    outcome: Option<T>,
    error: Option<RunError>,
    workers: usize,
) -> Result<T, RunError>
    ensures outcome { IfOk result (λ o. (error ≡ None) × (outcome ≡ Some o)) }
    ensures error { IfErr result (λ e. (error ≡ Some e)
        ⊎ ((error ≡ None) × (outcome ≡ None) × IsSilence workers e)) }
{
    match error {
        Some(error) => Err(error),
        None => match outcome {
            Some(outcome) => Ok(outcome),
            None => Err(RunError::NoReport(Silent { workers })),
        },
    }
}
