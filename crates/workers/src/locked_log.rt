//! The log of a run, under a lock.

ghost use Rattle.std.specs.Prelude.{◌≡◌, ◌↔◌, IfErr, IfOk, IfSome, IsSome};
ghost use Rattle.workers.specs.Causes.{IsOfLog};
ghost use Rattle.workers.specs.Logs.{IsLogOfRun, IsOwnLog, of_log};

use crate::log_guard::{LogGuard, OwnLog};
use crate::pool::Pool;
use crate::recorded::Recording;
use event_worlds::error::EventError;
use finish_scope::run_error::RunError;
use finish_scope::running::Running;
use std::sync::{Mutex, Wait};
use trace::log::Log;

/// A run's log, under a lock. Whenever the lock is free, the log is clean and of this run; or it is
/// lost, and the run is over.
#[derive(Drop)]
pub struct LockedLog<'p, J: Running> {
    log: Mutex<Result<OwnLog<'p, J>, EventError>>,
}

impl<'p, J: Running> LockedLog<'p, J> {
    pub fn new(log: Log<'p>) -> LockedLog<'p, J>
        requires { IsOwnLog J.job J.w0 log }
    {
        LockedLog {
            log: Mutex::new(Ok(OwnLog::new(log))),
        }
    }

    /// Takes the lock. The guard is closed if the run is over.
    pub fn hold<'h, R: Wait>(&'h self, rt: &R, pool: &'h Pool<'p, J>) -> LogGuard<'h, 'p, J> {
        let guard = self.log.lock(rt);
        if pool.is_over() {
            return LogGuard::closed(pool);
        }
        LogGuard::open(guard, pool)
    }

    /// Returns the log once the run is over. Its events must lead to the end of the run.
    fn close(self) -> Result<Log<'p>, RunError>
        ensures log { IfOk result (IsLogOfRun J.job J.w0) }
        ensures failed { IfErr result IsOfLog }
    {
        match self.log.into_inner() {
            Ok(own) => ended::<J>(own),
            Err(error) => Err(lost_by(error)),
        }
    }
}

/// Puts a log under a lock, if the run has one.
pub fn locked<'p, J: Running>(log: Option<Log<'p>>) -> Option<LockedLog<'p, J>>
    requires { IfSome log (IsOwnLog J.job J.w0) }
    ensures { IsSome result ↔ IsSome log.entry }
{
    match log {
        Some(log) => Some(LockedLog::new(log)),
        None => None,
    }
}

/// Takes the log's lock. The guard is closed if the run has no log, or is over.
pub fn hold<'h, 'p, J: Running + Recording, R: Wait>(
    log: &'h Option<LockedLog<'p, J>>,
    rt: &R,
    pool: &'h Pool<'p, J>,
) -> LogGuard<'h, 'p, J> {
    if !J::is_recorded() {
        return LogGuard::closed(pool);
    }
    match log {
        Some(log) => log.hold(rt, pool),
        None => LogGuard::closed(pool),
    }
}

/// Returns the log once the run is over, if the run has one. Its events must lead to the end of the
/// run.
pub fn close<'p, J: Running>(log: Option<LockedLog<'p, J>>) -> Result<Option<Log<'p>>, RunError>
    ensures kept { IfOk result (λ l. IsSome l ↔ IsSome log.entry) }
    ensures log { IfOk result (λ l. IfSome l (IsLogOfRun J.job J.w0)) }
    ensures failed { IfErr result IsOfLog }
    ensures logged { IfErr result (λ _. IsSome log.entry) }
{
    match log {
        Some(log) => match log.close() {
            Ok(log) => Ok(Some(log)),
            Err(error) => Err(error),
        },
        None => Ok(None),
    }
}

/// Returns the error of a run whose log rejects an event.
fn lost_by(error: EventError) -> RunError
    ensures error { result ≡ of_log error }
    ensures cause { IsOfLog result }
{
    match error {
        EventError::Illegal => RunError::Unlogged,
        EventError::NoMemory => RunError::OutOfMemory,
    }
}

/// Returns the log if its events lead to the end of the run.
fn ended<'p, J: Running>(own: OwnLog<'p, J>) -> Result<Log<'p>, RunError>
    ensures log { IfOk result (IsLogOfRun J.job J.w0) }
    ensures failed { IfErr result IsOfLog }
{
    let log = own.into_log();
    if log.has_ended() {
        Ok(log)
    } else {
        Err(RunError::Unlogged)
    }
}
