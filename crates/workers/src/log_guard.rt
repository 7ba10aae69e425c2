//! The log of a run while a worker holds its lock.

ghost use Rattle.workers.specs.Logs.{IsOwnLog};

use crate::pool::Pool;
use crate::recorded::Recording;
use event_worlds::error::EventError;
use events::event::Event;
use events::worker_id::WorkerId;
use finish_scope::running::Running;
use std::marker::{Model, PhantomData};
use std::sync::MutexGuard;
use trace::log::Log;
use types::path::Path;
use types::scope_id::ScopeId;

/// The log of the run.
#[derive(Drop)]
pub struct OwnLog<'p, J: Running> {
    log: Log<'p>,
    of: PhantomData<J>,
}

impl<'p, J: Running> Model for OwnLog<'p, J> {
    ghost use Rattle.std.specs.Prelude.{ℕ};
    ghost use Rattle.workers.specs.Logs.{IsOwnLog};

    ghost Value = { ℕ };

    ghost view = { λ l. 0 };

    ghost invariant = { λ l. IsOwnLog J.job J.w0 l.log };
}

impl<'p, J: Running> OwnLog<'p, J> {
    pub fn new(log: Log<'p>) -> OwnLog<'p, J>
        requires { IsOwnLog J.job J.w0 log }
    {
        OwnLog {
            log,
            of: PhantomData,
        }
    }

    /// Appends an event. After an error the log is lost.
    pub fn append(self, event: Event) -> Result<OwnLog<'p, J>, EventError> {
        let OwnLog { log, of } = self;
        let log = log.append(event)?;
        Ok(OwnLog { log, of })
    }

    pub fn into_log(self) -> Log<'p>
        ensures { IsOwnLog J.job J.w0 result }
    {
        let OwnLog { log, .. } = self;
        log
    }
}

/// A holding of the log's lock, in which a worker does an event and records it.
#[derive(Drop)]
pub struct LogGuard<'h, 'p, J: Running> {
    guard: Option<MutexGuard<'h, Result<OwnLog<'p, J>, EventError>>>,
    pool: &'h Pool<'p, J>,
}

impl<'h, 'p, J: Running> LogGuard<'h, 'p, J> {
    /// Returns a guard with which nothing is recorded.
    pub fn closed(pool: &'h Pool<'p, J>) -> LogGuard<'h, 'p, J> {
        LogGuard { guard: None, pool }
    }

    /// Returns a guard with which events are recorded.
    pub fn open(
        guard: MutexGuard<'h, Result<OwnLog<'p, J>, EventError>>,
        pool: &'h Pool<'p, J>,
    ) -> LogGuard<'h, 'p, J> {
        LogGuard {
            guard: Some(guard),
            pool,
        }
    }
}

impl<'h, 'p, J: Running + Recording> LogGuard<'h, 'p, J> {
    /// Returns a copy of a path for an event, if events are recorded and there is memory for it.
    pub fn copy(&self, path: &Path) -> Option<Path> {
        if !J::is_recorded() {
            return None;
        }
        match &self.guard {
            Some(_) => path.clone().ok(),
            None => None,
        }
    }

    /// Records an event. If there is no memory for it, or it isn't legal, the log is lost and the
    /// run is over.
    fn note(&mut self, event: Option<Event>) {
        if !J::is_recorded() {
            return;
        }
        let Some(guard) = self.guard.take() else {
            return;
        };
        let (guard, is_lost) = with_event::<J>(guard, event);
        self.guard = Some(guard);
        if is_lost {
            self.pool.end();
        }
    }

    // ---- turns of a task

    /// Records that a task took a step, of a statement other than async and finish.
    pub fn stepped(&mut self, path: &Path) {
        let path = self.copy(path);
        self.note(path.map(|path| Event::Step { path }));
    }

    /// Records that a task spawned another.
    pub fn spawned(&mut self, path: &Path) {
        let path = self.copy(path);
        self.note(path.map(|path| Event::Spawn { path }));
    }

    /// Records that a task with a weight of 1 was given more, and spawned another.
    pub fn replenished(&mut self, path: &Path) {
        let copy = self.copy(path);
        self.note(copy.map(|path| Event::Replenish { path }));
        self.spawned(path);
    }

    /// Records that a task started a finish.
    pub fn opened(&mut self, path: &Path) {
        let path = self.copy(path);
        self.note(path.map(|path| Event::Open { path }));
    }

    // ---- scopes

    /// Records that a task has finished, and gave back its weight.
    pub fn ended(&mut self, path: Option<Path>) {
        self.note(path.map(|path| Event::End { path }));
    }

    /// Records that a task is at the end of its innermost finish, or of `main`, and gave back its
    /// weight there.
    pub fn parked(&mut self, path: Option<Path>) {
        self.note(path.map(|path| Event::Park { path }));
    }

    /// Records that a scope passes.
    pub fn passed(&mut self, number: u32, owner: &Path) {
        let owner = self.copy(owner);
        self.note(owner.map(|owner| Event::Pass {
            scope: ScopeId { owner, number },
        }));
    }

    // ---- workers

    /// Records that a worker takes a task that it or another worker pushed.
    pub fn taken(&mut self, number: usize, from: usize, path: &Path) {
        if from != number {
            let path = self.copy(path);
            self.note(steal(number, from, path));
        }
        let path = self.copy(path);
        self.note(take(number, path));
    }

    /// Records that a worker continues with the owner of a scope that has passed, and has gathered
    /// this number of faults.
    pub fn resumed(&mut self, number: usize, path: &Path, faults: u64) {
        let path = self.copy(path);
        self.note(resume(number, path, faults));
    }
}

/// Appends an event to the log under the lock. Returns whether the log is lost.
fn with_event<'h, 'p, J: Running>(
    guard: MutexGuard<'h, Result<OwnLog<'p, J>, EventError>>,
    event: Option<Event>,
) -> (MutexGuard<'h, Result<OwnLog<'p, J>, EventError>>, bool) {
    let mut guard = guard;
    let kept = &mut *guard;
    let now = appended::<J>(std::mem::replace(kept, Err(EventError::NoMemory)), event);
    let is_lost = now.is_err();
    *kept = now;
    (guard, is_lost)
}

/// Returns a log with one more event, if it isn't lost.
fn appended<'p, J: Running>(
    log: Result<OwnLog<'p, J>, EventError>,
    event: Option<Event>,
) -> Result<OwnLog<'p, J>, EventError> {
    let own = log?;
    match event {
        Some(event) => own.append(event),
        None => Err(EventError::NoMemory),
    }
}

/// Returns the worker with this number.
fn worker(number: usize) -> Option<WorkerId> {
    WorkerId::new(u32::try_from(number).ok()?)
}

fn take(number: usize, path: Option<Path>) -> Option<Event> {
    Some(Event::Take {
        worker: worker(number)?,
        path: path?,
    })
}

fn steal(number: usize, from: usize, path: Option<Path>) -> Option<Event> {
    Some(Event::Steal {
        worker: worker(number)?,
        from: worker(from)?,
        path: path?,
    })
}

fn resume(number: usize, path: Option<Path>, faults: u64) -> Option<Event> {
    Some(Event::Resume {
        worker: worker(number)?,
        path: path?,
        faults: Some(faults),
    })
}
