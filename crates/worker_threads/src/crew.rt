//! Crews of workers, and what each worker promises.

use std::snapshot::Snapshot;
use std::sync::Wait;
use std::thread::Promise;

/// The data that the workers of a crew share, and what each of them does.
pub trait Crew: Sync {
    /// The data that one worker owns.
    type Kit: Send + Drop;

    /// The result of one worker.
    type Report: Send + Drop;

    /// Whether a kit fits the crew.
    ghost fits: { Self → Self.Kit → Type 0 };

    /// Whether a report is one of this crew.
    ghost told: { Self → Self.Report → Type 0 };

    /// Does a worker's work with its kit, on its own thread.
    fn work<R: Wait>(&self, rt: &R, kit: Self::Kit) -> Self::Report
        requires { fits self.now kit }
        ensures { told self.now result };

    /// Stops the crew because a worker couldn't be started: all workers should stop soon.
    fn call_off(&self);
}

/// The reason why a crew has no reports. The examples call `work_together` with one kit.
#[derive(Debug, Drop)]
pub enum CrewError {
    /// There was no memory for the thread's handle, or for a report. Example: one kit, and an
    /// allocator that has nothing left.
    OutOfMemory,
    /// The thread for the kit couldn't be started. Example: one kit, and a system that has no more
    /// threads.
    NoThread(Unstarted),
}

/// A thread couldn't be started. Only `work_together` creates one.
#[derive(Debug, Drop)]
pub struct Unstarted {
    /// The number of threads that were started before.
    pub(crate) started: usize,
}

/// A thread's promise: its report is one of this crew.
#[derive(Drop)]
pub struct ReportPromise<C: Crew>(pub(crate) Snapshot<C>);

impl<C: Crew> Promise<C::Report> for ReportPromise<C> {
    ghost kept_by = { λ p r. C.told p.0.value r };
}
