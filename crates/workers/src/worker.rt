//! Parts and reports of workers.

use crate::error::RunError;
use crate::pool::Tasks;
use crate::ready::First;
use crossbeam_utils::sync::Parker;
use finish_scope::running::Running;
use tickets::Seat;
use types::outcome::Outcome;
use weighted_task::rooms::TaskRooms;

/// The data that one worker owns.
#[derive(Drop)]
pub struct WorkerParts<'p, J: Running> {
    pub state: WorkerState,
    /// The tasks, without thieves before the run.
    pub tasks: Tasks<'p, J>,
    /// The root, with which one worker starts.
    pub first: Option<First<'p, J>>,
}

/// A worker's number, parker and seat.
#[derive(Drop)]
pub struct WorkerState {
    pub number: usize,
    /// The worker's parker.
    pub parker: Parker,
    /// The seat on which it draws tickets.
    pub seat: Seat,
}

/// A worker in its thread: its state, and what the tasks that ended on it leave to the next ones.
/// The latter never leaves the thread.
#[derive(Drop)]
pub struct WorkerAtWork<'p> {
    pub number: usize,
    pub parker: Parker,
    pub seat: Seat,
    pub rooms: TaskRooms<'p>,
    /// Whether it runs whole tasks with asyncs. It stops doing so once such a run was in vain.
    pub runs_whole: bool,
}

/// What came of a task that a worker took.
#[derive(Drop)]
pub struct RanTask {
    /// The outcome of the run, if the task led to it.
    pub outcome: Option<Outcome>,
    /// The number of asyncs that were begun in place.
    pub begun: u64,
}

/// A worker's report.
#[derive(Drop)]
pub struct Report {
    pub told: Result<Option<Outcome>, RunError>,
    /// Whether that ended the run. It is true of at most one report.
    pub is_first: bool,
    /// The seat on which it drew tickets.
    pub seat: Seat,
}
