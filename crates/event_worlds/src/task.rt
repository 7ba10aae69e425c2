//! Live tasks: their location, their weights, and their progress.

ghost use Rattle.std.specs.Prelude.{◌≡◌};
ghost use Rattle.event_worlds.specs.Shown.{whereabouts};
ghost use Rattle.event_worlds.specs.World.{hand_of, in_queue};

use crate::doing::TaskProgress;
use events::worker_id::WorkerId;
use std::collections::VecDeque;
use types::scope_id::ScopeId;

/// The location of a task.
#[derive(Clone, Copy, PartialEq, Eq, Debug)]
pub enum Whereabouts {
    /// In a worker's queue.
    Queue(WorkerId),
    /// In a worker's hand.
    Hand(WorkerId),
    /// At the end of one of its own finishes.
    Parked,
}

impl Whereabouts {
    /// Returns whether it is in this worker's queue.
    pub fn is_in_queue(self, worker: WorkerId) -> bool
        ensures { result ≡ in_queue (whereabouts self) worker }
    {
        match self {
            Whereabouts::Queue(other) => other == worker,
            Whereabouts::Hand(_) | Whereabouts::Parked => false,
        }
    }

    /// Returns the worker whose queue it is in.
    pub fn queue(self) -> Option<WorkerId> {
        match self {
            Whereabouts::Queue(worker) => Some(worker),
            Whereabouts::Hand(_) | Whereabouts::Parked => None,
        }
    }

    /// Returns the worker whose hand it is in.
    pub fn hand(self) -> Option<WorkerId>
        ensures { result ≡ hand_of (whereabouts self) }
    {
        match self {
            Whereabouts::Hand(worker) => Some(worker),
            Whereabouts::Queue(_) | Whereabouts::Parked => None,
        }
    }
}

/// A scope that a task is in, and its weight there.
#[derive(Drop)]
pub struct WorldStake {
    pub scope: ScopeId,
    pub weight: u64,
}

/// A task that has started and hasn't ended.
#[derive(Drop)]
pub struct WorldTask<'p> {
    pub doing: TaskProgress<'p>,
    /// The number of finishes that it has started.
    pub opened: u32,
    /// The innermost scope first.
    pub stakes: VecDeque<WorldStake>,
    pub place: Whereabouts,
}
