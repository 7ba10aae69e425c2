//! Spells: a task in a worker's hand.

use events::worker_id::WorkerId;
use types::path::Path;

/// The event at which a spell starts.
#[derive(Clone, Copy, PartialEq, Eq, Debug)]
pub enum Beginning {
    /// By `take 1 0.2`.
    Taken,
    /// By `resume 0 0`.
    Resumed,
}

/// The way in which a spell ends.
#[derive(Clone, Copy, PartialEq, Eq, Debug)]
pub enum SpellEnd {
    /// By `park 0`.
    Parked,
    /// By `end 0.1`.
    Ended,
    /// Before the worker's next spell. This happens in no list that a run produces.
    Left,
    /// By no event: the list breaks off.
    Going,
}

/// A task in a worker's hand, from a `take` or `resume` to the next `park` or `end` of that task,
/// inclusive.
#[derive(Debug, Drop)]
pub struct Spell {
    pub path: Path,
    pub worker: WorkerId,
    pub beginning: Beginning,
    pub ending: SpellEnd,
    /// The number of its first event.
    pub first: usize,
    /// The number of its last event, inclusive.
    pub last: usize,
    /// The number of the task's own events from the first to the last.
    pub own: usize,
}

/// The spells of a list of events.
#[derive(Debug, Drop)]
pub struct Spells {
    /// In the order of their first events.
    pub all: Vec<Spell>,
    /// For each event, the number of the spell that it belongs to.
    pub places: Vec<Option<usize>>,
}

impl Spells {
    /// Returns the spell that an event belongs to.
    pub fn of_event(&self, number: usize) -> Option<&Spell> {
        match self.places.get(number) {
            Some(Some(place)) => self.all.get(*place),
            _ => None,
        }
    }
}
