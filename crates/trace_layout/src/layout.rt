//! The whole layout of a trace.

ghost use Rattle.std.specs.Prelude.{◌≡◌, ◌+◌, ◌<◌, ◌≤◌, All, IfOk};
ghost use Rattle.trace_layout.specs.Layout.{IsLayout};

use crate::busy::in_hands;
use crate::chain::longest_chain;
use crate::finishes::{Finishes, finishes_of};
use crate::hands::spells_of;
use crate::moves::{Moves, moves_of};
use crate::spells::Spells;
use events::event::Event;
use events::worker_id::{MOST_WORKERS, WorkerId};
use std::alloc::{AllocError, Global};

/// The layout of a list of events.
#[derive(Debug, Drop)]
pub struct Layout {
    pub spells: Spells,
    pub moves: Moves,
    pub finishes: Finishes,
    /// For each event, whether it is on the longest chain.
    pub chain: Vec<bool>,
    /// For each event, the number of tasks in hands.
    pub in_hands: Vec<usize>,
}

/// Returns the layout of a list of events, in any order.
pub fn layout_of(alloc: Global, events: &[Event]) -> Result<Layout, AllocError>
    ensures { IfOk result (IsLayout events.now) }
{
    let spells = spells_of(alloc, events)?;
    let moves = moves_of(alloc, events, &spells)?;
    let finishes = finishes_of(alloc, events)?;
    let chain = longest_chain(alloc, events)?;
    let in_hands = in_hands(alloc, &spells.all, events.len())?;
    Ok(Layout {
        spells,
        moves,
        finishes,
        chain,
        in_hands,
    })
}

impl Layout {
    /// Returns the number of lanes: enough for a run with this many workers, and for any other
    /// worker that an event names.
    pub fn lanes(&self, workers: u32) -> u32
        ensures few { result ≤ 64 }
        ensures run { workers ≤ 64 → workers ≤ result }
        ensures spells { All (λ s. s.worker < result) self.now.spells.all.items }
        ensures steals { All (λ s. (s.worker < result) × (s.from < result)) self.now.moves.steals.items }
    {
        let mut most = workers.min(MOST_WORKERS);
        for spell in &self.spells.all {
            most = most.max(lanes_with(spell.worker));
        }
        for steal in &self.moves.steals {
            most = most
                .max(lanes_with(steal.worker))
                .max(lanes_with(steal.from));
        }
        most
    }
}

/// Returns the number of lanes up to a worker's.
fn lanes_with(worker: WorkerId) -> u32
    ensures same { result ≡ worker + 1 }
    ensures few { result ≤ 64 }
{
    worker.number() + 1
}
