//! Moves of tasks from worker to worker: spawned, stolen, taken.

ghost use Rattle.std.specs.Prelude.{◌≡◌, [], ◌++◌, IfOk, OnOk};
ghost use Rattle.trace_layout.specs.Moves.{steal_of, steals_from};

use crate::children::next_child;
use crate::spells::Spells;
use events::event::Event;
use events::worker_id::WorkerId;
use std::alloc::{AllocError, Global};
use std::collections::HashMap;
use trace_numbers::chains::Chains;
use types::path::Path;

/// `steal 1 0 0.2`
#[derive(Clone, Copy, PartialEq, Eq, Debug)]
pub struct Steal {
    /// The number of the event.
    pub at: usize,
    pub worker: WorkerId,
    pub from: WorkerId,
}

/// `spawn 0`, by a task in a worker's hand.
#[derive(Debug, Drop)]
pub struct Birth {
    /// The number of the event.
    pub at: usize,
    pub worker: WorkerId,
    /// The task that is spawned.
    pub child: Path,
}

/// How a task came into a queue: the event, and whose queue it is.
#[derive(Clone, Copy, PartialEq, Eq, Debug)]
pub struct Arrival {
    pub at: usize,
    pub worker: WorkerId,
}

/// `take 1 0.2`, and how the task came into the worker's queue: by its `spawn` or its last `steal`.
#[derive(Clone, Copy, PartialEq, Eq, Debug)]
pub struct Taking {
    /// The number of the event.
    pub at: usize,
    pub worker: WorkerId,
    pub came: Arrival,
}

/// All moves, in the order of the events.
#[derive(Debug, Drop)]
pub struct Moves {
    pub steals: Vec<Steal>,
    pub births: Vec<Birth>,
    pub takings: Vec<Taking>,
}

/// The moves so far, and how each task last came into a queue.
#[derive(Drop)]
struct Queues {
    moves: Moves,
    tasks: HashMap<Path, Arrival>,
}

/// Returns the moves in a list of events with these spells.
pub fn moves_of(alloc: Global, events: &[Event], spells: &Spells) -> Result<Moves, AllocError>
    ensures { IfOk result (λ m. m.steals.items ≡ steals_from 0 events.now) }
{
    let mut chains = Chains::start(alloc)?;
    let mut queues = Queues::start(alloc);
    for (number, event) in events.iter().enumerate() {
        queues.happens(number, event, spells, &chains)?;
        chains.happens(event)?;
    }
    Ok(queues.moves)
}

impl Queues {
    /// Returns queues without any moves.
    fn start(alloc: Global) -> Queues
        ensures { result.moves.steals.items ≡ [] }
    {
        Queues {
            moves: Moves {
                steals: Vec::new(alloc),
                births: Vec::new(alloc),
                takings: Vec::new(alloc),
            },
            tasks: HashMap::new(alloc),
        }
    }

    /// Records an event, with the chains before it.
    fn happens(
        &mut self,
        number: usize,
        event: &Event,
        spells: &Spells,
        chains: &Chains,
    ) -> Result<(), AllocError>
        ensures { OnOk result (self.new.moves.steals.items
            ≡ self.old.moves.steals.items ++ steal_of number event.now) }
    {
        match event {
            Event::Spawn { path } => {
                let Some(spell) = spells.of_event(number) else {
                    return Ok(());
                };
                let child = next_child(chains, path)?;
                self.spawn(number, spell.worker, child)
            }
            Event::Steal { worker, from, path } => {
                self.moves.steals.push(Steal {
                    at: number,
                    worker: *worker,
                    from: *from,
                })?;
                self.arrive(number, *worker, path)
            }
            Event::Take { worker, path } => self.take(number, *worker, path),
            _ => Ok(()),
        }
    }

    /// Records that a worker's task spawns another.
    fn spawn(&mut self, number: usize, worker: WorkerId, child: Path) -> Result<(), AllocError>
        ensures { self.new.moves.steals ≡ self.old.moves.steals }
    {
        self.arrive(number, worker, &child)?;
        self.moves.births.push(Birth {
            at: number,
            worker,
            child,
        })?;
        Ok(())
    }

    /// Records that a task comes into a worker's queue.
    fn arrive(&mut self, number: usize, worker: WorkerId, path: &Path) -> Result<(), AllocError>
        ensures { self.new.moves ≡ self.old.moves }
    {
        let arrival = Arrival { at: number, worker };
        self.tasks.insert(path.clone()?, arrival)?;
        Ok(())
    }

    /// Records that a worker takes a task.
    fn take(&mut self, number: usize, worker: WorkerId, path: &Path) -> Result<(), AllocError>
        ensures { self.new.moves.steals ≡ self.old.moves.steals }
    {
        if let Some(came) = self.tasks.get(path) {
            self.moves.takings.push(Taking {
                at: number,
                worker,
                came: *came,
            })?;
        }
        Ok(())
    }
}
