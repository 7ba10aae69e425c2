//! The steps of each worker.

ghost use Rattle.std.specs.Prelude.{◌≡◌, IfOk, OnOk};
ghost use Rattle.trace_numbers.specs.Hands.{Hands as AnyHands, handled, no_hands, steps_by_worker};
ghost use Rattle.trace_numbers.specs.Hands.{one_step, taken};
ghost use Rattle.trace_numbers.specs.Tables.{AreHandsAfter, ShowsHands};

use crate::counts::is_step;
use events::event::Event;
use events::worker_id::{MOST_WORKERS, WorkerId};
use std::alloc::{AllocError, Global};
use std::collections::HashMap;
use types::path::Path;

/// Who took each task last, and the number of steps of each worker.
#[derive(Drop)]
struct Hands {
    tasks: HashMap<Path, WorkerId>,
    /// By the workers' numbers.
    did: Vec<usize>,
}

/// Returns the number of steps of each worker, by its number: those of tasks that it took or
/// resumed last.
pub fn steps_of_workers(alloc: Global, events: &[Event]) -> Result<Vec<usize>, AllocError>
    ensures { IfOk result (λ v. v.items ≡ steps_by_worker events.now) }
{
    let mut hands = Hands::start(alloc)?;
    for event in events {
        hands.happens(event)?;
    }
    Ok(hands.did)
}

impl Hands {
    /// Starts before any worker has taken a task.
    fn start(alloc: Global) -> Result<Hands, AllocError>
        ensures { IfOk result (λ r. ShowsHands r no_hands) }
    {
        Ok(Hands {
            tasks: HashMap::new(alloc),
            did: vec![in alloc; 0usize; MOST_WORKERS as usize]?,
        })
    }

    /// Applies an event.
    fn happens(&mut self, event: &Event) -> Result<(), AllocError>
        requires { AreHandsAfter self.old }
        ensures { OnOk result ((h : AnyHands) → ShowsHands self.old h
            → ShowsHands self.new (handled event.now h)) }
    {
        match event {
            Event::Take { worker, path } | Event::Resume { worker, path, .. } => self.take(
                *worker, path,
            ),
            Event::Step { path } | Event::Spawn { path } | Event::Open { path } => {
                self.one_step(path);
                Ok(())
            }
            Event::Steal { .. }
            | Event::Replenish { .. }
            | Event::Park { .. }
            | Event::End { .. }
            | Event::Pass { .. } => Ok(()),
        }
    }

    /// Lets a worker take a task.
    fn take(&mut self, worker: WorkerId, path: &Path) -> Result<(), AllocError>
        ensures { OnOk result ((h : AnyHands) → ShowsHands self.old h
            → ShowsHands self.new (taken worker path.now.turns.items h)) }
    {
        if let Some(holder) = self.tasks.get_mut(path) {
            *holder = worker;
            return Ok(());
        }
        self.tasks.insert(path.clone()?, worker)?;
        Ok(())
    }

    /// Counts a step of a task for the worker who took it last.
    fn one_step(&mut self, path: &Path)
        requires { AreHandsAfter self.old }
        ensures { (h : AnyHands) → ShowsHands self.old h
            → ShowsHands self.new (one_step path.now.turns.items h) }
    {
        if let Some(worker) = self.tasks.get(path) {
            self.did[worker.number() as usize] += 1;
        }
    }
}
