//! The tasks that events spawn, in order.

ghost use Rattle.std.specs.Prelude.{◌≡◌, ◌+◌, List, IfOk, OnOk, Some, map, slice_get};
ghost use Rattle.events.specs.declared.event.Event.{Event as AnyEvent};
ghost use Rattle.events.specs.declared.event.Event.TheVariants.{Spawn as Spawns};
ghost use Rattle.trace_page.specs.Births.{AreBornSoFar, birth as birth_of, births as births_in};

use events::event::Event;
use std::alloc::{AllocError, Global};
use std::collections::HashMap;
use types::child_number::ChildNumber;
use types::path::Path;

/// A task that is spawned.
#[derive(Drop)]
pub struct Birth {
    /// The number of the event.
    pub at: usize,
    pub child: Path,
}

/// The tasks so far, and the number of tasks that each task has spawned.
#[derive(Drop)]
struct Births {
    all: Vec<Birth>,
    spawned: HashMap<Path, u32>,
}

/// Returns the tasks that events spawn. Each is the next child of its parent.
pub fn births_of(alloc: Global, events: &[Event]) -> Result<Vec<Birth>, AllocError>
    ensures { IfOk result (λ all. map birth_of all.items ≡ births_in events.now) }
{
    let all = Vec::new(alloc);
    let spawned = HashMap::new(alloc);
    let mut births = Births { all, spawned };
    for (number, event) in events.iter().enumerate() {
        births.happens(number, event)?;
    }
    Ok(births.all)
}

impl Births {
    /// Records an event.
    fn happens(&mut self, number: usize, event: &Event) -> Result<(), AllocError>
        ensures { OnOk result ((es : List AnyEvent) → slice_get es number ≡ Some event.now
            → AreBornSoFar es number self.old → AreBornSoFar es (number + 1) self.new) }
    {
        match event {
            Event::Spawn { path } => self.spawn(number, path),
            _ => Ok(()),
        }
    }

    /// Records that a task spawns its next child.
    fn spawn(&mut self, number: usize, path: &Path) -> Result<(), AllocError>
        ensures { OnOk result ((es : List AnyEvent) → slice_get es number ≡ Some (Spawns path.now)
            → AreBornSoFar es number self.old → AreBornSoFar es (number + 1) self.new) }
    {
        let before = self.spawned.get(path).copied().unwrap_or(0);
        // A path can't name more children.
        let Some(count) = before.checked_add(1) else {
            return Err(AllocError);
        };
        self.spawned.insert(path.clone()?, count)?;
        let child = path.child(ChildNumber::after(before))?;
        self.all.push(Birth { at: number, child })?;
        Ok(())
    }
}
