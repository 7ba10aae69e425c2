//! Events of any kind, and lists of events from the start.

ghost use Rattle.std.specs.Prelude.{◌≡◌, IfErr, IfOk, OnOk};
ghost use Rattle.event_worlds.specs.Jobs.{IsWeightedJob};
ghost use Rattle.event_worlds.specs.Replaying.{IsRefused, IsReplayed, event as event_of};
ghost use Rattle.event_worlds.specs.Shown.{Becomes, IsLegal, IsWorld, Refuses};
ghost use Rattle.event_worlds.specs.Walks.{IsIllegal};
ghost use Rattle.event_worlds.specs.declared.error.EventError.TheVariants.{Illegal, NoMemory};

use crate::error::{EventError, ReplayError};
use crate::job::WeightedJob;
use crate::world::World;
use events::event::Event;
use types::path::Path;

impl<'p> World<'p> {
    /// Applies an event. After an error the world is unchanged.
    pub fn event(&mut self, event: &Event) -> Result<(), EventError>
        requires { IsWorld self.old }
        ensures legal { OnOk result (Becomes (event_of event.now) self.old self.new) }
        ensures refused { IfErr result (Refuses (event_of event.now) self.old self.new) }
        ensures memory { IfErr result
            (λ e. e ≡ NoMemory → IsLegal self.old (event_of event.now)) }
        ensures job { self.new.job ≡ self.old.job }
    {
        // It is judged before memory is taken.
        if !self.is_legal(event) {
            return Err(EventError::Illegal);
        }
        self.change(event)
    }

    /// Applies an event. It may need memory before it finds that the event isn't legal.
    fn change(&mut self, event: &Event) -> Result<(), EventError>
        requires { IsWorld self.old }
        ensures legal { OnOk result (Becomes (event_of event.now) self.old self.new) }
        ensures refused { IfErr result (Refuses (event_of event.now) self.old self.new) }
        ensures job { self.new.job ≡ self.old.job }
    {
        match event {
            Event::Take { worker, path } => self.take(*worker, path),
            Event::Steal { worker, from, path } => self.steal(*worker, *from, path),
            Event::Step { path } => self.step(path),
            Event::Replenish { path } => self.replenish(path),
            Event::Spawn { path } => self.spawn(path),
            Event::Open { path } => self.open(path),
            Event::Park { path } => self.park(path),
            Event::End { path } => self.end(path),
            Event::Pass { scope } => self.pass(scope),
            Event::Resume {
                worker,
                path,
                faults,
            } => self.resume_telling(*worker, path, *faults),
        }
    }

    /// Applies an event in a world that is discarded after an error. No task is copied before it
    /// acts.
    pub fn go_by(&mut self, event: &Event) -> Result<(), EventError>
        requires { IsWorld self.old }
        ensures legal { OnOk result (Becomes (event_of event.now) self.old self.new) }
        ensures refused { IfErr result
            (λ e. e ≡ Illegal → IsIllegal self.old (event_of event.now)) }
        ensures memory { IfErr result
            (λ e. e ≡ NoMemory → IsLegal self.old (event_of event.now)) }
        ensures job { OnOk result (self.new.job ≡ self.old.job) }
    {
        if let Event::Step { path } = event {
            return self.step_ahead(path);
        }
        if let Event::Resume {
            worker,
            path,
            faults,
        } = event
        {
            return self.go_on_telling(*worker, path, *faults);
        }
        if !self.is_legal(event) {
            return Err(EventError::Illegal);
        }
        let Some(path) = actor(event) else {
            return self.change(event);
        };
        self.look_ahead(path)?;
        self.change(event)
    }
}

/// Returns the task whose next action the event is.
fn actor(event: &Event) -> Option<&Path> {
    match event {
        Event::Step { path } => Some(path),
        Event::Replenish { path } => Some(path),
        Event::Spawn { path } => Some(path),
        Event::Open { path } => Some(path),
        Event::Park { path } => Some(path),
        Event::End { path } => Some(path),
        Event::Take { .. } | Event::Steal { .. } => None,
        Event::Pass { .. } | Event::Resume { .. } => None,
    }
}

/// Returns the world that the events lead to from the start, one after the other.
pub fn replay<'p>(job: WeightedJob<'p>, events: &[Event]) -> Result<World<'p>, ReplayError>
    requires { IsWeightedJob job }
    ensures legal { IfOk result (IsReplayed job.entry events.now) }
    ensures world { IfOk result IsWorld }
    ensures refused { IfErr result (IsRefused job.entry events.now) }
{
    let Ok(start) = World::start(job) else {
        return Err(ReplayError::NoMemory);
    };
    let mut world = start;
    'events: for (number, event) in events.iter().enumerate() {
        match world.go_by(event) {
            Ok(()) => {}
            Err(EventError::Illegal) => return Err(ReplayError::IllegalAt(number)),
            Err(EventError::NoMemory) => return Err(ReplayError::NoMemory),
        }
    }
    Ok(world)
}
