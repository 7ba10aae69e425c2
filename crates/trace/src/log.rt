//! The events of a run so far, with the world that they lead to.

ghost use Rattle.std.specs.Bool.{OnTrue};
ghost use Rattle.std.specs.Prelude.{◌≡◌, ◌∷◌, ◌++◌, [], IfErr, IfOk, OnOk, true};
ghost use Rattle.types.specs.Contents.{FitsArrays};
ghost use Rattle.types.specs.Translation.{input as lists_in};
ghost use Rattle.types.specs.Typed.{code_of};
ghost use Rattle.task_run.specs.Jobs.{outcome_of};
ghost use Rattle.event_worlds.specs.Replaying.{event as event_of};
ghost use Rattle.event_worlds.specs.Shown.{Becomes, IsLegal};
ghost use Rattle.event_worlds.specs.declared.error.EventError.TheVariants.{Illegal, NoMemory};
ghost use Rattle.event_worlds.specs.Walks.{IsIllegal};
ghost use Rattle.trace.specs.Logs.{IsClean, LeadsToOutcome, Leaves, job_of};
ghost use Rattle.trace_text.specs.Spelled.{fits as fits_in};
ghost use Rattle.trace_text.specs.declared.format.Format.TheVariants.{Two};

use event_worlds::error::EventError;
use event_worlds::job::WeightedJob;
use event_worlds::world::World;
use events::event::Event;
use race_checker::accepted::Accepted;
use std::alloc::Global;
use std::marker::Model;
use trace_text::format::Format;
use trace_text::header::Header;
use trace_text::write::suits;
use types::input::Input;

/// The events of a run, in the order in which they were recorded, and the world that they lead to.
/// By the type's invariant, the events of each log are legal and lead to its world. So whoever
/// takes a log out of a lock has a clean one.
#[derive(Drop)]
pub struct Log<'p> {
    world: World<'p>,
    events: Vec<Event>,
}

impl<'p> Model for Log<'p> {
    ghost use Rattle.std.specs.Coded.{codes};
    ghost use Rattle.trace.specs.Logs.{IsClean, Recorded};
    ghost use Rattle.event_worlds.specs.contracts.world.World as shown;
    ghost use denote.Signature.{static_lft};

    ghost Value = { Recorded };

    ghost coded = { Prim.hlevel (codes, (shown.the_row static_lft).coded) };

    ghost view = { λ l. record { world = l.world; events = l.events.items } };

    ghost invariant = { λ l. IsClean (record { world = l.world; events = l.events.items }) };
}

impl<'p> Log<'p> {
    /// Returns the log of a run at its start.
    pub fn new(
        alloc: Global,
        header: &Header,
        accepted: &'p Accepted,
        input: &'p Input,
    ) -> Result<Log<'p>, EventError>
        requires { FitsArrays (code_of accepted.now.typed).arrays (lists_in input.now) }
        ensures begun { IfOk result (λ l. l.events ≡ []) }
        ensures job { IfOk result (λ l. l.world.job
            ≡ job_of alloc accepted.entry input.entry header.now.budget header.now.w0) }
        ensures refused { IfErr result (λ e. e ≡ NoMemory) }
    {
        let Some(job) = WeightedJob::new(alloc, accepted, input, header.budget, header.w0) else {
            unreachable!()
        };
        let world = World::start(job)?;
        Ok(Log {
            world,
            events: Vec::new(alloc),
        })
    }

    /// Appends an event to the list, and moves the world by it. A resume has to have a number of
    /// faults that a trace can express; otherwise there is no memory for it.
    pub fn record(&mut self, event: Event) -> Result<(), EventError>
        ensures recorded { OnOk result (self.new.events ≡ self.old.events ++ event ∷ []) }
        ensures moved { OnOk result (Becomes (event_of event) self.old.world self.new.world) }
        ensures refused { IfErr result (Leaves event self.old self.new) }
        ensures memory { IfErr result
            (λ e. e ≡ NoMemory → IsLegal self.old.world (event_of event)) }
        ensures job { self.new.world.job ≡ self.old.world.job }
    {
        // It is judged before memory is taken.
        if !self.world.is_legal(&event) {
            return Err(EventError::Illegal);
        }
        if !suits(Format::Two, &event) {
            return Err(EventError::NoMemory);
        }
        self.events.reserve(1)?;
        self.world.event(&event)?;
        // There is room for it.
        self.events.push(event)?;
        Ok(())
    }

    /// Returns the log with one more event, and with the world that this event leads to. It copies
    /// no task before the task acts, unlike `record`. After an error the log is lost, as it is if a
    /// trace can't express the event.
    pub fn append(self, event: Event) -> Result<Log<'p>, EventError>
        ensures appended { IfOk result (λ l. l.events ≡ self.entry.events ++ event ∷ []) }
        ensures moved { IfOk result (λ l. Becomes (event_of event) self.entry.world l.world) }
        ensures refused { IfErr result
            (λ e. e ≡ Illegal → IsIllegal self.entry.world (event_of event)) }
        ensures memory { IfErr result (λ e. e ≡ NoMemory → IsLegal self.entry.world (event_of event)) }
        ensures job { IfOk result (λ l. l.world.job ≡ self.entry.world.job) }
    {
        let Log { world, events } = self;
        let mut world = world;
        let mut events = events;
        world.go_by(&event)?;
        if !suits(Format::Two, &event) {
            return Err(EventError::NoMemory);
        }
        events.push(event)?;
        Ok(Log { world, events })
    }

    /// Returns the events, in the order in which they were recorded. A trace of format 2 can express
    /// them.
    pub fn events(&self) -> &[Event]
        ensures events { result.now ≡ self.now.events }
        ensures fits { fits_in Two self.now.events ≡ true }
    {
        self.events.as_slice()
    }

    /// Returns whether the run has finished according to the events.
    pub fn has_ended(&self) -> bool
        ensures { OnTrue result (LeadsToOutcome self.now (outcome_of self.now.world.job.job)) }
    {
        self.world().outcome().is_some()
    }

    /// Returns the world that they lead to.
    pub fn world(&self) -> &World<'p>
        ensures world { result.now ≡ self.now.world }
        ensures clean { IsClean self.now }
    {
        &self.world
    }
}
