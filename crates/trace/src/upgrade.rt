//! Traces of format 1 in format 2.

ghost use Rattle.std.specs.Prelude.{◌≡◌, ◌∷◌, ◌++◌, [], IfErr, IfOk, true};
ghost use Rattle.std.specs.Bool.{OnTrue};
ghost use Rattle.types.specs.Contents.{FitsArrays};
ghost use Rattle.types.specs.Translation.{input as lists_in};
ghost use Rattle.types.specs.Typed.{code_of};
ghost use Rattle.event_worlds.specs.Replaying.{IsRefused, event as event_of};
ghost use Rattle.trace.specs.Logs.{job_of};
ghost use Rattle.trace.specs.Upgrades.{IsUpgraded};
ghost use Rattle.trace_text.specs.Spelled.{suits as suits_in};
ghost use Rattle.trace_text.specs.declared.format.Format.TheVariants.{Two};

use event_worlds::error::{EventError, ReplayError};
use event_worlds::job::WeightedJob;
use event_worlds::world::World;
use events::event::Event;
use race_checker::accepted::Accepted;
use std::alloc::Global;
use trace_text::format::Format;
use trace_text::header::Header;
use trace_text::write::suits;
use types::input::Input;

/// Returns a trace in format 2. Each resume has the number of faults that its finish has gathered,
/// and nothing else changes. An event that isn't legal is refused, as is a number that a trace can't
/// express, which counts as out of memory.
pub fn upgrade(
    alloc: Global,
    accepted: &Accepted,
    input: &Input,
    header: &Header,
    events: &[Event],
) -> Result<(Header, Vec<Event>), ReplayError>
    requires { FitsArrays (code_of accepted.now.typed).arrays (lists_in input.now) }
    ensures upgraded { IfOk result (λ r. IsUpgraded
        (job_of alloc accepted.entry input.entry header.now.budget header.now.w0)
        header.now events.now r.0 r.1.items) }
    ensures refused { IfErr result (IsRefused
        (job_of alloc accepted.entry input.entry header.now.budget header.now.w0) events.now) }
{
    let Some(job) = WeightedJob::new(alloc, accepted, input, header.budget, header.w0) else {
        unreachable!()
    };
    let Some(new) = Header::new(Format::Two, header.budget, header.w0, header.workers) else {
        unreachable!()
    };
    let Ok(start) = World::start(job) else {
        return Err(ReplayError::NoMemory);
    };
    let mut world = start;
    let mut told = Vec::new(alloc);
    'events: for (number, event) in events.iter().enumerate() {
        let Ok(next) = world.numbered(event) else {
            return Err(ReplayError::NoMemory);
        };
        match world.go_by(event) {
            Ok(()) => {}
            Err(EventError::Illegal) => return Err(ReplayError::IllegalAt(number)),
            Err(EventError::NoMemory) => return Err(ReplayError::NoMemory),
        }
        if !push(&mut told, next) {
            return Err(ReplayError::NoMemory);
        }
    }
    Ok((new, told))
}

/// Appends an event. Returns false if a trace can't express it, or memory ran out.
fn push(told: &mut Vec<Event>, event: Event) -> bool
    ensures { OnTrue result ((told.new.items ≡ told.old.items ++ event ∷ [])
        × (suits_in Two (event_of event) ≡ true)) }
{
    suits(Format::Two, &event) && told.push(event).is_ok()
}
