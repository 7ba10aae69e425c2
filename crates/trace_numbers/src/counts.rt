//! The numbers of some kinds of events.

ghost use Rattle.std.specs.Prelude.{◌≡◌, count_by};
ghost use Rattle.trace_numbers.specs.Counts.{is_replenishing, is_spawn, is_steal, is_step, steps_in};

use events::event::Event;

/// Returns the number of steps of all tasks: 5 for the only trace of `main { finish { async { skip;
/// } skip; } skip; }`.
pub fn steps(events: &[Event]) -> usize
    ensures { result ≡ steps_in events.now }
{
    events.iter().filter(|event| is_step(event)).count()
}

/// Returns the number of tasks, not counting the root.
pub fn spawns(events: &[Event]) -> usize
    ensures { result ≡ count_by is_spawn events.now }
{
    events.iter().filter(|event| is_spawn(event)).count()
}

/// Returns the number of steals.
pub fn steals(events: &[Event]) -> usize
    ensures { result ≡ count_by is_steal events.now }
{
    events.iter().filter(|event| is_steal(event)).count()
}

/// Returns how often a scope issued more weight to a task.
pub fn replenishings(events: &[Event]) -> usize
    ensures { result ≡ count_by is_replenishing events.now }
{
    events.iter().filter(|event| is_replenishing(event)).count()
}

/// Returns whether a task takes one of the language's steps in this event.
pub fn is_step(event: &Event) -> bool
    ensures { result ≡ is_step event.now }
{
    matches!(
        event,
        Event::Step { .. } | Event::Spawn { .. } | Event::Open { .. }
    )
}

fn is_spawn(event: &Event) -> bool
    ensures { result ≡ is_spawn event.now }
{
    matches!(event, Event::Spawn { .. })
}

fn is_steal(event: &Event) -> bool
    ensures { result ≡ is_steal event.now }
{
    matches!(event, Event::Steal { .. })
}

fn is_replenishing(event: &Event) -> bool
    ensures { result ≡ is_replenishing event.now }
{
    matches!(event, Event::Replenish { .. })
}
