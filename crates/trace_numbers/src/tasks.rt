//! How deep tasks are nested, and how many are live at the same time.

ghost use Rattle.std.specs.Prelude.{◌≡◌, ◌<◌};
ghost use Rattle.trace_numbers.specs.Counts.{alive_after, deepest, most_alive, nest_of};

use events::event::Event;

/// Returns the number of asyncs that the deepest task is nested in: 2 for the task 0.1.1.
pub fn deepest_nest(events: &[Event]) -> usize
    ensures { result ≡ deepest events.now }
{
    let mut most: usize = 0;
    for event in events {
        most = most.max(nest(event));
    }
    most
}

/// Returns the number of asyncs that the task spawned by an event is nested in.
fn nest(event: &Event) -> usize
    ensures { result ≡ nest_of event.now }
{
    match event {
        Event::Spawn { path } => path.turns.len() + 1,
        _ => 0,
    }
}

/// Returns the maximum number of tasks that were live at the same time.
pub fn most_tasks(events: &[Event]) -> usize
    ensures { result ≡ most_alive events.now }
{
    let mut now: usize = 1;
    let mut most: usize = 1;
    for event in events {
        now = alive_behind(event, now);
        most = most.max(now);
    }
    most
}

/// Returns the number of live tasks after an event, given the number before it.
fn alive_behind(event: &Event, alive: usize) -> usize
    requires { alive < 18446744073709551615 }
    ensures { result ≡ alive_after event.now alive }
{
    match event {
        Event::Spawn { .. } => alive + 1,
        Event::End { .. } => alive.saturating_sub(1),
        _ => alive,
    }
}
