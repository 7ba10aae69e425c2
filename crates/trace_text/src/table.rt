//! The table of a trace's events.

ghost use Rattle.std.specs.Prelude.{◌≡◌, ◌++◌, codes, IfOk, None, OnOk, Some, map};
ghost use Rattle.std.specs.String.{string_bytes};
ghost use Rattle.events.specs.Events.{event as event_of};
ghost use Rattle.trace_text.specs.Table.{column, deed, table_line, table_text};
ghost use Rattle.types.specs.Names.{path_text};

use crate::kind::EventKind;
use events::event::Event;
use events::worker_id::WorkerId;
use std::alloc::{AllocError, Global};
use types::path::Path;

/// Returns the table of events, one per line: its number, its kind, the worker, the worker that it
/// stole from, and the task or the scope.
pub fn view(alloc: Global, events: &[Event]) -> Result<String, AllocError>
    ensures { IfOk result (λ text. string_bytes text ≡ table_text (map event_of events.now)) }
{
    let mut text = String::new(alloc);
    for (number, event) in events.iter().enumerate() {
        push_row(&mut text, number, event)?;
    }
    Ok(text)
}

/// Appends the line of an event.
fn push_row(text: &mut String, number: usize, event: &Event) -> Result<(), AllocError>
    ensures { OnOk result (string_bytes text.new
        ≡ string_bytes text.old ++ table_line number (event_of event.now)) }
{
    let kind = EventKind::of(event).in_column();
    write!(text, "{number:>8} {kind} ")?;
    push_deed(text, event)
}

/// Appends the workers and the task or scope of an event.
fn push_deed(text: &mut String, event: &Event) -> Result<(), AllocError>
    ensures { OnOk result (string_bytes text.new
        ≡ string_bytes text.old ++ deed (event_of event.now)) }
{
    match event {
        Event::Take { worker, path } => push_by_worker(text, *worker, path),
        Event::Steal { worker, from, path } => push_steal(text, *worker, *from, path),
        Event::Step { path } => push_of_task(text, path),
        Event::Replenish { path } => push_of_task(text, path),
        Event::Spawn { path } => push_of_task(text, path),
        Event::Open { path } => push_of_task(text, path),
        Event::Park { path } => push_of_task(text, path),
        Event::End { path } => push_of_task(text, path),
        Event::Pass { scope } => write!(text, "      {scope}\n"),
        Event::Resume { worker, path, .. } => push_by_worker(text, *worker, path),
    }
}

/// Appends the worker, and the task.
fn push_by_worker(text: &mut String, worker: WorkerId, path: &Path) -> Result<(), AllocError>
    ensures { OnOk result (string_bytes text.new
        ≡ string_bytes text.old ++ (column (Some worker) ++ (column None
        ++ (path_text path.now.turns.items ++ codes "\n")))) }
{
    let worker = worker.number();
    write!(text, "{worker:>2}    {path}\n")
}

/// Appends the worker, the worker that it stole from, and the task.
fn push_steal(
    text: &mut String,
    worker: WorkerId,
    from: WorkerId,
    path: &Path,
) -> Result<(), AllocError>
    ensures { OnOk result (string_bytes text.new
        ≡ string_bytes text.old ++ (column (Some worker) ++ (column (Some from)
        ++ (path_text path.now.turns.items ++ codes "\n")))) }
{
    let worker = worker.number();
    let from = from.number();
    write!(text, "{worker:>2} {from:>2} {path}\n")
}

/// Appends the task alone.
fn push_of_task(text: &mut String, path: &Path) -> Result<(), AllocError>
    ensures { OnOk result (string_bytes text.new
        ≡ string_bytes text.old ++ (column None ++ (column None
        ++ (path_text path.now.turns.items ++ codes "\n")))) }
{
    write!(text, "      {path}\n")
}
