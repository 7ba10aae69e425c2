//! Formatting a header and an event.

ghost use Rattle.std.specs.Prelude.{◌≡◌, ◌++◌, OnOk};
ghost use Rattle.std.specs.String.{string_bytes};
ghost use Rattle.events.specs.Events.{event as event_of};
ghost use Rattle.trace_text.specs.Lines.{counted_object, event_line, header_line, line, pass_object};
ghost use Rattle.trace_text.specs.Lines.{resume_object, steal_object, task_object, worker_object};
ghost use Rattle.trace_text.specs.Headers.{header_of};

use crate::header::Header;
use crate::kind::EventKind;
use events::event::Event;
use events::worker_id::WorkerId;
use std::alloc::AllocError;
use types::path::Path;
use types::scope_id::ScopeId;

/// Appends the line of a header.
pub fn push_header(text: &mut String, header: &Header) -> Result<(), AllocError>
    ensures { OnOk result (string_bytes text.new
        ≡ string_bytes text.old ++ header_line (header_of header.now)) }
{
    let format = header.format.number();
    let nest = header.budget.nest;
    let steps = header.budget.steps;
    let w0 = header.w0;
    let workers = header.workers;
    write!(
        text,
        "{{\"format\":{format},\"nest\":{nest},\"steps\":{steps},\"w0\":{w0},\"workers\":{workers}}}\n"
    )
}

/// Appends the line of an event.
pub fn push_event(text: &mut String, event: &Event) -> Result<(), AllocError>
    ensures { OnOk result (string_bytes text.new
        ≡ string_bytes text.old ++ event_line (event_of event.now)) }
{
    let kind = EventKind::of(event);
    match event {
        Event::Take { worker, path } => push_by_worker(text, kind, path, worker.number()),
        Event::Steal { worker, from, path } => push_steal(text, path, *worker, *from),
        Event::Step { path } => push_of_task(text, kind, path),
        Event::Replenish { path } => push_of_task(text, kind, path),
        Event::Spawn { path } => push_of_task(text, kind, path),
        Event::Open { path } => push_of_task(text, kind, path),
        Event::Park { path } => push_of_task(text, kind, path),
        Event::End { path } => push_of_task(text, kind, path),
        Event::Pass { scope } => push_pass(text, scope),
        Event::Resume {
            worker,
            path,
            faults,
        } => push_resume(text, path, worker.number(), *faults),
    }
}

/// `{"e":"step","path":"0.1"}`
fn push_of_task(text: &mut String, kind: EventKind, path: &Path) -> Result<(), AllocError>
    ensures { OnOk result (string_bytes text.new
        ≡ string_bytes text.old ++ line (task_object kind path.now.turns.items)) }
{
    let name = kind.name();
    write!(text, "{{\"e\":\"{name}\",\"path\":\"{path}\"}}\n")
}

/// `{"e":"take","path":"0.1","worker":0}`
fn push_by_worker(
    text: &mut String,
    kind: EventKind,
    path: &Path,
    worker: u32,
) -> Result<(), AllocError>
    ensures { OnOk result (string_bytes text.new
        ≡ string_bytes text.old ++ line (worker_object kind worker path.now.turns.items)) }
{
    let name = kind.name();
    write!(
        text,
        "{{\"e\":\"{name}\",\"path\":\"{path}\",\"worker\":{worker}}}\n"
    )
}

/// `{"e":"resume","path":"0.1","worker":0}`, with the number of faults if there is one
fn push_resume(
    text: &mut String,
    path: &Path,
    worker: u32,
    faults: Option<u64>,
) -> Result<(), AllocError>
    ensures { OnOk result (string_bytes text.new
        ≡ string_bytes text.old ++ line (resume_object worker path.now.turns.items faults)) }
{
    match faults {
        None => push_by_worker(text, EventKind::Resume, path, worker),
        Some(faults) => push_counted(text, path, worker, faults),
    }
}

/// `{"e":"resume","faults":0,"path":"0.1","worker":0}`
fn push_counted(text: &mut String, path: &Path, worker: u32, faults: u64) -> Result<(), AllocError>
    ensures { OnOk result (string_bytes text.new
        ≡ string_bytes text.old ++ line (counted_object worker path.now.turns.items faults)) }
{
    write!(
        text,
        "{{\"e\":\"resume\",\"faults\":{faults},\"path\":\"{path}\",\"worker\":{worker}}}\n"
    )
}

/// `{"e":"steal","from":0,"path":"0.1","worker":1}`
fn push_steal(
    text: &mut String,
    path: &Path,
    worker: WorkerId,
    from: WorkerId,
) -> Result<(), AllocError>
    ensures { OnOk result (string_bytes text.new
        ≡ string_bytes text.old ++ line (steal_object worker from path.now.turns.items)) }
{
    let worker = worker.number();
    let from = from.number();
    write!(
        text,
        "{{\"e\":\"steal\",\"from\":{from},\"path\":\"{path}\",\"worker\":{worker}}}\n"
    )
}

/// `{"e":"pass","number":1,"owner":"0"}`
fn push_pass(text: &mut String, scope: &ScopeId) -> Result<(), AllocError>
    ensures { OnOk result (string_bytes text.new
        ≡ string_bytes text.old ++ line (pass_object scope.now.number scope.now.owner.turns.items)) }
{
    let number = scope.number;
    let owner = &scope.owner;
    write!(
        text,
        "{{\"e\":\"pass\",\"number\":{number},\"owner\":\"{owner}\"}}\n"
    )
}
