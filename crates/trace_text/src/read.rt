//! Parsing a trace.

ghost use Rattle.std.specs.Prelude.{◌≡◌, ◌<◌, ◌+◌, ◌∷◌, ◌++◌, ◌↔◌, ◌^◌, ℕ, List, IfErr};
ghost use Rattle.std.specs.Prelude.{IfNone, IfOk, IfSome, IsSomeAnd, IsTrue, None, Option, Some};
ghost use Rattle.std.specs.Prelude.{codes, length, map, option_map};
ghost use Rattle.std.specs.Fmt.{decimal};
ghost use Rattle.types.specs.Names.{path_text};
ghost use Rattle.events.specs.Events.{Event as AnyEvent, Steal as IsSteal, Pass as IsPass};
ghost use Rattle.events.specs.Events.{Resume as IsResume};
ghost use Rattle.events.specs.Events.{ScopeId as AnyScopeId, event as event_of, turns_of};
ghost use Rattle.serde_json.specs.Written.{compact_text};
ghost use Rattle.trace_text.specs.Fields.{counted_fields, fields, pass_fields, resume_fields};
ghost use Rattle.trace_text.specs.Fields.{steal_fields, task_fields, worker_field, worker_fields};
ghost use Rattle.trace_text.specs.Headers.{IsHeader, TraceHeader, format_number, header_of};
ghost use Rattle.trace_text.specs.Kinds.{kind_of};
ghost use Rattle.trace_text.specs.Lines.{event_line, event_object, header_line, header_object};
ghost use Rattle.trace_text.specs.Reading.{AreEvents, IsEventRefusal, IsRefusal, IsTrace};
ghost use Rattle.trace_text.specs.Spelled.{IsPath, IsResumption, IsScope, IsSpelled, IsTheft};
ghost use Rattle.trace_text.specs.Spelled.{IsWorkers, Lacks};
ghost use Rattle.trace_text.specs.declared.format.Format.{Format as AnyFormat};
ghost use Rattle.trace_text.specs.declared.format.Format.TheVariants.{One, Two};

use crate::cut::{between, cut_at};
use crate::error::TraceError;
use crate::format::Format;
use crate::header::Header;
use crate::kind::EventKind;
use crate::line::{push_event, push_header};
use crate::path::read_path;
use events::event::Event;
use events::worker_id::WorkerId;
use std::alloc::{AllocError, Global};
use types::budget::Budget;
use types::path::Path;
use types::scope_id::ScopeId;

/// Parses the header and the events of a trace.
pub fn read_lines(alloc: Global, text: &str) -> Result<(Header, Vec<Event>), TraceError>
    ensures read { IfOk result
        (λ r. IsTrace (header_of r.0) (map event_of r.1.items) text.now) }
    ensures refused { IfErr result (IsRefusal text.now) }
{
    let Some((line, rest)) = cut_at(text, '\n') else {
        return Err(TraceError::NotALine(1));
    };
    let Some(header) = read_header(alloc, line)? else {
        return Err(TraceError::NotALine(1));
    };
    let events = read_events(alloc, header.format, rest)?;
    Ok((header, events))
}

/// Parses the events in the lines after the first.
fn read_events(alloc: Global, format: Format, text: &str) -> Result<Vec<Event>, TraceError>
    ensures read { IfOk result (λ es. AreEvents format (map event_of es.items) text.now) }
    ensures refused { IfErr result (IsEventRefusal format text.now) }
{
    let mut events = Vec::new(alloc);
    let mut again = String::new(alloc);
    let mut rest = text;
    'lines: while let Some((line, behind)) = cut_at(rest, '\n') {
        let Some(event) = read_event(alloc, format, line, &mut again)? else {
            return Err(no_line_behind(&events));
        };
        events.push(event)?;
        rest = behind;
    }
    if !rest.is_empty() {
        return Err(no_line_behind(&events));
    }
    Ok(events)
}

/// Returns the error for the line after those of the header and of these events.
fn no_line_behind(events: &[Event]) -> TraceError
    ensures { result ≡ TraceError.NotALine (length events.now + 2) }
{
    TraceError::NotALine(events.len() + 2)
}

/// Parses the header in a line, given without its line feed.
fn read_header(alloc: Global, line: &str) -> Result<Option<Header>, AllocError>
    ensures read { IfOk result (λ o. IfSome o (λ h. IsHeader (header_of h)
        × (line.now ++ codes "\n" ≡ header_line (header_of h)))) }
    ensures other { IfOk result (λ o. IfNone o ((h : TraceHeader) → IsHeader h
        → line.now ++ codes "\n" ≡ header_line h → ⊥)) }
{
    let Some(header) = header_in(line) else {
        return Ok(None);
    };
    let mut again = String::new(alloc);
    push_header(&mut again, &header)?;
    let same = is_line(line, again.as_str());
    Ok(same.then_some(header))
}

/// Parses the event in a line, given without its line feed. It formats the event into `again`, and
/// overwrites that text: one buffer serves for all lines.
fn read_event(
    alloc: Global,
    format: Format,
    line: &str,
    again: &mut String,
) -> Result<Option<Event>, AllocError>
    ensures read { IfOk result (λ o. IfSome o (λ e. IsSpelled format (event_of e)
        × (line.now ++ codes "\n" ≡ event_line (event_of e)))) }
    ensures other { IfOk result (λ o. IfNone o ((e : AnyEvent) → IsSpelled format e
        → line.now ++ codes "\n" ≡ event_line e → ⊥)) }
{
    let Some(event) = event_in(alloc, format, line)? else {
        return Ok(None);
    };
    again.clear();
    push_event(again, &event)?;
    let same = is_line(line, again.as_str());
    Ok(same.then_some(event))
}

/// Returns whether a line, with its line feed, equals this text.
fn is_line(line: &str, text: &str) -> bool
    ensures { IsTrue result ↔ (line.now ++ codes "\n" ≡ text.now) }
{
    match text.strip_suffix('\n') {
        Some(front) => front == line,
        None => false,
    }
}

/// Returns the header that a line may be the text of. The caller formats it again to check.
fn header_in(line: &str) -> Option<Header>
    ensures { (h : TraceHeader) → IsHeader h → line.now ≡ compact_text (header_object h)
        → option_map header_of result ≡ Some h }
{
    let (number, rest) = number_between(line, "{\"format\":", ',')?;
    let format = format_of(number)?;
    let (nest, rest) = number_between(rest, "\"nest\":", ',')?;
    let (steps, rest) = number_between(rest, "\"steps\":", ',')?;
    let (w0, rest) = number_between(rest, "\"w0\":", ',')?;
    let (workers, _) = number_between(rest, "\"workers\":", '}')?;
    let budget = Budget::new(steps, nest)?;
    Header::new(format, budget, w0, u32::try_from(workers).ok()?)
}

/// Returns the format with a number.
fn format_of(number: u64) -> Option<Format>
    ensures { (f : AnyFormat) → number ≡ format_number f → result ≡ Some f }
{
    if number == 1 {
        Some(Format::One)
    } else if number == 2 {
        Some(Format::Two)
    } else {
        None
    }
}

/// Returns the event that a line may be the text of. The caller formats it again to check.
fn event_in(alloc: Global, format: Format, line: &str) -> Result<Option<Event>, AllocError>
    ensures spelled { IfOk result (λ o. IfSome o (λ e. IsSpelled format (event_of e))) }
    ensures told { IfOk result (λ o. (e : AnyEvent) → IsSpelled format e
        → line.now ≡ compact_text (event_object e) → option_map event_of o ≡ Some e) }
{
    let Some((name, rest)) = between(line, "{\"e\":\"", '"') else {
        return Ok(None);
    };
    let Some(kind) = EventKind::named(name) else {
        return Ok(None);
    };
    event_behind(alloc, format, kind, rest)
}

/// Returns the event of a kind whose fields the text after the kind's name may be.
fn event_behind(
    alloc: Global,
    format: Format,
    kind: EventKind,
    rest: &str,
) -> Result<Option<Event>, AllocError>
    ensures spelled { IfOk result (λ o. IfSome o (λ e. IsSpelled format (event_of e))) }
    ensures told { IfOk result (λ o. (e : AnyEvent) → IsSpelled format e → kind ≡ kind_of e
        → rest.now ≡ fields e → option_map event_of o ≡ Some e) }
{
    match kind {
        EventKind::Take => {
            let by = by_worker_in(alloc, rest, ",\"path\":\"")?;
            Ok(by.map(|(worker, path)| Event::Take { worker, path }))
        }
        EventKind::Steal => steal_in(alloc, rest),
        EventKind::Step => Ok(path_in(alloc, rest)?.map(|path| Event::Step { path })),
        EventKind::Replenish => Ok(path_in(alloc, rest)?.map(|path| Event::Replenish { path })),
        EventKind::Spawn => Ok(path_in(alloc, rest)?.map(|path| Event::Spawn { path })),
        EventKind::Open => Ok(path_in(alloc, rest)?.map(|path| Event::Open { path })),
        EventKind::Park => Ok(path_in(alloc, rest)?.map(|path| Event::Park { path })),
        EventKind::End => Ok(path_in(alloc, rest)?.map(|path| Event::End { path })),
        EventKind::Pass => pass_in(alloc, rest),
        EventKind::Resume => resume_in(alloc, format, rest),
    }
}

/// Returns the worker and the task after a text's front: `0.1","worker":0}`
fn by_worker_in(
    alloc: Global,
    text: &str,
    front: &str,
) -> Result<Option<(WorkerId, Path)>, AllocError>
    ensures spelled { IfOk result (λ o. IfSome o (λ by. IsWorkers by.0 (turns_of by.1))) }
    ensures told { IfOk result (λ o. (w : ℕ) (p : List ℕ) → IsWorkers w p
        → text.now ≡ front.now ++ (path_text p ++ (codes "\"" ++ worker_field w))
        → option_map {U = ℕ × List ℕ} (λ by. (by.0, turns_of by.1)) o ≡ Some (w, p)) }
{
    let Some((path, rest)) = between(text, front, '"') else {
        return Ok(None);
    };
    let Some(worker) = worker_in(rest) else {
        return Ok(None);
    };
    Ok(read_path(alloc, path)?.map(|path| (worker, path)))
}

/// Parses `,"from":0,"path":"0.1","worker":1}`
fn steal_in(alloc: Global, rest: &str) -> Result<Option<Event>, AllocError>
    ensures spelled { (f : AnyFormat) → IfOk result (λ o. IfSome o (λ e. IsSpelled f (event_of e))) }
    ensures told { IfOk result (λ o. (w f : ℕ) (p : List ℕ) → IsTheft w f p
        → rest.now ≡ steal_fields w f p → option_map event_of o ≡ Some (IsSteal w f p)) }
{
    let Some((from, rest)) = number_between(rest, ",\"from\":", ',') else {
        return Ok(None);
    };
    let Some(from) = worker_of(from) else {
        return Ok(None);
    };
    let by = by_worker_in(alloc, rest, "\"path\":\"")?;
    Ok(by.map(|(worker, path)| Event::Steal { worker, from, path }))
}

/// Parses `,"path":"0.1","worker":0}`, in format 2 with the number of faults before it.
fn resume_in(alloc: Global, format: Format, rest: &str) -> Result<Option<Event>, AllocError>
    ensures spelled { IfOk result (λ o. IfSome o (λ e. IsSpelled format (event_of e))) }
    ensures told { IfOk result (λ o. (w : ℕ) (p : List ℕ) (n : Option ℕ) → IsResumption format w p n
        → rest.now ≡ resume_fields w p n → option_map event_of o ≡ Some (IsResume w p n)) }
{
    match format {
        Format::One => plain_resume_in(alloc, rest),
        Format::Two => counted_resume_in(alloc, rest),
    }
}

/// Parses `,"path":"0.1","worker":0}`
fn plain_resume_in(alloc: Global, rest: &str) -> Result<Option<Event>, AllocError>
    ensures spelled { IfOk result (λ o. IfSome o (λ e. IsSpelled One (event_of e))) }
    ensures told { IfOk result (λ o. (w : ℕ) (p : List ℕ) → IsWorkers w p
        → rest.now ≡ worker_fields w p → option_map event_of o ≡ Some (IsResume w p None)) }
{
    let by = by_worker_in(alloc, rest, ",\"path\":\"")?;
    Ok(by.map(|(worker, path)| Event::Resume {
        worker,
        path,
        faults: None,
    }))
}

/// Parses `,"faults":0,"path":"0.1","worker":0}`
fn counted_resume_in(alloc: Global, rest: &str) -> Result<Option<Event>, AllocError>
    ensures spelled { IfOk result (λ o. IfSome o (λ e. IsSpelled Two (event_of e))) }
    ensures told { IfOk result (λ o. (w : ℕ) (p : List ℕ) (n : ℕ) → IsWorkers w p → n < 2 ^ 32
        → rest.now ≡ counted_fields w p n
        → option_map event_of o ≡ Some (IsResume w p (Some n))) }
{
    let Some((faults, rest)) = number_between(rest, ",\"faults\":", ',') else {
        return Ok(None);
    };
    if faults > 4_294_967_295 {
        return Ok(None);
    }
    let by = by_worker_in(alloc, rest, "\"path\":\"")?;
    Ok(by.map(|(worker, path)| Event::Resume {
        worker,
        path,
        faults: Some(faults),
    }))
}

/// Parses `,"number":1,"owner":"0"}`
fn pass_in(alloc: Global, rest: &str) -> Result<Option<Event>, AllocError>
    ensures spelled { (f : AnyFormat) → IfOk result (λ o. IfSome o (λ e. IsSpelled f (event_of e))) }
    ensures told { IfOk result (λ o. (id : AnyScopeId) → IsScope id
        → rest.now ≡ pass_fields id.number id.owner → option_map event_of o ≡ Some (IsPass id)) }
{
    let Some((number, rest)) = number_between(rest, ",\"number\":", ',') else {
        return Ok(None);
    };
    let Ok(number) = u32::try_from(number) else {
        return Ok(None);
    };
    let Some((owner, _)) = between(rest, "\"owner\":\"", '"') else {
        return Ok(None);
    };
    Ok(read_path(alloc, owner)?.map(|owner| Event::Pass {
        scope: ScopeId { owner, number },
    }))
}

/// Parses `,"path":"0.1"}`
fn path_in(alloc: Global, rest: &str) -> Result<Option<Path>, AllocError>
    ensures path { IfOk result (λ o. IfSome o (λ p. IsPath p.turns.items)) }
    ensures spelled { IfOk result (λ o. (p : List ℕ) → IsPath p → rest.now ≡ task_fields p
        → option_map turns_of o ≡ Some p) }
{
    let Some((path, _)) = between(rest, ",\"path\":\"", '"') else {
        return Ok(None);
    };
    read_path(alloc, path)
}

/// Parses `,"worker":0}`
fn worker_in(rest: &str) -> Option<WorkerId>
    ensures { (w : ℕ) → w < 64 → rest.now ≡ worker_field w → result ≡ Some w }
{
    let (number, _) = number_between(rest, ",\"worker\":", '}')?;
    worker_of(number)
}

/// Returns the worker with a number.
fn worker_of(number: u64) -> Option<WorkerId>
    ensures { number < 64 → result ≡ Some number }
{
    WorkerId::new(u32::try_from(number).ok()?)
}

/// Returns the number between a text's front and the next occurrence of an ASCII character, and the
/// text after that. It accepts leading zeros and plus signs.
fn number_between<'a>(text: &'a str, front: &str, mark: char) -> Option<(u64, &'a str)>
    requires { mark < 128 }
    ensures { (n : ℕ) (behind : List ℕ) → n < 2 ^ 64 → Lacks mark (decimal n)
        → text.now ≡ front.now ++ (decimal n ++ mark ∷ behind)
        → IsSomeAnd result (λ r. (r.0 ≡ n) × (r.1.now ≡ behind)) }
{
    let (digits, rest) = between(text, front, mark)?;
    match digits.parse::<u64>() {
        Ok(number) => Some((number, rest)),
        Err(_) => None,
    }
}
