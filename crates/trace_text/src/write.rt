//! Formatting a trace.

ghost use Rattle.std.specs.Prelude.{◌≡◌, IfOk, map, true};
ghost use Rattle.std.specs.String.{string_bytes};
ghost use Rattle.events.specs.Events.{event as event_of};
ghost use Rattle.trace_text.specs.Headers.{header_of};
ghost use Rattle.trace_text.specs.Lines.{trace_text};
ghost use Rattle.trace_text.specs.Spelled.{fits as fits_in, has_count as is_count, suits as suits_in};

use crate::format::Format;
use crate::header::Header;
use crate::line::{push_event, push_header};
use events::event::Event;
use std::alloc::{AllocError, Global};

/// Returns the lines of a trace: the header's, and one for each event.
pub fn write_lines(alloc: Global, header: &Header, events: &[Event]) -> Result<String, AllocError>
    requires { fits_in header.now.format events.now ≡ true }
    ensures { IfOk result (λ text. string_bytes text
        ≡ trace_text (header_of header.now) (map event_of events.now)) }
{
    let mut text = String::new(alloc);
    push_header(&mut text, header)?;
    for event in events {
        push_event(&mut text, event)?;
    }
    Ok(text)
}

/// Returns whether a trace with this header can express the events: each resume has a number of
/// faults in format 2, at most 4294967295, and none in format 1.
pub fn fits(header: &Header, events: &[Event]) -> bool
    ensures { result ≡ fits_in header.now.format events.now }
{
    let format = header.format;
    events.iter().all(|event| suits(format, event))
}

/// Returns whether an event has a number of faults as the format wants it.
pub fn suits(format: Format, event: &Event) -> bool
    ensures { result ≡ suits_in format (event_of event.now) }
{
    match event {
        Event::Resume { faults, .. } => has_count(format, *faults),
        Event::Take { .. }
        | Event::Steal { .. }
        | Event::Step { .. }
        | Event::Replenish { .. }
        | Event::Spawn { .. }
        | Event::Open { .. }
        | Event::Park { .. }
        | Event::End { .. }
        | Event::Pass { .. } => true,
    }
}

/// Returns whether a resume has a number of faults as the format wants it.
fn has_count(format: Format, faults: Option<u64>) -> bool
    ensures { result ≡ is_count format faults }
{
    match format {
        Format::One => match faults {
            None => true,
            Some(_) => false,
        },
        Format::Two => match faults {
            Some(faults) => faults <= 4_294_967_295,
            None => false,
        },
    }
}
