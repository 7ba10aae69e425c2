//! The form of trace lines, and when events are legal.

use std::alloc::AllocError;
use trace_text::kind::EventKind;

const HEADER: &str = "The first line is the header:
  {\"format\":2,\"nest\":100,\"steps\":1000000,\"w0\":1048576,\"workers\":4}
The format is 1 or 2. The line has no spaces, and its other numbers are in the ranges of the options of the same names.
";

const KINDS: &str =
    "Each line is an event, such as {\"e\":\"step\",\"path\":\"0.1\"}. Events: take steal step replenish spawn open park end pass resume.
";

/// Adds the form of a line of a trace.
pub fn push_line_form(told: &mut String, line: &str, number: usize) -> Result<(), AllocError> {
    if number <= 1 {
        return told.push_str(HEADER);
    }
    match kind_in(line) {
        None => told.push_str(KINDS),
        Some(kind) => {
            let article = article_of(kind);
            let name = kind.name();
            let form = form_of(kind);
            write!(
                told,
                "{article} {name} event is written like this, without spaces or leading zeros:\n  {form}\n"
            )?;
            told.push_str(other_form_of(kind))
        }
    }
}

/// Returns the kind of event that the start of a line names.
fn kind_in(line: &str) -> Option<EventKind> {
    let (name, _) = line.strip_prefix("{\"e\":\"")?.split_once('"')?;
    EventKind::named(name)
}

/// Returns the article before the name of a kind.
fn article_of(kind: EventKind) -> &'static str {
    match kind {
        EventKind::Open | EventKind::End => "An",
        _ => "A",
    }
}

/// Returns how an event of a kind is written in format 1, if that differs.
fn other_form_of(kind: EventKind) -> &'static str {
    match kind {
        EventKind::Resume =>
            "In format 1 it has no number of faults: {\"e\":\"resume\",\"path\":\"0\",\"worker\":0}\n",
        _ => "",
    }
}

/// Returns an example event of a kind.
fn form_of(kind: EventKind) -> &'static str {
    match kind {
        EventKind::Take => "{\"e\":\"take\",\"path\":\"0.1\",\"worker\":0}",
        EventKind::Steal => "{\"e\":\"steal\",\"from\":0,\"path\":\"0.1\",\"worker\":1}",
        EventKind::Step => "{\"e\":\"step\",\"path\":\"0.1\"}",
        EventKind::Replenish => "{\"e\":\"replenish\",\"path\":\"0.1\"}",
        EventKind::Spawn => "{\"e\":\"spawn\",\"path\":\"0\"}",
        EventKind::Open => "{\"e\":\"open\",\"path\":\"0\"}",
        EventKind::Park => "{\"e\":\"park\",\"path\":\"0\"}",
        EventKind::End => "{\"e\":\"end\",\"path\":\"0.1\"}",
        EventKind::Pass => "{\"e\":\"pass\",\"number\":1,\"owner\":\"0\"}",
        EventKind::Resume => "{\"e\":\"resume\",\"faults\":0,\"path\":\"0\",\"worker\":0}",
    }
}

/// Adds when an event of the kind in a line is legal.
pub fn push_kind_rule(told: &mut String, line: &str) -> Result<(), AllocError> {
    match kind_in(line) {
        Some(kind) => told.push_str(rule_of(kind)),
        None => Ok(()),
    }
}

/// Returns when an event of a kind is legal.
fn rule_of(kind: EventKind) -> &'static str {
    match kind {
        EventKind::Take => "A worker that runs no task takes one from its own queue.\n",
        EventKind::Steal => "A worker steals a task from another worker's queue.\n",
        EventKind::Step =>
            "A running task takes a step if its next statement is neither an async nor a finish.\n",
        EventKind::Replenish =>
            "A running task is replenished if its next statement is an async and its weight is 1.\n",
        EventKind::Spawn =>
            "A running task spawns if its next statement is an async and its weight is at least 2.\n",
        EventKind::Open => "A running task opens a finish if that is its next statement.\n",
        EventKind::Park =>
            "A running task parks at the end of a finish that it opened; the root also parks at its own end.\n",
        EventKind::End =>
            "A running task other than the root ends when it has no statements left.\n",
        EventKind::Pass =>
            "A finish passes when its owner is parked and all tasks started in it have ended.\n",
        EventKind::Resume =>
            "A worker that runs no task resumes a task parked at a finish that has passed.
In format 2, `faults` is the number of faults that the finish has gathered.\n",
    }
}
