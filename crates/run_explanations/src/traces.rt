//! Traces that no run of the program has.

use crate::trace_lines::{push_kind_rule, push_line_form};
use excerpts::heading::Heading;
use std::alloc::{AllocError, Global};
use syntax::TextPlace;

/// What is wrong with a trace.
#[derive(Clone, Copy, PartialEq, Eq, Debug)]
pub enum Wrong {
    /// The line with this number, from 1, is malformed: 1 for an empty text.
    Line(usize),
    /// The event with this number, from 0, is illegal: 0 if a trace starts with the end of a task.
    Event(usize),
}

/// Returns the text after the line that reports what is wrong with a trace.
pub fn explained_trace(
    alloc: Global,
    trace: &str,
    wrong: Wrong,
    heading: Heading<'_>,
) -> Result<String, AllocError> {
    let mut told = String::new(alloc);
    match wrong {
        Wrong::Line(number) => push_no_line(&mut told, trace, number, heading)?,
        Wrong::Event(event) => push_event(&mut told, trace, event, heading)?,
    }
    Ok(told)
}

/// Explains a malformed line.
fn push_no_line(
    told: &mut String,
    trace: &str,
    number: usize,
    heading: Heading<'_>,
) -> Result<(), AllocError> {
    heading.push_excerpt(told, trace, beginning(number))?;
    if is_program(trace) {
        return told.push_str(PROGRAM);
    }
    if is_cut(trace, number) {
        told.push_str("The last line has no line feed at its end.\n")?;
    }
    push_line_form(told, line_of(trace, number), number)?;
    told.push_str("help: record the trace again with `run --trace`.\n")
}

const PROGRAM: &str = "This is a program, and no trace.
help: name the program first and the trace second, as in `afx view p.afx run.trace`.
";

/// Returns whether a text looks like a program: it doesn't start as a trace, and a line starts with
/// `main` or `proc`.
fn is_program(text: &str) -> bool {
    if text.starts_with('{') {
        return false;
    }
    for line in text.lines() {
        if line.starts_with("main") || line.starts_with("proc") {
            return true;
        }
    }
    false
}

/// Explains an illegal event.
fn push_event(
    told: &mut String,
    trace: &str,
    event: usize,
    heading: Heading<'_>,
) -> Result<(), AllocError> {
    let number = event.saturating_add(2);
    heading.push_excerpt(told, trace, beginning(number))?;
    told.push_str("All earlier events are legal for this program and input; this one isn't.\n")?;
    push_kind_rule(told, line_of(trace, number))?;
    told.push_str(
        "help: use the program and input of the traced run, or record the trace again with `run --trace`.\n",
    )
}

/// Returns the beginning of a line.
fn beginning(number: usize) -> TextPlace {
    TextPlace {
        line: u32::try_from(number).unwrap_or(u32::MAX),
        column: 1,
    }
}

/// Returns the line with a number, from 1, or an empty text past the last line.
fn line_of(text: &str, number: usize) -> &str {
    text.lines().nth(number.saturating_sub(1)).unwrap_or("")
}

/// Returns whether a line is the last one and has no line feed.
fn is_cut(text: &str, number: usize) -> bool {
    !text.is_empty() && !text.ends_with('\n') && text.lines().count() == number
}
