//! The lines above the picture.

use crate::elements::push_words;
use std::alloc::{AllocError, Global};
use trace_layout::axis::LEFT;
use trace_layout::finishes::Finish;
use trace_numbers::summary::TraceSummary;
use trace_numbers::text::push_parallelism;

/// The maximum number of letters of a heading.
const LETTERS: usize = 150;

/// Returns the heading, with two dots for what doesn't fit.
pub fn heading_of(alloc: Global, heading: &str) -> Result<String, AllocError> {
    let mut text = String::new(alloc);
    for (number, letter) in heading.chars().enumerate() {
        if number >= LETTERS {
            text.push_str(" ..")?;
            return Ok(text);
        }
        text.push(letter)?;
    }
    Ok(text)
}

/// Returns `4 workers · 96 events · 8 tasks · 2 finish scopes · 15 steals · work 61 steps · span 17
/// steps · parallelism 3.59`, and ` · the trace ends early` if it does.
pub fn numbers_of(
    alloc: Global,
    summary: &TraceSummary,
    workers: u32,
    events: usize,
    finishes: &[Finish],
) -> Result<String, AllocError> {
    let mut text = String::new(alloc);
    push_count(&mut text, "", workers as usize, "worker")?;
    push_count(&mut text, " · ", events, "event")?;
    push_count(&mut text, " · ", summary.tasks, "task")?;
    push_count(&mut text, " · ", finishes.len(), "finish scope")?;
    push_count(&mut text, " · ", summary.steals, "steal")?;
    push_count(&mut text, " · work ", summary.steps, "step")?;
    push_count(&mut text, " · span ", summary.span, "step")?;
    text.push_str(" · parallelism ")?;
    push_parallelism(&mut text, summary.steps, summary.span)?;
    // Remove the newline at the end.
    let _ = text.pop();
    if !is_whole(finishes) {
        text.push_str(" · the trace ends early")?;
    }
    Ok(text)
}

/// Returns whether a trace leads to the end of its run: the root's scope, the first one, has passed.
fn is_whole(finishes: &[Finish]) -> bool {
    match finishes.first() {
        Some(root) => root.is_passed,
        None => false,
    }
}

/// Adds ` · 96 events`.
pub fn push_count(
    text: &mut String,
    before: &str,
    count: usize,
    what: &str,
) -> Result<(), AllocError> {
    let ending = if count == 1 { "" } else { "s" };
    write!(text, "{before}{count} {what}{ending}")
}

/// Adds both lines.
pub fn push_heading(text: &mut String, heading: &str, numbers: &str) -> Result<(), AllocError> {
    push_words(text, "heading", LEFT, 240, heading)?;
    push_words(text, "numbers", LEFT, 430, numbers)
}
