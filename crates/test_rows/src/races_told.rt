//! Comparison of the witness of a race in an object with `check --explain`.

use crate::values::{list_in, number_in, text_in};
use serde_json::Value;
use std::alloc::{AllocError, Global};

/// Returns whether an explanation of a race matches its witness: the same paths, with a line for
/// each step that has one, and the same reason why its sections share places.
pub fn is_explained(alloc: Global, race: &Value, explained: &str) -> Result<bool, AllocError> {
    let told = lines_of(alloc, race)?;
    let reason = reason_of(alloc, race)?;
    let mut wanted = told.lines();
    let mut is_way = false;
    for line in explained.lines() {
        if line.starts_with("  No finish ") {
            is_way = false;
        }
        if is_way {
            let Some(words) = wanted.next() else {
                return Ok(false);
            };
            if !line.ends_with(words) {
                return Ok(false);
            }
        }
        if line == "They may run in parallel:" {
            is_way = true;
        }
    }
    let common = common_section(alloc, race)?;
    let has_reason = explained.contains(reason.as_str()) && explained.contains(common.as_str());
    Ok(wanted.next().is_none() && has_reason)
}

/// Returns the expected text of the lines of a race's paths, each after two spaces: the path to the
/// access that is left pending, and the other path if it is longer than the access and different.
fn lines_of(alloc: Global, race: &Value) -> Result<String, AllocError> {
    let mut lines = String::new(alloc);
    let Some(witness) = race.get("witness") else {
        return Ok(lines);
    };
    let pending = text_in(witness, "pending");
    let way = list_in(witness, pending);
    let other = list_in(
        witness,
        if pending == "first" {
            "second"
        } else {
            "first"
        },
    );
    if text_in(witness, "meeting") == "turns" {
        if let Some(step) = way.first() {
            let label = number_in(step, "label").unwrap_or(0);
            if text_in(step, "kind") == "parts" {
                write!(
                    lines,
                    "  {label} continues while tasks from earlier turns may still be running\n"
                )?;
            } else {
                write!(
                    lines,
                    "  {label} loops while tasks from earlier iterations may still be running\n"
                )?;
            }
        }
    }
    push_way(&mut lines, way)?;
    let is_twice = race.get("first") == race.get("second") && way == other;
    if other.len() > 1 && !is_twice {
        lines.push_str("  and meanwhile\n")?;
        push_way(&mut lines, other)?;
    }
    Ok(lines)
}

/// Appends the text of the lines of a path.
fn push_way(lines: &mut String, way: &[Value]) -> Result<(), AllocError> {
    for (place, step) in way.iter().enumerate() {
        let inside = match way.get(place.saturating_add(1)) {
            Some(next) => text_in(next, "section"),
            None => "",
        };
        push_step(lines, step, inside)?;
    }
    Ok(())
}

/// Appends the text of the line of a step, if it has one. After it the section has another name.
fn push_step(lines: &mut String, step: &Value, inside: &str) -> Result<(), AllocError> {
    let label = number_in(step, "label").unwrap_or(0);
    let section = text_in(step, "section");
    match text_in(step, "kind") {
        "write" => write!(lines, "  {label} writes {section}\n"),
        "read" => write!(lines, "  {label} reads {section}\n"),
        "async" => write!(lines, "  {label} starts a task\n"),
        "call" => {
            let called = text_in(step, "calls");
            write!(
                lines,
                "  {label} calls {called}, with {section} as {inside}\n"
            )
        }
        "split" | "parts" if inside != section => {
            write!(lines, "  {label} names {inside}, a part of {section}\n")
        }
        _ => Ok(()),
    }
}

/// Returns the start of the reason why the sections of a race share places.
fn reason_of(alloc: Global, race: &Value) -> Result<String, AllocError> {
    let first = section_of(race, "first");
    let second = section_of(race, "second");
    let Some(sharing) = race
        .get("witness")
        .and_then(|witness| witness.get("sharing"))
    else {
        return String::from_str(alloc, "no reason");
    };
    match text_in(sharing, "kind") {
        "same" => format!(in alloc; "  Both access the section {first}. "),
        "first_is_part" => format!(in alloc; "  {first} is a part of {second}. "),
        "second_is_part" => format!(in alloc; "  {second} is a part of {first}. "),
        _ => { format!(in alloc; "  {first} and {second} come from different ") }
    }
}

/// Returns the end of the reason why two sections of which neither is part of the other share places:
/// it names the section of which both are parts. For other reasons it is empty.
fn common_section(alloc: Global, race: &Value) -> Result<String, AllocError> {
    let sharing = race
        .get("witness")
        .and_then(|witness| witness.get("sharing"));
    match sharing {
        Some(sharing) if text_in(sharing, "kind") == "of_splits" => {
            let common = text_in(sharing, "section");
            format!(in alloc; " {common}, so they may overlap. ")
        }
        _ => Ok(String::new(alloc)),
    }
}

/// Returns the section of an access of a race.
fn section_of<'v>(race: &'v Value, part: &str) -> &'v str {
    match race.get(part) {
        Some(access) => text_in(access, "section"),
        None => "",
    }
}
