//! An object, as the text that the command writes without `--format json`.

use crate::values::{list_in, number_in};
use serde_json::Value;
use std::alloc::{AllocError, Global};

/// Returns an answer's object as the text of the answer. The order of the arrays is that in
/// `wanted`.
pub fn plain_of(alloc: Global, object: &Value, wanted: &str) -> Result<String, AllocError> {
    let mut text = String::new(alloc);
    if let Some(procedures) = number_in(object, "procedures") {
        let labels = number_in(object, "labels").unwrap_or(0);
        write!(text, "accepted: {procedures} procedures, {labels} labels\n")?;
    }
    if object.get("stopped").and_then(Value::as_bool) == Some(true) {
        text.push_str("stopped\n")?;
    }
    push_cost(&mut text, object)?;
    push_lines(&mut text, list_in(object, "pairs"))?;
    push_lines(&mut text, list_in(object, "lines"))?;
    for fault in list_in(object, "faults") {
        push_fault(&mut text, fault)?;
    }
    for line in wanted.lines() {
        if let Some(array) = line.strip_prefix("array ") {
            push_array(&mut text, object, array.split(' ').next().unwrap_or(""))?;
        }
    }
    Ok(text)
}

/// Appends the lines of a cost, if it is one.
fn push_cost(text: &mut String, object: &Value) -> Result<(), AllocError> {
    let (Some(work), Some(span)) = (number_in(object, "work"), number_in(object, "span")) else {
        return Ok(());
    };
    let tasks = number_in(object, "tasks").unwrap_or(0);
    let deepest = number_in(object, "deepest_nest").unwrap_or(0);
    let finishes = number_in(object, "finishes").unwrap_or(0);
    let copied = number_in(object, "copied_places").unwrap_or(0);
    let small = number_in(object, "small_tasks").unwrap_or(0);
    write!(text, "work: {work}\nspan: {span}\nparallelism: ")?;
    push_quotient(text, work, span)?;
    write!(
        text,
        "tasks: {tasks}\ndeepest nest: {deepest}\nfinishes: {finishes}\ncopied places: {copied}\n"
    )?;
    text.push_str("steps per task: ")?;
    push_quotient(text, work, tasks)?;
    write!(text, "tasks under 1000 steps: {small}\n")?;
    if tasks >= 100 && small > tasks / 2 {
        text.push_str(
            "help: most tasks are too small to pay; stop dividing sooner, or take larger pieces\n",
        )?;
    }
    Ok(())
}

/// Appends the line of a quotient with two digits, or `-` if the second number is 0.
fn push_quotient(text: &mut String, first: u64, second: u64) -> Result<(), AllocError> {
    match (first.checked_div(second), first.checked_rem(second)) {
        (Some(whole), Some(rest)) => {
            let hundredths = rest.saturating_mul(100).checked_div(second).unwrap_or(0);
            let tenth = hundredths / 10;
            let hundredth = hundredths % 10;
            write!(text, "{whole}.{tenth}{hundredth}\n")
        }
        _ => text.push_str("-\n"),
    }
}

/// Appends a line for each list of numbers.
fn push_lines(text: &mut String, lines: &[Value]) -> Result<(), AllocError> {
    for line in lines {
        let mut before = "";
        if let Some(numbers) = line.as_array() {
            for number in numbers {
                push_number(text, before, number)?;
                before = " ";
            }
        }
        text.push('\n')?;
    }
    Ok(())
}

/// Appends a number after a text, or `?` if the number isn't one of 64 bits.
fn push_number(text: &mut String, before: &str, number: &Value) -> Result<(), AllocError> {
    match number.as_i64() {
        Some(number) => write!(text, "{before}{number}"),
        None => text.push('?'),
    }
}

/// Appends the line of a fault.
fn push_fault(text: &mut String, fault: &Value) -> Result<(), AllocError> {
    let path = fault.get("path").and_then(Value::as_str).unwrap_or("");
    let label = number_in(fault, "label").unwrap_or(0);
    let kind = fault.get("kind").and_then(Value::as_str).unwrap_or("");
    write!(text, "fault {path} at {label}: {kind}")?;
    if let Some(number) = fault.get("number").and_then(Value::as_i64) {
        write!(text, " {number}")?;
    }
    text.push('\n')
}

/// Appends the line of an array.
fn push_array(text: &mut String, object: &Value, name: &str) -> Result<(), AllocError> {
    write!(text, "array {name}")?;
    if let Some(arrays) = object.get("arrays") {
        for number in list_in(arrays, name) {
            push_number(text, " ", number)?;
        }
    }
    text.push('\n')
}

/// Returns whether each label of an object has its position in the listing.
pub fn is_placed(object: &Value, listing: &str) -> bool {
    if let Some(race) = object.get("race") {
        for part in ["first", "second"] {
            if !is_race_part_placed(race, part, listing) {
                return false;
            }
        }
    }
    for fault in list_in(object, "faults") {
        if !is_at(fault, listing) {
            return false;
        }
    }
    is_at(object, listing)
}

/// Returns whether an access of a race, and each step of the path to it, has its position in the
/// listing.
fn is_race_part_placed(race: &Value, part: &str, listing: &str) -> bool {
    if let Some(witness) = race.get("witness") {
        for step in list_in(witness, part) {
            if !is_at(step, listing) {
                return false;
            }
        }
    }
    match race.get(part) {
        Some(access) => is_at(access, listing),
        None => false,
    }
}

/// Returns whether the label of an object, if it has one, has its position in the listing.
fn is_at(object: &Value, listing: &str) -> bool {
    let Some(label) = number_in(object, "label") else {
        return true;
    };
    match (number_in(object, "line"), number_in(object, "column")) {
        (Some(line), Some(column)) => place_in(listing, label) == Some((line, column)),
        _ => false,
    }
}

/// Returns the line and the column of a label in a listing.
fn place_in(listing: &str, label: u64) -> Option<(u64, u64)> {
    for shown in listing.lines() {
        let known = shown.get(10..15).map(str::trim);
        if known.and_then(|known| known.parse::<u64>().ok()) == Some(label) {
            let (line, column) = shown.get(..10)?.split_once(':')?;
            return Some((
                line.trim().parse::<u64>().ok()?,
                column.trim().parse::<u64>().ok()?,
            ));
        }
    }
    None
}
