//! The bars of tasks, and what is drawn in them.

use crate::elements::{
    LineElement, Rectangle, push_line, push_rectangle, push_titled_rectangle, push_triangle,
    push_words,
};
use crate::sheet::{BAR_HEIGHT, Sheet};
use crate::statements::Statements;
use events::event::Event;
use std::alloc::{AllocError, Global};
use trace_layout::spells::{Spell, SpellEnd, Spells};
use trace_numbers::counts::is_step;
use trace_text::kind::EventKind;

/// The number of colours for depths.
const COLOURS: usize = 8;

/// Returns the number of the colour for a task's depth.
pub fn colour(spell: &Spell) -> usize {
    spell.path.turns.len() % COLOURS
}

/// Adds the bars of all spells.
pub fn push_bars(
    text: &mut String,
    alloc: Global,
    sheet: Sheet,
    spells: &Spells,
    statements: Statements<'_>,
) -> Result<(), AllocError> {
    let firsts = statements.first_labels(alloc, spells)?;
    for (spell, label) in spells.all.iter().zip(firsts.iter()) {
        push_bar(text, alloc, sheet, spell, statements.described(*label))?;
    }
    Ok(())
}

/// Adds a bar, with the task's path at its left if it fits. The tooltip has its first statement.
fn push_bar(
    text: &mut String,
    alloc: Global,
    sheet: Sheet,
    spell: &Spell,
    statement: Option<&str>,
) -> Result<(), AllocError> {
    let x = sheet.axis.x(spell.first);
    let y = sheet.bar(spell.worker);
    let width = sheet.axis.end(spell.last).saturating_sub(x).max(6);
    let place = Rectangle {
        x,
        y,
        width,
        height: BAR_HEIGHT,
    };
    let path = &spell.path;
    let first = spell.first;
    let last = spell.last;
    let own = spell.own;
    let mut title = format!(in alloc;
        "task {path}, events {first} to {last}, {own} by the task itself"
    )?;
    if let Some(statement) = statement {
        write!(title, ", from {statement}")?;
    }
    let shade = if sheet.axis.is_wide() { "p" } else { "d" };
    let colour = colour(spell);
    let class = format!(in alloc; "{shade}{colour}")?;
    push_titled_rectangle(text, class.as_str(), &place, title.as_str())?;
    let name = format!(in alloc; "{path}")?;
    if name.len() <= (width / 70) as usize {
        push_words(text, "path", x + 30, y + 110, name.as_str())?;
    }
    Ok(())
}

/// Adds what the events do in their bars, if the columns are wide enough.
pub fn push_events(
    text: &mut String,
    alloc: Global,
    sheet: Sheet,
    events: &[Event],
    spells: &Spells,
    statements: Statements<'_>,
) -> Result<(), AllocError> {
    for (number, event) in events.iter().enumerate() {
        if let Some(spell) = spells.of_event(number) {
            if is_step(event) {
                let title = step_title(alloc, number, event, spell, statements.at(number))?;
                push_cell(text, alloc, sheet, number, spell, title.as_str())?;
            }
            push_mark(text, sheet, number, event, spell)?;
        }
    }
    push_edges(text, sheet, spells)
}

/// Returns the tooltip of a step: its number, its kind, its task, and its statement if it is known.
fn step_title(
    alloc: Global,
    number: usize,
    event: &Event,
    spell: &Spell,
    statement: Option<&str>,
) -> Result<String, AllocError> {
    let kind = EventKind::of(event).name();
    let path = &spell.path;
    match statement {
        Some(statement) => format!(in alloc; "{number} {kind} {path}, at {statement}"),
        None => format!(in alloc; "{number} {kind} {path}"),
    }
}

/// Adds the cell of a step.
fn push_cell(
    text: &mut String,
    alloc: Global,
    sheet: Sheet,
    number: usize,
    spell: &Spell,
    title: &str,
) -> Result<(), AllocError> {
    let x = sheet.axis.x(number);
    let place = Rectangle {
        x: x + 5,
        y: sheet.bar(spell.worker) + 140,
        width: sheet.axis.end(number).saturating_sub(x + 10).max(6),
        height: 150,
    };
    let colour = colour(spell);
    let class = format!(in alloc; "d{colour}")?;
    push_titled_rectangle(text, class.as_str(), &place, title)
}

/// Adds the mark of a spawn, an open or a park.
fn push_mark(
    text: &mut String,
    sheet: Sheet,
    number: usize,
    event: &Event,
    spell: &Spell,
) -> Result<(), AllocError> {
    let middle = sheet.axis.middle(number);
    let y = sheet.bar(spell.worker);
    match event {
        Event::Spawn { .. } => push_triangle(text, middle.saturating_sub(40), y + 310),
        Event::Open { .. } => push_words(text, "mark", middle, y + 400, "["),
        Event::Park { .. } => push_words(text, "mark", middle, y + 270, "]"),
        _ => Ok(()),
    }
}

/// Adds the black edges of the bars of tasks that end.
fn push_edges(text: &mut String, sheet: Sheet, spells: &Spells) -> Result<(), AllocError> {
    for spell in &spells.all {
        if matches!(spell.ending, SpellEnd::Ended) {
            let x = sheet.axis.end(spell.last).saturating_sub(15);
            let y = sheet.bar(spell.worker);
            push_line(text, "edge", &LineElement::upright(x, y, y + BAR_HEIGHT))?;
        }
    }
    Ok(())
}

/// A part of the longest chain that is drawn as one line.
#[derive(Clone, Copy)]
struct Run {
    /// The number of its spell.
    place: usize,
    first: usize,
    last: usize,
}

/// Underlines what is on the longest chain: each cell, or, with narrow columns, each stretch in one
/// spell.
pub fn push_chain(
    text: &mut String,
    sheet: Sheet,
    chain: &[bool],
    spells: &Spells,
) -> Result<(), AllocError> {
    let mut run: Option<Run> = None;
    for (number, place) in spells.places.iter().enumerate() {
        let is_on = matches!(chain.get(number), Some(true));
        if let (true, Some(place)) = (is_on, place) {
            let next = following(run, *place, number, sheet);
            if let (Some(run), true) = (run, next.first == number) {
                push_run(text, sheet, run, spells)?;
            }
            run = Some(next);
        }
    }
    match run {
        Some(run) => push_run(text, sheet, run, spells),
        None => Ok(()),
    }
}

/// Returns the run that an event on the chain extends, or a new one.
fn following(run: Option<Run>, place: usize, number: usize, sheet: Sheet) -> Run {
    match run {
        Some(run) if run.place == place && !sheet.axis.is_wide() => Run {
            place,
            first: run.first,
            last: number,
        },
        _ => Run {
            place,
            first: number,
            last: number,
        },
    }
}

/// Adds the line below a run.
fn push_run(text: &mut String, sheet: Sheet, run: Run, spells: &Spells) -> Result<(), AllocError> {
    let Some(spell) = spells.all.get(run.place) else {
        return Ok(());
    };
    let gap = if sheet.axis.is_wide() { 5 } else { 0 };
    let x = sheet.axis.x(run.first) + gap;
    let place = Rectangle {
        x,
        y: sheet.bar(spell.worker) + BAR_HEIGHT - 30,
        width: sheet.axis.end(run.last).saturating_sub(x + gap).max(6),
        height: 30,
    };
    push_rectangle(text, "chain", &place)
}
