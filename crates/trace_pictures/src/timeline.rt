//! The timeline of a trace, as SVG.

ghost use Rattle.std.specs.Prelude.{◌≤◌};

use crate::arrows::{push_steals, push_taking};
use crate::bars::{push_bars, push_chain, push_events};
use crate::brackets::brackets_of;
use crate::busy::push_busy;
use crate::elements::{Rectangle, push_rectangle};
use crate::frame::{push_beginning, push_grid, push_lanes};
use crate::heading::{heading_of, numbers_of, push_heading};
use crate::legend::{LEGEND_WIDTH, push_legend};
use crate::sheet::Sheet;
use crate::statements::Statements;
use events::event::Event;
use std::alloc::{AllocError, Global};
use trace_layout::axis::{Axis, LEFT};
use trace_layout::layout::{Layout, layout_of};
use trace_numbers::summary::{TraceSummary, summarize};
use trace_text::header::Header;

/// Returns the picture of a trace under a heading: a lane for each worker with the tasks that it
/// ran, along an axis of events; below them finishes, the number of running tasks, and a legend.
/// Tooltips show the statements. Any list of events has a picture.
pub fn draw(
    alloc: Global,
    heading: &str,
    header: &Header,
    events: &[Event],
    statements: Statements<'_>,
) -> Result<String, AllocError> {
    let layout = layout_of(alloc, events)?;
    let summary = summarize(alloc, events)?;
    let axis = Axis {
        events: events.len(),
    };
    let brackets = brackets_of(alloc, axis, &layout.finishes.all, statements)?;
    let sheet = Sheet {
        axis,
        workers: layout.lanes(header.workers),
        rows: brackets.count(),
    };
    let heading = heading_of(alloc, heading)?;
    let numbers = numbers_of(
        alloc,
        &summary,
        header.workers,
        events.len(),
        &layout.finishes.all,
    )?;
    let mut text = String::new(alloc);
    push_paper(&mut text, sheet, heading.len(), numbers.len())?;
    push_heading(&mut text, heading.as_str(), numbers.as_str())?;
    push_lanes(&mut text, alloc, sheet, &summary.by_worker)?;
    push_grid(&mut text, alloc, sheet)?;
    push_tasks(&mut text, alloc, sheet, events, &layout, statements)?;
    push_steals(&mut text, alloc, sheet, &layout.moves.steals)?;
    brackets.push(&mut text, alloc, sheet, &layout.finishes, statements)?;
    push_busy(&mut text, alloc, sheet, &layout.in_hands)?;
    push_legend(
        &mut text,
        alloc,
        sheet,
        &layout.spells.all,
        layout.moves.steals.len(),
        statements.has_rescue(),
    )?;
    text.push_str("</svg>\n")?;
    Ok(text)
}

/// Adds the paper, wide enough for all events and for lines with this many letters above them.
fn push_paper(
    text: &mut String,
    sheet: Sheet,
    heading: usize,
    numbers: usize,
) -> Result<(), AllocError> {
    let width = width_of(sheet, heading, numbers);
    push_beginning(text, width, sheet.height())?;
    push_rectangle(
        text,
        "paper",
        &Rectangle {
            x: 0,
            y: 0,
            width,
            height: sheet.height(),
        },
    )
}

/// Returns the width of the paper.
fn width_of(sheet: Sheet, heading: usize, numbers: usize) -> u32
    ensures { result ≤ 16200 }
{
    let lines = heading
        .saturating_mul(95)
        .max(numbers.saturating_mul(65))
        .min(15000) as u32;
    sheet
        .axis
        .x(sheet.axis.events)
        .max(LEFT + lines)
        .max(LEGEND_WIDTH)
        + 240
}

/// Adds the tasks in the lanes. If the columns are wide enough, also adds their events, and how
/// they were taken.
fn push_tasks(
    text: &mut String,
    alloc: Global,
    sheet: Sheet,
    events: &[Event],
    layout: &Layout,
    statements: Statements<'_>,
) -> Result<(), AllocError> {
    if sheet.axis.is_wide() {
        for taking in &layout.moves.takings {
            push_taking(text, sheet, taking)?;
        }
    }
    push_bars(text, alloc, sheet, &layout.spells, statements)?;
    if sheet.axis.is_wide() {
        push_events(text, alloc, sheet, events, &layout.spells, statements)?;
    }
    push_chain(text, sheet, &layout.chain, &layout.spells)
}
