//! The legend: the meaning of colours and marks.

use crate::arrows::ARROWS;
use crate::bars::colour;
use crate::elements::{
    LineElement, Rectangle, push_circle, push_line, push_rectangle, push_triangle, push_words,
};
use crate::sheet::Sheet;
use std::alloc::{AllocError, Global};
use trace_layout::axis::LEFT;
use trace_layout::spells::Spell;

/// The width of the picture that fits all of it.
pub const LEGEND_WIDTH: u32 = 9600;

/// Adds both lines: the depths that occur, and the marks.
pub fn push_legend(
    text: &mut String,
    alloc: Global,
    sheet: Sheet,
    spells: &[Spell],
    steals: usize,
    has_rescue: bool,
) -> Result<(), AllocError> {
    push_depths(text, alloc, sheet, spells)?;
    push_marks(text, sheet, steals)?;
    if has_rescue {
        return push_rescue(text, sheet.legend() + 220);
    }
    Ok(())
}

/// Adds the colours of the depths.
fn push_depths(
    text: &mut String,
    alloc: Global,
    sheet: Sheet,
    spells: &[Spell],
) -> Result<(), AllocError> {
    let y = sheet.legend();
    let deepest = spells.iter().fold(0, |most, spell| colour(spell).max(most));
    for depth in 0..deepest.min(7) + 1 {
        let x = LEFT + 720 * depth as u32;
        let class = format!(in alloc; "d{depth}")?;
        let place = Rectangle {
            x,
            y,
            width: 140,
            height: 120,
        };
        push_rectangle(text, class.as_str(), &place)?;
        let words = format!(in alloc; "depth {depth}")?;
        push_words(text, "path", x + 180, y + 100, words.as_str())?;
    }
    Ok(())
}

/// Adds the marks that the picture has: those of single events only if the columns are wide enough.
fn push_marks(text: &mut String, sheet: Sheet, steals: usize) -> Result<(), AllocError> {
    let y = sheet.legend() + 220;
    let chain = Rectangle {
        x: 960,
        y: y + 70,
        width: 140,
        height: 30,
    };
    push_rectangle(text, "chain", &chain)?;
    push_words(text, "path", 1140, y + 100, "longest chain (span)")?;
    push_steal(text, y, steals)?;
    push_line(text, "wait", &LineElement::level(3060, 3320, y + 60))?;
    push_words(text, "path", 3380, y + 100, "owner waits")?;
    if sheet.axis.is_wide() {
        push_event_marks(text, y)?;
    }
    Ok(())
}

/// Adds the mark of a steal: an arrow, or a tick if steals are counted.
fn push_steal(text: &mut String, y: u32, steals: usize) -> Result<(), AllocError> {
    if steals > ARROWS {
        let tick = Rectangle {
            x: 2480,
            y,
            width: 60,
            height: 120,
        };
        push_rectangle(text, "tick", &tick)?;
    } else {
        let middle = y.saturating_add(60);
        push_line(text, "steal", &LineElement::level(2360, 2580, middle))?;
    }
    push_words(text, "path", 2640, y.saturating_add(100), "steal")
}

/// Adds the mark of a finish whose faults a rescue has dropped.
fn push_rescue(text: &mut String, y: u32) -> Result<(), AllocError> {
    push_circle(text, "rescue", 8640, y.saturating_add(60))?;
    push_words(text, "path", 8720, y.saturating_add(100), "rescue")
}

/// Adds the marks of single events.
fn push_event_marks(text: &mut String, y: u32) -> Result<(), AllocError> {
    let words = y.saturating_add(100);
    let middle = y.saturating_add(60);
    push_triangle(text, 4200, y.saturating_add(20))?;
    push_words(text, "path", 4320, words, "spawn")?;
    push_words(text, "mark", 4780, words, "[")?;
    push_words(text, "path", 4880, words, "finish opened")?;
    push_words(text, "mark", 5760, words, "]")?;
    push_circle(text, "owner", 5880, middle)?;
    push_words(text, "path", 5980, words, "owner parked")?;
    push_line(
        text,
        "edge",
        &LineElement::upright(6820, y, y.saturating_add(130)),
    )?;
    push_words(text, "path", 6900, words, "task's end")?;
    push_circle(text, "back", 7660, middle)?;
    push_words(text, "path", 7740, words, "weight back")
}
