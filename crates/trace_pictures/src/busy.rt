//! The graph of the number of running tasks.

use crate::elements::{LineElement, Px, push_line, push_words};
use crate::sheet::Sheet;
use std::alloc::{AllocError, Global};
use trace_layout::axis::LEFT;

/// The minimum distance between two heights that are drawn.
const NEXT: u32 = 5;

/// Adds the graph, 10 pixels for each worker, with its scale.
pub fn push_busy(
    text: &mut String,
    alloc: Global,
    sheet: Sheet,
    in_hands: &[usize],
) -> Result<(), AllocError> {
    push_graph(text, sheet, in_hands)?;
    let floor = sheet.busy_line();
    let right = sheet.axis.x(sheet.axis.events);
    push_line(text, "floor", &LineElement::level(LEFT, right, floor))?;
    push_words(text, "worker", LEFT - 130, floor, "busy")?;
    for number in 1..sheet.workers + 1 {
        let words = format!(in alloc; "{number}")?;
        push_words(
            text,
            "tall",
            LEFT - 40,
            floor.saturating_sub(100 * number) + 40,
            words.as_str(),
        )?;
    }
    Ok(())
}

/// Adds only the graph, as one outline.
fn push_graph(text: &mut String, sheet: Sheet, in_hands: &[usize]) -> Result<(), AllocError> {
    let floor = sheet.busy_line();
    let left = Px(LEFT);
    let low = Px(floor);
    write!(text, "<path class=\"busy\" d=\"M{left},{low}")?;
    let mut drawn: usize = 0;
    let mut from = 0;
    for (number, count) in in_hands.iter().enumerate() {
        let x = sheet.axis.x(number);
        if *count != drawn && x >= from {
            let along = Px(x);
            let up = Px(floor.saturating_sub(100 * (*count).min(64) as u32));
            write!(text, " H{along} V{up}")?;
            drawn = *count;
            from = x + NEXT;
        }
    }
    let right = Px(sheet.axis.x(sheet.axis.events));
    write!(text, " H{right} V{low} z\"/>\n")
}
