//! How tasks move from lane to lane.

use crate::elements::{LineElement, Px, Rectangle, push_line, push_rectangle};
use crate::sheet::{BAR_HEIGHT, Sheet};
use std::alloc::{AllocError, Global};
use trace_layout::axis::LEFT;
use trace_layout::moves::{Steal, Taking};

/// The maximum number of steals that have an arrow each.
pub const ARROWS: usize = 500;

/// The number of intervals of the axis in which steals are counted beyond that.
const STRETCHES: usize = 200;

/// Adds an arrow for each steal. If there are too many, adds a row of ticks whose height is the
/// number of steals in an interval.
pub fn push_steals(
    text: &mut String,
    alloc: Global,
    sheet: Sheet,
    steals: &[Steal],
) -> Result<(), AllocError> {
    if steals.len() > ARROWS {
        return push_ticks(text, alloc, sheet, steals);
    }
    for steal in steals {
        push_line(text, "steal", &arrow(sheet, steal))?;
    }
    Ok(())
}

/// Returns the arrow of a steal: between the bars of the two lanes.
fn arrow(sheet: Sheet, steal: &Steal) -> LineElement {
    let x = sheet.axis.middle(steal.at);
    let from = sheet.bar(steal.from);
    let to = sheet.bar(steal.worker);
    if from < to {
        return LineElement::upright(x, from + BAR_HEIGHT + 60, to - 30);
    }
    LineElement::upright(x, from.saturating_sub(60), to + BAR_HEIGHT + 40)
}

/// Adds ticks above the lanes, whose height is the number of steals in each interval of the axis.
fn push_ticks(
    text: &mut String,
    alloc: Global,
    sheet: Sheet,
    steals: &[Steal],
) -> Result<(), AllocError> {
    let counts = counts(alloc, sheet, steals)?;
    let most = counts
        .iter()
        .fold(0usize, |most, count| most.max(*count))
        .max(1);
    for (stretch, count) in counts.iter().enumerate() {
        let height = (*count as u128 * 200 / most as u128).min(200) as u32;
        if height > 0 {
            let place = Rectangle {
                x: LEFT + 75 * stretch.min(STRETCHES) as u32,
                y: 720 - height,
                width: 60,
                height,
            };
            push_rectangle(text, "tick", &place)?;
        }
    }
    Ok(())
}

/// Returns the number of steals in each interval of 7.5 pixels.
fn counts(alloc: Global, sheet: Sheet, steals: &[Steal]) -> Result<Vec<usize>, AllocError> {
    let mut counts = vec![in alloc; 0usize; STRETCHES]?;
    for steal in steals {
        let stretch = sheet.axis.x(steal.at).saturating_sub(LEFT) / 75;
        if let Some(count) = counts.get_mut(stretch as usize) {
            *count = count.saturating_add(1);
        }
    }
    Ok(counts)
}

/// Adds a thin curve, from where a task came into the queue to the start of the bar of its take.
pub fn push_taking(text: &mut String, sheet: Sheet, taking: &Taking) -> Result<(), AllocError> {
    let x1 = sheet.axis.middle(taking.came.at);
    let y1 = sheet.bar(taking.came.worker) + BAR_HEIGHT + 40;
    let x2 = sheet.axis.x(taking.at) + 10;
    let y2 = sheet.bar(taking.worker) + 60;
    let from_x = Px(x1);
    let from_y = Px(y1);
    let down = Px(y1 + 140);
    let before = Px(x2 - 110);
    let up = Px(y2 - 140);
    let to_x = Px(x2);
    let to_y = Px(y2);
    write!(
        text,
        "<path class=\"take\" d=\"M{from_x},{from_y} C{from_x},{down} {before},{up} {to_x},{to_y}\"/>\n"
    )
}
