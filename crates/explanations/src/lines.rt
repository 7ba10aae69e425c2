//! The lines of a way next to the lines of the program.

use crate::way::WayLine;
use excerpts::source::line_of;
use excerpts::statements::PlacedStatements;
use std::alloc::AllocError;
use types::code::Label;

/// The number of characters that are shown of a line of the program.
const SHOWN: usize = 44;

/// Returns the line at which a statement starts, without white space at its end, and the number of
/// characters before the statement.
fn line_at<'t>(statements: &PlacedStatements<'t>, label: Label) -> (&'t str, usize) {
    match statements.place(label) {
        Some(place) => {
            let before = usize::try_from(place.column).unwrap_or(1).saturating_sub(1);
            (line_of(statements.text, place).trim_end(), before)
        }
        None => ("", 0),
    }
}

/// Adds each line after the line of the program at which its statement starts.
pub fn push_lines(
    told: &mut String,
    statements: &PlacedStatements<'_>,
    lines: &[WayLine],
) -> Result<(), AllocError> {
    let mut width: usize = 0;
    for line in lines {
        width = width.max(shown_length(statements, line.label));
    }
    for line in lines {
        push_shown(told, statements, line.label, width)?;
        told.push_str("  ")?;
        told.push_str(line.words.as_str())?;
        told.push('\n')?;
    }
    Ok(())
}

/// Adds the number of a statement's line and its text from the statement on, padded with spaces.
fn push_shown(
    told: &mut String,
    statements: &PlacedStatements<'_>,
    label: Label,
    width: usize,
) -> Result<(), AllocError> {
    let number = match statements.place(label) {
        Some(place) => place.line,
        None => 0,
    };
    write!(told, "{number:>6}   ")?;
    let (line, before) = line_at(statements, label);
    let mut left = width;
    for character in line.chars().skip(before).take(SHOWN) {
        told.push(if character.is_control() {
            ' '
        } else {
            character
        })?;
        left = left.saturating_sub(1);
    }
    for _ in 0..left {
        told.push(' ')?;
    }
    Ok(())
}

/// Returns the number of characters that are shown of a statement's line.
fn shown_length(statements: &PlacedStatements<'_>, label: Label) -> usize {
    let (line, before) = line_at(statements, label);
    let mut length: usize = 0;
    for _ in line.chars().skip(before).take(SHOWN) {
        length = length.saturating_add(1);
    }
    length
}
