//! What the explanation of a failure says, for the object of the failure.

use excerpts::escaped::Escaped;
use std::alloc::{AllocError, Global};
use syntax::TextPlace;

/// Where a failure is in the text of the program, why it is one, and what would be right.
#[derive(Drop)]
pub struct Reason {
    /// The position, if the explanation has one in the file of the program.
    pub place: Option<TextPlace>,
    /// The lines before the first suggestion, without the first line and its excerpt.
    pub reason: Option<String>,
    /// The suggestions.
    pub helps: Vec<String>,
}

impl Reason {
    /// Reads the explanation of a failure for the program in a file. An empty explanation says
    /// nothing.
    pub fn of(alloc: Global, file: &str, explanation: &str) -> Result<Reason, AllocError> {
        let lines: Vec<&str> = explanation.trim_start().lines().collect(alloc)?;
        match lines.as_slice() {
            [] => Ok(Reason {
                place: None,
                reason: None,
                helps: Vec::new(alloc),
            }),
            [heading, behind @ ..] => Reason::told(alloc, file, heading, behind),
        }
    }

    /// Reads the first line of an explanation, and the lines behind it.
    fn told(
        alloc: Global,
        file: &str,
        heading: &str,
        behind: &[&str],
    ) -> Result<Reason, AllocError> {
        Ok(Reason {
            place: place_in(alloc, heading, file)?,
            reason: reason_in(alloc, without_excerpt(behind))?,
            helps: helps_in(alloc, behind)?,
        })
    }
}

/// Returns the position in the first line of an explanation, if it is one in this file.
fn place_in(alloc: Global, heading: &str, file: &str) -> Result<Option<TextPlace>, AllocError> {
    let shown = Escaped(file);
    let file = format!(in alloc; "{shown}:")?;
    match heading.strip_prefix(file.as_str()) {
        Some(behind) => Ok(place_at_start(behind)),
        None => Ok(None),
    }
}

/// Returns the position with which a text starts, as in `2:13: Y2`, if it does.
fn place_at_start(text: &str) -> Option<TextPlace> {
    let (line, behind) = text.split_once(':')?;
    let (column, _) = behind.split_once(':')?;
    let line = u32::from_str_radix(line, 10).ok()?;
    let column = u32::from_str_radix(column, 10).ok()?;
    Some(TextPlace { line, column })
}

/// Returns lines without the line of a text and the caret under it with which they start, if they
/// do.
fn without_excerpt<'l, 't>(lines: &'l [&'t str]) -> &'l [&'t str] {
    match lines {
        [_, caret, behind @ ..] => {
            if caret.trim_start().starts_with('|') {
                behind
            } else {
                lines
            }
        }
        _ => lines,
    }
}

/// Returns the lines before the first suggestion, if there are any.
fn reason_in(alloc: Global, lines: &[&str]) -> Result<Option<String>, AllocError> {
    let mut told = String::new(alloc);
    for line in lines {
        if line.starts_with(HELP) {
            break;
        }
        if !told.is_empty() {
            told.push('\n')?;
        }
        told.push_str(line)?;
    }
    if told.is_empty() {
        Ok(None)
    } else {
        Ok(Some(told))
    }
}

/// Returns the suggestions among lines.
fn helps_in(alloc: Global, lines: &[&str]) -> Result<Vec<String>, AllocError> {
    let mut helps = Vec::new(alloc);
    for line in lines {
        if let Some(help) = line.strip_prefix(HELP) {
            helps.push(String::from_str(alloc, help)?)?;
        }
    }
    Ok(helps)
}

/// The start of a suggestion.
const HELP: &str = "help: ";
