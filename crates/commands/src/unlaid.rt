//! Explanations for texts that aren't formatted.

use crate::programs::program_of;
use crate::unread::place_behind;
use excerpts::heading::Heading;
use layout::laid_out;
use std::alloc::{AllocError, Global};

/// Explains where a text differs from its canonical layout, and how to format it.
pub fn layout_explained(
    alloc: Global,
    text: &str,
    heading: Heading<'_>,
) -> Result<String, AllocError> {
    let Ok(_program) = program_of(alloc, text) else {
        return Ok(String::new(alloc));
    };
    let laid = laid_out(alloc, text)?;
    let at = alike(text, laid.as_str());
    let mut told = String::new(alloc);
    let place = place_behind(text.get(..at).unwrap_or(""));
    heading.push_excerpt(&mut told, text, place)?;
    told.push_str("Found ")?;
    push_first(&mut told, text.get(at..).unwrap_or(""))?;
    told.push_str(", but the formatted program has ")?;
    push_first(&mut told, laid.as_str().get(at..).unwrap_or(""))?;
    told.push_str(".\nhelp: format the file with `fmt --write`.\n")?;
    Ok(told)
}

/// Returns the length in bytes of the common prefix of two texts, in whole characters.
fn alike(text: &str, laid: &str) -> usize {
    let mut at: usize = 0;
    for (stands, wanted) in text.chars().zip(laid.chars()) {
        if stands != wanted {
            break;
        }
        at = at.saturating_add(stands.len_utf8());
    }
    at
}

/// Appends the name of the first character of a text, or that there is none.
fn push_first(told: &mut String, text: &str) -> Result<(), AllocError> {
    match text.chars().next() {
        None => told.push_str("the end of the file"),
        Some('\n') => told.push_str("a newline"),
        Some('\r') => told.push_str("a carriage return"),
        Some('\t') => told.push_str("a tab"),
        Some(' ') => told.push_str("a space"),
        Some(character) if character.is_control() => told.push_str("another character"),
        Some(character) => write!(told, "`{character}`"),
    }
}
