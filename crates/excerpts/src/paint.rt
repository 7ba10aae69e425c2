//! Colours of an explanation.

ghost use Rattle.std.specs.Prelude.{◌≡◌, IfOk};
ghost use Rattle.std.specs.String.{string_bytes};

use std::alloc::{AllocError, Global};

/// Whether a text is coloured.
#[derive(Clone, Copy)]
pub enum Paint {
    /// Not coloured: the text stays as it is.
    Plain,
    /// Coloured, for a terminal.
    Coloured,
}

const BLUE: &str = "\x1b[34m";

const RED: &str = "\x1b[1;31m";

const GREEN: &str = "\x1b[1;32m";

const END: &str = "\x1b[0m";

/// What precedes a line of a program's text.
const BAR: &str = " | ";

/// The minimum number of characters before a bar.
const MARGIN: usize = 6;

const MEND: &str = "help:";

/// Returns an explanation, with colours if requested. Line numbers and bars are blue, carets red,
/// and `help:` green.
pub fn painted(alloc: Global, told: String, paint: Paint) -> Result<String, AllocError>
    ensures { paint ≡ Paint.Plain → IfOk result (λ text. string_bytes text ≡ string_bytes told) }
{
    match paint {
        Paint::Plain => Ok(told),
        Paint::Coloured => coloured(alloc, &told),
    }
}

/// Returns the text with colours.
fn coloured(alloc: Global, told: &str) -> Result<String, AllocError> {
    let mut text = String::new(alloc);
    for line in told.split_inclusive('\n') {
        push_coloured(&mut text, line)?;
    }
    Ok(text)
}

/// Adds a line with its colours.
fn push_coloured(text: &mut String, line: &str) -> Result<(), AllocError> {
    if let Some(behind) = line.strip_prefix(MEND) {
        push_in(text, GREEN, MEND)?;
        return text.push_str(behind);
    }
    match cut_margin(line) {
        Some((margin, behind)) => {
            push_in(text, BLUE, margin)?;
            text.push_str(BAR)?;
            push_excerpt(text, margin, behind)
        }
        None => text.push_str(line),
    }
}

/// Adds what follows a bar: a caret has a colour, a line of a program has none.
fn push_excerpt(text: &mut String, margin: &str, behind: &str) -> Result<(), AllocError> {
    match behind.trim_start().strip_prefix('^') {
        Some(_) if margin.trim().is_empty() => push_in(text, RED, behind),
        _ => text.push_str(behind),
    }
}

/// Returns the margin of a line and what follows its bar, if it has both.
fn cut_margin(line: &str) -> Option<(&str, &str)> {
    let (margin, behind) = line.split_once(BAR)?;
    let is_number = margin
        .trim_start()
        .chars()
        .all(|character| character.is_ascii_digit());
    if is_number && margin.len() >= MARGIN {
        Some((margin, behind))
    } else {
        None
    }
}

/// Adds a text in a colour, with its newline after the colour ends.
fn push_in(text: &mut String, colour: &str, words: &str) -> Result<(), AllocError> {
    let (words, end) = match words.strip_suffix('\n') {
        Some(front) => (front, "\n"),
        None => (words, ""),
    };
    text.push_str(colour)?;
    text.push_str(words)?;
    text.push_str(END)?;
    text.push_str(end)
}
