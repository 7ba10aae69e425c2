//! A program's text, and how its lines are shown.

use std::alloc::{AllocError, Global};
use syntax::TextPlace;
use syntax::lexer::{self, Unread};
use syntax::token::Spanned;

/// The number of characters of a line that are shown before a caret, and also the number from it
/// on.
const SHOWN: usize = 50;

/// The line numbers from which one has seven digits, eight digits, and so on.
const WIDER: [u32; 4] = [1_000_000, 10_000_000, 100_000_000, 1_000_000_000];

/// A text with its tokens.
#[derive(Drop)]
pub struct Source {
    characters: Vec<char>,
    pub tokens: Vec<Spanned>,
}

impl Source {
    /// Reads the characters and the tokens of a text.
    pub fn of(alloc: Global, text: &str) -> Result<Source, Unread> {
        let characters: Vec<char> = text.chars().collect(alloc)?;
        let tokens = lexer::tokens(alloc, &characters)?;
        Ok(Source { characters, tokens })
    }

    /// Returns the line and the column of a character, given by its number from 0.
    pub fn place(&self, at: usize) -> TextPlace {
        place_of(&self.characters, at)
    }

    /// Returns the tokens from a place on.
    pub fn tokens_from(&self, place: TextPlace) -> &[Spanned] {
        let at = self.character_at(place);
        let mut left = self.tokens.as_slice();
        'tokens: while let [first, behind @ ..] = left {
            if first.at >= at {
                break;
            }
            left = behind;
        }
        left
    }

    /// Returns the number of the character at a place.
    fn character_at(&self, place: TextPlace) -> usize {
        let mut line: u32 = 1;
        let mut column: u32 = 1;
        for (at, character) in self.characters.iter().enumerate() {
            if line == place.line && column == place.column {
                return at;
            }
            if *character == '\n' {
                line = line.saturating_add(1);
                column = 1;
            } else {
                column = column.saturating_add(1);
            }
        }
        self.characters.len()
    }
}

/// Returns the line and the column of a character of a text, given by its number from 0.
pub fn place_of(characters: &[char], at: usize) -> TextPlace {
    let mut line: u32 = 1;
    let mut column: u32 = 1;
    for character in characters.iter().take(at) {
        if *character == '\n' {
            line = line.saturating_add(1);
            column = 1;
        } else {
            column = column.saturating_add(1);
        }
    }
    TextPlace { line, column }
}

/// Adds the line of a place with its number, and under it a caret at the place.
pub fn push_line(told: &mut String, text: &str, place: TextPlace) -> Result<(), AllocError> {
    let number = place.line;
    let line = line_of(text, place);
    write!(told, "{number:>6} | ")?;
    push_part(told, line, place)?;
    told.push('\n')?;
    push_margin(told, number)?;
    push_indent(told, line, place)?;
    told.push_str("^\n")
}

/// Adds spaces as wide as the number of a line, and the bar.
fn push_margin(told: &mut String, number: u32) -> Result<(), AllocError> {
    told.push_str("      ")?;
    for power in WIDER {
        if number >= power {
            told.push(' ')?;
        }
    }
    told.push_str(" | ")
}

/// Returns the line of a place, or an empty text past the last line.
pub fn line_of(text: &str, place: TextPlace) -> &str {
    let mut number: u32 = 1;
    for line in text.lines() {
        if number == place.line {
            return line;
        }
        number = number.saturating_add(1);
    }
    ""
}

/// Adds a line without these characters at its start, as far as it is shown. An open block is closed
/// as in `async { .. }`.
pub fn push_start(told: &mut String, line: &str, before: usize) -> Result<(), AllocError> {
    let mut last = ' ';
    for character in line.trim_end().chars().skip(before).take(SHOWN) {
        told.push(shown(character))?;
        last = character;
    }
    if last == '{' {
        told.push_str(" .. }")?;
    }
    Ok(())
}

/// Returns the number of characters of a line before those that are shown.
fn first_shown(place: TextPlace) -> usize {
    let column = usize::try_from(place.column).unwrap_or(0);
    column.saturating_sub(SHOWN)
}

/// Adds the shown part of a line, with `..` for what is left out.
fn push_part(told: &mut String, line: &str, place: TextPlace) -> Result<(), AllocError> {
    let from = first_shown(place);
    if from > 0 {
        told.push_str("..")?;
    }
    let mut left = 2 * SHOWN;
    for character in line.chars().skip(from) {
        if left == 0 {
            return told.push_str("..");
        }
        told.push(shown(character))?;
        left -= 1;
    }
    Ok(())
}

/// Adds the space before a caret: spaces, and tabs where the line has them.
fn push_indent(told: &mut String, line: &str, place: TextPlace) -> Result<(), AllocError> {
    let from = first_shown(place);
    if from > 0 {
        told.push_str("  ")?;
    }
    let column = usize::try_from(place.column).unwrap_or(0);
    let many = column.saturating_sub(1).saturating_sub(from);
    for character in line.chars().skip(from).take(many) {
        told.push(if character == '\t' { '\t' } else { ' ' })?;
    }
    Ok(())
}

/// Returns a character as it is shown: a dot for a control character.
fn shown(character: char) -> char {
    if character == '\t' {
        '\t'
    } else if character.is_control() {
        '.'
    } else {
        character
    }
}
