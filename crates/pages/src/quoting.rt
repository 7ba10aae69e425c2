//! Escaping in scripts and in manual pages.

use std::alloc::AllocError;

/// The reader of an escaped text.
#[derive(Clone, Copy)]
pub enum Quoting {
    /// Between single quotes of zsh, in a description of its completions.
    Zsh,
    /// Between single quotes of fish.
    Fish,
    /// In a line of a manual page.
    Roff,
}

impl Quoting {
    /// Returns the escaped form of a character, or None if it stays as it is.
    fn spelling(self, c: char) -> Option<&'static str> {
        match (self, c) {
            (Quoting::Zsh, '\'') => Some("'\\''"),
            (Quoting::Zsh, ':') => Some("\\:"),
            (Quoting::Zsh, '[') => Some("\\["),
            (Quoting::Zsh, ']') => Some("\\]"),
            (Quoting::Fish, '\'') => Some("\\'"),
            (Quoting::Fish, '\\') => Some("\\\\"),
            (Quoting::Roff, '\\') => Some("\\e"),
            (Quoting::Roff, '-') => Some("\\-"),
            (Quoting::Roff, '\'') => Some("\\(aq"),
            _ => None,
        }
    }

    /// Adds a text, escaped.
    pub fn push(self, out: &mut String, text: &str) -> Result<(), AllocError> {
        for c in text.chars() {
            match self.spelling(c) {
                Some(spelling) => out.push_str(spelling)?,
                None => out.push(c)?,
            }
        }
        Ok(())
    }
}
