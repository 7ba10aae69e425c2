//! The first line of an explanation.

use crate::escaped::Escaped;
use crate::source::push_line;
use std::alloc::AllocError;
use syntax::TextPlace;

/// What an explanation is about.
#[derive(Clone, Copy)]
pub struct Heading<'h> {
    /// The file that is explained, as it was named.
    pub file: &'h str,
    /// The word of its page, such as `Y5`.
    pub word: &'h str,
    /// What is wrong, as that page begins.
    pub about: &'h str,
}

impl Heading<'_> {
    /// Adds an empty line, and `FILE:LINE:COLUMN: WORD: ABOUT`, or `FILE: WORD: ABOUT` if there is
    /// no position.
    pub fn push(&self, told: &mut String, place: Option<TextPlace>) -> Result<(), AllocError> {
        let (file, word, about) = (Escaped(self.file), self.word, self.about);
        match place {
            Some(place) => write!(told, "\n{file}:{place}: {word}: {about}\n"),
            None => write!(told, "\n{file}: {word}: {about}\n"),
        }
    }

    /// Adds this line, and the line of a position with a caret.
    pub fn push_excerpt(
        &self,
        told: &mut String,
        text: &str,
        place: TextPlace,
    ) -> Result<(), AllocError> {
        self.push(told, Some(place))?;
        push_line(told, text, place)
    }
}
