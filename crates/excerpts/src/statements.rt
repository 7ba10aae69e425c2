//! The statements of a program, by their labels.

use crate::indices::{are_alike, first_index};
use crate::named::{Named, Role, begins_with, head, is_name, is_operator, name_after_as, names};
use crate::procedures::procedure_has;
use crate::sides::is_used;
use crate::source::{Source, line_of, push_line, push_start};
use statement_places::statement_places;
use std::alloc::{AllocError, Global};
use syntax::TextPlace;
use syntax::lexer::Unread;
use syntax::token::{Mark, Spanned, Token, Word};

/// A text with its tokens, and the start of each of its statements.
#[derive(Drop)]
pub struct PlacedStatements<'t> {
    alloc: Global,
    pub text: &'t str,
    pub source: Source,
    pub places: Vec<TextPlace>,
}

impl<'t> PlacedStatements<'t> {
    /// Finds the statements of a text. Returns None if the text has no tokens.
    pub fn of(alloc: Global, text: &'t str) -> Result<Option<PlacedStatements<'t>>, AllocError> {
        if text.len() > 1_048_576 {
            return Ok(None);
        }
        let Some(source) = read(Source::of(alloc, text))? else {
            return Ok(None);
        };
        let Some(places) = read(statement_places(alloc, text))? else {
            return Ok(None);
        };
        Ok(Some(PlacedStatements {
            alloc,
            text,
            source,
            places,
        }))
    }

    /// Returns where the statement with a label starts.
    pub fn place(&self, label: u32) -> Option<TextPlace> {
        let number = usize::try_from(label).unwrap_or(0).saturating_sub(1);
        self.places.get(number).copied()
    }

    /// Returns the position of a character of a statement, or else that of its first.
    pub fn place_at(&self, label: u32, at: Option<usize>) -> Option<TextPlace> {
        match at {
            Some(at) => Some(self.source.place(at)),
            None => self.place(label),
        }
    }

    /// Adds the line of a statement, with a caret under one of its characters, or else under the
    /// first.
    pub fn push_at(
        &self,
        told: &mut String,
        label: u32,
        at: Option<usize>,
    ) -> Result<(), AllocError> {
        match self.place_at(label, at) {
            Some(place) => push_line(told, self.text, place),
            None => Ok(()),
        }
    }

    /// Returns where a statement starts, its label, and its text up to the end of the line:
    /// `5:3 label 2  async { .. }`.
    pub fn described(&self, label: u32) -> Result<String, AllocError> {
        let Some(place) = self.place(label) else {
            return format!(in self.alloc; "label {label}");
        };
        let line = place.line;
        let column = place.column;
        let mut told = format!(in self.alloc; "{line}:{column} label {label}  ")?;
        let before = usize::try_from(column).unwrap_or(1).saturating_sub(1);
        push_start(&mut told, line_of(self.text, place), before)?;
        Ok(told)
    }

    /// Returns the name of the element with this number, from 0, in a statement's head.
    pub fn element(&self, label: u32, nth: usize) -> Result<Option<Named<'_>>, AllocError> {
        let mut left = nth;
        for named in &names(self.alloc, self.head(label))? {
            if named.role == Role::Element || named.role == Role::Stored {
                if left == 0 {
                    return Ok(Some(*named));
                }
                left -= 1;
            }
        }
        Ok(None)
    }

    /// Returns the name of the section that a split or a `parts` divides.
    pub fn cut(&self, label: u32) -> Result<Option<Named<'_>>, AllocError> {
        for named in &names(self.alloc, self.head(label))? {
            if named.role == Role::Cut {
                return Ok(Some(*named));
            }
        }
        Ok(None)
    }

    /// Returns the name of the piece of a `parts`, if it divides this section: `p` for `s` in
    /// `parts s by 4 as p, i { }`.
    pub fn piece_of(&self, label: u32, section: &str) -> Option<&str> {
        match self.head(label) {
            [_, whole, behind @ ..] if is_name(whole, section) => name_after_as(behind),
            _ => None,
        }
    }

    /// Returns where the operator with this number, from 0, is in a statement's head.
    pub fn operator(&self, label: u32, nth: usize) -> Option<usize> {
        let mut left = nth;
        for spanned in self.head(label) {
            if is_operator(&spanned.token) {
                if left == 0 {
                    return Some(spanned.at);
                }
                left -= 1;
            }
        }
        None
    }

    /// Returns whether a statement is an `if`.
    pub fn is_if(&self, label: u32) -> bool {
        match self.head(label).first() {
            Some(first) => matches!(&first.token, Token::Word(Word::If)),
            None => false,
        }
    }

    /// Returns the index at which the head of a statement uses a section, if it is a number and the
    /// only one: 0 for `sum` in `sum[0] = sum[0] + a[i];`.
    pub fn constant_index(&self, label: u32, section: &str) -> Option<u64> {
        let head = self.head(label);
        let mut index = None;
        for (number, spanned) in head.iter().enumerate() {
            let behind = head.get(number.saturating_add(1)..).unwrap_or(&[]);
            if is_name(spanned, section) && begins_with(behind, Mark::LeftBracket) {
                let found = only_number(behind)?;
                if index.is_some() && index != Some(found) {
                    return None;
                }
                index = Some(found);
            }
        }
        index
    }

    /// Returns whether two statements first use a section with the same index: `a` in
    /// `a[i + 1] = 0;` and in `x = a[i + 1];`.
    pub fn use_one_index(&self, first: u32, second: u32, section: &str) -> bool {
        let one = first_index(self.head(first), section);
        let other = first_index(self.head(second), section);
        match (one, other) {
            (Some(one), Some(other)) => are_alike(one, other),
            _ => false,
        }
    }

    /// Returns whether the block of the split around a statement uses this side of the split.
    pub fn uses_side(&self, label: u32, side: &str) -> bool {
        match self.head(label).first() {
            Some(first) => is_used(&self.source.tokens, first.at, side),
            None => false,
        }
    }

    /// Returns whether a name is in the text of a procedure, or of `main`.
    pub fn has_name(&self, procedure: &str, name: &str) -> bool {
        procedure_has(&self.source.tokens, procedure, name)
    }

    /// Returns the tokens of a statement's head.
    fn head(&self, label: u32) -> &[Spanned] {
        match self.place(label) {
            Some(place) => head(self.source.tokens_from(place)),
            None => &[],
        }
    }
}

/// Returns the number in brackets that comes first, as in `[0]`, if only that is in them.
fn only_number(tokens: &[Spanned]) -> Option<u64> {
    let number = tokens.get(1)?;
    if !begins_with(tokens.get(2..)?, Mark::RightBracket) {
        return None;
    }
    match &number.token {
        Token::Number(number) => Some(*number),
        _ => None,
    }
}

/// Returns what was read of a text, or None if the text has no tokens.
fn read<T: Drop>(read: Result<T, Unread>) -> Result<Option<T>, AllocError> {
    match read {
        Ok(read) => Ok(Some(read)),
        Err(Unread::OutOfMemory) => Err(AllocError),
        Err(_) => Ok(None),
    }
}
