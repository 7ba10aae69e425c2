//! Finding the part of an expression that is a boolean where a number is expected, or the reverse.

use std::alloc::{AllocError, Global};
use syntax::token::{Mark, Spanned, Token, Word};

/// The kind of value of an expression.
#[derive(Clone, Copy, PartialEq, Eq)]
pub enum Value {
    Number,
    Truth,
}

/// An expression or a part of one, and the kind of value that it must have.
#[derive(Clone, Copy)]
pub struct ExpressionPart<'t> {
    pub tokens: &'t [Spanned],
    pub wanted: Value,
}

/// Tokens that separate parts.
#[derive(Clone, Copy, PartialEq, Eq)]
pub(crate) enum Between {
    /// What separates the expressions of a statement.
    Expressions,
    /// The commas of a call.
    Arguments,
    /// `and`, `or` and `not`.
    Truths,
    /// `<` and the other comparisons.
    Compared,
}

impl Between {
    /// Returns whether a token is one of these.
    fn has(self, token: &Token) -> bool {
        match self {
            Between::Expressions => is_no_expression(token),
            Between::Arguments => matches!(token, Token::Mark(Mark::Comma)),
            Between::Truths => match token {
                Token::Word(word) => match word {
                    Word::And | Word::Or | Word::Not => true,
                    _ => false,
                },
                _ => false,
            },
            Between::Compared => is_relation(token),
        }
    }

    /// Returns whether one of these is in the tokens, outside brackets.
    fn is_in(self, tokens: &[Spanned]) -> bool {
        let mut open: usize = 0;
        for spanned in tokens {
            if open == 0 && self.has(&spanned.token) {
                return true;
            }
            open = open_behind(open, &spanned.token);
        }
        false
    }

    /// Returns the pieces before, between and after these, outside brackets.
    pub(crate) fn pieces<'t>(
        self,
        alloc: Global,
        tokens: &'t [Spanned],
    ) -> Result<Vec<&'t [Spanned]>, AllocError> {
        let mut found = Vec::new(alloc);
        let mut from: usize = 0;
        let mut open: usize = 0;
        for (number, spanned) in tokens.iter().enumerate() {
            if open == 0 && self.has(&spanned.token) {
                found.push(tokens.get(from..number).unwrap_or(&[]))?;
                from = number.saturating_add(1);
            }
            open = open_behind(open, &spanned.token);
        }
        found.push(tokens.get(from..).unwrap_or(&[]))?;
        Ok(found)
    }
}

/// Returns the expressions in the head of a statement that isn't a call, with the kind of value
/// that each must have.
pub fn parts_of<'t>(
    alloc: Global,
    head: &'t [Spanned],
) -> Result<Vec<ExpressionPart<'t>>, AllocError> {
    let wanted = if has_guard(head) {
        Value::Truth
    } else {
        Value::Number
    };
    let mut parts = Vec::new(alloc);
    for piece in &Between::Expressions.pieces(alloc, head)? {
        let tokens = *piece;
        parts.push(ExpressionPart { tokens, wanted })?;
    }
    Ok(parts)
}

/// Returns the first part with the wrong kind of value. Looks at no more parts than `most`,
/// including those in brackets.
pub fn wrong_part<'t>(
    alloc: Global,
    parts: Vec<ExpressionPart<'t>>,
    most: usize,
) -> Result<Option<ExpressionPart<'t>>, AllocError> {
    let mut parts = parts;
    for number in 0..most {
        let Some(part) = parts.get(number).copied() else {
            break;
        };
        let wrong = match part.wanted {
            Value::Number => part.wrong_number(&mut parts)?,
            Value::Truth => part.wrong_truth(alloc, &mut parts)?,
        };
        if wrong.is_some() {
            return Ok(wrong);
        }
    }
    Ok(None)
}

impl<'t> ExpressionPart<'t> {
    /// Returns the part of it that isn't a number, outside brackets. Adds what is in brackets to
    /// the other parts.
    fn wrong_number(
        self,
        parts: &mut Vec<ExpressionPart<'t>>,
    ) -> Result<Option<ExpressionPart<'t>>, AllocError> {
        if Between::Truths.is_in(self.tokens) || Between::Compared.is_in(self.tokens) {
            return Ok(Some(self));
        }
        self.wrong_operand(parts)
    }

    /// Returns the first of its operands that is `true` or `false`, if all must be numbers.
    fn wrong_operand(
        self,
        parts: &mut Vec<ExpressionPart<'t>>,
    ) -> Result<Option<ExpressionPart<'t>>, AllocError> {
        let mut open: usize = 0;
        for (number, spanned) in self.tokens.iter().enumerate() {
            let wanted = Value::Number;
            if open == 0 && is_constant(&spanned.token) {
                let tokens = self.tokens.get(number..).unwrap_or(&[]);
                return Ok(Some(ExpressionPart { tokens, wanted }));
            }
            if open == 0 && is_open(&spanned.token) {
                let behind = self.tokens.get(number.saturating_add(1)..).unwrap_or(&[]);
                let tokens = inside(behind);
                parts.push(ExpressionPart { tokens, wanted })?;
            }
            open = open_behind(open, &spanned.token);
        }
        Ok(None)
    }

    /// Returns the part of it that isn't a boolean, outside brackets.
    fn wrong_truth(
        self,
        alloc: Global,
        parts: &mut Vec<ExpressionPart<'t>>,
    ) -> Result<Option<ExpressionPart<'t>>, AllocError> {
        let wanted = Value::Truth;
        for piece in &Between::Truths.pieces(alloc, self.tokens)? {
            let tokens = *piece;
            let wrong = ExpressionPart { tokens, wanted }.wrong_side(parts)?;
            if wrong.is_some() {
                return Ok(wrong);
            }
        }
        Ok(None)
    }

    /// Returns this operand of `and`, `or` or `not` if it isn't a boolean: a comparison, `true`,
    /// `false`, or only brackets.
    fn wrong_side(
        self,
        parts: &mut Vec<ExpressionPart<'t>>,
    ) -> Result<Option<ExpressionPart<'t>>, AllocError> {
        if Between::Compared.is_in(self.tokens) {
            return self.wrong_operand(parts);
        }
        let [first, behind @ ..] = self.tokens else {
            return Ok(None);
        };
        if is_constant(&first.token) && behind.is_empty() {
            return Ok(None);
        }
        let tokens = inside(behind);
        if is_open(&first.token) && tokens.len().saturating_add(1) == behind.len() {
            let wanted = Value::Truth;
            parts.push(ExpressionPart { tokens, wanted })?;
            return Ok(None);
        }
        Ok(Some(self))
    }

    /// Returns the name that it is, if it is a single name.
    pub fn name(self) -> Option<&'t str> {
        only_name(self.tokens)
    }
}

/// Returns the name that the tokens are, if they are a single name.
pub(crate) fn only_name(tokens: &[Spanned]) -> Option<&str> {
    match tokens {
        [only] => match &only.token {
            Token::Name(name) => Some(name.as_str()),
            _ => None,
        },
        _ => None,
    }
}

/// Returns whether a head has a condition.
fn has_guard(head: &[Spanned]) -> bool {
    match head {
        [first, ..] => match &first.token {
            Token::Word(word) => *word == Word::If || *word == Word::While,
            _ => false,
        },
        [] => false,
    }
}

/// Returns whether a token of a head belongs to none of its expressions.
fn is_no_expression(token: &Token) -> bool {
    match token {
        Token::Word(word) => match word {
            Word::If | Word::While | Word::Print | Word::Fault => true,
            Word::Var | Word::Split | Word::At | Word::As => true,
            Word::Parts | Word::By => true,
            _ => false,
        },
        Token::Mark(mark) => *mark == Mark::Comma || *mark == Mark::Becomes,
        _ => false,
    }
}

/// Returns whether a token compares two numbers.
fn is_relation(token: &Token) -> bool {
    match token {
        Token::Mark(mark) => match mark {
            Mark::Less | Mark::AtMost | Mark::Greater | Mark::AtLeast => true,
            Mark::Equal | Mark::Differs => true,
            _ => false,
        },
        _ => false,
    }
}

/// Returns whether a token is `true` or `false`.
fn is_constant(token: &Token) -> bool {
    match token {
        Token::Word(word) => *word == Word::True || *word == Word::False,
        _ => false,
    }
}

/// Returns whether a token opens brackets.
fn is_open(token: &Token) -> bool {
    match token {
        Token::Mark(mark) => *mark == Mark::LeftParen || *mark == Mark::LeftBracket,
        _ => false,
    }
}

/// Returns whether a token closes brackets.
fn is_close(token: &Token) -> bool {
    match token {
        Token::Mark(mark) => *mark == Mark::RightParen || *mark == Mark::RightBracket,
        _ => false,
    }
}

/// Returns the number of open brackets after a token, given the number before it.
fn open_behind(open: usize, token: &Token) -> usize {
    if is_open(token) {
        open.saturating_add(1)
    } else if is_close(token) {
        open.saturating_sub(1)
    } else {
        open
    }
}

/// Returns the first of these tokens, up to where the enclosing brackets close.
pub(crate) fn inside(tokens: &[Spanned]) -> &[Spanned] {
    let mut open: usize = 0;
    for (number, spanned) in tokens.iter().enumerate() {
        if open == 0 && is_close(&spanned.token) {
            return tokens.get(..number).unwrap_or(tokens);
        }
        open = open_behind(open, &spanned.token);
    }
    tokens
}
