//! The indices with which statements use sections.

use crate::named::is_name;
use syntax::token::{Mark, Spanned, Token};

/// Returns the tokens of the first index with which a statement's head uses a section: `i + 1` for
/// `a` in `a[i + 1] = a[i];`.
pub fn first_index<'t>(head: &'t [Spanned], section: &str) -> Option<&'t [Spanned]> {
    let mut left = head;
    'tokens: while let [first, behind @ ..] = left {
        if is_name(first, section) {
            if let Some(index) = index_in(behind) {
                return Some(index);
            }
        }
        left = behind;
    }
    None
}

/// Returns the tokens of the index at the start of these tokens, if there is one.
fn index_in(tokens: &[Spanned]) -> Option<&[Spanned]> {
    match tokens {
        [open, behind @ ..] if is_mark(open, Mark::LeftBracket) => Some(up_to_bracket(behind)),
        _ => None,
    }
}

/// Returns the tokens before the bracket that closes what is open.
fn up_to_bracket(tokens: &[Spanned]) -> &[Spanned] {
    let mut open: usize = 0;
    for (number, spanned) in tokens.iter().enumerate() {
        if is_mark(spanned, Mark::RightBracket) {
            if open == 0 {
                return tokens.get(..number).unwrap_or(tokens);
            }
            open -= 1;
        } else if is_mark(spanned, Mark::LeftBracket) {
            open = open.saturating_add(1);
        }
    }
    tokens
}

/// Returns whether two indices are spelled alike.
pub fn are_alike(one: &[Spanned], other: &[Spanned]) -> bool {
    if one.len() != other.len() {
        return false;
    }
    for (first, second) in one.iter().zip(other.iter()) {
        if !is_same(&first.token, &second.token) {
            return false;
        }
    }
    true
}

/// Returns whether a token is this mark.
fn is_mark(spanned: &Spanned, mark: Mark) -> bool {
    match &spanned.token {
        Token::Mark(found) => *found == mark,
        _ => false,
    }
}

/// Returns whether two tokens are the same.
fn is_same(one: &Token, other: &Token) -> bool {
    match (one, other) {
        (Token::Name(one), Token::Name(other)) => one.as_str() == other.as_str(),
        (Token::Number(one), Token::Number(other)) => one == other,
        (Token::Word(one), Token::Word(other)) => one == other,
        (Token::Mark(one), Token::Mark(other)) => one == other,
        _ => false,
    }
}
