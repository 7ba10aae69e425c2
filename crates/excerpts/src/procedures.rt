//! The names in the text of a procedure.

use crate::named::is_name;
use syntax::token::{Spanned, Token, Word};

/// Returns whether a name is in the text of a procedure, or of `main`.
pub fn procedure_has(tokens: &[Spanned], procedure: &str, name: &str) -> bool {
    let mut is_inside = false;
    let mut left = tokens;
    'tokens: while let [first, behind @ ..] = left {
        match &first.token {
            Token::Word(Word::Proc) => is_inside = starts_with(behind, procedure),
            Token::Word(Word::Main) => is_inside = procedure == "main",
            Token::Name(_) if is_inside && is_name(first, name) => return true,
            _ => {}
        }
        left = behind;
    }
    false
}

/// Returns whether the first token is this name.
fn starts_with(tokens: &[Spanned], name: &str) -> bool {
    match tokens.first() {
        Some(first) => is_name(first, name),
        None => false,
    }
}
