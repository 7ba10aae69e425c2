//! The names in the head of a statement.

use std::alloc::{AllocError, Global};
use syntax::token::{Mark, Spanned, Token, Word};

/// A name and its role.
#[derive(Clone, Copy)]
pub struct Named<'t> {
    pub name: &'t str,
    pub role: Role,
    /// The number of its first character.
    pub at: usize,
}

/// The role of a name in its statement.
#[derive(Clone, Copy, PartialEq, Eq)]
pub enum Role {
    /// `x` in `var x = 1;`, `l` and `r` in `split s at 1 as l, r { }`, `p` and `i` in
    /// `parts s by 4 as p, i { }`
    Declared,
    /// `f` in `f(a);`
    Called,
    /// `x` in `x = 1;`
    Assigned,
    /// `a` in `a[0] = 1;`
    Stored,
    /// `a` in `print a[0];`
    Element,
    /// `a` in `print len(a);`
    Measured,
    /// `s` in `split s at 1 as l, r { }` and in `parts s by 4 as p, i { }`
    Cut,
    /// `x` in `print x;`
    Value,
}

/// Returns the tokens of a statement's head: up to its end, or to its block.
pub fn head(tokens: &[Spanned]) -> &[Spanned] {
    let mut many: usize = 0;
    for spanned in tokens {
        match &spanned.token {
            Token::Mark(Mark::Semicolon) => break,
            Token::Mark(Mark::LeftBrace) => break,
            _ => many = many.saturating_add(1),
        }
    }
    tokens.get(..many).unwrap_or(tokens)
}

/// Returns the names of a head, from left to right.
pub fn names<'t>(alloc: Global, head: &'t [Spanned]) -> Result<Vec<Named<'t>>, AllocError> {
    let mut found = Vec::new(alloc);
    let mut before = Before::Nothing;
    let mut left = head;
    'tokens: while let [first, behind @ ..] = left {
        if let Token::Name(name) = &first.token {
            found.push(Named {
                name: name.as_str(),
                role: role_of(before, behind),
                at: first.at,
            })?;
        }
        before = before.and(&first.token);
        left = behind;
    }
    Ok(found)
}

/// What precedes a token of a head, as far as it decides the role of a name.
#[derive(Clone, Copy, PartialEq, Eq)]
enum Before {
    Nothing,
    Var,
    /// The word `split` or `parts`.
    Cut,
    /// After the `as` of a split or of a `parts`.
    As,
    Len,
    LenParen,
    Other,
}

impl Before {
    /// Returns what precedes the token after this one.
    fn and(self, token: &Token) -> Before {
        if self == Before::As {
            return Before::As;
        }
        match token {
            Token::Word(Word::Var) => Before::Var,
            Token::Word(Word::Split) => Before::Cut,
            Token::Word(Word::Parts) => Before::Cut,
            Token::Word(Word::As) => Before::As,
            Token::Word(Word::Len) => Before::Len,
            Token::Mark(Mark::LeftParen) if self == Before::Len => Before::LenParen,
            _ => Before::Other,
        }
    }
}

/// Returns the role of a name, by what precedes it and what follows it.
fn role_of(before: Before, behind: &[Spanned]) -> Role {
    match before {
        Before::Var | Before::As => Role::Declared,
        Before::Cut => Role::Cut,
        Before::LenParen => Role::Measured,
        Before::Nothing => role_at_first(behind),
        Before::Len | Before::Other => {
            if begins_with(behind, Mark::LeftBracket) {
                Role::Element
            } else {
                Role::Value
            }
        }
    }
}

/// Returns the role of the name at the start of a statement.
fn role_at_first(behind: &[Spanned]) -> Role {
    if begins_with(behind, Mark::LeftParen) {
        Role::Called
    } else if begins_with(behind, Mark::LeftBracket) {
        Role::Stored
    } else {
        Role::Assigned
    }
}

/// Returns whether the first token is this mark.
pub fn begins_with(tokens: &[Spanned], mark: Mark) -> bool {
    match tokens.first() {
        Some(first) => match &first.token {
            Token::Mark(found) => *found == mark,
            _ => false,
        },
        None => false,
    }
}

/// Returns whether a token is this name.
pub fn is_name(spanned: &Spanned, name: &str) -> bool {
    match &spanned.token {
        Token::Name(found) => found.as_str() == name,
        _ => false,
    }
}

/// Returns the first name after the word `as`.
pub fn name_after_as(tokens: &[Spanned]) -> Option<&str> {
    let mut is_next = false;
    for spanned in tokens {
        match &spanned.token {
            Token::Name(name) if is_next => return Some(name.as_str()),
            Token::Word(Word::As) => is_next = true,
            _ => {}
        }
    }
    None
}

/// Returns whether a token is an arithmetic operator.
pub fn is_operator(token: &Token) -> bool {
    match token {
        Token::Mark(mark) => match mark {
            Mark::Plus | Mark::Minus | Mark::Star | Mark::Slash | Mark::Percent => true,
            _ => false,
        },
        _ => false,
    }
}
