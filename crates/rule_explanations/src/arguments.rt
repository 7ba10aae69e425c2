//! Parameters of procedures, and arguments of calls.

use crate::expressions::{Between, inside, only_name};
use crate::kind::NameKind;
use std::alloc::{AllocError, Global};
use syntax::token::{Mark, Spanned, Token, Word};

/// A parameter of a procedure.
#[derive(Clone, Copy)]
pub struct ParameterHead<'t> {
    pub name: &'t str,
    pub kind: NameKind,
    /// The number of the first character of its name.
    pub at: usize,
}

/// An argument of a call: the tokens between two commas.
#[derive(Drop)]
pub struct Argument<'t> {
    pub tokens: &'t [Spanned],
}

impl<'t> Argument<'t> {
    /// Returns the name that it is, if it is a single name.
    pub fn name(&self) -> Option<&'t str> {
        only_name(self.tokens)
    }

    /// Returns whether it starts at a character.
    pub fn stands_at(&self, at: usize) -> bool {
        match self.tokens.first() {
            Some(first) => first.at == at,
            None => false,
        }
    }
}

/// A procedure of the program.
#[derive(Drop)]
pub struct ProcedureHead<'t> {
    /// The number of the first character of its name.
    pub at: usize,
    pub parameters: Vec<ParameterHead<'t>>,
}

/// Returns the procedure with this name, if there is one.
pub fn procedure_of<'t>(
    alloc: Global,
    tokens: &'t [Spanned],
    name: &str,
) -> Result<Option<ProcedureHead<'t>>, AllocError> {
    let mut is_behind_proc = false;
    let mut left = tokens;
    'tokens: while let [first, behind @ ..] = left {
        if is_behind_proc && is_name(first, name) {
            return Ok(Some(ProcedureHead {
                at: first.at,
                parameters: parameters(alloc, behind)?,
            }));
        }
        is_behind_proc = matches!(&first.token, Token::Word(Word::Proc));
        left = behind;
    }
    Ok(None)
}

/// Returns whether a token is this name.
pub fn is_name(spanned: &Spanned, name: &str) -> bool {
    match &spanned.token {
        Token::Name(found) => found.as_str() == name,
        _ => false,
    }
}

/// Returns the parameters in these tokens, which follow the name of the procedure.
pub fn parameters<'t>(
    alloc: Global,
    tokens: &'t [Spanned],
) -> Result<Vec<ParameterHead<'t>>, AllocError> {
    let mut found = Vec::new(alloc);
    let mut kind = NameKind::Scalar;
    let mut left = tokens;
    'tokens: while let [first, behind @ ..] = left {
        match &first.token {
            Token::Mark(Mark::RightParen) => break,
            Token::Word(Word::Mut) => kind = NameKind::Written {
                bytes: is_of_bytes(behind),
            },
            Token::Word(Word::Read) => kind = NameKind::Read {
                bytes: is_of_bytes(behind),
            },
            Token::Name(name) => {
                found.push(ParameterHead {
                    name: name.as_str(),
                    kind,
                    at: first.at,
                })?;
                kind = NameKind::Scalar;
            }
            _ => {}
        }
        left = behind;
    }
    Ok(found)
}

/// Returns whether the type after the name that comes first is `byte`.
pub fn is_of_bytes(tokens: &[Spanned]) -> bool {
    match tokens.get(2) {
        Some(third) => matches!(&third.token, Token::Word(Word::Byte)),
        None => false,
    }
}

/// Returns the arguments of a call with the head `f(a, b)`.
pub fn arguments<'t>(alloc: Global, head: &'t [Spanned]) -> Result<Vec<Argument<'t>>, AllocError> {
    let mut found = Vec::new(alloc);
    let given = inside(head.get(2..).unwrap_or(head));
    if given.is_empty() {
        return Ok(found);
    }
    for piece in &Between::Arguments.pieces(alloc, given)? {
        let tokens = *piece;
        found.push(Argument { tokens })?;
    }
    Ok(found)
}
