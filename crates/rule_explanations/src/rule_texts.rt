//! Texts for broken rules that need no look at a statement.

use crate::arguments::ParameterHead;
use excerpts::heading::Heading;
use excerpts::named::begins_with;
use excerpts::statements::PlacedStatements;
use std::alloc::{AllocError, Global};
use syntax::token::{Mark, Spanned, Token, Word};
use types::error::TypeError;

/// What gives a boolean, and where one is expected.
pub const TRUTHS: &str =
    "Comparisons, `true`, `false`, `not`, `and` and `or` give booleans. The conditions of `if` and `while` and the operands of
`not`, `and` and `or` must be booleans. Everything else is a number.
";

/// How to fix a boolean where a number is expected.
pub const KEPT: &str = "help: use an `if` to turn it into a number.\n";

/// How to fix a number where a boolean is expected.
pub const COMPARED: &str = "help: compare the number, as in `x != 0`.\n";

/// What a call passes.
pub const ARGUMENTS: &str = "An argument doesn't match its parameter.
help: pass a number, or the name of a section with the same element type, as the parameter requires.
";

const NO_MAIN: &str = "The program has no `main`.
help: add `main { .. }` after the procedures.
";

/// Explains a broken rule whose message names no statement.
pub fn push_without_label(
    told: &mut String,
    statements: &PlacedStatements<'_>,
    error: TypeError,
    heading: Heading<'_>,
) -> Result<(), AllocError> {
    match error {
        TypeError::NoMain => {
            heading.push(told, None)?;
            told.push_str(NO_MAIN)
        }
        TypeError::DeclaredTwice { .. } => push_twice(told, statements, heading),
        _ => Ok(()),
    }
}

/// Adds which array, parameter or procedure is declared twice.
fn push_twice(
    told: &mut String,
    statements: &PlacedStatements<'_>,
    heading: Heading<'_>,
) -> Result<(), AllocError> {
    let source = &statements.source;
    match twice(&source.tokens) {
        Some((first, second)) => {
            heading.push_excerpt(told, statements.text, source.place(second.at))?;
            let place = source.place(first.at);
            write!(told, "The name was first declared at {place}.\n")?;
        }
        None => heading.push(told, None)?,
    }
    told.push_str("help: use another name.\n")
}

/// Returns the first array, parameter or procedure that is declared twice: the first declaration
/// and the second.
fn twice(tokens: &[Spanned]) -> Option<(&Spanned, &Spanned)> {
    let mut left = tokens;
    'tokens: while let [first, behind @ ..] = left {
        if let [name, others @ ..] = behind {
            if let Some(again) = declared_again(&first.token, name, others) {
                return Some((name, again));
            }
        }
        left = behind;
    }
    None
}

/// Returns where a name that follows this token is declared again.
fn declared_again<'t>(
    before: &Token,
    name: &Spanned,
    behind: &'t [Spanned],
) -> Option<&'t Spanned> {
    match before {
        Token::Word(Word::Proc) => behind_word(Word::Proc, name, behind),
        Token::Word(Word::Array) => behind_word(Word::Array, name, behind),
        Token::Word(Word::Mut) | Token::Word(Word::Read) => parameter(name, behind),
        Token::Mark(Mark::LeftParen) | Token::Mark(Mark::Comma) => parameter(name, behind),
        _ => None,
    }
}

/// Returns the next parameter of the same name, if the name is that of a parameter.
fn parameter<'t>(name: &Spanned, behind: &'t [Spanned]) -> Option<&'t Spanned> {
    if !begins_with(behind, Mark::Colon) {
        return None;
    }
    for spanned in behind {
        if same_name(name, spanned) {
            return Some(spanned);
        }
        if let Token::Mark(Mark::RightParen) = &spanned.token {
            return None;
        }
    }
    None
}

/// Returns the first token after a reserved word that is the same name.
fn behind_word<'t>(word: Word, name: &Spanned, tokens: &'t [Spanned]) -> Option<&'t Spanned> {
    let mut is_behind = false;
    for spanned in tokens {
        if is_behind && same_name(name, spanned) {
            return Some(spanned);
        }
        is_behind = is_word(&spanned.token, word);
    }
    None
}

/// Returns whether a token is this reserved word.
pub fn is_word(token: &Token, word: Word) -> bool {
    match token {
        Token::Word(found) => *found == word,
        _ => false,
    }
}

/// Returns whether two tokens are the same name.
fn same_name(one: &Spanned, other: &Spanned) -> bool {
    match (&one.token, &other.token) {
        (Token::Name(first), Token::Name(second)) => first == second,
        _ => false,
    }
}

/// Returns the names of the procedures.
pub fn procedures(alloc: Global, tokens: &[Spanned]) -> Result<Vec<&str>, AllocError> {
    let mut names = Vec::new(alloc);
    let mut is_behind = false;
    for spanned in tokens {
        if is_behind {
            if let Token::Name(name) = &spanned.token {
                names.push(name.as_str())?;
            }
        }
        is_behind = is_word(&spanned.token, Word::Proc);
    }
    Ok(names)
}

/// Adds the names of the procedures.
pub fn push_procedures(told: &mut String, names: &[&str]) -> Result<(), AllocError> {
    if names.is_empty() {
        return told.push_str("The program has no procedures.\n");
    }
    let mut before = "Procedures: ";
    for name in names {
        told.push_str(before)?;
        told.push_str(*name)?;
        before = ", ";
    }
    told.push('\n')
}

/// Adds the parameters of a procedure as they are declared.
pub fn push_parameters(
    told: &mut String,
    parameters: &[ParameterHead<'_>],
) -> Result<(), AllocError> {
    if parameters.is_empty() {
        return told.push_str("It has no parameters.\n");
    }
    let mut before = "Parameters: ";
    for parameter in parameters {
        let name = parameter.name;
        let how = if parameter.kind.is_written() {
            "mut "
        } else if parameter.kind.is_read() {
            "read "
        } else {
            ""
        };
        let element = parameter.kind.element();
        write!(told, "{before}{how}{name}: {element}")?;
        before = ", ";
    }
    told.push('\n')
}
