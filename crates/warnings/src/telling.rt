//! The text of warnings.

ghost use Rattle.std.specs.Prelude.{◌≡◌, [], IfOk};
ghost use Rattle.std.specs.String.{string_bytes};
ghost use Rattle.types.specs.Typed.{code_of, program_of};
ghost use Rattle.warnings.specs.Warnings.{program_warnings};

use crate::finding::warnings_of;
use crate::warning::Warning;
use excerpts::heading::Heading;
use excerpts::statements::PlacedStatements;
use std::alloc::{AllocError, Global};
use syntax::token::{Mark, Spanned, Token, Word};
use types::code::Label;
use types::typed::Typed;

/// The maximum number of statements of a program with warnings: the time to find them grows with the
/// square of this number.
const MOST_STATEMENTS: usize = 5_000;

/// Returns the text of the warnings of a text's program, in the file with this name. It is empty if
/// there are none, or if the program has too many statements.
pub fn warnings_text(
    alloc: Global,
    text: &str,
    typed: &Typed,
    file: &str,
) -> Result<String, AllocError>
    ensures quiet { program_warnings (program_of typed.now) (code_of typed.now) ≡ []
        → IfOk result (λ told. string_bytes told ≡ []) }
{
    let mut told = String::new(alloc);
    let Some(statements) = PlacedStatements::of(alloc, text)? else {
        return Ok(told);
    };
    if statements.places.len() > MOST_STATEMENTS {
        return Ok(told);
    }
    let found = warnings_of(alloc, typed)?;
    for warning in &found {
        push_warning(alloc, &mut told, &statements, file, *warning)?;
    }
    Ok(told)
}

/// Adds a warning: `FILE:LINE:COLUMN: warning: ..`, the line of the text, and what to do about it.
fn push_warning(
    alloc: Global,
    told: &mut String,
    statements: &PlacedStatements<'_>,
    file: &str,
    warning: Warning,
) -> Result<(), AllocError> {
    let Some(token) = token_of(statements, warning) else {
        return Ok(());
    };
    let about = about_of(alloc, warning, token)?;
    let heading = Heading {
        file,
        word: "warning",
        about: about.as_str(),
    };
    heading.push_excerpt(told, statements.text, statements.source.place(token.at))?;
    told.push_str(help_of(warning))
}

/// Returns what a warning is about.
fn about_of(alloc: Global, warning: Warning, token: &Spanned) -> Result<String, AllocError> {
    let name = match &token.token {
        Token::Name(name) => name.as_str(),
        _ => "",
    };
    match warning {
        Warning::UnusedProcedure(_) => format!(in alloc; "`{name}` is never called"),
        Warning::UnusedParameter(_, _) => format!(in alloc; "`{name}` is never used"),
        Warning::UnreadVariable(_) => format!(in alloc; "`{name}` is never read"),
        Warning::IdleFinish(_) => format!(in alloc; "this `finish` has no task to wait for"),
        Warning::LoneTask(_) => format!(in alloc; "this `finish` waits at once for its only task"),
        Warning::NeverFits(_) => format!(in alloc; "this number doesn't fit in a byte"),
        Warning::Unreached(_) => format!(in alloc; "no run reaches this statement"),
    }
}

/// Returns what to do about a warning.
fn help_of(warning: Warning) -> &'static str {
    match warning {
        Warning::UnusedProcedure(_) => "help: call it, or remove it.\n",
        Warning::UnusedParameter(_, _) => "help: remove the parameter and its arguments.\n",
        Warning::UnreadVariable(_) => "help: remove the variable, or print it.\n",
        Warning::IdleFinish(_) => "help: remove the `finish`, or start tasks in it with `async`.\n",
        Warning::LoneTask(_) => {
            "help: remove the `finish` and the `async`, or put what can run in parallel after the `async`.\n"
        }
        Warning::NeverFits(_) =>
            "help: a byte stores 0 to 255; the statement is a fault (see `afx explain F4`).\n",
        Warning::Unreached(_) =>
            "help: remove it, or the condition, fault or endless loop before it.\n",
    }
}

/// Returns the token at which a warning is shown.
fn token_of<'s>(statements: &'s PlacedStatements<'_>, warning: Warning) -> Option<&'s Spanned> {
    match warning {
        Warning::UnusedProcedure(number) => procedure(&statements.source.tokens, number)?.first(),
        Warning::UnusedParameter(number, nth) => {
            parameter(procedure(&statements.source.tokens, number)?, nth)
        }
        Warning::UnreadVariable(label) => variable(statement(statements, label)?),
        Warning::IdleFinish(label)
        | Warning::LoneTask(label)
        | Warning::NeverFits(label)
        | Warning::Unreached(label) => statement(statements, label)?.first(),
    }
}

/// Returns the tokens from the start of a statement on.
fn statement<'s>(statements: &'s PlacedStatements<'_>, label: Label) -> Option<&'s [Spanned]> {
    let place = statements.place(label)?;
    Some(statements.source.tokens_from(place))
}

/// Returns the tokens from the name of the procedure with this number on, from 0.
fn procedure(tokens: &[Spanned], number: usize) -> Option<&[Spanned]> {
    let mut before = number;
    let mut left = tokens;
    'tokens: while let [first, behind @ ..] = left {
        if matches!(&first.token, Token::Word(Word::Proc)) {
            if before == 0 {
                return Some(behind);
            }
            before = before.saturating_sub(1);
        }
        left = behind;
    }
    None
}

/// Returns the name of the parameter with this number, from 0, of a procedure whose name comes first.
fn parameter(tokens: &[Spanned], number: usize) -> Option<&Spanned> {
    let mut before = number;
    let mut left = tokens.get(1..).unwrap_or(tokens);
    'tokens: while let [first, behind @ ..] = left {
        match &first.token {
            Token::Mark(Mark::RightParen) => return None,
            Token::Name(_) if before == 0 => return Some(first),
            Token::Name(_) => before = before.saturating_sub(1),
            _ => {}
        }
        left = behind;
    }
    None
}

/// Returns the variable that a statement declares or assigns.
fn variable(tokens: &[Spanned]) -> Option<&Spanned> {
    let first = tokens.first()?;
    match &first.token {
        Token::Word(Word::Var) => tokens.get(1),
        _ => Some(first),
    }
}
