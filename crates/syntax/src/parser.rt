//! The parser: texts as programs.

ghost use Rattle.std.specs.Prelude.{◌≡◌, ◌≢◌, ◌↔◌, ◌<◌, ◌≤◌, ◌^◌, length, vec_len, IfOk, IfErr, IfNone};
ghost use Rattle.std.specs.Prelude.{IfSome, MatchResult};
ghost use Rattle.std.specs.Str.{chars};
ghost use Rattle.syntax.specs.Brackets.{AreShallow, open_behind};
ghost use Rattle.syntax.specs.Lexical.{AreTokensOf};
ghost use Rattle.syntax.specs.Refusals.{ArePlaced, BeginsToken, OpensTooMany, Tells, TellsOf, TellsUnread};
ghost use Rattle.syntax.specs.Spelling.{spelling};
ghost use Rattle.syntax.specs.Token.{plain, token as token_tree};
ghost use Rattle.syntax_tree.specs.Tree.{Program as ProgramTree, program as program_tree};

use crate::cursor::Stuck;
use crate::error::SyntaxError;
use crate::lexer::Unread;
use crate::place::TextPlace;
use crate::token::{Mark, Spanned, Token};
use crate::{lexer, programs};
use std::alloc::{AllocError, Global};
use syntax_tree::tree::Program;

/// The maximum number of bytes of a text.
pub const MOST_BYTES: usize = 1_048_576;

/// The maximum number of brackets that can be open at once.
const MOST_OPEN: usize = 100;

/// Returns the program that a text spells.
pub fn parse(alloc: Global, text: &str) -> Result<Program, SyntaxError>
    ensures spelled { IfOk result (λ read.
        AreTokensOf (chars text.now) (spelling (program_tree read))) }
    ensures shallow { IfOk result (λ read. AreShallow 0 (spelling (program_tree read))) }
    ensures error { IfErr result (Tells text.now) }
    ensures complete { (p : ProgramTree) → AreTokensOf (chars text.now) (spelling p)
        → AreShallow 0 (spelling p) → length text.now ≤ 1048576
        → MatchResult result (λ read. program_tree read ≡ p) (λ e. e ≡ SyntaxError.OutOfMemory) }
    ensures too_long { (result ≡ Err SyntaxError.TooLong) ↔ (1048576 < length text.now) }
{
    if text.len() > MOST_BYTES {
        return Err(SyntaxError::TooLong);
    }
    let characters = characters(alloc, text)?;
    program(alloc, &characters)
}

/// Returns the characters of a text.
fn characters(alloc: Global, text: &str) -> Result<Vec<char>, AllocError>
    ensures value { IfOk result (λ found. found.items ≡ chars text.now) }
    ensures short { IfOk result (λ found. vec_len found ≤ length text.now) }
{
    text.chars().collect(alloc)
}

/// Returns the program that these characters spell.
fn program(alloc: Global, text: &[char]) -> Result<Program, SyntaxError>
    requires { length text.now < 2 ^ 31 }
    ensures spelled { IfOk result (λ read. AreTokensOf text.now (spelling (program_tree read))) }
    ensures shallow { IfOk result (λ read. AreShallow 0 (spelling (program_tree read))) }
    ensures error { IfErr result (TellsOf text.now) }
{
    let tokens = match lexer::tokens(alloc, text) {
        Ok(tokens) => tokens,
        Err(unread) => return Err(no_tokens(text, unread)),
    };
    if let Some(at) = too_deep(&tokens) {
        return Err(SyntaxError::TooDeep {
            place: TextPlace::of(text, at),
        });
    }
    match programs::program(alloc, &tokens) {
        Ok(program) => Ok(program),
        Err(stuck) => Err(no_program(text, &tokens, stuck)),
    }
}

/// Returns the error for a text that has no tokens.
fn no_tokens(text: &[char], unread: Unread) -> SyntaxError
    requires short { length text.now < 2 ^ 31 }
    requires told { TellsUnread text.now unread }
    ensures told { TellsOf text.now result }
    ensures memory { result ≡ SyntaxError.OutOfMemory → unread ≡ Unread.OutOfMemory }
{
    match unread {
        Unread::NotACharacter { left } => SyntaxError::NotACharacter {
            place: TextPlace::of(text, text.len().saturating_sub(left)),
        },
        Unread::NumberTooLarge { left } => SyntaxError::NumberTooLarge {
            place: TextPlace::of(text, text.len().saturating_sub(left)),
        },
        Unread::OutOfMemory => SyntaxError::OutOfMemory,
    }
}

/// Returns the error for tokens that spell no program.
fn no_program(text: &[char], tokens: &[Spanned], stuck: Stuck) -> SyntaxError
    requires short { length text.now < 2 ^ 31 }
    requires read { AreTokensOf text.now (plain tokens.now) }
    requires shallow { AreShallow 0 (plain tokens.now) }
    requires placed { ArePlaced text.now tokens.now }
    requires refused { stuck ≢ Stuck.OutOfMemory
        → (p : ProgramTree) → plain tokens.now ≢ spelling p }
    ensures told { TellsOf text.now result }
    ensures memory { result ≡ SyntaxError.OutOfMemory → stuck ≡ Stuck.OutOfMemory }
{
    match stuck {
        Stuck::Unexpected { left } => SyntaxError::UnexpectedToken {
            place: TextPlace::of(text, beginning(text, tokens, left)),
        },
        Stuck::OutOfMemory => SyntaxError::OutOfMemory,
    }
}

/// Returns the position of the token with which this many are left, or the end of the text.
fn beginning(text: &[char], tokens: &[Spanned], left: usize) -> usize
    requires { ArePlaced text.now tokens.now }
    ensures { BeginsToken text.now result }
{
    match tokens.get(tokens.len().saturating_sub(left)) {
        Some(token) => token.at,
        None => text.len(),
    }
}

/// Returns the position of the first bracket that makes too many open.
fn too_deep(tokens: &[Spanned]) -> Option<usize>
    ensures none { IfNone result (AreShallow 0 (plain tokens.now)) }
    ensures some { IfSome result (OpensTooMany tokens.now) }
{
    let mut count = 0usize;
    for spanned in tokens {
        count = open_behind(count, &spanned.token);
        if count > MOST_OPEN {
            return Some(spanned.at);
        }
    }
    None
}

/// Returns the number of brackets that are open after a token.
fn open_behind(count: usize, token: &Token) -> usize
    requires { count ≤ 100 }
    ensures { result ≡ open_behind count (token_tree token.now) }
{
    let Token::Mark(mark) = token else {
        return count;
    };
    match mark {
        Mark::LeftParen | Mark::LeftBrace | Mark::LeftBracket => count + 1,
        Mark::RightParen | Mark::RightBrace | Mark::RightBracket => count.saturating_sub(1),
        _ => count,
    }
}
