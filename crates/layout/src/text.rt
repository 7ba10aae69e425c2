//! The layout of texts.

ghost use Rattle.std.specs.Prelude.{◌≡◌, ◌<◌, ℕ, List, ◌∷◌, true, false, IfOk, length, encode_utf8_all};
ghost use Rattle.std.specs.Str.{chars};
ghost use Rattle.std.specs.String.{string_bytes};
ghost use Rattle.syntax.specs.Lexical.{begins_comment, is_blank, starts, AreTokensOf};
ghost use Rattle.syntax.specs.Token.{plain, token as token_tree, Token as PlainToken};
ghost use Rattle.layout.specs.Kept.{IsLaidOut, KeepsAll, HaveSameTokens};
ghost use Rattle.layout.specs.Writing.{GoesOn, IsCounted, Passes};

use crate::pieces;
use crate::writer::LayoutWriter;
use std::alloc::{AllocError, Global};
use syntax::lexer::{self, Unread};
use syntax::token::{Spanned, Token};

/// Formats a text in the canonical layout, with its comments.
pub fn laid_out(alloc: Global, text: &str) -> Result<String, AllocError>
    requires { (ts : List PlainToken) × AreTokensOf (chars text.now) ts }
    ensures laid { IfOk result (λ laid. IsLaidOut (chars text.now) (chars (string_bytes laid))) }
    ensures kept { IfOk result (λ laid. KeepsAll (chars text.now) (chars (string_bytes laid))) }
    ensures tokens { IfOk result (λ it. HaveSameTokens (chars text.now) (chars (string_bytes it))) }
    ensures stays { IfOk result
        (λ laid. IsLaidOut (chars (string_bytes laid)) (chars (string_bytes laid))) }
{
    let characters = characters(alloc, text)?;
    let tokens = tokens(alloc, &characters)?;
    let laid = laid(alloc, &characters, &tokens)?;
    let text = text_of(alloc, &laid)?;
    Ok(text)
}

/// Returns the characters of a text.
fn characters(alloc: Global, text: &str) -> Result<Vec<char>, AllocError>
    ensures value { IfOk result (λ found. found.items ≡ chars text.now) }
{
    text.chars().collect(alloc)
}

/// Returns the tokens of a text that has some.
fn tokens(alloc: Global, text: &[char]) -> Result<Vec<Spanned>, AllocError>
    requires { (ts : List PlainToken) × AreTokensOf text.now ts }
    ensures { IfOk result (λ found. AreTokensOf text.now (plain found.items)) }
{
    match lexer::tokens(alloc, text) {
        Ok(tokens) => Ok(tokens),
        Err(unread) => Err(no_memory(unread)),
    }
}

/// Returns the only error for a text that has tokens: out of memory.
fn no_memory(unread: Unread) -> AllocError
    requires { unread ≡ Unread.OutOfMemory }
{
    match unread {
        Unread::OutOfMemory => AllocError,
        Unread::NotACharacter { .. } => unreachable!(),
        Unread::NumberTooLarge { .. } => unreachable!(),
    }
}

/// Returns the text of these characters.
fn text_of(alloc: Global, characters: &[char]) -> Result<String, AllocError>
    ensures { IfOk result (λ text. string_bytes text ≡ encode_utf8_all characters.now) }
{
    characters.iter().copied().collect(alloc)
}

/// Formats the characters of a text with these tokens.
fn laid(alloc: Global, text: &[char], tokens: &[Spanned]) -> Result<Vec<char>, AllocError>
    requires { AreTokensOf text.now (plain tokens.now) }
    ensures { IfOk result (λ laid. IsLaidOut text.now laid.items) }
{
    let mut writer = LayoutWriter::new(alloc);
    let mut rest = text;
    for spanned in tokens {
        rest = between(&mut writer, rest)?;
        rest = token(&mut writer, &spanned.token, rest)?;
    }
    between(&mut writer, rest)?;
    writer.end()?;
    Ok(writer.out)
}

/// Writes the comments before the first token, and returns the rest from that token on.
fn between<'t>(writer: &mut LayoutWriter, text: &'t [char]) -> Result<&'t [char], AllocError>
    requires { IsCounted writer.old }
    ensures counted { IfOk result (λ _. IsCounted writer.new) }
    ensures passed { IfOk result (λ left. Passes writer.old text.now writer.new left.now) }
    ensures no_blank { IfOk result (λ left. starts is_blank left.now ≡ false) }
    ensures no_comment { IfOk result (λ left. begins_comment left.now ≡ false) }
{
    let mut rest = text;
    while let Some((first, behind)) = rest.split_first() {
        if lexer::is_blank(*first) {
            writer.blank(*first);
            rest = behind;
        } else if pieces::begins_comment(rest) {
            rest = comment(writer, rest)?;
        } else {
            break;
        }
    }
    Ok(rest)
}

/// Writes the comment at the start of a text, and returns the rest after it.
fn comment<'t>(writer: &mut LayoutWriter, text: &'t [char]) -> Result<&'t [char], AllocError>
    requires counted { IsCounted writer.old }
    requires begins { begins_comment text.now ≡ true }
    ensures counted { IfOk result (λ _. IsCounted writer.new) }
    ensures shorter { IfOk result (λ left. length left.now < length text.now) }
    ensures passed { IfOk result (λ left. Passes writer.old text.now writer.new left.now) }
{
    let (_, behind) = text.split_at(2);
    let (line, left) = behind.split_at(lexer::line_length(behind));
    writer.comment(line)?;
    Ok(left)
}

/// Writes the token at the start of a text, and returns the rest after it.
fn token<'t>(
    writer: &mut LayoutWriter,
    token: &Token,
    text: &'t [char],
) -> Result<&'t [char], AllocError>
    requires counted { IsCounted writer.old }
    requires no_blank { starts is_blank text.now ≡ false }
    requires no_comment { begins_comment text.now ≡ false }
    requires first { (whole : List ℕ) × (ts : List PlainToken)
        × GoesOn whole (token_tree token.now ∷ ts) writer.old text.now }
    ensures counted { IfOk result (λ _. IsCounted writer.new) }
    ensures passed { IfOk result (λ left. (whole : List ℕ) (ts : List PlainToken)
        → GoesOn whole (token_tree token.now ∷ ts) writer.old text.now
        → GoesOn whole ts writer.new left.now) }
{
    let (letters, left) = text.split_at(pieces::token_length(token, text));
    writer.token(token, letters)?;
    Ok(left)
}
