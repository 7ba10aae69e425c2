//! The lexer: texts as tokens.

ghost use Rattle.std.specs.Prelude.{◌≡◌, ◌<◌, ◌≤◌, true, false, [], ◌∷◌, length, IfOk, IfErr, IfSome, IfNone};
ghost use Rattle.std.specs.Char.{is_ascii_digit};
ghost use Rattle.std.specs.List.{list_all, prefix_len};
ghost use Rattle.std.specs.String.{string_bytes};
ghost use Rattle.syntax.specs.Lexical.{begins_name, is_blank, is_in_name, is_in_line, begins_comment};
ghost use Rattle.syntax.specs.Lexical.{number_of, starts, MarkPiece, Begins, BeginsNoMark, Reads, SpellsWord};
ghost use Rattle.syntax.specs.Lexical.{AreTokensOf};
ghost use Rattle.syntax.specs.Refusals.{ArePlaced, BeginsNoToken, TellsUnread};
ghost use Rattle.syntax.specs.Token.{token as token_tree, plain};
ghost use Rattle.syntax.specs.declared.lexer.Unread.TheVariants.{OutOfMemory};

use crate::token::{Mark, Spanned, Token, Word};
use std::alloc::{AllocError, AllocFailed, Global};

/// The largest number: 2^63 - 1.
const MOST: u64 = 9_223_372_036_854_775_807;

/// The reason why a text has no tokens.
#[derive(Clone, Copy, Debug)]
pub enum Unread {
    /// No token starts where this many characters are left: 1 for `!`.
    NotACharacter { left: usize },
    /// A number that is too large starts where this many characters are left: 19 for
    /// `9223372036854775808`.
    NumberTooLarge { left: usize },
    /// Memory ran out.
    OutOfMemory,
}

impl From<AllocError> for Unread {
    ghost from_gives = { λ _ e. e ≡ OutOfMemory };

    fn from(_error: AllocError) -> Unread {
        Unread::OutOfMemory
    }
}

impl<T: Drop> From<AllocFailed<T>> for Unread {
    ghost from_gives = { λ _ e. e ≡ OutOfMemory };

    fn from(_error: AllocFailed<T>) -> Unread {
        Unread::OutOfMemory
    }
}

/// Returns the tokens of a text, or the first position at which no token starts.
pub fn tokens(alloc: Global, text: &[char]) -> Result<Vec<Spanned>, Unread>
    ensures read { IfOk result (λ found. AreTokensOf text.now (plain found.items)) }
    ensures placed { IfOk result (λ found. ArePlaced text.now found.items) }
    ensures unread { IfErr result (TellsUnread text.now) }
{
    let mut tokens = Vec::new(alloc);
    let mut rest = text;
    while !rest.is_empty() {
        if let Some(behind) = blank(rest) {
            rest = behind;
        } else {
            let at = text.len() - rest.len();
            let (token, behind) = token(alloc, rest)?;
            tokens.push(Spanned { token, at })?;
            rest = behind;
        }
    }
    Ok(tokens)
}

/// Returns the characters after a white space character or a comment, if one comes first.
fn blank(chars: &[char]) -> Option<&[char]>
    ensures shorter { IfSome result (λ rest. length rest.now < length chars.now) }
    ensures found { IfSome result (λ rest. Reads chars.now [] rest.now) }
    ensures no_blank { IfNone result (starts is_blank chars.now ≡ false) }
    ensures no_comment { IfNone result (begins_comment chars.now ≡ false) }
{
    let (first, after) = chars.split_first()?;
    if is_blank(*first) {
        return Some(after);
    }
    let (second, behind) = after.split_first()?;
    if *first == '/' && *second == '/' {
        let (_, rest) = behind.split_at(line_length(behind));
        return Some(rest);
    }
    None
}

/// Returns whether this character is white space.
pub fn is_blank(c: char) -> bool
    ensures { result ≡ is_blank c }
{
    c == ' ' || c == '\t' || c == '\r' || c == '\n'
}

/// Returns the number of characters before the first line feed.
pub fn line_length(chars: &[char]) -> usize
    ensures { result ≡ prefix_len is_in_line chars.now }
{
    chars.iter().take_while(|c| **c != '\n').count()
}

/// Returns the longest token that comes first, and the characters after it.
fn token(alloc: Global, chars: &[char]) -> Result<(Token, &[char]), Unread>
    requires no_blank { starts is_blank chars.now ≡ false }
    requires no_comment { begins_comment chars.now ≡ false }
    ensures shorter { IfOk result (λ read. length read.1.now < length chars.now) }
    ensures found { IfOk result (λ read. Reads chars.now (token_tree read.0 ∷ []) read.1.now) }
    ensures absent { IfErr result (BeginsNoToken chars.now) }
    ensures memory { IfErr result (λ unread. unread ≡ Unread.OutOfMemory
        → starts begins_name chars.now ≡ true) }
{
    let Some((first, _)) = chars.split_first() else {
        return Err(Unread::NotACharacter { left: 0 });
    };
    if begins_name(*first) {
        let (letters, rest) = chars.split_at(name_length(chars));
        return Ok((word_or_name(alloc, letters)?, rest));
    }
    if first.is_ascii_digit() {
        let (digits, rest) = chars.split_at(digits_length(chars));
        let Some(value) = value_of(digits) else {
            return Err(Unread::NumberTooLarge { left: chars.len() });
        };
        return Ok((Token::Number(value), rest));
    }
    let Some((mark, rest)) = mark(chars) else {
        return Err(Unread::NotACharacter { left: chars.len() });
    };
    Ok((Token::Mark(mark), rest))
}

/// Returns whether a name can start with this character.
fn begins_name(c: char) -> bool
    ensures { result ≡ begins_name c }
{
    c.is_ascii_alphabetic() || c == '_'
}

/// Returns whether this character can be part of a name.
fn is_in_name(c: char) -> bool
    ensures { result ≡ is_in_name c }
{
    begins_name(c) || c.is_ascii_digit()
}

/// Returns the number of characters at the start that can be part of a name.
fn name_length(chars: &[char]) -> usize
    ensures { result ≡ prefix_len is_in_name chars.now }
{
    chars.iter().take_while(|c| is_in_name(**c)).count()
}

/// Returns the number of digits at the start.
pub fn digits_length(chars: &[char]) -> usize
    ensures { result ≡ prefix_len is_ascii_digit chars.now }
{
    chars.iter().take_while(|c| c.is_ascii_digit()).count()
}

/// Returns the reserved word with these letters, or otherwise the name.
fn word_or_name(alloc: Global, letters: &[char]) -> Result<Token, AllocError>
    requires begins { starts begins_name letters.now ≡ true }
    requires in_name { list_all is_in_name letters.now ≡ true }
    ensures { IfOk result (λ token. SpellsWord letters.now (token_tree token)) }
{
    let name = text_of(alloc, letters)?;
    match Word::of(name.as_str()) {
        Some(word) => Ok(Token::Word(word)),
        None => Ok(Token::Name(name)),
    }
}

/// Returns the text of these letters.
fn text_of(alloc: Global, letters: &[char]) -> Result<String, AllocError>
    requires { list_all is_in_name letters.now ≡ true }
    ensures { IfOk result (λ text. string_bytes text ≡ letters.now) }
{
    letters.iter().copied().collect(alloc)
}

/// Returns the number that these digits spell, unless it is too large.
fn value_of(digits: &[char]) -> Option<u64>
    ensures found { IfSome result (λ value. value ≡ number_of digits.now) }
    ensures small { IfSome result (λ value. value ≤ 9223372036854775807) }
    ensures large { list_all is_ascii_digit digits.now ≡ true
        → IfNone result (9223372036854775807 < number_of digits.now) }
{
    let mut value = 0u64;
    for c in digits {
        let digit = c.to_digit(10)?;
        value = value.checked_mul(10)?.checked_add(u64::from(digit))?;
    }
    if value > MOST { None } else { Some(value) }
}

/// Returns the longest mark that comes first, and the characters after it.
fn mark(chars: &[char]) -> Option<(Mark, &[char])>
    requires { begins_comment chars.now ≡ false }
    ensures found { IfSome result (λ read. Begins chars.now (MarkPiece read.0) read.1.now) }
    ensures shorter { IfSome result (λ read. length read.1.now < length chars.now) }
    ensures absent { IfNone result (BeginsNoMark chars.now) }
{
    let (first, after) = chars.split_first()?;
    if let Some((second, behind)) = after.split_first() {
        if *second == '=' {
            if let Some(mark) = Mark::of_two(*first) {
                return Some((mark, behind));
            }
        }
    }
    let mark = Mark::of_one(*first)?;
    Some((mark, after))
}
