//! Reading the first of the remaining tokens.

ghost use Rattle.std.specs.Prelude.{◌≡◌, ◌≢◌, ◌<◌, ℕ, List, [], ◌∷◌, length, IfOk, IfErr, IfSome, IfNone};
ghost use Rattle.std.specs.String.{string_bytes};
ghost use Rattle.syntax.specs.declared.cursor.Stuck.TheVariants.{OutOfMemory};
ghost use Rattle.syntax.specs.declared.token.Word.{Word as AnyWord};
ghost use Rattle.syntax.specs.Token.{Token as PlainToken, NameToken, NumberToken, WordToken};
ghost use Rattle.syntax.specs.Token.{MarkToken, token, plain};

use crate::token::{Mark, Spanned, Token, Word};
use std::alloc::{AllocError, AllocFailed};

/// The reason why reading can't continue.
#[derive(Clone, Copy, Debug)]
pub enum Stuck {
    /// A token isn't allowed here. `left` is the number of remaining tokens, including this one: 1
    /// for `main { skip }`. It is 0 if the text ends too early, as in `main`.
    Unexpected { left: usize },
    /// Memory ran out.
    OutOfMemory,
}

impl From<AllocError> for Stuck {
    ghost from_gives = { λ _ e. e ≡ OutOfMemory };

    fn from(_error: AllocError) -> Stuck {
        Stuck::OutOfMemory
    }
}

impl<T: Drop> From<AllocFailed<T>> for Stuck {
    ghost from_gives = { λ _ e. e ≡ OutOfMemory };

    fn from(_error: AllocFailed<T>) -> Stuck {
        Stuck::OutOfMemory
    }
}

/// Returns the error that the first of these tokens isn't allowed here.
pub fn unexpected(tokens: &[Spanned]) -> Stuck
    ensures { result ≡ Stuck.Unexpected (length tokens.now) }
{
    Stuck::Unexpected { left: tokens.len() }
}

/// Returns the first token.
pub fn peek(tokens: &[Spanned]) -> Option<&Token>
    ensures found { IfSome result (λ first.
        (rest : List PlainToken) × (plain tokens.now ≡ token first.now ∷ rest)) }
    ensures absent { IfNone result (plain tokens.now ≡ []) }
{
    match tokens.first() {
        None => None,
        Some(first) => Some(&first.token),
    }
}

/// Returns the tokens after a mark, if it comes first.
pub fn after_mark(tokens: &[Spanned], wanted: Mark) -> Option<&[Spanned]>
    ensures shorter { IfSome result (λ rest. length rest.now < length tokens.now) }
    ensures found { IfSome result (λ rest. plain tokens.now ≡ MarkToken wanted ∷ plain rest.now) }
    ensures absent { IfNone result
        ((rest : List PlainToken) → plain tokens.now ≢ MarkToken wanted ∷ rest) }
{
    let (first, rest) = tokens.split_first()?;
    match &first.token {
        Token::Mark(mark) => { if *mark == wanted { Some(rest) } else { None } }
        Token::Name(_) | Token::Number(_) | Token::Word(_) => None,
    }
}

/// Returns the tokens after a word, if it comes first.
pub fn after_word(tokens: &[Spanned], wanted: Word) -> Option<&[Spanned]>
    ensures shorter { IfSome result (λ rest. length rest.now < length tokens.now) }
    ensures found { IfSome result (λ rest. plain tokens.now ≡ WordToken wanted ∷ plain rest.now) }
    ensures absent { IfNone result
        ((rest : List PlainToken) → plain tokens.now ≢ WordToken wanted ∷ rest) }
{
    let (first, rest) = tokens.split_first()?;
    match &first.token {
        Token::Word(word) => { if *word == wanted { Some(rest) } else { None } }
        Token::Name(_) | Token::Number(_) | Token::Mark(_) => None,
    }
}

/// Returns the word that comes first, and the tokens after it.
pub fn first_word(tokens: &[Spanned]) -> Option<(Word, &[Spanned])>
    ensures shorter { IfSome result (λ read. length read.1.now < length tokens.now) }
    ensures found { IfSome result (λ read. plain tokens.now ≡ WordToken read.0 ∷ plain read.1.now) }
    ensures absent { IfNone result
        ((word : AnyWord) (rest : List PlainToken) → plain tokens.now ≢ WordToken word ∷ rest) }
{
    let (first, rest) = tokens.split_first()?;
    match &first.token {
        Token::Word(word) => Some((*word, rest)),
        Token::Name(_) | Token::Number(_) | Token::Mark(_) => None,
    }
}

/// Returns the tokens after a mark, which must come first.
pub fn mark(tokens: &[Spanned], wanted: Mark) -> Result<&[Spanned], Stuck>
    ensures shorter { IfOk result (λ rest. length rest.now < length tokens.now) }
    ensures found { IfOk result (λ rest. plain tokens.now ≡ MarkToken wanted ∷ plain rest.now) }
    ensures refused { IfErr result (λ _.
        (rest : List PlainToken) → plain tokens.now ≢ MarkToken wanted ∷ rest) }
    ensures place { IfErr result (λ stuck. stuck ≡ Stuck.Unexpected (length tokens.now)) }
{
    match after_mark(tokens, wanted) {
        None => Err(unexpected(tokens)),
        Some(rest) => Ok(rest),
    }
}

/// Returns the tokens after a word, which must come first.
pub fn word(tokens: &[Spanned], wanted: Word) -> Result<&[Spanned], Stuck>
    ensures shorter { IfOk result (λ rest. length rest.now < length tokens.now) }
    ensures found { IfOk result (λ rest. plain tokens.now ≡ WordToken wanted ∷ plain rest.now) }
    ensures refused { IfErr result (λ _.
        (rest : List PlainToken) → plain tokens.now ≢ WordToken wanted ∷ rest) }
    ensures place { IfErr result (λ stuck. stuck ≡ Stuck.Unexpected (length tokens.now)) }
{
    match after_word(tokens, wanted) {
        None => Err(unexpected(tokens)),
        Some(rest) => Ok(rest),
    }
}

/// Reads a name, which must come first.
pub fn name(tokens: &[Spanned]) -> Result<(String, &[Spanned]), Stuck>
    ensures shorter { IfOk result (λ read. length read.1.now < length tokens.now) }
    ensures found { IfOk result (λ read.
        plain tokens.now ≡ NameToken (string_bytes read.0) ∷ plain read.1.now) }
    ensures refused { IfErr result (λ stuck. stuck ≢ Stuck.OutOfMemory
        → (name : List ℕ) (rest : List PlainToken) → plain tokens.now ≢ NameToken name ∷ rest) }
    ensures place { IfErr result (λ stuck. stuck ≢ Stuck.OutOfMemory
        → stuck ≡ Stuck.Unexpected (length tokens.now)) }
    ensures memory { IfErr result (λ stuck. stuck ≡ Stuck.OutOfMemory
        → (name : List ℕ) × (rest : List PlainToken) × (plain tokens.now ≡ NameToken name ∷ rest)) }
{
    let Some((first, rest)) = tokens.split_first() else {
        return Err(unexpected(tokens));
    };
    match &first.token {
        Token::Name(name) => Ok((name.clone()?, rest)),
        Token::Number(_) | Token::Word(_) | Token::Mark(_) => Err(unexpected(tokens)),
    }
}

/// Reads a number, which must come first.
pub fn number(tokens: &[Spanned]) -> Result<(u64, &[Spanned]), Stuck>
    ensures shorter { IfOk result (λ read. length read.1.now < length tokens.now) }
    ensures found { IfOk result (λ read. plain tokens.now ≡ NumberToken read.0 ∷ plain read.1.now) }
    ensures refused { IfErr result (λ _.
        (number : ℕ) (rest : List PlainToken) → plain tokens.now ≢ NumberToken number ∷ rest) }
    ensures place { IfErr result (λ stuck. stuck ≡ Stuck.Unexpected (length tokens.now)) }
{
    let Some((first, rest)) = tokens.split_first() else {
        return Err(unexpected(tokens));
    };
    match &first.token {
        Token::Number(value) => Ok((*value, rest)),
        Token::Name(_) | Token::Word(_) | Token::Mark(_) => Err(unexpected(tokens)),
    }
}
