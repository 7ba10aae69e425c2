//! The start of a text.

ghost use Rattle.std.specs.Prelude.{◌≡◌, ℕ, List, [], ◌∷◌, length};
ghost use Rattle.std.specs.List.{prefix_len};
ghost use Rattle.syntax.specs.Lexical.{begins_comment, is_in_name, mark_text};
ghost use Rattle.syntax.specs.Lexical.{letters, token_of, Begins, Piece};
ghost use Rattle.syntax.specs.Token.{token as token_tree};
ghost use Rattle.layout.specs.Laid.{trimmed};

use syntax::lexer;
use syntax::token::{Mark, Token};

/// Returns whether a text starts with a comment.
pub fn begins_comment(text: &[char]) -> bool
    ensures { result ≡ begins_comment text.now }
{
    match text {
        [first, second, ..] => *first == '/' && *second == '/',
        _ => false,
    }
}

/// Returns characters without the whitespace at their end.
pub fn trimmed(text: &[char]) -> &[char]
    ensures { result.now ≡ trimmed text.now }
{
    let mut kept = text;
    while let Some((last, front)) = kept.split_last() {
        if !lexer::is_blank(*last) {
            break;
        }
        kept = front;
    }
    kept
}

/// Returns the number of characters of a token at the start of a text.
pub fn token_length(token: &Token, text: &[char]) -> usize
    ensures { (p : Piece) (behind : List ℕ) → Begins text.now p behind
        → token_of p ≡ token_tree token.now ∷ [] → result ≡ length (letters p) }
{
    match token {
        Token::Name(_) => name_length(text),
        Token::Word(_) => name_length(text),
        Token::Number(_) => lexer::digits_length(text),
        Token::Mark(mark) => mark_length(*mark),
    }
}

fn name_length(text: &[char]) -> usize
    ensures { result ≡ prefix_len is_in_name text.now }
{
    text.iter().take_while(|c| is_in_name(**c)).count()
}

/// Returns whether this character may be part of a name.
fn is_in_name(c: char) -> bool
    ensures { result ≡ is_in_name c }
{
    c.is_ascii_alphabetic() || c == '_' || c.is_ascii_digit()
}

fn mark_length(mark: Mark) -> usize
    ensures { result ≡ length (mark_text mark) }
{
    match mark {
        Mark::AtMost | Mark::AtLeast | Mark::Equal | Mark::Differs => 2,
        _ => 1,
    }
}
