//! The places where the statements of a text's program start.

ghost use Rattle.std.specs.Prelude.{◌≡◌, ◌-◌, ◌<◌, ◌≤◌, ◌^◌, IfErr, IfOk, length, false, vec_len};
ghost use Rattle.std.specs.Str.{chars};
ghost use Rattle.statement_places.specs.Begun.{AreBegun, place_behind};
ghost use Rattle.statement_places.specs.Starts.{begins_if_line, ends_line as ends_lines, starts, token_starts};
ghost use Rattle.syntax.specs.Lexical.{AreTokensOf};
ghost use Rattle.syntax.specs.Place.{place_at};
ghost use Rattle.syntax.specs.Refusals.{ArePlaced, TellsUnread};
ghost use Rattle.syntax.specs.Spelling.{spelling};
ghost use Rattle.syntax.specs.Token.{plain, token as token_tree};
ghost use Rattle.syntax_tree.specs.Tree.{Program};

use std::alloc::{AllocError, Global};
use syntax::TextPlace;
use syntax::lexer::{self, Unread};
use syntax::token::{Mark, Spanned, Token, Word};

/// Returns the places where the statements of a text's program start, in the order of their labels.
pub fn statement_places(alloc: Global, text: &str) -> Result<Vec<TextPlace>, Unread>
    requires { length text.now ≤ 1048576 }
    ensures begun { (p : Program) → AreTokensOf (chars text.now) (spelling p)
        → IfOk result (λ places. AreBegun (chars text.now) (starts p) places.items) }
    ensures unread { IfErr result (TellsUnread (chars text.now)) }
{
    let characters = characters(alloc, text)?;
    let tokens = lexer::tokens(alloc, &characters)?;
    let places = begun(alloc, &characters, &tokens)?;
    Ok(places)
}

/// Returns the characters of a text.
fn characters(alloc: Global, text: &str) -> Result<Vec<char>, AllocError>
    ensures value { IfOk result (λ found. found.items ≡ chars text.now) }
    ensures short { IfOk result (λ found. vec_len found ≤ length text.now) }
{
    text.chars().collect(alloc)
}

/// Returns the places of the tokens that start a statement.
fn begun(alloc: Global, text: &[char], tokens: &[Spanned]) -> Result<Vec<TextPlace>, AllocError>
    requires short { length text.now < 2 ^ 31 }
    requires read { AreTokensOf text.now (plain tokens.now) }
    requires placed { ArePlaced text.now tokens.now }
    ensures { IfOk result (λ places.
        AreBegun text.now (token_starts false (plain tokens.now)) places.items) }
{
    let mut places = Vec::new(alloc);
    let mut reached = Reached::first();
    let mut ended = false;
    for spanned in tokens {
        if ended && begins_statement(&spanned.token) {
            reached = reached.on_to(text, spanned.at);
            places.push(reached.place)?;
        }
        ended = ends_line(&spanned.token);
    }
    Ok(places)
}

/// Returns whether a statement starts with this token, if a line may start there.
fn begins_statement(token: &Token) -> bool
    ensures { result ≡ begins_if_line (token_tree token.now) }
{
    match token {
        Token::Name(_) => true,
        Token::Number(_) => true,
        Token::Word(word) => match word {
            Word::Proc | Word::Main | Word::Array | Word::Else | Word::Rescue => false,
            _ => true,
        },
        Token::Mark(mark) => match mark {
            Mark::RightBrace => false,
            _ => true,
        },
    }
}

/// Returns whether a line ends after this token.
fn ends_line(token: &Token) -> bool
    ensures { result ≡ ends_lines (token_tree token.now) }
{
    match token {
        Token::Mark(Mark::Semicolon | Mark::LeftBrace | Mark::RightBrace) => true,
        _ => false,
    }
}

/// A character of a text, by its number from 0, and its place.
#[derive(Clone, Copy)]
struct Reached {
    at: usize,
    place: TextPlace,
}

impl Reached {
    ghost use Rattle.std.specs.Prelude.{List, ℕ};

    /// Returns the first character of any text.
    fn first() -> Reached
        ensures { (text : List ℕ) → result.place ≡ place_at text result.at }
    {
        Reached {
            at: 0,
            place: TextPlace { line: 1, column: 1 },
        }
    }

    /// Moves to another character. Continues from the current one if the other one comes later.
    fn on_to(self, text: &[char], at: usize) -> Reached
        requires short { length text.now < 2 ^ 31 }
        requires known { self.place ≡ place_at text.now self.at }
        ensures at { result.at ≡ at }
        ensures place { result.place ≡ place_at text.now at }
    {
        if at < self.at {
            let place = TextPlace::of(text, at);
            return Reached { at, place };
        }
        let mut place = self.place;
        for i in self.at..at {
            match text.get(i) {
                Some(character) => place = behind(place, *character),
                None => break,
            }
        }
        Reached { at, place }
    }
}

/// Returns the place after a character, given the character's place.
fn behind(place: TextPlace, character: char) -> TextPlace
    requires line { place.line < 2 ^ 32 - 1 }
    requires column { place.column < 2 ^ 32 - 1 }
    ensures { result ≡ place_behind place character }
{
    if character == '\n' {
        TextPlace {
            line: place.line + 1,
            column: 1,
        }
    } else {
        TextPlace {
            line: place.line,
            column: place.column + 1,
        }
    }
}
