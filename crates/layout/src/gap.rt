//! The gap before an item of a layout: before a comment or a token.

ghost use Rattle.std.specs.Prelude.{◌≡◌, ◌<◌, ◌+◌, ◌^◌};
ghost use Rattle.syntax.specs.Canonical.{begins_line, is_closing, is_opening};
ghost use Rattle.syntax.specs.Token.{token as token_tree};
ghost use Rattle.layout.specs.Gap.{comment_gap, token_gap, line_gap, space_gap, space_unless, keeps_empty};
ghost use Rattle.layout.specs.Gap.{inner_levels, token_levels, is_right_brace};
ghost use Rattle.layout.specs.Spot.{spot as spot_of};

use crate::spot::{Feeds, Last, Spot};
use syntax::token::{Left, Mark, Token, Word};

/// The gap between an item and the one before it.
#[derive(Clone, Copy, PartialEq, Eq, Debug)]
pub enum Gap {
    /// Nothing, as before the `;` of `skip;`.
    Joined,
    /// One space, as before the `=` of `i = 1`.
    Space,
    /// The start of a line, indented by `levels`, after an empty line if `empty` is true.
    Line { empty: bool, levels: usize },
}

/// Returns the gap before a comment. A comment stays on its line after code, and otherwise is on
/// its own line.
pub fn comment_gap(spot: Spot) -> Gap
    requires { spot.depth < 2 ^ 63 }
    ensures { result ≡ comment_gap (spot_of spot) }
{
    match spot.last {
        Last::Nothing => Gap::Joined,
        Last::Comment => line_gap(keeps_empty(spot), inner_levels(spot)),
        Last::Brace | Last::Code => match spot.feeds {
            Feeds::Same => Gap::Space,
            Feeds::Next | Feeds::Apart => line_gap(keeps_empty(spot), inner_levels(spot)),
        },
    }
}

/// Returns the gap before a token: the gap of the canonical text, or a new line after a comment.
pub fn token_gap(spot: Spot, token: &Token) -> Gap
    requires { spot.depth < 2 ^ 63 }
    ensures { result ≡ token_gap (spot_of spot) (token_tree token.now) }
{
    let empty = keeps_empty(spot) && !is_right_brace(token);
    match spot.last {
        Last::Nothing => Gap::Joined,
        Last::Comment => line_gap(empty, token_levels(spot, token)),
        Last::Brace | Last::Code => {
            if begins_line(spot.left, token) {
                line_gap(empty, token_levels(spot, token))
            } else {
                space_gap(spot.left, token)
            }
        }
    }
}

fn line_gap(empty: bool, levels: usize) -> Gap
    ensures { result ≡ line_gap empty levels }
{
    Gap::Line { empty, levels }
}

/// Returns whether an empty line may be here: there was one, and it isn't after a `{`.
fn keeps_empty(spot: Spot) -> bool
    ensures { result ≡ keeps_empty (spot_of spot) }
{
    match spot.last {
        Last::Brace => false,
        Last::Nothing | Last::Comment | Last::Code => match spot.feeds {
            Feeds::Apart => true,
            Feeds::Same | Feeds::Next => false,
        },
    }
}

/// Returns the indentation of a line that starts here. Inside a statement it has two more levels.
fn inner_levels(spot: Spot) -> usize
    requires { spot.depth < 2 ^ 63 }
    ensures { result ≡ inner_levels (spot_of spot) }
{
    match spot.left {
        Left::Margin | Left::Ended => spot.depth,
        Left::Opening | Left::Called | Left::Operand | Left::Other => spot.depth + 2,
    }
}

/// Returns the indentation of a line that starts with a token. A brace is indented like its block's
/// header.
fn token_levels(spot: Spot, token: &Token) -> usize
    requires { spot.depth < 2 ^ 63 }
    ensures { result ≡ token_levels (spot_of spot) (token_tree token.now) }
{
    let Token::Mark(mark) = token else {
        return inner_levels(spot);
    };
    match mark {
        Mark::LeftBrace => spot.depth,
        Mark::RightBrace => spot.depth.saturating_sub(1),
        _ => inner_levels(spot),
    }
}

fn is_right_brace(token: &Token) -> bool
    ensures { result ≡ is_right_brace (token_tree token.now) }
{
    match token {
        Token::Mark(Mark::RightBrace) => true,
        _ => false,
    }
}

/// Returns whether a token starts a line in the canonical text. Only `else` and `rescue`
/// continue a line that was ended.
fn begins_line(left: Left, token: &Token) -> bool
    ensures { result ≡ begins_line left (token_tree token.now) }
{
    match left {
        Left::Margin => true,
        Left::Ended => match token {
            Token::Word(Word::Else | Word::Rescue) => false,
            _ => true,
        },
        Left::Opening | Left::Called | Left::Operand | Left::Other => false,
    }
}

/// Returns the gap between two tokens of a line in the canonical text.
fn space_gap(left: Left, token: &Token) -> Gap
    ensures { result ≡ space_gap left (token_tree token.now) }
{
    match left {
        Left::Opening => Gap::Joined,
        Left::Called => space_unless(is_closing(token) || is_opening(token)),
        Left::Margin | Left::Operand | Left::Ended | Left::Other => space_unless(is_closing(token)),
    }
}

fn space_unless(joined: bool) -> Gap
    ensures { result ≡ space_unless joined }
{
    if joined { Gap::Joined } else { Gap::Space }
}

/// Returns whether there is no space before this token.
fn is_closing(token: &Token) -> bool
    ensures { result ≡ is_closing (token_tree token.now) }
{
    match token {
        Token::Mark(Mark::Comma | Mark::Semicolon | Mark::Colon) => true,
        Token::Mark(Mark::RightParen | Mark::RightBracket) => true,
        _ => false,
    }
}

/// Returns whether there is no space between a name and this token.
fn is_opening(token: &Token) -> bool
    ensures { result ≡ is_opening (token_tree token.now) }
{
    match token {
        Token::Mark(Mark::LeftParen | Mark::LeftBracket) => true,
        _ => false,
    }
}
