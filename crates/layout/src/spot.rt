//! The current spot of a layout in a text.

ghost use Rattle.std.specs.Prelude.{◌≡◌, ◌<◌, ◌+◌, ◌^◌};
ghost use Rattle.syntax.specs.Canonical.{depth_by, left_by, left_by_mark, left_by_minus};
ghost use Rattle.syntax.specs.Token.{WordToken, token as token_tree};
ghost use Rattle.syntax.specs.declared.token.Left.{Left as AnyLeft};
ghost use Rattle.layout.specs.Spot.{first as first_spot, spot as spot_of};
ghost use Rattle.layout.specs.Spot.{behind_blank, behind_comment, behind_token, last_by, one_more};

use syntax::token::{Left, Mark, Token, Word};

/// The last item, which can be a comment.
#[derive(Clone, Copy, PartialEq, Eq, Debug)]
pub enum Last {
    /// The start of the text.
    Nothing,
    /// `{`
    Brace,
    /// `// so far`
    Comment,
    /// Any other token.
    Code,
}

/// The number of lines started since the last item.
#[derive(Clone, Copy, PartialEq, Eq, Debug)]
pub enum Feeds {
    /// None: the same line continues.
    Same,
    /// One.
    Next,
    /// More, so there is an empty line in between.
    Apart,
}

/// The current spot of a layout, with the number of open blocks.
#[derive(Clone, Copy, PartialEq, Eq, Debug)]
pub struct Spot {
    pub depth: usize,
    /// What is to the left, apart from comments.
    pub left: Left,
    pub last: Last,
    pub feeds: Feeds,
}

impl Spot {
    /// Returns the start of a text.
    pub fn first() -> Spot
        ensures { spot_of result ≡ first_spot }
    {
        Spot {
            depth: 0,
            left: Left::Margin,
            last: Last::Nothing,
            feeds: Feeds::Same,
        }
    }

    /// Returns the spot after a whitespace character.
    pub fn behind_blank(self, blank: char) -> Spot
        ensures { spot_of result ≡ behind_blank (spot_of self) blank }
    {
        if blank == '\n' {
            Spot {
                feeds: self.feeds.one_more(),
                ..self
            }
        } else {
            self
        }
    }

    /// Returns the spot after a comment.
    pub fn behind_comment(self) -> Spot
        ensures { spot_of result ≡ behind_comment (spot_of self) }
    {
        Spot {
            last: Last::Comment,
            feeds: Feeds::Same,
            ..self
        }
    }

    /// Returns the spot after a token.
    pub fn behind_token(self, token: &Token) -> Spot
        requires { self.depth < 2 ^ 63 }
        ensures { spot_of result ≡ behind_token (spot_of self) (token_tree token.now) }
    {
        Spot {
            depth: depth_by(self.depth, token),
            left: left_by(self.left, token),
            last: last_by(token),
            feeds: Feeds::Same,
        }
    }
}

impl Feeds {
    /// Returns the value after one more newline.
    fn one_more(self) -> Feeds
        ensures { result ≡ one_more self }
    {
        match self {
            Feeds::Same => Feeds::Next,
            Feeds::Next => Feeds::Apart,
            Feeds::Apart => Feeds::Apart,
        }
    }
}

/// Returns the number of open blocks after a token.
fn depth_by(depth: usize, token: &Token) -> usize
    requires { depth < 2 ^ 63 }
    ensures { result ≡ depth_by depth (token_tree token.now) }
{
    let Token::Mark(mark) = token else {
        return depth;
    };
    match mark {
        Mark::LeftBrace => depth + 1,
        Mark::RightBrace => depth.saturating_sub(1),
        _ => depth,
    }
}

/// Returns what a token is for the next token.
fn left_by(left: Left, token: &Token) -> Left
    ensures { result ≡ left_by left (token_tree token.now) }
{
    match token {
        Token::Name(_) => Left::Called,
        Token::Number(_) => Left::Operand,
        Token::Word(word) => left_by_word(*word),
        Token::Mark(mark) => left_by_mark(left, *mark),
    }
}

fn left_by_word(word: Word) -> Left
    ensures { (left : AnyLeft) → result ≡ left_by left (WordToken word) }
{
    match word {
        Word::Len | Word::Int | Word::Byte => Left::Called,
        Word::True | Word::False => Left::Operand,
        _ => Left::Other,
    }
}

fn left_by_mark(left: Left, mark: Mark) -> Left
    ensures { result ≡ left_by_mark left mark }
{
    match mark {
        Mark::LeftParen | Mark::LeftBracket => Left::Opening,
        Mark::RightParen | Mark::RightBracket => Left::Operand,
        Mark::Semicolon | Mark::LeftBrace | Mark::RightBrace => Left::Ended,
        Mark::Minus => left_by_minus(left),
        _ => Left::Other,
    }
}

/// Returns what a `-` is for the next token. After an operand it isn't unary.
fn left_by_minus(left: Left) -> Left
    ensures { result ≡ left_by_minus left }
{
    match left {
        Left::Called | Left::Operand => Left::Other,
        Left::Margin | Left::Opening | Left::Ended | Left::Other => Left::Opening,
    }
}

/// Returns what a token is as the last item.
fn last_by(token: &Token) -> Last
    ensures { result ≡ last_by (token_tree token.now) }
{
    let Token::Mark(mark) = token else {
        return Last::Code;
    };
    match mark {
        Mark::LeftBrace => Last::Brace,
        _ => Last::Code,
    }
}
