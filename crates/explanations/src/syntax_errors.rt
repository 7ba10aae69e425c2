//! Syntax errors.

use crate::brackets::{Unclosed, open_bracket, unclosed_block};
use crate::characters::mend_of_character;
use crate::expected::{Front, WORDS, mark_text, word_text};
use crate::habits::{
    BLOCK, TokensAround, begins_with_relation, is_print, mend_of_array, mend_of_head,
    mend_of_second, mend_of_type_name,
};
use excerpts::heading::Heading;
use excerpts::named::begins_with;
use excerpts::source::{line_of, place_of};
use std::alloc::{AllocError, Global};
use syntax::cursor::Stuck;
use syntax::error::SyntaxError;
use syntax::programs::program;
use syntax::token::{Mark, Spanned, Token, Word};
use syntax::{TextPlace, lexer};

/// Returns the text after the line of a syntax error: where, why, and how to fix it.
pub fn explained_syntax(
    alloc: Global,
    text: &str,
    error: &SyntaxError,
    heading: Heading<'_>,
) -> Result<String, AllocError> {
    let mut told = String::new(alloc);
    if let Some(place) = error.place() {
        heading.push_excerpt(&mut told, text, place)?;
    }
    match error {
        SyntaxError::NotACharacter { place } => push_no_token(&mut told, text, *place)?,
        SyntaxError::UnexpectedToken { .. } => push_unexpected(alloc, &mut told, text)?,
        SyntaxError::NumberTooLarge { place } => told.push_str(mend_of_large(text, *place))?,
        SyntaxError::TooDeep { .. } => told.push_str(TOO_DEEP)?,
        SyntaxError::TooLong => {
            heading.push(&mut told, None)?;
            told.push_str(TOO_LONG)?;
        }
        SyntaxError::OutOfMemory => {}
    }
    Ok(told)
}

/// The number of tokens before the error up to which the expected tokens are listed. The parser
/// reads all of them once for each token that it tries.
const MOST_TOKENS: usize = 50_000;

const TOO_LARGE: &str = "The largest number is 9223372036854775807.
help: use a smaller number.
";

const SMALLEST: &str = "The largest number is 9223372036854775807.
help: write the smallest number as `-9223372036854775807 - 1`.
";

const TOO_DEEP: &str = "Brackets are nested more than 100 deep here.
help: move part of the expression into a variable, or part of the block into a procedure.
";

const TOO_LONG: &str = "A program can have at most 1048576 bytes.
help: shorten it; use --input to read numbers from a file.
";

const NO_VALUE: &str =
    "procedures return no value: call it as a statement, as in `f(a);`, and let it write into a section";

const DIGITS: &str =
    "write numbers with the digits 0 to 9 only, such as 16 for 0x10 and 1000 for 1_000";

const CHAIN: &str = "compare two numbers at a time, as in `a < b and b < c`";

/// Explains a number that is too large.
fn mend_of_large(text: &str, place: TextPlace) -> &'static str {
    let Some((_, behind)) = line_of(text, place).split_once("-9223372036854775808") else {
        return TOO_LARGE;
    };
    match behind.chars().next() {
        Some(digit) if digit.is_ascii_digit() => TOO_LARGE,
        _ => SMALLEST,
    }
}

/// Explains an unexpected character.
fn push_no_token(told: &mut String, text: &str, place: TextPlace) -> Result<(), AllocError> {
    let mend = mend_of_character(text, place);
    write!(told, "Unexpected character.\nhelp: {mend}.\n")
}

/// Adds which token is unexpected, and which ones are expected.
fn push_unexpected(alloc: Global, told: &mut String, text: &str) -> Result<(), AllocError> {
    let characters: Vec<char> = text.chars().collect(alloc)?;
    let Ok(mut tokens) = lexer::tokens(alloc, &characters) else {
        return Ok(());
    };
    let Err(Stuck::Unexpected { left }) = program(alloc, &tokens) else {
        return Ok(());
    };
    let at = tokens.len().saturating_sub(left);
    let behind = tokens.split_off(at)?;
    let mut front = Front::new(alloc, tokens);
    match behind.as_slice() {
        [] => told.push_str("Unexpected end of file.\n")?,
        [stood, ..] => push_stood(told, &stood.token)?,
    }
    if front.is_ended()? {
        return push_ended(told, &behind);
    }
    if at > MOST_TOKENS {
        return told.push_str("help: look at the code before this.\n");
    }
    if is_word(&behind) && front.wants_name()? {
        return push_reserved(told, is_main_of(front.tokens(), &behind));
    }
    let many = front.push_expected(told)?;
    let site = Site {
        alloc,
        text,
        characters: characters.as_slice(),
        behind: behind.as_slice(),
        many,
    };
    site.push_mend(told, &mut front)
}

/// Adds the unexpected token.
fn push_stood(told: &mut String, stood: &Token) -> Result<(), AllocError> {
    match stood {
        Token::Name(name) => write!(told, "Unexpected name `{name}`.\n"),
        Token::Number(number) => write!(told, "Unexpected number {number}.\n"),
        Token::Word(word) => {
            let word = word_text(*word);
            write!(told, "Unexpected reserved word `{word}`.\n")
        }
        Token::Mark(mark) => {
            let mark = mark_text(*mark);
            write!(told, "Unexpected `{mark}`.\n")
        }
    }
}

/// Explains text after main.
fn push_ended(told: &mut String, behind: &[Spanned]) -> Result<(), AllocError> {
    told.push_str("The program ends with the `}` of main; nothing may follow it.\n")?;
    told.push_str(if is_procedure(behind) {
        "help: move the procedure before main.\n"
    } else {
        "help: remove this, or check for an extra `}` before it.\n"
    })
}

/// Returns whether the first token is `proc`.
fn is_procedure(behind: &[Spanned]) -> bool {
    match behind {
        [first, ..] => matches!(&first.token, Token::Word(Word::Proc)),
        [] => false,
    }
}

/// Returns whether the first token is a reserved word.
fn is_word(tokens: &[Spanned]) -> bool {
    match tokens {
        [first, ..] => matches!(&first.token, Token::Word(_)),
        [] => false,
    }
}

/// Returns whether `main` follows `proc`.
fn is_main_of(before: &[Spanned], behind: &[Spanned]) -> bool {
    match (before.last(), behind.first()) {
        (Some(last), Some(first)) => {
            matches!(&last.token, Token::Word(Word::Proc))
                && matches!(&first.token, Token::Word(Word::Main))
        }
        _ => false,
    }
}

/// Adds that a name is expected, and lists the reserved words. The one here may be `main`, after
/// `proc`.
fn push_reserved(told: &mut String, is_main: bool) -> Result<(), AllocError> {
    told.push_str("Expected a name. Reserved words:\n ")?;
    let mut width: usize = 1;
    for word in WORDS {
        if width > 90 {
            told.push_str("\n ")?;
            width = 1;
        }
        write!(told, " {word}")?;
        width = width.saturating_add(word.len()).saturating_add(1);
    }
    told.push_str(if is_main {
        "\nhelp: write `main { .. }` without `proc`.\n"
    } else {
        "\nhelp: use another name.\n"
    })
}

/// What the fix of an unexpected token depends on, besides the tokens before it.
#[derive(Clone, Copy)]
struct Site<'t> {
    alloc: Global,
    text: &'t str,
    characters: &'t [char],
    /// The unexpected token, and those after it.
    behind: &'t [Spanned],
    /// The number of expected tokens.
    many: usize,
}

impl Site<'_> {
    /// Adds how to fix it.
    fn push_mend(&self, told: &mut String, front: &mut Front) -> Result<(), AllocError> {
        told.push_str("help: ")?;
        match self.mend(front)? {
            Some(mend) => told.push_str(mend)?,
            None => self.push_open(told, front)?,
        }
        told.push_str(".\n")
    }

    /// Returns the fix, if no bracket that is still open decides it.
    fn mend(&self, front: &mut Front) -> Result<Option<&'static str>, AllocError> {
        if let Some(mend) = TokensAround::of(front.tokens(), self.behind).mend() {
            return Ok(Some(mend));
        }
        if self.is_behind_digit() {
            return Ok(Some(DIGITS));
        }
        match self.mend_of_declaration(front)? {
            Some(mend) => Ok(Some(mend)),
            None => self.mend_of_end(front),
        }
    }

    /// Returns whether a name follows a digit, as in `0x10`, `1_000` or `1e6`.
    fn is_behind_digit(&self) -> bool {
        match self.behind.first() {
            Some(first) if matches!(&first.token, Token::Name(_)) => {
                match self.characters.get(first.at.saturating_sub(1)) {
                    Some(before) => before.is_ascii_digit(),
                    None => false,
                }
            }
            _ => false,
        }
    }

    /// Handles the head of a procedure: a value that it would give, and other types.
    fn mend_of_declaration(&self, front: &mut Front) -> Result<Option<&'static str>, AllocError> {
        if front.takes_mark(Mark::LeftBrace)? {
            return Ok(mend_of_head(front.tokens(), self.behind));
        }
        if front.takes_word(Word::Int)? {
            if let Some(first) = self.behind.first() {
                if let Token::Name(name) = &first.token {
                    return Ok(Some(mend_of_type_name(name)));
                }
            }
        }
        Ok(None)
    }

    /// Handles an expression that could end, or has a token too many.
    fn mend_of_end(&self, front: &mut Front) -> Result<Option<&'static str>, AllocError> {
        let may_end = front.takes_mark(Mark::Semicolon)?;
        let may_go_on = front.takes_mark(Mark::Plus)?;
        let again = match (may_end, may_go_on) {
            (true, true) => mend_of_second(front.tokens(), self.behind),
            (true, false) => mend_of_array(front.tokens(), self.behind),
            (false, true) => self.mend_of_print(front)?,
            (false, false) => None,
        };
        if again.is_some() {
            return Ok(again);
        }
        if begins_with(self.behind, Mark::LeftParen) && front.ends_with_value()? {
            return Ok(Some(NO_VALUE));
        }
        if begins_with(self.behind, Mark::Becomes) && front.takes_mark(Mark::Equal)? {
            return self.mend_of_equality(front);
        }
        if begins_with_relation(self.behind) && may_go_on {
            return Ok(Some(CHAIN));
        }
        Ok(if may_end {
            Some("add `;` before this")
        } else {
            None
        })
    }

    /// Handles a comma between parentheses after `print`, as in `print(1, 2);`.
    fn mend_of_print(&self, front: &mut Front) -> Result<Option<&'static str>, AllocError> {
        let is_list = begins_with(self.behind, Mark::Comma) && is_print(front.tokens());
        Ok(if is_list && front.takes_mark(Mark::RightParen)? {
            Some("remove the parentheses, as in `print 1, 2;`")
        } else {
            None
        })
    }

    /// Handles `=` after a value: in an index, the index ends before it.
    fn mend_of_equality(&self, front: &mut Front) -> Result<Option<&'static str>, AllocError> {
        Ok(if front.takes_mark(Mark::RightBracket)? {
            None
        } else {
            Some("use `==` for equality")
        })
    }

    /// Adds which bracket to close, or the general fix.
    fn push_open(&self, told: &mut String, front: &mut Front) -> Result<(), AllocError> {
        if self.behind.is_empty() && front.takes_mark(Mark::RightBrace)? {
            return self.push_unclosed(told);
        }
        if let Some(open) = open_bracket(self.alloc, front.tokens())? {
            if open.mark == Mark::LeftBracket && front.takes_mark(Mark::RightBracket)? {
                return self.push_close(told, "[", "]", open.at);
            }
            if open.mark == Mark::LeftParen && front.takes_mark(Mark::RightParen)? {
                if begins_with_value(self.behind) && front.takes_mark(Mark::Comma)? {
                    told.push_str("separate the two with `,`, or ")?;
                }
                return self.push_close(told, "(", ")", open.at);
            }
        }
        self.push_general(told, front)
    }

    /// Adds that a bracket is open, and with what to close it.
    fn push_close(
        &self,
        told: &mut String,
        mark: &str,
        closing: &str,
        at: usize,
    ) -> Result<(), AllocError> {
        let place = place_of(self.characters, at);
        write!(told, "close the `{mark}` at {place} with `{closing}`")
    }

    /// Adds which block is open at the end of the text.
    fn push_unclosed(&self, told: &mut String) -> Result<(), AllocError> {
        match unclosed_block(self.alloc, self.text)? {
            Some(
                Unclosed {
                    place,
                    is_guessed: false,
                },
            ) => write!(told, "close the block that starts at {place} with `}}`"),
            Some(Unclosed { place, .. }) => write!(
                told,
                "add a `}}`: that of the block that starts at {place} seems to be missing"
            ),
            None => told.push_str("close every open block with `}`"),
        }
    }

    /// Adds the fix if nothing more is known.
    fn push_general(&self, told: &mut String, front: &mut Front) -> Result<(), AllocError> {
        told.push_str(if front.takes_mark(Mark::LeftBrace)? {
            BLOCK
        } else if self.many == 1 {
            "add it before this"
        } else {
            "use one of these"
        })
    }
}

/// Returns whether the first token is a name or a number.
fn begins_with_value(tokens: &[Spanned]) -> bool {
    match tokens.first() {
        Some(first) => match &first.token {
            Token::Name(_) | Token::Number(_) => true,
            _ => false,
        },
        None => false,
    }
}
