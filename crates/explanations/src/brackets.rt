//! Brackets that are open at the place of a syntax error.

use std::alloc::{AllocError, Global};
use syntax::TextPlace;
use syntax::token::{Mark, Spanned, Token};

/// An opening bracket, with the number of its character.
#[derive(Clone, Copy)]
pub struct Open {
    pub mark: Mark,
    pub at: usize,
}

/// Returns the innermost bracket that these tokens leave open.
pub fn open_bracket(alloc: Global, tokens: &[Spanned]) -> Result<Option<Open>, AllocError> {
    let mut open = Vec::new(alloc);
    for spanned in tokens {
        let at = spanned.at;
        if let Token::Mark(mark) = &spanned.token {
            match *mark {
                Mark::LeftParen | Mark::LeftBracket | Mark::LeftBrace => {
                    open.push(Open { mark: *mark, at })?;
                }
                Mark::RightParen | Mark::RightBracket | Mark::RightBrace => {
                    let _ = open.pop();
                }
                _ => {}
            }
        }
    }
    Ok(open.pop())
}

/// A block that isn't closed.
#[derive(Clone, Copy)]
pub struct Unclosed {
    /// Where its `{` is.
    pub place: TextPlace,
    /// Whether its `}` is there, but seems to be that of an enclosing block: it is indented as that
    /// is.
    pub is_guessed: bool,
}

/// An open block: where its `{` is, and how far that line is indented.
#[derive(Clone, Copy)]
struct Block {
    place: TextPlace,
    indent: usize,
}

/// Returns the block that isn't closed in a text that ends too early: the first one whose `}` is
/// indented differently from the line of its `{`, or else the innermost one at the end.
pub fn unclosed_block(alloc: Global, text: &str) -> Result<Option<Unclosed>, AllocError> {
    let mut open = Vec::new(alloc);
    let mut number: u32 = 0;
    for line in text.lines() {
        number = number.saturating_add(1);
        if let Some(block) = pass_line(&mut open, number, line)? {
            return Ok(Some(Unclosed {
                place: block.place,
                is_guessed: true,
            }));
        }
    }
    Ok(open.pop().map(innermost))
}

/// Returns the innermost block at the end of a text.
fn innermost(block: Block) -> Unclosed {
    Unclosed {
        place: block.place,
        is_guessed: false,
    }
}

/// Opens and closes the blocks of a line. Returns a block that a `}` at the start of the line
/// closes, if their lines are indented differently.
fn pass_line(open: &mut Vec<Block>, number: u32, line: &str) -> Result<Option<Block>, AllocError> {
    let code = without_comment(line);
    let indent = code.len().saturating_sub(code.trim_start().len());
    let mut column: u32 = 0;
    for character in code.chars() {
        column = column.saturating_add(1);
        if character == '{' {
            let place = TextPlace {
                line: number,
                column,
            };
            open.push(Block { place, indent })?;
        } else if character == '}' {
            if let Some(block) = open.pop() {
                let is_first = code.trim_start().starts_with('}') && is_behind(column, indent);
                if is_first && block.indent != indent {
                    return Ok(Some(block));
                }
            }
        }
    }
    Ok(None)
}

/// Returns whether a column comes right after so many spaces.
fn is_behind(column: u32, indent: usize) -> bool {
    match usize::try_from(column) {
        Ok(column) => column == indent.saturating_add(1),
        Err(_) => false,
    }
}

/// Returns a line without the comment at its end.
pub fn without_comment(line: &str) -> &str {
    match line.split_once("//") {
        Some((code, _)) => code,
        None => line,
    }
}
