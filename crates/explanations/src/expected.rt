//! Which tokens can follow others, found by running the parser on each of them.

use std::alloc::{AllocError, Global};
use syntax::cursor::Stuck;
use syntax::programs::program;
use syntax::token::{Mark, Spanned, Token, Word};

/// The reserved words.
pub const WORDS: &[&str] = &[
    "and", "array", "as", "async", "at", "by", "byte", "else", "false", "fault", "finish", "if",
    "int", "len", "main", "mut", "not", "or", "parts", "print", "proc", "read", "rescue", "skip",
    "split", "true", "var", "while",
];

/// The marks.
const MARKS: &[&str] = &[
    "(", ")", "{", "}", "[", "]", ",", ";", ":", "=", "+", "-", "*", "/", "%", "<", "<=", ">",
    ">=", "==", "!=",
];

/// A token that is expected.
#[derive(Clone, Copy)]
enum Choice {
    /// Any token of a kind: `a name`
    Kind(&'static str),
    /// The token with this text: `while`
    Text(&'static str),
}

/// The tokens before the place of a syntax error.
#[derive(Drop)]
pub struct Front {
    alloc: Global,
    tokens: Vec<Spanned>,
}

impl Front {
    /// Wraps these tokens.
    pub fn new(alloc: Global, tokens: Vec<Spanned>) -> Front {
        Front { alloc, tokens }
    }

    /// Returns all of them.
    pub fn tokens(&self) -> &[Spanned] {
        &self.tokens
    }

    /// Returns whether they are a whole program with its `main`, which nothing may follow.
    pub fn is_ended(&self) -> Result<bool, AllocError> {
        match program(self.alloc, &self.tokens) {
            Ok(read) => Ok(read.main.is_some()),
            Err(Stuck::Unexpected { .. }) => Ok(false),
            Err(Stuck::OutOfMemory) => Err(AllocError),
        }
    }

    /// Returns whether a name can follow them.
    fn takes_name(&mut self) -> Result<bool, AllocError> {
        let name = String::from_str(self.alloc, "x")?;
        self.takes(Token::Name(name))
    }

    /// Returns whether a reserved word can follow them.
    pub fn takes_word(&mut self, word: Word) -> Result<bool, AllocError> {
        self.takes(Token::Word(word))
    }

    /// Returns whether a mark can follow them.
    pub fn takes_mark(&mut self, mark: Mark) -> Result<bool, AllocError> {
        self.takes(Token::Mark(mark))
    }

    /// Returns whether a name must follow them, and no value, statement or parameter can.
    pub fn wants_name(&mut self) -> Result<bool, AllocError> {
        let takes_others = self.takes(Token::Number(0))?
            || self.takes(Token::Word(Word::Skip))?
            || self.takes(Token::Word(Word::Mut))?;
        Ok(self.takes_name()? && !takes_others)
    }

    /// Returns whether they end with a name as a value, as in `print x`.
    pub fn ends_with_value(&mut self) -> Result<bool, AllocError> {
        let is_name = match self.tokens.last() {
            Some(last) => matches!(&last.token, Token::Name(_)),
            None => false,
        };
        Ok(is_name && self.takes_mark(Mark::Plus)?)
    }

    /// Adds what can follow them. Returns the number of different tokens.
    pub fn push_expected(&mut self, told: &mut String) -> Result<usize, AllocError> {
        let mut choices = Vec::new(self.alloc);
        if self.takes_name()? {
            choices.push(Choice::Kind("a name"))?;
        }
        if self.takes(Token::Number(0))? {
            choices.push(Choice::Kind("a number"))?;
        }
        self.add_words(&mut choices)?;
        self.add_marks(&mut choices)?;
        push_choices(told, &choices)?;
        Ok(choices.len())
    }

    /// Adds the reserved words that can follow them.
    fn add_words(&mut self, choices: &mut Vec<Choice>) -> Result<(), AllocError> {
        for text in WORDS {
            if let Some(word) = Word::of(text) {
                if self.takes(Token::Word(word))? {
                    choices.push(Choice::Text(*text))?;
                }
            }
        }
        Ok(())
    }

    /// Adds the marks that can follow them.
    fn add_marks(&mut self, choices: &mut Vec<Choice>) -> Result<(), AllocError> {
        for text in MARKS {
            if let Some(mark) = mark_of(text) {
                if self.takes(Token::Mark(mark))? {
                    choices.push(Choice::Text(*text))?;
                }
            }
        }
        Ok(())
    }

    /// Returns whether this token can follow them: the parser then expects more only after it.
    fn takes(&mut self, token: Token) -> Result<bool, AllocError> {
        self.tokens.push(Spanned { token, at: 0 })?;
        let read = program(self.alloc, &self.tokens);
        let _ = self.tokens.pop();
        match read {
            Ok(_) => Ok(true),
            Err(Stuck::Unexpected { left }) => Ok(left == 0),
            Err(Stuck::OutOfMemory) => Err(AllocError),
        }
    }
}

/// Adds a sentence with what is expected.
fn push_choices(told: &mut String, choices: &[Choice]) -> Result<(), AllocError> {
    let mut before = match choices.len() {
        0 => return Ok(()),
        1 => "Expected ",
        _ => "Expected one of: ",
    };
    for choice in choices {
        told.push_str(before)?;
        match *choice {
            Choice::Kind(words) => told.push_str(words)?,
            Choice::Text(text) => write!(told, "`{text}`")?,
        }
        before = ", ";
    }
    told.push_str(".\n")
}

/// Returns the text of a reserved word.
pub fn word_text(word: Word) -> &'static str {
    for text in WORDS {
        if let Some(found) = Word::of(text) {
            if found == word {
                return text;
            }
        }
    }
    ""
}

/// Returns the text of a mark.
pub fn mark_text(mark: Mark) -> &'static str {
    for text in MARKS {
        if let Some(found) = mark_of(text) {
            if found == mark {
                return text;
            }
        }
    }
    ""
}

/// Returns the mark with this text.
fn mark_of(text: &str) -> Option<Mark> {
    let mut characters = text.chars();
    let first = characters.next()?;
    match characters.next() {
        Some(_) => Mark::of_two(first),
        None => Mark::of_one(first),
    }
}
