//! Syntax errors.

ghost use Rattle.std.specs.Prelude.{◌≡◌, Some};
ghost use Rattle.syntax.specs.Refusals.{error_code, error_text, place_of};
ghost use Rattle.syntax.specs.declared.error.SyntaxError.TheVariants.{OutOfMemory};

use crate::place::TextPlace;
use std::alloc::AllocError;
use std::error::Error;
use std::fmt;

/// The reason why a text is no program.
#[derive(Clone, Copy, PartialEq, Eq, Debug)]
pub enum SyntaxError {
    /// `S1 at 1:1` for `!`: a character outside a comment that starts no token.
    NotACharacter { place: TextPlace },
    /// `S2 at 1:13` for `main { skip }`: a token that isn't allowed here, or the end of the text.
    UnexpectedToken { place: TextPlace },
    /// `S3 at 1:1` for `9223372036854775808`: a number over 9,223,372,036,854,775,807.
    NumberTooLarge { place: TextPlace },
    /// `S4 at 1:101` for 101 times `(`: the bracket that makes more than 100 open.
    TooDeep { place: TextPlace },
    /// `S5` for 1,048,577 spaces: a text longer than 1,048,576 bytes.
    TooLong,
    /// `S6`: memory ran out.
    OutOfMemory,
}

impl SyntaxError {
    /// Returns the code that the program prints.
    pub fn code(&self) -> &'static str
        ensures { result.now ≡ error_code self.now }
    {
        match self {
            SyntaxError::NotACharacter { .. } => "S1",
            SyntaxError::UnexpectedToken { .. } => "S2",
            SyntaxError::NumberTooLarge { .. } => "S3",
            SyntaxError::TooDeep { .. } => "S4",
            SyntaxError::TooLong => "S5",
            SyntaxError::OutOfMemory => "S6",
        }
    }

    /// Returns the position of the error, unless the text is too long or memory ran out.
    pub fn place(&self) -> Option<TextPlace>
        ensures { result ≡ place_of self.now }
    {
        match self {
            SyntaxError::NotACharacter { place } => Some(*place),
            SyntaxError::UnexpectedToken { place } => Some(*place),
            SyntaxError::NumberTooLarge { place } => Some(*place),
            SyntaxError::TooDeep { place } => Some(*place),
            SyntaxError::TooLong => None,
            SyntaxError::OutOfMemory => None,
        }
    }
}

/// `S2 at 4:13`
impl fmt::Display for SyntaxError {
    ghost output = { λ e. Some (error_text e) };

    fn fmt<W: fmt::Write>(&self, f: &mut fmt::Formatter<W>) -> fmt::Result {
        let code = self.code();
        match self.place() {
            None => write!(f, "{code}"),
            Some(place) => write!(f, "{code} at {place}"),
        }
    }
}

impl Error for SyntaxError {}

impl From<AllocError> for SyntaxError {
    ghost from_gives = { λ _ e. e ≡ OutOfMemory };

    fn from(_error: AllocError) -> SyntaxError {
        SyntaxError::OutOfMemory
    }
}
