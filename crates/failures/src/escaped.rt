//! Input errors, as messages show them.

use excerpts::escaped::Escaped;
use std::fmt;
use types::input_error::InputError;

/// An input error. The members of an input can have any name, so it is escaped: `N3 z`
#[derive(Clone, Copy)]
pub struct EscapedInput<'e>(pub &'e InputError);

impl fmt::Display for EscapedInput<'_> {
    fn fmt<W: fmt::Write>(&self, f: &mut fmt::Formatter<W>) -> fmt::Result {
        match self.0 {
            InputError::UnknownArray { name } => write!(f, "N3 {}", Escaped(name.as_str())),
            other => write!(f, "{other}"),
        }
    }
}
