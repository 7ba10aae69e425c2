//! Names from outside, as messages show them.

use std::fmt;

/// A name from outside, such as that of a file. Control characters are shown by their number, such
/// as `\x1b`.
#[derive(Clone, Copy)]
pub struct Escaped<'n>(pub &'n str);

impl fmt::Display for Escaped<'_> {
    fn fmt<W: fmt::Write>(&self, f: &mut fmt::Formatter<W>) -> fmt::Result {
        for character in self.0.chars() {
            if character.is_control() {
                let code = u32::from(character);
                write!(f, "\\x{code:02x}")?;
            } else {
                write!(f, "{character}")?;
            }
        }
        Ok(())
    }
}
