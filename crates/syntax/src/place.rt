//! Positions in a text.

ghost use Rattle.std.specs.Prelude.{◌≡◌, ◌<◌, ◌^◌, length};
ghost use Rattle.syntax.specs.Place.{place_at};

use std::fmt;

/// A line and a column, both from 1. Only a line feed ends a line; columns count characters.
#[derive(Clone, Copy, PartialEq, Eq, Debug)]
pub struct TextPlace {
    pub line: u32,
    pub column: u32,
}

/// `4:13`
impl fmt::Display for TextPlace {
    ghost use Rattle.std.specs.Prelude.{Some};
    ghost use Rattle.syntax.specs.Place.{place_text};

    ghost output = { λ place. Some (place_text place) };

    fn fmt<W: fmt::Write>(&self, f: &mut fmt::Formatter<W>) -> fmt::Result {
        let line = self.line;
        let column = self.column;
        write!(f, "{line}:{column}")
    }
}

impl TextPlace {
    /// Returns the position of the character with this number, counted from 0. The number of
    /// characters gives the position right after the text.
    pub fn of(text: &[char], at: usize) -> TextPlace
        requires { length text.now < 2 ^ 31 }
        ensures { result ≡ place_at text.now at }
    {
        let mut line = 1;
        let mut column = 1;
        for (i, character) in text.iter().enumerate() {
            if i == at {
                break;
            }
            if *character == '\n' {
                line += 1;
                column = 1;
            } else {
                column += 1;
            }
        }
        TextPlace { line, column }
    }
}
