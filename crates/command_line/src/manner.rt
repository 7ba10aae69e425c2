//! The reporting options, which follow a command.

ghost use Rattle.std.specs.Prelude.{◌≡◌};
ghost use Rattle.command_line.specs.Requests.{no_manner, telling_by};

use crate::request::{Color, Explain, Telling};

/// The reporting options that are given.
#[derive(Clone, Copy, PartialEq, Eq, Debug)]
pub struct Manner {
    /// `--explain`
    pub explain: bool,
    /// `--color WHEN`
    pub color: Option<Color>,
}

impl Manner {
    /// Returns no options.
    pub fn none() -> Manner
        ensures { result ≡ no_manner }
    {
        Manner {
            explain: false,
            color: None,
        }
    }

    /// Returns how to report with these options, and by default without them.
    pub fn telling(self) -> Telling
        ensures { result ≡ telling_by self }
    {
        let usual = Telling::usual();
        Telling {
            explain: if self.explain {
                Explain::Always
            } else {
                usual.explain
            },
            all: usual.all,
            warn: usual.warn,
            color: self.color.unwrap_or(usual.color),
        }
    }
}
