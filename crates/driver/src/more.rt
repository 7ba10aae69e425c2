//! What follows an answer or a failure on the standard error.

ghost use Rattle.std.specs.Prelude.{◌≡◌};
ghost use Rattle.driver.specs.More.{is_warned, may_follow as follows, more_of, nothing_more};

use command_line::request::{Action, Command, Explain, Telling};

/// Whether failures and outcomes are explained, and whether warnings follow the answer for a
/// program.
#[derive(Clone, Copy, PartialEq, Eq, Debug)]
pub struct More {
    pub explains: bool,
    pub warns: bool,
}

impl More {
    /// Returns that nothing follows.
    pub fn nothing() -> More
        ensures { result ≡ nothing_more }
    {
        More {
            explains: false,
            warns: false,
        }
    }

    /// Returns what follows an action, if the standard error is a terminal or isn't.
    pub fn of(action: Action, telling: Telling, at_terminal: bool) -> More
        ensures { result ≡ more_of action telling at_terminal }
    {
        More {
            explains: telling.explain.explains(at_terminal),
            warns: warns_by(action, telling.warn, at_terminal),
        }
    }

    /// Returns whether something may follow an answer with this status.
    pub fn may_follow(self, status: u8) -> bool
        ensures { result ≡ follows self status }
    {
        if status == 0 {
            self.warns
        } else if status == 1 {
            false
        } else {
            self.explains
        }
    }
}

/// Returns whether warnings follow an action.
fn warns_by(action: Action, warn: Explain, at_terminal: bool) -> bool
    ensures { result ≡ is_warned action warn at_terminal }
{
    match action {
        Action::Answer(command) => match command {
            Command::Check => warn.explains(at_terminal),
            _ => false,
        },
        Action::Rewrite => false,
    }
}
