//! The options of one test.

ghost use Rattle.std.specs.Prelude.{◌∷◌, codes, map, IsSomeAnd};
ghost use Rattle.std.specs.String.{string_bytes};
ghost use Rattle.command_line.specs.Requests.{Asked};
ghost use Rattle.command_words.specs.Orders.{AreLimitsOf, AsksToTest};

use crate::words::tested_in;
use command_line::request::Spread;
use types::budget::Budget;

/// How far a program is run, and on how many workers.
#[derive(Clone, Copy, PartialEq, Eq, Debug)]
pub struct Limits {
    pub budget: Budget,
    pub spread: Spread,
}

/// Returns the limits that the arguments after `test` ask for, a name and options, if they are
/// such.
pub fn limits_in(behind: &[String]) -> Option<Limits>
    ensures { (a : Asked) → AsksToTest (codes "test" ∷ map string_bytes behind.now) a
        → IsSomeAnd result (λ l. AreLimitsOf l a) }
{
    let request = tested_in(behind)?;
    Some(Limits {
        budget: request.settings.budget,
        spread: request.settings.spread,
    })
}
