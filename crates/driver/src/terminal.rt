//! The terminal at which a user watches a run, and reads explanations.

ghost use Rattle.std.specs.Prelude.{◌≡◌, Bool, false};
ghost use Rattle.driver.specs.More.{more_of};

use crate::more::More;
use command_line::request::{Action, Telling};
use statement_steps::watch::{Unwatched, Watch};
use std::time::Clock;
use test_and_bench::clock::Stopwatch;

/// A watch for the progress of runs, with a clock. It also knows whether the standard error is a
/// terminal, and whether explanations may be colored.
pub trait Terminal: Watch + Stopwatch {
    /// Whether the standard error is a terminal.
    ghost seen: { Self → Bool };

    /// Returns whether the standard error is a terminal.
    fn is_terminal(&self) -> bool
        ensures { result ≡ seen self.now };

    /// Returns whether explanations may be colored.
    fn has_colours(&self) -> bool;
}

/// Returns what follows an action on this terminal.
pub fn more_on<T: Terminal>(action: Action, telling: Telling, terminal: &T) -> More
    ensures { result ≡ more_of action telling (T.seen terminal.now) }
{
    More::of(action, telling, terminal.is_terminal())
}

/// Without a user there is no terminal, and there are no colors.
impl Terminal for Unwatched {
    ghost seen = { λ _. false };

    fn is_terminal(&self) -> bool {
        false
    }

    fn has_colours(&self) -> bool {
        false
    }
}

/// The watch of a user, with a clock. The standard error may be a terminal, with or without colors.
#[derive(Drop)]
pub struct WatchedTerminal<W: Watch, C: Clock> {
    watch: W,
    sight: Sight,
    clock: C,
}

/// What the standard error is.
#[derive(Clone, Copy, PartialEq, Eq, Debug)]
pub struct Sight {
    /// It is a terminal.
    pub is_terminal: bool,
    /// Explanations may be colored there.
    pub has_colours: bool,
}

impl<W: Watch + Drop, C: Clock + Drop> WatchedTerminal<W, C> {
    /// Returns a terminal with these properties.
    pub fn new(watch: W, sight: Sight, clock: C) -> WatchedTerminal<W, C>
        ensures sight { result.sight ≡ sight }
    {
        WatchedTerminal {
            watch,
            sight,
            clock,
        }
    }
}

impl<W: Watch, C: Clock> Stopwatch for WatchedTerminal<W, C> {
    fn micros(&mut self) -> u64 {
        match self.clock.monotonic() {
            Ok(time) => {
                let seconds = time.as_secs().saturating_mul(1_000_000);
                seconds.saturating_add(u64::from(time.subsec_micros()))
            }
            Err(_) => 0,
        }
    }
}

impl<W: Watch, C: Clock> Watch for WatchedTerminal<W, C> {
    ghost Told = { λ counts old new. W.Told counts old.watch new.watch };

    fn look(&mut self, steps: u64) {
        self.watch.look(steps);
    }

    ghost told_nothing = { λ s. W.told_nothing s.watch };

    ghost told_more = { λ counts count a b c. W.told_more counts count a.watch b.watch c.watch };
}

impl<W: Watch, C: Clock> Terminal for WatchedTerminal<W, C> {
    ghost seen = { λ terminal. terminal.sight.is_terminal };

    fn is_terminal(&self) -> bool {
        self.sight.is_terminal
    }

    fn has_colours(&self) -> bool
        ensures { result ≡ self.now.sight.has_colours }
    {
        self.sight.has_colours
    }
}
