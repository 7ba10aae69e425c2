//! Measuring time.

use statement_steps::watch::Unwatched;

/// A clock.
pub trait Stopwatch {
    /// Returns the number of microseconds since some fixed moment, or 0 if the time isn't known.
    fn micros(&mut self) -> u64;
}

/// Without a watcher, there is no clock either.
impl Stopwatch for Unwatched {
    fn micros(&mut self) -> u64 {
        0
    }
}
