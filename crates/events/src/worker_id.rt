//! The names of workers.

ghost use Rattle.std.specs.Prelude.{◌≡◌, ◌<◌, ◌≤◌, ℕ, MatchOption};

use std::marker::Model;

/// The maximum number of workers.
pub const MOST_WORKERS: u32 = 64;

/// The maximum weight that a scope issues at a time: 2^32.
pub const MOST_WEIGHT: u64 = 4_294_967_296;

/// A worker's number, from 0 to 63.
#[derive(Clone, Copy, PartialEq, Eq, Hash, Debug)]
pub struct WorkerId {
    number: u32,
}

impl Model for WorkerId {
    ghost Value = { ℕ };

    ghost view = { λ w. w.number };

    ghost inverse = { λ n. record { number = n } };

    ghost invariant = { λ w. w.number < 64 };
}

impl WorkerId {
    /// Returns the worker with this number if it is below 64, and otherwise None.
    pub fn new(number: u32) -> Option<WorkerId>
        ensures { MatchOption result (64 ≤ number) (λ w. (number < 64) × (w ≡ number)) }
    {
        if number >= MOST_WORKERS {
            return None;
        }
        Some(WorkerId { number })
    }

    /// Returns the worker whose queue contains the root at the start.
    pub fn first() -> WorkerId
        ensures { result ≡ 0 }
    {
        WorkerId { number: 0 }
    }

    /// Returns its number.
    pub fn number(self) -> u32
        ensures same { result ≡ self }
        ensures few { result < 64 }
    {
        self.number
    }
}
