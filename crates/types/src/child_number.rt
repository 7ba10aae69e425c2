//! The numbers that tasks give their children.

ghost use Rattle.std.specs.Prelude.{◌≡◌, ◌+◌, ◌<◌, ◌≤◌, ℕ, MatchOption};

use std::marker::Model;

/// The number of a child of a task, from 1 to 4,294,967,295.
#[derive(Clone, Copy, PartialEq, Eq, PartialOrd, Ord, Hash, Debug)]
pub struct ChildNumber {
    number: u32,
}

impl Model for ChildNumber {
    ghost Value = { ℕ };

    ghost view = { λ c. c.number };

    ghost inverse = { λ n. record { number = n } };

    ghost invariant = { λ c. 1 ≤ c.number };
}

impl ChildNumber {
    /// Returns the child with this number, or `None` for 0.
    pub fn new(number: u32) -> Option<ChildNumber>
        ensures { MatchOption result (number ≡ 0) (λ c. (1 ≤ number) × (c ≡ number)) }
    {
        if number == 0 {
            return None;
        }
        Some(ChildNumber { number })
    }

    /// Returns the child that a task spawns after it has spawned this many.
    pub fn after(spawned: u32) -> ChildNumber
        requires few { spawned < 4294967295 }
        ensures { result ≡ spawned + 1 }
    {
        ChildNumber {
            number: spawned + 1,
        }
    }

    /// Returns the number.
    pub fn get(self) -> u32
        ensures same { result ≡ self }
        ensures some { 1 ≤ result }
    {
        self.number
    }
}
