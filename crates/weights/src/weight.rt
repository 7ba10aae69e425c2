//! Parts of the weight that a scope has issued.

ghost use Rattle.std.specs.Prelude.{◌≡◌, ℕ, ◌+◌, ◌/◌, ◌≤◌, IfOk, IfErr};

use std::marker::Model;

/// A part of a scope's weight, at least 1. It can't be dropped or copied: its owner returns it to a
/// book, or loses it with `forfeit`.
pub struct Weight {
    pub(crate) units: u64,
}

impl Model for Weight {
    ghost Value = { ℕ };

    ghost view = { λ w. w.units };

    ghost invariant = { λ w. 1 ≤ w.units };
}

impl Weight {
    /// Returns its amount.
    pub fn units(&self) -> u64
        ensures units { result ≡ self.now }
        ensures some { 1 ≤ result }
    {
        self.units
    }

    /// Returns half, rounded down, for a child, and the rest for its parent. A weight of 1 can't be
    /// divided: it is returned as the error.
    pub fn divide(self) -> Result<(Weight, Weight), Weight>
        ensures ok { IfOk result (λ p. (2 ≤ self) × (p.0 ≡ self / 2) × (p.0 + p.1 ≡ self)) }
        ensures err { IfErr result (λ w. (self ≡ 1) × (w ≡ self)) }
    {
        let Weight { units } = self;
        if units < 2 {
            return Err(Weight { units });
        }
        let half = units / 2;
        let child = Weight { units: half };
        let rest = Weight {
            units: units - half,
        };
        Ok((child, rest))
    }

    /// Loses the weight: its scope never gets all of its weight back.
    pub fn forfeit(self) {
        let Weight { units: _ } = self;
    }
}
