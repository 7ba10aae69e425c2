//! Weights that a task holds in scopes.

ghost use Rattle.std.specs.Prelude.{◌≡◌, ◌+◌, ◌/◌, ◌≤◌, IfErr, IfOk};

use weights::weight::Weight;

/// A scope, identified relative to a task in it: its owner is that task or one above it.
#[derive(Clone, Copy, PartialEq, Eq, Debug)]
pub struct ScopeMark {
    /// The number of the task's turns, from the root down, that make up its owner's path.
    pub depth: usize,
    /// 0 is the root scope; the finishes of a task are numbered from 1.
    pub number: u32,
}

/// A weight that is forfeited if it is dropped.
pub struct Share {
    pub weight: Weight,
}

/// A weight that a task holds in a scope.
#[derive(Drop)]
pub struct Stake {
    pub scope: ScopeMark,
    pub share: Share,
}

impl Share {
    /// Returns the weight, to be given back.
    pub fn into_weight(self) -> Weight
        ensures { result ≡ self.weight }
    {
        let Share { weight } = self;
        weight
    }

    /// Returns a child's half, rounded down, and the rest. A weight of 1 can't be divided: it is
    /// returned as the error.
    pub fn divide(self) -> Result<(Share, Share), Share>
        ensures ok { IfOk result (λ p. (2 ≤ self.weight) × (p.0.weight ≡ self.weight / 2)
            × (p.0.weight + p.1.weight ≡ self.weight)) }
        ensures err { IfErr result (λ s. (self.weight ≡ 1) × (s.weight ≡ self.weight)) }
    {
        let Share { weight } = self;
        match weight.divide() {
            Ok((child, rest)) => Ok((Share { weight: child }, Share { weight: rest })),
            Err(weight) => Err(Share { weight }),
        }
    }
}

impl Drop for Share {
    fn drop(self) {
        let Share { weight } = self;
        weight.forfeit();
    }
}
