//! What a scope met, for a run that ends because of it. Only the calls of this crate create these
//! values.

ghost use Rattle.std.specs.Prelude.{◌≡◌, ◌<◌, false};
ghost use Rattle.finish_scope.specs.Inconsistent.{runs_out};

use gather::error::GatherError;

/// L1: a scope was given more weight than was out, or a second owner.
#[derive(Debug, Drop)]
pub struct Undue {
    /// The weight that the scope was given.
    pub(crate) given: u64,
    /// The weight that was out.
    pub(crate) out: u64,
    /// Whether it was given an owner while one was parked there.
    pub(crate) second_owner: bool,
    pub ghost late: { (second_owner ≡ false) → (out < given) },
}

/// L2: a scope has issued weight as often as its book can count.
#[derive(Debug, Drop)]
pub struct Spent {
    /// The number of times that it has issued weight.
    pub(crate) issues: u64,
    pub ghost all: { issues ≡ 2147483648 },
}

/// All weight of a scope was back, and nobody was parked there.
#[derive(Debug, Drop)]
pub struct Ownerless {
    /// The weight that the scope has issued, and the weight that came back.
    pub(crate) issued: u64,
    pub(crate) returned: u64,
    pub ghost even: { returned ≡ issued },
}

/// There is no scope at a position: no scope table has this number, or nothing is in this slot.
#[derive(Debug, Drop)]
pub struct Missing {
    /// The number of the table or slot that was looked up.
    pub(crate) number: usize,
}

/// No worker reported an outcome or an error.
#[derive(Debug, Drop)]
pub struct Silent {
    /// The number of workers.
    pub(crate) workers: usize,
}

/// The results of a scope are inconsistent, so they don't settle.
#[derive(Debug, Drop)]
pub struct Unsettled {
    pub(crate) error: GatherError,
    pub ghost memory: { runs_out error ≡ false },
}
