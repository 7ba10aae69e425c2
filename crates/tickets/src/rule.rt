//! The atomic word, what its seats know of it, and the invariant that every step preserves.

use atomic_table::{Join, Play, Split, TableRule};
use std::collections::LinkedList;

/// The seats that a share represents, and the numbers drawn on it. Only proofs have values of it.
pub struct SeatShare {
    /// The number of seats that the share represents: one, except while seats are joined.
    pub seats: u64,
    pub drawn: LinkedList<u64>,
}

/// The invariant: each number below the word was drawn once.
pub struct DrawnOnce;

impl TableRule<(), SeatShare, u64> for DrawnOnce {
    ghost use Rattle.std.specs.Prelude.{[]};
    ghost use Rattle.tickets.specs.Shares.{share, DrawsOnce};

    ghost holds = { DrawsOnce };

    ghost first = { λ seats. share seats [] };
}

/// A draw: it appends the word's old value to the share, which has drawn at most that many numbers.
pub struct Draw;

impl Play<(), SeatShare> for Draw {
    ghost use Rattle.std.specs.Prelude.{◌≡◌, ◌≤◌, ◌++◌, [], ◌∷◌, length};
    ghost use Rattle.tickets.specs.Shares.{share};

    ghost then = { λ s v n w. (w ≡ (share v.0.seats (v.0.drawn ++ n ∷ []), v.1))
        × (length v.0.drawn ≤ n) };
}

/// A split of one seat off a share, or a join of two shares.
pub struct Parting;

impl Split<SeatShare> for Parting {
    ghost use Rattle.std.specs.Prelude.{◌-◌, []};
    ghost use Rattle.tickets.specs.Shares.{share};

    ghost left = { λ v. share (v.seats - 1) v.drawn };

    ghost right = { λ v. share 1 [] };
}

impl Join<SeatShare> for Parting {
    ghost use Rattle.std.specs.Prelude.{◌+◌, ◌++◌, []};
    ghost use Rattle.tickets.specs.Shares.{share};

    ghost both = { λ v w. share (v.seats + w.seats) (v.drawn ++ w.drawn) };

    ghost spent = { share 0 [] };
}

/// A mark that is split off a share. It represents no seat and no draw, and shows which word it is of.
pub struct Marking;

impl Split<SeatShare> for Marking {
    ghost use Rattle.std.specs.Prelude.{[]};
    ghost use Rattle.tickets.specs.Shares.{share};

    ghost left = { λ v. share v.seats v.drawn };

    ghost right = { λ v. share 0 [] };
}
