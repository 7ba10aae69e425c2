//! What the ends of a deque know of it, and the invariant that every step preserves.

use crossbeam_deque::protocol::{Lesson, Outcome, Protocol};
use std::collections::LinkedList;

/// The tasks that went in and out at one end. Only proofs have values of it.
pub struct Tally<T> {
    /// The tasks that were put in, the oldest first.
    pub put: LinkedList<T>,
    /// The tasks that were taken out, the first that was taken first.
    pub taken: LinkedList<T>,
}

/// The invariant: what comes out was put in, and once.
pub struct Balance;

impl<T> Protocol<T, Tally<T>> for Balance {
    ghost use Rattle.std.specs.Prelude.{[]};
    ghost use Rattle.worker_threads.specs.Tallies.{tally, IsBalanced};

    ghost holds = { IsBalanced };

    ghost first = { tally [] [] };

    ghost guest = { tally [] [] };
}

/// A step that puts tasks in.
pub struct Puts;

impl<T> Outcome<T, Tally<T>> for Puts {
    ghost use Rattle.std.specs.Prelude.{◌≡◌, ◌++◌};
    ghost use Rattle.worker_threads.specs.Tallies.{tally};

    ghost then = { λ v xs w. w ≡ tally (v.put ++ xs) v.taken };
}

/// A step by which a thief takes tasks out.
pub struct Takes;

impl<T> Outcome<T, Tally<T>> for Takes {
    ghost use Rattle.std.specs.Prelude.{◌≡◌, ◌++◌};
    ghost use Rattle.worker_threads.specs.Tallies.{tally};

    ghost then = { λ v xs w. w ≡ tally v.put (v.taken ++ xs) };
}

/// A step by which the worker takes a task out. If it finds none, all that was put in has come out.
pub struct Pops;

impl<T> Outcome<T, Tally<T>> for Pops {
    ghost use Rattle.std.specs.Prelude.{◌≡◌, ◌++◌, []};
    ghost use Rattle.worker_threads.specs.Tallies.{tally, Accounts};

    ghost then = { λ v xs w. w ≡ tally v.put (v.taken ++ xs) };

    ghost empty = { λ v. Accounts v.put v.taken [] };
}

/// What the worker knows of the tasks in its deque.
pub struct Whole;

impl<T> Lesson<T, Tally<T>> for Whole {
    ghost use Rattle.worker_threads.specs.Tallies.{Accounts};

    ghost fact = { λ v items. Accounts v.put v.taken items };
}
