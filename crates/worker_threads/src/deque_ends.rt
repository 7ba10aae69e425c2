//! The two ends of a deque.

ghost use Rattle.std.specs.Prelude.{◌≡◌};
ghost use Rattle.crossbeam_deque.specs.Handles.{IsPassOf, stealer_deque, stealer_flavor, worker_flavor, worker_port};

use crate::deque_rule::{Balance, Tally};
use crossbeam_deque::{Pass, Stealer, Worker};
use std::alloc::Global;

/// A deque of tasks, for the worker that owns it. It puts tasks in, and takes the newest out.
#[derive(Drop)]
pub struct Deque<T> {
    pub(crate) worker: Worker<T, Global, Tally<T>, Balance>,
    ghost first: { worker_port worker ≡ 0 },
    ghost lifo: { worker_flavor worker ≡ 1 },
}

/// The end of a deque at which other workers take tasks out. Threads share it by reference.
#[derive(Drop)]
pub struct Front<T> {
    pub(crate) stealer: Stealer<T, Global, Tally<T>, Balance>,
    ghost lifo: { stealer_flavor stealer ≡ 1 },
}

/// The right of one worker to take tasks out at the front of another's deque.
#[derive(Drop)]
pub struct Thief<T> {
    pub(crate) stealer: Stealer<T, Global, Tally<T>, Balance>,
    /// What it has taken out.
    pub(crate) hand: Pass<T, Tally<T>>,
    ghost of: { IsPassOf (stealer_deque stealer) hand },
    ghost lifo: { stealer_flavor stealer ≡ 1 },
}

/// A task that a deque had no room for, and the cause.
#[derive(Drop)]
pub struct Refused<T> {
    pub task: T,
    pub cause: NoRoom,
}

/// A deque was full, and couldn't grow. Only `Deque::push` creates one.
#[derive(Debug, Drop)]
pub struct NoRoom {
    /// The number of tasks for which it had room.
    pub(crate) capacity: usize,
}
