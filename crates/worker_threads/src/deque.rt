//! Putting tasks in, and taking them out.

ghost use Rattle.std.specs.Prelude.{◌≡◌, ◌≤◌, ◌++◌, [], ◌∷◌, List, length, IfErr, IfNone, IfOk, MatchOption, MatchResult};
ghost use Rattle.crossbeam_deque.specs.Handles.{stealer_deque, worker_capacity, worker_deque, worker_index};
ghost use Rattle.worker_threads.specs.DequeEnds.{put_into, taken_by, taken_from};
ghost use Rattle.worker_threads.specs.Tallies.{Accounts};

use crate::deque_ends::{Deque, Front, NoRoom, Refused, Thief};
use crate::deque_rule::{Balance, Pops, Puts, Takes, Tally, Whole};
use crossbeam_deque::{Steal, Worker};
use std::alloc::{AllocError, Global};

/// The number of tasks that a thief takes at a time, at most.
const BATCH: usize = 32;

impl<T> Deque<T> {
    /// Returns a deque into which nothing was put.
    pub fn new(alloc: Global, capacity: usize) -> Result<Deque<T>, AllocError>
    where
        T: Drop,
        ensures { IfOk result (λ d. (put_into d ≡ []) × (taken_from d ≡ [])) }
    {
        let worker = Worker::lifo_as(alloc, capacity)?;
        Ok(Deque { worker })
    }

    /// Returns its front.
    pub fn front(&self) -> Result<Front<T>, AllocError>
        ensures { IfOk result (λ f. stealer_deque f.stealer ≡ worker_deque self.now.worker) }
    {
        let stealer = self.worker.stealer()?;
        Ok(Front { stealer })
    }

    /// Puts a task in. If there is no room for it, the task is returned, with the cause.
    pub fn push(&mut self, task: T) -> Result<(), Refused<T>>
        ensures put { MatchResult result (λ _. put_into self.new ≡ put_into self.old ++ task ∷ [])
            (λ r. (r.task ≡ task) × (put_into self.new ≡ put_into self.old)) }
        ensures taken { taken_from self.new ≡ taken_from self.old }
        ensures refused { IfErr result
            (λ _. worker_capacity self.old.worker ≤ worker_index self.old.worker) }
        ensures cause { IfErr result (λ r. r.cause.capacity ≡ worker_capacity self.new.worker) }
    {
        match self.worker.push_as::<Puts>(task) {
            Ok(()) => Ok(()),
            Err(task) => Err(Refused {
                task,
                cause: NoRoom {
                    capacity: self.worker.capacity(),
                },
            }),
        }
    }

    /// Takes the newest task out. Returns None only if there was none at one moment of the call.
    pub fn pop(&mut self) -> Option<T>
        ensures put { put_into self.new ≡ put_into self.old }
        ensures taken { MatchOption result (taken_from self.new ≡ taken_from self.old)
            (λ x. taken_from self.new ≡ taken_from self.old ++ x ∷ []) }
        ensures none { IfNone result (Accounts (put_into self.new) (taken_from self.new) []) }
    {
        self.worker.pop_as::<Pops>()
    }

    /// Returns the number of tasks in the deque at one moment of the call. At that moment, what was put
    /// in is what came out and what is left, each task once.
    pub fn len(&mut self) -> usize
        ensures put { put_into self.new ≡ put_into self.old }
        ensures taken { taken_from self.new ≡ taken_from self.old }
        ensures once { (left : List T) × (length left ≡ result)
            × Accounts (put_into self.new) (taken_from self.new) left }
    {
        self.worker.len_as::<Whole>()
    }
}

impl<T: Drop> Front<T> {
    /// Returns a thief, which has taken nothing out.
    pub fn thief(&self) -> Result<Thief<T>, AllocError>
        ensures of { IfOk result (λ t. stealer_deque t.stealer ≡ stealer_deque self.now.stealer) }
        ensures taken { IfOk result (λ t. taken_by t ≡ []) }
    {
        let stealer = self.stealer.clone()?;
        let hand = stealer.pass();
        Ok(Thief { stealer, hand })
    }
}

impl<T> Thief<T> {
    /// Takes about half of the tasks out, and at most 32. One of them is returned. The others are put
    /// into the thief's own deque.
    pub fn steal(&mut self, own: &mut Deque<T>) -> Option<T>
        ensures stolen { MatchOption result
            ((taken_by self.new ≡ taken_by self.old) × (put_into own.new ≡ put_into own.old))
            (λ x. (xs : List T) × (taken_by self.new ≡ taken_by self.old ++ (xs ++ x ∷ []))
            × (put_into own.new ≡ put_into own.old ++ xs)) }
        ensures taken { taken_from own.new ≡ taken_from own.old }
    {
        let stolen = self
            .stealer
            .steal_batch_and_pop_as::<Global, Tally<T>, Balance, Takes, Puts>(
                &mut self.hand,
                &mut own.worker,
                BATCH,
            );
        match stolen {
            Steal::Success(task) => Some(task),
            Steal::Empty => None,
            Steal::Retry => None,
        }
    }
}
