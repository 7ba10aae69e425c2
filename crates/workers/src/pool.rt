//! Deques and scope tables of the workers, resting, and the mark that ends a run.

ghost use Rattle.std.specs.Prelude.{IfErr};
ghost use Rattle.workers.specs.Causes.{Happens};

use crate::error::Trouble;
use crate::ready::Ready;
use crossbeam_utils::sync::{Parker, Unparker};
use finish_scope::inner::Scope;
use finish_scope::resting::ScopePosition;
use finish_scope::running::Running;
use finish_scope::scope_table::{ScopeTable, table_at};
use std::alloc::{AllocError, Global};
use std::sync::atomic::{AtomicBool, AtomicUsize, Ordering};
use std::sync::{Arc, Mutex, Wait};
use worker_threads::{Deque, Front, Thief};

/// The number of tasks for which a deque has room at the start.
const FIRST_ROOM: usize = 64;

/// The data that all workers share, independent of what they run.
#[derive(Drop)]
pub struct Pool<'p, J: Running> {
    fronts: Vec<Front<Ready<'p, J>>>,
    tables: Vec<Mutex<ScopeTable<Scope<'p, J>>>>,
    sleep_slots: Vec<SleepSlot>,
    /// The number of resting workers.
    resting: AtomicUsize,
    /// The mark: the run has an outcome, or has failed.
    over: AtomicBool,
}

/// A worker's sleep slot: whether the worker rests there, and how to wake it.
#[derive(Drop)]
struct SleepSlot {
    taken: AtomicBool,
    unparker: Unparker,
}

/// Where a worker puts tasks, and where it takes them from.
#[derive(Drop)]
pub struct Tasks<'p, J: Running> {
    /// The tasks that it is to run, the newest first.
    pub own: Deque<Ready<'p, J>>,
    /// Those that take tasks from the other workers.
    pub thieves: Vec<Thief<Ready<'p, J>>>,
}

impl<'p, J: Running> Pool<'p, J> {
    /// Returns a pool without workers.
    pub fn new(alloc: Global) -> Pool<'p, J> {
        Pool {
            fronts: Vec::new(alloc),
            tables: Vec::new(alloc),
            sleep_slots: Vec::new(alloc),
            resting: AtomicUsize::new(0),
            over: AtomicBool::new(false),
        }
    }

    /// Adds a worker. Returns its number, its deque, and its parker.
    pub fn add_worker(
        &mut self,
        alloc: Global,
    ) -> Result<(usize, Deque<Ready<'p, J>>, Parker), AllocError> {
        let number = self.sleep_slots.len();
        let (own, front) = deque::<Ready<'p, J>>(alloc)?;
        self.fronts.push(front)?;
        self.tables.push(Mutex::new(ScopeTable::new(alloc)))?;
        let parker = Parker::new(alloc)?;
        self.sleep_slots.push(SleepSlot {
            taken: AtomicBool::new(false),
            unparker: parker.unparker().clone()?,
        })?;
        Ok((number, own, parker))
    }

    // ---- tasks

    /// Returns a thief for each other deque. The first one takes tasks from the next worker.
    pub fn thieves(
        &self,
        alloc: Global,
        number: usize,
    ) -> Result<Vec<Thief<Ready<'p, J>>>, AllocError> {
        let mut thieves = Vec::new(alloc);
        let mut victim = number;
        for _ in 1..self.fronts.len() {
            victim = victim.wrapping_add(1);
            if victim >= self.fronts.len() {
                victim = 0;
            }
            if let Some(front) = self.fronts.get(victim) {
                thieves.push(front.thief()?)?;
            }
        }
        Ok(thieves)
    }

    /// Returns a task: the newest of the worker's deque, or else one of another worker.
    pub fn find(&self, tasks: &mut Tasks<'p, J>) -> Option<Ready<'p, J>> {
        match tasks.own.pop() {
            Some(ready) => Some(ready),
            None => self.steal(tasks),
        }
    }

    /// Steals a task from another worker. If that has more, it steals some of them too, and wakes
    /// one resting worker.
    fn steal(&self, tasks: &mut Tasks<'p, J>) -> Option<Ready<'p, J>> {
        let Tasks { own, thieves } = tasks;
        for thief in thieves.iter_mut() {
            if let Some(ready) = thief.steal(own) {
                if own.len() > 0 {
                    self.wake();
                }
                return Some(ready);
            }
        }
        None
    }

    // ---- rest

    /// Lets a worker that found no task rest until one is pushed, or the run is over. The worker
    /// looks once more before that.
    pub fn rest<R: Wait>(
        &self,
        rt: &R,
        number: usize,
        parker: &Parker,
        tasks: &mut Tasks<'p, J>,
    ) -> Option<Ready<'p, J>> {
        let sleep_slot = self.sleep_slots.get(number)?;
        sleep_slot.taken.store(true, Ordering::SeqCst);
        self.resting.fetch_add(1, Ordering::SeqCst);
        let found = self.find(tasks);
        if found.is_none() && !self.is_over() {
            parker.park(rt);
        }
        self.mark_awake(sleep_slot);
        found
    }

    /// Wakes one worker, if one rests.
    pub fn wake(&self) {
        if self.resting.load(Ordering::SeqCst) == 0 {
            return;
        }
        for sleep_slot in self.sleep_slots.iter() {
            if sleep_slot.taken.load(Ordering::SeqCst) && self.mark_awake(sleep_slot) {
                sleep_slot.unparker.unpark();
                return;
            }
        }
    }

    /// Marks the worker in this sleep slot as awake. Returns false if no worker rests there.
    fn mark_awake(&self, sleep_slot: &SleepSlot) -> bool {
        let taken = sleep_slot.taken.swap(false, Ordering::SeqCst);
        if taken {
            self.resting.fetch_sub(1, Ordering::SeqCst);
        }
        taken
    }

    // ---- the mark

    /// Sets the mark, and wakes all workers. Returns true if it wasn't set before.
    pub fn end(&self) -> bool {
        let set = self.over.swap(true, Ordering::SeqCst);
        for sleep_slot in self.sleep_slots.iter() {
            sleep_slot.unparker.unpark();
        }
        !set
    }

    /// Returns whether the mark is set.
    pub fn is_over(&self) -> bool {
        self.over.load(Ordering::SeqCst)
    }

    // ---- scopes

    /// Puts a scope in the scope table of this worker, and returns its position.
    pub fn put<R: Wait>(
        &self,
        rt: &R,
        number: usize,
        scope: Arc<Scope<'p, J>>,
    ) -> Result<ScopePosition, Trouble>
        ensures { IfErr result (Happens J.job) }
    {
        let table = table_at(&self.tables, number)?;
        Ok(ScopePosition {
            table: number,
            slot: table.lock(rt).add(scope)?,
        })
    }

    /// Returns the scope at this position.
    pub fn scope_at<R: Wait>(
        &self,
        rt: &R,
        place: ScopePosition,
    ) -> Result<Arc<Scope<'p, J>>, Trouble>
        ensures { IfErr result (Happens J.job) }
    {
        let table = table_at(&self.tables, place.table)?;
        Ok(table.lock(rt).find(place.slot)?)
    }

    /// Removes a scope that has passed.
    pub fn clear<R: Wait>(&self, rt: &R, place: ScopePosition) -> Result<(), Trouble>
        ensures { IfErr result (Happens J.job) }
    {
        let table = table_at(&self.tables, place.table)?;
        table.lock(rt).free(place.slot)?;
        Ok(())
    }
}

/// Returns a deque, and its front.
fn deque<T: Drop>(alloc: Global) -> Result<(Deque<T>, Front<T>), AllocError> {
    let own = Deque::new(alloc, FIRST_ROOM)?;
    let front = own.front()?;
    Ok((own, front))
}
