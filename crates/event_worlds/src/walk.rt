//! Random walks: one legal event after the other.

ghost use Rattle.std.specs.Prelude.{◌≡◌, ◌<◌, ◌∷◌, [], length, false, map, IfErr, IfOk, OnOk};
ghost use Rattle.event_worlds.specs.Candidates.{in_hand as hand_events, when_parked as parked_events};
ghost use Rattle.event_worlds.specs.Events.{Take as IsTake};
ghost use Rattle.task_run.specs.Lists.{Each};
ghost use Rattle.event_worlds.specs.Jobs.{IsWeightedJob};
ghost use Rattle.event_worlds.specs.Replaying.{IsReplayed, event as event_of};
ghost use Rattle.event_worlds.specs.Shown.{IsWorld, stake, turns_of};
ghost use Rattle.event_worlds.specs.Walks.{AreCandidates, AreTasks, HasGoneOn, HasStopped, Happened};
ghost use Rattle.event_worlds.specs.Walks.{IsIdle, IsIllegal, IsOver, IsWalk, WentRound};
ghost use Rattle.event_worlds.specs.declared.error.EventError.TheVariants.{NoMemory};

use crate::error::EventError;
use crate::job::WeightedJob;
use crate::task::{Whereabouts, WorldStake};
use crate::world::{World, root_scope};
use events::event::Event;
use events::worker_id::{MOST_WORKERS, WorkerId};
use rand::rngs::SmallRng;
use rand::{RngExt, SeedableRng};
use std::alloc::{AllocError, Global};
use std::collections::VecDeque;
use types::path::Path;

/// Legal events, and the world that they lead to.
#[derive(Drop)]
pub struct Walk<'p> {
    pub events: Vec<Event>,
    pub world: World<'p>,
}

/// The random choices of a walk with a given number of workers.
#[derive(Drop)]
struct Chance {
    generator: SmallRng,
    workers: u32,
}

impl Chance {
    /// Returns a number below this one, or 0.
    fn below(&mut self, count: usize) -> usize {
        if count == 0 {
            return 0;
        }
        self.generator.random_range(0..count)
    }

    /// Returns a worker.
    fn worker(&mut self) -> WorkerId {
        let workers = self.workers.clamp(1, MOST_WORKERS);
        let number = self.generator.random_range(0..workers);
        WorkerId::new(number).unwrap_or(WorkerId::first())
    }

    /// Returns the result of a coin toss.
    fn heads(&mut self) -> bool {
        self.generator.random()
    }
}

/// Walks at random, with `workers` workers, until the root's scope has passed or there are `most`
/// events. No worker counts as one worker, and more than 64 count as 64. A generator picks live
/// tasks and workers, starting from a seed, and the walk applies an event that is legal for them.
/// It ends early only if a task needs weight from a scope that has issued 2^31 times.
pub fn random_walk<'p>(
    job: WeightedJob<'p>,
    workers: u32,
    seed: u64,
    most: usize,
) -> Result<Walk<'p>, EventError>
    requires { IsWeightedJob job }
    ensures legal { IfOk result (λ w. IsReplayed job.entry w.events.items w.world) }
    ensures world { IfOk result (λ w. IsWorld w.world) }
    ensures over { IfOk result (IsOver most) }
    ensures refused { IfErr result (λ e. e ≡ NoMemory) }
{
    let mut walk = Walk::start(job)?;
    let mut chance = Chance {
        generator: SmallRng::seed_from_u64(seed),
        workers,
    };
    let outermost = root_scope(job.job.alloc);
    'rounds: while walk.events.len() < most {
        if walk.world.passed(&outermost) {
            return Ok(walk);
        }
        if !walk.round(&mut chance, most)? {
            return Ok(walk);
        }
    }
    Ok(walk)
}

impl<'p> Walk<'p> {
    /// Creates a walk without events.
    fn start(job: WeightedJob<'p>) -> Result<Walk<'p>, EventError>
        requires { IsWeightedJob job }
        ensures walk { IfOk result IsWalk }
        ensures job { IfOk result (λ w. w.world.job ≡ job.entry) }
        ensures none { IfOk result (λ w. w.events.items ≡ []) }
        ensures refused { IfErr result (λ e. e ≡ NoMemory) }
    {
        let world = World::start(job)?;
        let events = Vec::new(job.job.alloc);
        Ok(Walk { events, world })
    }

    /// Picks as many times as there are live tasks. If no pick leads to an event, it applies the
    /// first event that is legal. Returns whether an event happened.
    fn round(&mut self, chance: &mut Chance, most: usize) -> Result<bool, EventError>
        requires walk { IsWalk self.old }
        requires fewer { length self.old.events.items < most }
        ensures round { IfOk result (λ happened. WentRound most happened self.old self.new) }
        ensures refused { IfErr result (λ e. e ≡ NoMemory) }
    {
        let before = self.events.len();
        self.at_random(chance, most)?;
        if before < self.events.len() {
            return Ok(true);
        }
        self.anywhere()
    }

    /// Picks as many times as there are live tasks.
    fn at_random(&mut self, chance: &mut Chance, most: usize) -> Result<(), EventError>
        requires walk { IsWalk self.old }
        requires fewer { length self.old.events.items < most }
        ensures further { OnOk result (HasGoneOn most self.old self.new) }
        ensures refused { IfErr result (λ e. e ≡ NoMemory) }
    {
        let paths = self.paths()?;
        'picks: for _ in 0..paths.len() {
            if self.events.len() >= most {
                return Ok(());
            }
            self.pick(chance, &paths)?;
        }
        Ok(())
    }

    /// Picks a task and a worker. The task is stolen, or otherwise it continues.
    fn pick(&mut self, chance: &mut Chance, paths: &[Path]) -> Result<bool, EventError>
        requires { IsWalk self.old }
        ensures happened { IfOk result (λ b. Happened b self.old self.new) }
        ensures refused { IfErr result (λ e. e ≡ NoMemory) }
    {
        let number = chance.below(paths.len());
        let worker = chance.worker();
        let steals = chance.heads();
        match paths.get(number) {
            Some(path) if steals => self.steal(worker, path),
            Some(path) => self.go_on(worker, path),
            None => Ok(false),
        }
    }

    /// Steals a task from a queue.
    fn steal(&mut self, worker: WorkerId, path: &Path) -> Result<bool, EventError>
        requires { IsWalk self.old }
        ensures happened { IfOk result (λ b. Happened b self.old self.new) }
        ensures refused { IfErr result (λ e. e ≡ NoMemory) }
    {
        let Some(from) = self.queue(path) else {
            return Ok(false);
        };
        let path = path.clone()?;
        self.happens(Event::Steal { worker, from, path })
    }

    /// Returns the worker whose queue a task is in.
    fn queue(&self, path: &Path) -> Option<WorkerId> {
        self.world.tasks.get(path)?.place.queue()
    }

    /// Applies an event of the first task that has a legal one. Returns whether there was one.
    fn anywhere(&mut self) -> Result<bool, EventError>
        requires { IsWalk self.old }
        ensures happened { IfOk result (λ b. Happened b self.old self.new) }
        ensures stopped { IfOk result (λ b. b ≡ false → HasStopped self.new) }
        ensures refused { IfErr result (λ e. e ≡ NoMemory) }
    {
        let paths = self.paths()?;
        'paths: for path in &paths {
            if self.go_on(WorkerId::first(), path)? {
                return Ok(true);
            }
        }
        Ok(false)
    }

    /// Returns the paths of all live tasks.
    fn paths(&self) -> Result<Vec<Path>, AllocError>
        ensures { IfOk result (λ paths. AreTasks self.now.world (map turns_of paths.items)) }
    {
        let mut paths = Vec::new(self.world.job.job.alloc);
        'tasks: for path in self.world.tasks.keys() {
            paths.push(path.clone()?)?;
        }
        Ok(paths)
    }

    /// Applies an event of this task if one is legal. If the task is parked, this worker may take
    /// it.
    fn go_on(&mut self, worker: WorkerId, path: &Path) -> Result<bool, EventError>
        requires { IsWalk self.old }
        ensures happened { IfOk result (λ b. Happened b self.old self.new) }
        ensures idle { IfOk result (λ b. b ≡ false
            → IsIdle self.old.world worker path.now.turns.items) }
        ensures refused { IfErr result (λ e. e ≡ NoMemory) }
    {
        let events = self.candidates(worker, path)?;
        self.one_of(events)
    }

    /// Returns the events that a task may do next, depending on its location.
    fn candidates(&self, worker: WorkerId, path: &Path) -> Result<Vec<Event>, AllocError>
        ensures { IfOk result (λ events. AreCandidates self.now.world worker path.now.turns.items
            (map event_of events.items)) }
    {
        let alloc = self.world.job.job.alloc;
        let Some(task) = self.world.tasks.get(path) else {
            return Ok(Vec::new(alloc));
        };
        match task.place {
            Whereabouts::Queue(owner) => in_queue(alloc, owner, path),
            Whereabouts::Hand(_) => in_hand(alloc, path),
            Whereabouts::Parked => when_parked(alloc, worker, path, &task.stakes),
        }
    }

    /// Applies the last of these events that is legal. Returns whether there was one.
    fn one_of(&mut self, events: Vec<Event>) -> Result<bool, EventError>
        requires { IsWalk self.old }
        ensures happened { IfOk result (λ b. Happened b self.old self.new) }
        ensures none { IfOk result (λ b. b ≡ false
            → Each (IsIllegal self.old.world) (map event_of events.items)) }
        ensures refused { IfErr result (λ e. e ≡ NoMemory) }
    {
        let mut events = events;
        'events: while let Some(event) = events.pop() {
            if self.happens(event)? {
                return Ok(true);
            }
        }
        Ok(false)
    }

    /// Applies an event if it is legal. Returns whether it was.
    fn happens(&mut self, event: Event) -> Result<bool, EventError>
        requires { IsWalk self.old }
        ensures happened { IfOk result (λ b. Happened b self.old self.new) }
        ensures illegal { IfOk result (λ b. b ≡ false
            → IsIllegal self.old.world (event_of event)) }
        ensures refused { IfErr result (λ e. e ≡ NoMemory) }
    {
        match self.world.event(&event) {
            Ok(()) => {
                self.events.push(event)?;
                Ok(true)
            }
            Err(EventError::Illegal) => Ok(false),
            Err(EventError::NoMemory) => Err(EventError::NoMemory),
        }
    }
}

/// Returns the events of a task in a queue.
fn in_queue(alloc: Global, owner: WorkerId, path: &Path) -> Result<Vec<Event>, AllocError>
    ensures { IfOk result (λ events. map event_of events.items
        ≡ IsTake owner path.now.turns.items ∷ []) }
{
    let path = path.clone()?;
    Ok(vec![in alloc;
        Event::Take {
            worker: owner,
            path
        },
    ]?)
}

/// Returns the events of a task in a hand.
fn in_hand(alloc: Global, path: &Path) -> Result<Vec<Event>, AllocError>
    ensures { IfOk result (λ events. map event_of events.items
        ≡ hand_events path.now.turns.items) }
{
    let end = Event::End {
        path: path.clone()?,
    };
    let park = Event::Park {
        path: path.clone()?,
    };
    let open = Event::Open {
        path: path.clone()?,
    };
    let replenish = Event::Replenish {
        path: path.clone()?,
    };
    let spawn = Event::Spawn {
        path: path.clone()?,
    };
    let path = path.clone()?;
    let step = Event::Step { path };
    Ok(vec![in alloc; end, park, open, replenish, spawn, step]?)
}

/// Returns the events of a parked task: its innermost scope passes, or the worker takes it.
fn when_parked(
    alloc: Global,
    worker: WorkerId,
    path: &Path,
    stakes: &VecDeque<WorldStake>,
) -> Result<Vec<Event>, AllocError>
    ensures { IfOk result (λ events. map event_of events.items
        ≡ parked_events worker path.now.turns.items (map stake stakes.now.items)) }
{
    let Some(stake) = stakes.front() else {
        return Ok(Vec::new(alloc));
    };
    let scope = stake.scope.clone()?;
    let path = path.clone()?;
    let pass = Event::Pass { scope };
    let resume = Event::Resume {
        worker,
        path,
        faults: None,
    };
    Ok(vec![in alloc; pass, resume]?)
}
