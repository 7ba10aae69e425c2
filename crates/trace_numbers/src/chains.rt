//! The longest chain of steps. No number of workers makes a run shorter than that.

ghost use Rattle.std.specs.Prelude.{◌≡◌, IfOk, OnOk, if◌then◌else◌};
ghost use Rattle.trace_numbers.specs.Chains.{Chains as AnyChains, begin_child, begin_finish, chained};
ghost use Rattle.trace_numbers.specs.Chains.{come_back, leave, no_chains, one_more, span_of};
ghost use Rattle.types.specs.Translation.{is_path};
ghost use Rattle.trace_numbers.specs.Tables.{AreAfter, Shows, chain_at};
ghost use Rattle.types.specs.declared.path.Path.{Path as AnyPath};

use events::event::Event;
use std::alloc::{AllocError, Global};
use std::collections::HashMap;
use types::child_number::ChildNumber;
use types::path::Path;

/// What a task has done so far.
#[derive(Clone, Copy)]
pub struct Chain {
    /// The cost of the longest chain of steps that leads to it.
    pub cost: usize,
    /// The number of its innermost open scope.
    pub stands: usize,
    /// The number of tasks that it has spawned.
    pub spawned: usize,
}

/// A scope, and what came back to it.
#[derive(Clone, Copy)]
pub struct ScopeChain {
    /// The cost of the longest chain that came back.
    pub came_back: usize,
    /// The number of the scope that its owner was in when it opened this one.
    pub around: usize,
}

/// All tasks that did something, and all scopes by their numbers: 0 is the root's, and the others
/// follow in the order in which they were opened.
#[derive(Drop)]
pub struct Chains {
    tasks: HashMap<Path, Chain>,
    pub scopes: Vec<ScopeChain>,
}

/// Returns the cost of the longest chain of steps: 4 for the only trace of `main { finish { async {
/// skip; } skip; } skip; }`, whose two tasks can take a step at the same time.
pub fn span(alloc: Global, events: &[Event]) -> Result<usize, AllocError>
    ensures { IfOk result (λ n. n ≡ span_of events.now) }
{
    let mut chains = Chains::start(alloc)?;
    for event in events {
        chains.happens(event)?;
    }
    Ok(chains.scopes[0].came_back)
}

impl Chains {
    /// Starts before any event.
    pub fn start(alloc: Global) -> Result<Chains, AllocError>
        ensures { IfOk result (λ r. Shows r no_chains) }
    {
        let mut scopes = Vec::new(alloc);
        scopes.push(ScopeChain {
            came_back: 0,
            around: 0,
        })?;
        Ok(Chains {
            tasks: HashMap::new(alloc),
            scopes,
        })
    }

    /// Applies an event.
    pub fn happens(&mut self, event: &Event) -> Result<(), AllocError>
        requires { AreAfter self.old }
        ensures { OnOk result ((c : AnyChains) → Shows self.old c → Shows self.new (chained event.now c)) }
    {
        match event {
            Event::Step { path } => self.one_more(path),
            Event::Spawn { path } => self.begin_child(path),
            Event::Open { path } => self.begin_finish(path),
            Event::Park { path } | Event::End { path } => {
                self.come_back(path);
                Ok(())
            }
            Event::Resume { path, .. } => self.leave(path),
            Event::Take { .. }
            | Event::Steal { .. }
            | Event::Replenish { .. }
            | Event::Pass { .. } => Ok(()),
        }
    }

    /// Counts one more step.
    fn one_more(&mut self, path: &Path) -> Result<(), AllocError>
        requires { AreAfter self.old }
        ensures { OnOk result ((c : AnyChains) → Shows self.old c
            → Shows self.new (one_more path.now.turns.items c)) }
    {
        let mut chain = self.chain(path);
        chain.cost += 1;
        self.put(path, chain)
    }

    /// Lets a task take a step and start another task after it, in its innermost scope.
    fn begin_child(&mut self, path: &Path) -> Result<(), AllocError>
        requires { AreAfter self.old }
        ensures { OnOk result ((c : AnyChains) → Shows self.old c
            → Shows self.new (begin_child path.now.turns.items (one_more path.now.turns.items c))) }
    {
        let mut chain = self.chain(path);
        chain.cost += 1;
        chain.spawned += 1;
        self.put(path, chain)?;
        // A path can't name more children.
        let Ok(number) = u32::try_from(chain.spawned) else {
            return Err(AllocError);
        };
        let Some(number) = ChildNumber::new(number) else {
            return Err(AllocError);
        };
        let child = path.child(number)?;
        chain.spawned = 0;
        self.put(&child, chain)
    }

    /// Lets a task take a step and open a scope.
    fn begin_finish(&mut self, path: &Path) -> Result<(), AllocError>
        requires { AreAfter self.old }
        ensures { OnOk result ((c : AnyChains) → Shows self.old c
            → Shows self.new (begin_finish path.now.turns.items (one_more path.now.turns.items c))) }
    {
        let mut chain = self.chain(path);
        let number = self.scopes.len();
        self.scopes.push(ScopeChain {
            came_back: 0,
            around: chain.stands,
        })?;
        chain.cost += 1;
        chain.stands = number;
        self.put(path, chain)
    }

    /// Lets what leads to a task come back to its innermost scope.
    fn come_back(&mut self, path: &Path)
        requires { AreAfter self.old }
        ensures { (c : AnyChains) → Shows self.old c
            → Shows self.new (come_back path.now.turns.items c) }
    {
        let chain = self.chain(path);
        let scope = &mut self.scopes[chain.stands];
        scope.came_back = scope.came_back.max(chain.cost);
    }

    /// Lets a task continue after its innermost scope.
    fn leave(&mut self, path: &Path) -> Result<(), AllocError>
        requires { AreAfter self.old }
        ensures { OnOk result ((c : AnyChains) → Shows self.old c
            → Shows self.new (leave path.now.turns.items c)) }
    {
        let mut chain = self.chain(path);
        let scope = self.scopes[chain.stands];
        chain.cost = scope.came_back;
        chain.stands = scope.around;
        self.put(path, chain)
    }

    /// Returns what a task has done so far. Most tasks are unknown.
    pub fn chain(&self, path: &Path) -> Chain
        ensures { result ≡ chain_at self.now.tasks path.now }
    {
        match self.tasks.get(path) {
            Some(chain) => *chain,
            None => Chain {
                cost: 0,
                stands: 0,
                spawned: 0,
            },
        }
    }

    /// Sets what a task has done so far.
    fn put(&mut self, path: &Path, chain: Chain) -> Result<(), AllocError>
        ensures scopes { self.new.scopes ≡ self.old.scopes }
        ensures others { OnOk result ((other : AnyPath) → chain_at self.new.tasks other
            ≡ (if is_path path.now other then chain else chain_at self.old.tasks other)) }
    {
        if let Some(place) = self.tasks.get_mut(path) {
            *place = chain;
            return Ok(());
        }
        self.tasks.insert(path.clone()?, chain)?;
        Ok(())
    }
}
