//! Finish scopes: when they are open, and what comes back to them.

ghost use Rattle.std.specs.Prelude.{ℕ, ◌≡◌, ◌+◌, List, IfOk, OnOk, Some, length, slice_get};
ghost use Rattle.events.specs.declared.event.Event.{Event as AnyEvent};
ghost use Rattle.trace_layout.specs.Finishes.{AreFinishes, opener_at};
ghost use Rattle.trace_layout.specs.Scopes.{AreScopes, IsAdded};

use events::event::Event;
use std::alloc::{AllocError, Global};
use std::collections::HashMap;
use trace_numbers::chains::Chains;
use types::path::Path;
use types::scope_id::ScopeId;

/// A scope, from its `open` to its `pass`.
#[derive(Debug, Drop)]
pub struct Finish {
    pub name: ScopeId,
    /// The number of the event that opened it, 0 for the root's scope.
    pub first: usize,
    /// The number of its `pass`, or of the list's last event.
    pub last: usize,
    pub is_passed: bool,
    /// The number of the event at which its owner parked there.
    pub parked: Option<usize>,
}

/// The `end` of a task, at which its weight comes back to a scope.
#[derive(Clone, Copy, PartialEq, Eq, Debug)]
pub struct Return {
    /// The number of the event.
    pub at: usize,
    /// The number of the scope.
    pub finish: usize,
}

/// The scopes of a list of events.
#[derive(Debug, Drop)]
pub struct Finishes {
    /// The root's, and then all others in the order of their `open`s.
    pub all: Vec<Finish>,
    pub returns: Vec<Return>,
}

/// The scopes so far, and their names.
#[derive(Drop)]
struct Scopes {
    all: Vec<Finish>,
    returns: Vec<Return>,
    numbers: HashMap<ScopeId, usize>,
    /// The number of finishes that each task has opened.
    opened: HashMap<Path, u32>,
    /// The number of the list's last event.
    last: usize,
}

/// Returns the scopes of a list of events, in any order.
pub fn finishes_of(alloc: Global, events: &[Event]) -> Result<Finishes, AllocError>
    ensures { IfOk result (AreFinishes events.now) }
{
    let mut chains = Chains::start(alloc)?;
    let mut scopes = Scopes::start(alloc, events.len())?;
    for (number, event) in events.iter().enumerate() {
        scopes.happens(number, event, &chains)?;
        chains.happens(event)?;
    }
    Ok(Finishes {
        all: scopes.all,
        returns: scopes.returns,
    })
}

impl Scopes {
    /// Returns the root's scope, before a list of this many events.
    fn start(alloc: Global, events: usize) -> Result<Scopes, AllocError>
        ensures { IfOk result (λ s. (es : List AnyEvent) → length es ≡ events → AreScopes es 0 s) }
    {
        let mut scopes = Scopes {
            all: Vec::new(alloc),
            returns: Vec::new(alloc),
            numbers: HashMap::new(alloc),
            opened: HashMap::new(alloc),
            last: events.saturating_sub(1),
        };
        scopes.begin(
            0,
            ScopeId {
                owner: Path::root(alloc),
                number: 0,
            },
        )?;
        Ok(scopes)
    }

    /// Records an event, with the chains before it.
    fn happens(&mut self, number: usize, event: &Event, chains: &Chains) -> Result<(), AllocError>
        ensures { OnOk result ((es : List AnyEvent) → slice_get es number ≡ Some event.now
            → AreScopes es number self.old → AreScopes es (number + 1) self.new) }
    {
        match event {
            Event::Open { path } => self.open(number, path),
            Event::Park { path } => {
                self.park(number, chains.chain(path).stands);
                Ok(())
            }
            Event::End { path } => {
                self.returns.push(Return {
                    at: number,
                    finish: chains.chain(path).stands,
                })?;
                Ok(())
            }
            Event::Pass { scope } => {
                self.pass(number, scope);
                Ok(())
            }
            _ => Ok(()),
        }
    }

    /// Records that a task opens its next finish.
    fn open(&mut self, number: usize, path: &Path) -> Result<(), AllocError>
        ensures { OnOk result ((es : List AnyEvent) → opener_at es number ≡ Some path.now.turns.items
            → AreScopes es number self.old → AreScopes es (number + 1) self.new) }
    {
        let before = self.opened.get(path).copied().unwrap_or(0);
        // A scope's name can't contain a larger number.
        let Some(count) = before.checked_add(1) else {
            return Err(AllocError);
        };
        self.opened.insert(path.clone()?, count)?;
        self.begin(
            number,
            ScopeId {
                owner: path.clone()?,
                number: count,
            },
        )
    }

    /// Adds a scope that starts at an event.
    fn begin(&mut self, number: usize, name: ScopeId) -> Result<(), AllocError>
        ensures { OnOk result (IsAdded number name self.old self.new) }
    {
        self.numbers.insert(name.clone()?, self.all.len())?;
        self.all.push(Finish {
            name,
            first: number,
            last: self.last,
            is_passed: false,
            parked: None,
        })?;
        Ok(())
    }

    /// Records that its owner is at the end of a finish.
    fn park(&mut self, number: usize, finish: usize)
        ensures { (es : List AnyEvent) (n : ℕ) → AreScopes es n self.old → AreScopes es n self.new }
    {
        if finish < self.all.len() {
            let finish = &mut self.all[finish];
            finish.parked = Some(number);
        }
    }

    /// Records that a scope passes.
    fn pass(&mut self, number: usize, name: &ScopeId)
        ensures { (es : List AnyEvent) → AreScopes es number self.old → AreScopes es number self.new }
    {
        let Some(place) = self.numbers.get(name) else {
            return;
        };
        let place = *place;
        if place < self.all.len() {
            let finish = &mut self.all[place];
            finish.last = number;
            finish.is_passed = true;
        }
    }
}

/// Returns the numbers of at most `most` scopes, in ascending order. No scope that is left out is
/// open longer than one of these.
pub fn longest(alloc: Global, all: &[Finish], most: usize) -> Result<Vec<usize>, AllocError> {
    let mut numbers: Vec<usize> = (0..all.len()).collect(alloc)?;
    numbers.sort_by_key(|number| {
        match all.get(*number) {
            Some(finish) => usize::MAX - finish.last.saturating_sub(finish.first),
            None => usize::MAX,
        }
    })?;
    numbers.truncate(most);
    numbers.sort()?;
    Ok(numbers)
}
