//! The tasks in the workers' hands, event by event.

ghost use Rattle.std.specs.Prelude.{ℕ, ◌≡◌, ◌+◌, ◌-◌, ◌<◌, ◌↔◌, List, IfNone, IfSome, IsTrue, None, OnOk, Some};
ghost use Rattle.std.specs.Prelude.{IfOk, length, slice_get, slice_index_or};
ghost use Rattle.std.specs.HashMap.{get};
ghost use Rattle.events.specs.declared.event.Event.{Event as AnyEvent};
ghost use Rattle.trace_layout.specs.Hands.{AreHands, IsEmptyHand};
ghost use Rattle.trace_layout.specs.Spells.{AreSpells, IsLeaving, taken_at};
ghost use Rattle.trace_layout.specs.declared.spells.Spell.{Spell as AnySpell};
ghost use Rattle.types.specs.Translation.{is_path};

use crate::spells::{Beginning, Spell, SpellEnd, Spells};
use events::event::Event;
use events::worker_id::WorkerId;
use std::alloc::{AllocError, Global};
use std::collections::HashMap;
use types::path::Path;

/// Returns the spells of a list of events, in any order.
pub fn spells_of(alloc: Global, events: &[Event]) -> Result<Spells, AllocError>
    ensures { IfOk result (AreSpells events.now) }
{
    let mut hands = Hands::start(alloc, events.len());
    let mut places = Vec::new(alloc);
    for (number, event) in events.iter().enumerate() {
        let place = hands.happens(number, event)?;
        places.push(place)?;
    }
    Ok(Spells {
        all: hands.spells,
        places,
    })
}

/// The spells so far, and the task in each hand.
#[derive(Drop)]
pub struct Hands {
    pub spells: Vec<Spell>,
    /// For each task, the number of its latest spell.
    tasks: HashMap<Path, usize>,
    /// For each worker, the number of its latest spell.
    workers: [Option<usize>; 64],
    /// The number of the list's last event.
    last: usize,
}

impl Hands {
    /// Returns empty hands, before a list of this many events.
    pub fn start(alloc: Global, events: usize) -> Hands
        ensures { (es : List AnyEvent) → length es ≡ events → AreHands es 0 result }
    {
        Hands {
            spells: Vec::new(alloc),
            tasks: HashMap::new(alloc),
            workers: [None; 64],
            last: events.saturating_sub(1),
        }
    }

    /// Records an event, and returns the number of the spell that it belongs to.
    pub fn happens(&mut self, number: usize, event: &Event) -> Result<Option<usize>, AllocError>
        ensures { OnOk result ((es : List AnyEvent) → slice_get es number ≡ Some event.now
            → AreHands es number self.old → AreHands es (number + 1) self.new) }
    {
        match event {
            Event::Take { worker, path } => self.begin(number, *worker, path, Beginning::Taken),
            Event::Resume { worker, path, .. } => self.begin(
                number,
                *worker,
                path,
                Beginning::Resumed,
            ),
            Event::Step { path }
            | Event::Replenish { path }
            | Event::Spawn { path }
            | Event::Open { path } => Ok(self.go_on(path)),
            Event::Park { path } => Ok(self.end(number, path, SpellEnd::Parked)),
            Event::End { path } => Ok(self.end(number, path, SpellEnd::Ended)),
            Event::Steal { .. } | Event::Pass { .. } => Ok(None),
        }
    }

    /// Records that a worker takes a task into its hand.
    fn begin(
        &mut self,
        number: usize,
        worker: WorkerId,
        path: &Path,
        beginning: Beginning,
    ) -> Result<Option<usize>, AllocError>
        ensures { OnOk result ((es : List AnyEvent)
            → taken_at es number ≡ Some (record { worker = worker; path = path.now.turns.items })
            → AreHands es number self.old → AreHands es (number + 1) self.new) }
    {
        self.leave(number, worker);
        let place = self.spells.len();
        self.spells.push(Spell {
            path: path.clone()?,
            worker,
            beginning,
            ending: SpellEnd::Going,
            first: number,
            last: self.last,
            own: 1,
        })?;
        self.tasks.insert(path.clone()?, place)?;
        self.workers[worker.number() as usize] = Some(place);
        Ok(Some(place))
    }

    /// Empties a worker's hand before this event.
    fn leave(&mut self, number: usize, worker: WorkerId)
        ensures { (es : List AnyEvent) (path : List ℕ)
            → taken_at es number ≡ Some (record { worker = worker; path = path })
            → AreHands es number self.old → IsEmptyHand es number worker self.new }
    {
        let Some(place) = self.workers[worker.number() as usize] else {
            return;
        };
        if place < self.spells.len() {
            let spell = &mut self.spells[place];
            spell.leave(number);
        }
    }

    /// Records an event of a task that stays in the hand.
    fn go_on(&mut self, path: &Path) -> Option<usize>
        ensures { (es : List AnyEvent) (n : ℕ) → AreHands es n self.old → AreHands es n self.new }
    {
        let place = self.going(path)?;
        let spell = &mut self.spells[place];
        spell.own = spell.own.saturating_add(1);
        Some(place)
    }

    /// Records the event at which a task leaves its worker's hand.
    fn end(&mut self, number: usize, path: &Path, ending: SpellEnd) -> Option<usize>
        ensures { (es : List AnyEvent) → IsLeaving es number path.now.turns.items ending
            → AreHands es number self.old → AreHands es (number + 1) self.new }
    {
        let place = self.going(path)?;
        let spell = &mut self.spells[place];
        spell.own = spell.own.saturating_add(1);
        spell.last = number;
        spell.ending = ending;
        Some(place)
    }

    /// Returns the number of a task's spell, if that is still open.
    fn going(&self, path: &Path) -> Option<usize>
        ensures none { IfNone result ((k : ℕ) (d : AnySpell) → get is_path self.now.tasks path.now ≡ Some k
            → k < length self.now.spells.items
            → (slice_index_or self.now.spells.items k d).ending ≡ SpellEnd.Going → ⊥) }
        ensures found { IfSome result (λ k. get is_path self.now.tasks path.now ≡ Some k) }
        ensures there { IfSome result (λ k. k < length self.now.spells.items) }
        ensures going { IfSome result (λ k. (d : AnySpell)
            → (slice_index_or self.now.spells.items k d).ending ≡ SpellEnd.Going) }
        ensures same { (es : List AnyEvent) (n : ℕ) → AreHands es n self.now
            → IfSome result (λ k. (d : AnySpell)
            → (slice_index_or self.now.spells.items k d).path.turns.items ≡ path.now.turns.items) }
    {
        let place = *self.tasks.get(path)?;
        let spell = self.spells.get(place)?;
        if spell.is_going() { Some(place) } else { None }
    }
}

impl Spell {
    /// Returns whether no event has ended it.
    fn is_going(&self) -> bool
        ensures { IsTrue result ↔ (self.now.ending ≡ SpellEnd.Going) }
    {
        matches!(self.ending, SpellEnd::Going)
    }

    /// Ends it before this event.
    fn leave(&mut self, number: usize)
        ensures going { self.old.ending ≡ SpellEnd.Going
            → self.new ≡ record self.old { ending = SpellEnd.Left; last = number - 1 } }
        ensures ended { (self.old.ending ≡ SpellEnd.Going → ⊥) → self.new ≡ self.old }
    {
        if self.is_going() {
            self.last = number.saturating_sub(1);
            self.ending = SpellEnd::Left;
        }
    }
}
