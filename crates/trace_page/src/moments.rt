//! What an event changes, from the worlds before and after it.

ghost use Rattle.std.specs.Prelude.{◌≡◌, ◌++◌, IfOk, OnOk, option_map};
ghost use Rattle.serde_json.specs.View.{view};
ghost use Rattle.events.specs.Events.{event as event_of};
ghost use Rattle.event_worlds.specs.Shown.{Shows, scope_id};
ghost use Rattle.event_worlds.specs.World.{World as AnyWorld, weight_of};
ghost use Rattle.trace_page.specs.Changes.{AreChanges, Changes as AnyChanges, book_told, changes_json};
ghost use Rattle.trace_page.specs.Changes.{innermost as innermost_of, shares_told, weight_told, weights_told};

use crate::changes::WeightChange;
use crate::told::push_all;
use crate::values::values_of;
use event_worlds::world::World;
use events::event::Event;
use serde_json::Value;
use std::alloc::{AllocError, Global};
use types::code::Label;
use types::path::Path;
use types::scope_id::ScopeId;

/// An event, and the worlds before and after it.
#[derive(Clone, Copy)]
pub struct Moment<'m, 'p> {
    pub event: &'m Event,
    /// The label of its statement, or 0.
    pub label: Label,
    pub before: &'m World<'p>,
    pub after: &'m World<'p>,
}

/// Returns what an event changes: weights and a book, and then the values of its task.
pub fn changes_of(alloc: Global, moment: Moment<'_, '_>) -> Result<Value, AllocError>
    ensures { IfOk result (λ v. (told : AnyChanges) × (view v ≡ changes_json told)
        × ((before after : AnyWorld) → Shows moment.entry.before.now before
        → Shows moment.entry.after.now after
        → AreChanges (event_of moment.entry.event.now) before after told)) }
{
    let values = values_of(alloc, moment)?;
    let mut weights = Vec::new(alloc);
    push_weights(&mut weights, moment)?;
    let mut list = Vec::new(alloc);
    push_all(&mut list, alloc, &weights)?;
    push_all(&mut list, alloc, &values)?;
    Ok(Value::Array(list))
}

/// Adds the weights and the book that an event changes.
fn push_weights(changes: &mut Vec<WeightChange>, moment: Moment<'_, '_>) -> Result<(), AllocError>
    ensures { OnOk result ((before after : AnyWorld)
        → Shows moment.entry.before.now before → Shows moment.entry.after.now after
        → changes.new.items ≡ changes.old.items
        ++ weights_told (event_of moment.entry.event.now) before after) }
{
    let before = moment.before;
    let after = moment.after;
    match moment.event {
        Event::Spawn { path } => push_shares(changes, before.weight(path), after.weight(path)),
        Event::Open { path } => push_issued(changes, after, path),
        Event::Replenish { path } => push_issued(changes, after, path),
        Event::Park { path } => push_book(changes, innermost(before, path), after),
        Event::End { path } => push_book(changes, innermost(before, path), after),
        Event::Take { .. } => Ok(()),
        Event::Steal { .. } => Ok(()),
        Event::Step { .. } => Ok(()),
        Event::Pass { .. } => Ok(()),
        Event::Resume { .. } => Ok(()),
    }
}

/// Adds the weight that a task has left after a spawn, and the weight that its child got.
fn push_shares(
    changes: &mut Vec<WeightChange>,
    had: Option<u64>,
    has: Option<u64>,
) -> Result<(), AllocError>
    ensures { OnOk result (changes.new.items ≡ changes.old.items ++ shares_told had has) }
{
    let Some(had) = had else {
        return Ok(());
    };
    let Some(has) = has else {
        return Ok(());
    };
    changes.push(WeightChange::Weight(has))?;
    changes.push(WeightChange::ChildWeight(had.saturating_sub(has)))?;
    Ok(())
}

/// Adds the weight of a task in its innermost scope, and the book of that scope.
fn push_issued(
    changes: &mut Vec<WeightChange>,
    world: &World<'_>,
    path: &Path,
) -> Result<(), AllocError>
    ensures { OnOk result ((w : AnyWorld) → Shows world.now w → changes.new.items ≡ changes.old.items
        ++ (weight_told (weight_of path.now.turns.items w)
        ++ book_told (innermost_of path.now.turns.items w) w)) }
{
    push_weight(changes, world.weight(path))?;
    push_book(changes, innermost(world, path), world)
}

/// Adds a task's weight.
fn push_weight(changes: &mut Vec<WeightChange>, weight: Option<u64>) -> Result<(), AllocError>
    ensures { OnOk result (changes.new.items ≡ changes.old.items ++ weight_told weight) }
{
    match weight {
        Some(own) => {
            changes.push(WeightChange::Weight(own))?;
            Ok(())
        }
        None => Ok(()),
    }
}

/// Adds the book of a scope.
fn push_book(
    changes: &mut Vec<WeightChange>,
    scope: Option<&ScopeId>,
    world: &World<'_>,
) -> Result<(), AllocError>
    ensures { OnOk result ((w : AnyWorld) → Shows world.now w → changes.new.items ≡ changes.old.items
        ++ book_told (option_map (λ id. scope_id id.now) scope.entry) w) }
{
    let Some(scope) = scope else {
        return Ok(());
    };
    match world.book(scope) {
        Some(book) => {
            changes.push(WeightChange::Book {
                issued: book.0,
                returned: book.1,
            })?;
            Ok(())
        }
        None => Ok(()),
    }
}

/// Returns the innermost scope of a live task.
pub fn innermost<'w>(world: &'w World<'_>, path: &Path) -> Option<&'w ScopeId>
    ensures { (w : AnyWorld) → Shows world.now w
        → option_map (λ id. scope_id id.now) result ≡ innermost_of path.now.turns.items w }
{
    match world.tasks.get(path)?.stakes.front() {
        Some(stake) => Some(&stake.scope),
        None => None,
    }
}
