//! Events by letters, and the layout of a trace.

ghost use Rattle.std.specs.Prelude.{◌≡◌, IfOk, map};
ghost use Rattle.std.specs.String.{string_bytes};
ghost use Rattle.serde_json.specs.View.{view};
ghost use Rattle.events.specs.Events.{event as event_of};
ghost use Rattle.trace_layout.specs.Rows.{rows_of as rows_in};
ghost use Rattle.trace_page.specs.Events.{kind_letter, kinds_text};
ghost use Rattle.trace_page.specs.Layouts.{AreFinishRows, ending_letter, mark, marks};
ghost use Rattle.trace_page.specs.Pieces.{list_by, natural};

use crate::told::{Told, list};
use events::event::Event;
use serde_json::{Value, json};
use std::alloc::{AllocError, Global};
use trace_layout::finishes::Finish;
use trace_layout::moves::Steal;
use trace_layout::rows::rows_of;
use trace_layout::spells::{Spell, SpellEnd};
use trace_layout::stretch::Stretch;

/// Returns a letter for each event.
pub fn kinds(alloc: Global, events: &[Event]) -> Result<String, AllocError>
    ensures { IfOk result (λ text. string_bytes text ≡ kinds_text (map event_of events.now)) }
{
    let mut text = String::new(alloc);
    for event in events {
        text.push_str(letter_of(event))?;
    }
    Ok(text)
}

/// Returns the letter of an event.
fn letter_of(event: &Event) -> &'static str
    ensures { result.now ≡ kind_letter (event_of event.now) }
{
    match event {
        Event::Take { .. } => "t",
        Event::Steal { .. } => "l",
        Event::Step { .. } => "s",
        Event::Replenish { .. } => "r",
        Event::Spawn { .. } => "w",
        Event::Open { .. } => "o",
        Event::Park { .. } => "p",
        Event::End { .. } => "e",
        Event::Pass { .. } => "d",
        Event::Resume { .. } => "b",
    }
}

/// Returns `1` for each event on the longest chain, and `0` for each other one.
pub fn chain(alloc: Global, on_it: &[bool]) -> Result<String, AllocError>
    ensures { IfOk result (λ text. string_bytes text ≡ marks on_it.now) }
{
    let mut text = String::new(alloc);
    for is_on in on_it {
        text.push_str(mark_of(*is_on))?;
    }
    Ok(text)
}

/// Returns the mark of an event.
fn mark_of(is_on: bool) -> &'static str
    ensures { result.now ≡ mark is_on }
{
    if is_on { "1" } else { "0" }
}

impl Told for Spell {
    ghost use Rattle.trace_page.specs.Layouts.{spell_json};

    ghost json = { spell_json };

    fn value(&self, alloc: Global) -> Result<Value, AllocError> {
        let worker = self.worker.number();
        json!(in alloc; [self.first, self.last, worker, letter_of_end(self.ending)])
    }
}

/// Returns the letter of the end of a spell.
fn letter_of_end(ending: SpellEnd) -> &'static str
    ensures { result.now ≡ ending_letter ending }
{
    match ending {
        SpellEnd::Parked => "p",
        SpellEnd::Ended => "e",
        SpellEnd::Left => "l",
        SpellEnd::Going => "g",
    }
}

impl Told for Steal {
    ghost use Rattle.trace_page.specs.Layouts.{steal_json};

    ghost json = { steal_json };

    fn value(&self, alloc: Global) -> Result<Value, AllocError> {
        json!(in alloc; [self.at, self.worker.number(), self.from.number()])
    }
}

impl Told for Finish {
    ghost use Rattle.trace_page.specs.Layouts.{finish_json};

    ghost json = { finish_json };

    fn value(&self, alloc: Global) -> Result<Value, AllocError> {
        json!(in alloc; [self.first, self.last, self.is_passed, self.parked, self.name.number])
    }
}

/// Returns the row of each finish.
pub fn finish_rows_value(alloc: Global, all: &[Finish]) -> Result<Value, AllocError>
    ensures { IfOk result (λ v. AreFinishRows all.now (view v)) }
{
    let mut stretches = Vec::new(alloc);
    for finish in all {
        stretches.push(Stretch::new(finish.first, finish.last))?;
    }
    rows_value(alloc, &stretches)
}

/// Returns the row of each stretch.
pub fn rows_value(alloc: Global, stretches: &[Stretch]) -> Result<Value, AllocError>
    ensures { IfOk result (λ v. view v ≡ list_by natural (rows_in stretches.now)) }
{
    match rows_of(alloc, stretches, usize::MAX)? {
        Some(rows) => list(alloc, &rows),
        // There is at most one row for each stretch.
        None => Err(AllocError),
    }
}
