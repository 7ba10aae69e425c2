//! Tasks by numbers: the root is 0, and the k-th task that is spawned is k, from 1.

ghost use Rattle.std.specs.Prelude.{◌≡◌, IfOk, OnOk, Some, cond, map, max, option_map, unwrap_or};
ghost use Rattle.std.specs.HashMap.{get};
ghost use Rattle.serde_json.specs.View.{view};
ghost use Rattle.types.specs.Translation.{is_path};
ghost use Rattle.types.specs.declared.path.Path.{Path as AnyPath};
ghost use Rattle.events.specs.Events.{event as event_of};
ghost use Rattle.trace_page.specs.Births.{birth as birth_of};
ghost use Rattle.trace_page.specs.Tasks.{AreTaskRows, end_in, ended, is_path_of, number_of};
ghost use Rattle.trace_page.specs.Tasks.{task_of, tasks_json};

use crate::births::Birth;
use crate::layouts::rows_value;
use events::event::Event;
use serde_json::Value;
use std::alloc::{AllocError, Global};
use std::collections::HashMap;
use trace_layout::stretch::Stretch;
use types::path::Path;

/// The numbers of the tasks that were spawned.
#[derive(Drop)]
pub struct TaskNumbers {
    by_path: HashMap<Path, usize>,
}

impl TaskNumbers {
    /// Returns the numbers of tasks with these births.
    pub fn of(alloc: Global, births: &[Birth]) -> Result<TaskNumbers, AllocError>
        ensures { IfOk result (λ t. (path : AnyPath) → unwrap_or (get is_path t.by_path path) 0
            ≡ number_of (map birth_of births.now) path.turns.items) }
    {
        let mut by_path = HashMap::new(alloc);
        for (index, birth) in births.iter().enumerate() {
            let child = birth.child.copied(alloc)?;
            by_path.insert(child, index + 1)?;
        }
        Ok(TaskNumbers { by_path })
    }

    /// Returns the number of a task.
    pub fn number(&self, path: &Path) -> usize
        ensures { result ≡ unwrap_or (get is_path self.now.by_path path.now) 0 }
    {
        match self.by_path.get(path) {
            Some(number) => *number,
            None => 0,
        }
    }
}

/// The events that end tasks.
#[derive(Drop)]
pub struct TaskEnds {
    by_path: HashMap<Path, usize>,
    /// The list's last event.
    last: usize,
}

impl TaskEnds {
    /// Returns the events that end tasks.
    pub fn of(alloc: Global, events: &[Event]) -> Result<TaskEnds, AllocError>
        ensures { IfOk result (λ t. (path : AnyPath) → unwrap_or (get is_path t.by_path path) t.last
            ≡ end_in events.now path.turns.items) }
    {
        let mut by_path = HashMap::new(alloc);
        for (at, event) in events.iter().enumerate() {
            put_end(&mut by_path, alloc, at, event)?;
        }
        let last = events.len().saturating_sub(1);
        Ok(TaskEnds { by_path, last })
    }

    /// Returns the event that ends a task, or the last event.
    pub fn end(&self, path: &Path) -> usize
        ensures { result ≡ unwrap_or (get is_path self.now.by_path path.now) self.now.last }
    {
        match self.by_path.get(path) {
            Some(at) => *at,
            None => self.last,
        }
    }

    /// Returns the stretch of a task that is spawned at an event.
    fn stretch(&self, at: usize, path: &Path) -> Stretch
        ensures first { result.first ≡ at }
        ensures last { result.last
            ≡ max at (unwrap_or (get is_path self.now.by_path path.now) self.now.last) }
    {
        Stretch::new(at, self.end(path))
    }
}

/// Records an event, if it ends a task.
fn put_end(
    by_path: &mut HashMap<Path, usize>,
    alloc: Global,
    at: usize,
    event: &Event,
) -> Result<(), AllocError>
    ensures { OnOk result ((path : AnyPath) → get is_path by_path.new path
        ≡ cond (is_path_of path.turns.items (ended (event_of event.now))) (Some at)
        (get is_path by_path.old path)) }
{
    match ended_by(event) {
        Some(path) => {
            let path = path.copied(alloc)?;
            by_path.insert(path, at)?;
            Ok(())
        }
        None => Ok(()),
    }
}

/// Returns the task that an event ends.
fn ended_by(event: &Event) -> Option<&Path>
    ensures { option_map (λ path. path.now.turns.items) result ≡ ended (event_of event.now) }
{
    match event {
        Event::End { path } => Some(path),
        Event::Pass { scope } => {
            if scope.number == 0 {
                Some(&scope.owner)
            } else {
                None
            }
        }
        _ => None,
    }
}

/// Returns the number of the task of each event, and of the owner of each scope that passes.
pub fn tasks_value(alloc: Global, births: &[Birth], events: &[Event]) -> Result<Value, AllocError>
    ensures { IfOk result (λ v. view v ≡ tasks_json (map birth_of births.now) events.now) }
{
    let numbers = TaskNumbers::of(alloc, births)?;
    let mut list = Vec::with_capacity(alloc, events.len())?;
    for event in events {
        let number = numbers.number(path_of(event));
        list.push(Value::from(number))?;
    }
    Ok(Value::Array(list))
}

/// Returns the row of each task: the first that is free from its spawn to its end.
pub fn task_rows_value(
    alloc: Global,
    births: &[Birth],
    events: &[Event],
) -> Result<Value, AllocError>
    ensures { IfOk result (λ v. AreTaskRows (map birth_of births.now) events.now (view v)) }
{
    let ends = TaskEnds::of(alloc, events)?;
    let root = Path::root(alloc);
    let mut stretches = Vec::new(alloc);
    stretches.push(ends.stretch(0, &root))?;
    for birth in births {
        stretches.push(ends.stretch(birth.at, &birth.child))?;
    }
    rows_value(alloc, &stretches)
}

/// Returns the task of an event, or the owner of the scope that passes.
pub fn path_of(event: &Event) -> &Path
    ensures { result.now.turns.items ≡ task_of (event_of event.now) }
{
    match event {
        Event::Take { path, .. } => path,
        Event::Steal { path, .. } => path,
        Event::Step { path } => path,
        Event::Replenish { path } => path,
        Event::Spawn { path } => path,
        Event::Open { path } => path,
        Event::Park { path } => path,
        Event::End { path } => path,
        Event::Pass { scope } => &scope.owner,
        Event::Resume { path, .. } => path,
    }
}
