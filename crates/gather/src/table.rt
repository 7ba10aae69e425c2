//! A table of results. Each is found by a look-up of its path.

ghost use Rattle.std.specs.Prelude.{◌≡◌, ◌∷◌, IsSome, None, OnOk, Some, reverse};
ghost use Rattle.std.specs.Prelude.{if◌then◌else◌, slice_index_or, slice_set};
ghost use Rattle.std.proofs.Props.{props};
ghost use Rattle.types.specs.Translation.{is_path};
ghost use Rattle.gather.specs.Unused.{AreChained, FindsFirsts, left_in, said_of};

use indexmap::IndexMap;
use std::alloc::{AllocError, Global};
use task_run::result::TaskResult;
use types::path::Path;

/// A result, and the position of the next result with the same path.
#[derive(Drop)]
pub struct ResultEntry {
    pub task: TaskResult,
    pub next: Option<usize>,
}

/// Results that aren't used yet, in order. The first one with a path is found by one look-up.
#[derive(Drop)]
pub struct Table {
    /// The results in reverse order, so the table is filled from the back. None if the result was
    /// used.
    places: Vec<Option<ResultEntry>>,
    /// The position of the first remaining result with each path.
    first: IndexMap<Path, Option<usize>>,
    ghost chained: { AreChained (reverse places.items) } by { Prim.hlevel props },
    ghost finds: { FindsFirsts first (reverse places.items) } by { Prim.hlevel props },
}

impl Table {
    ghost use Rattle.std.specs.Prelude.{◌+◌, [], IfNone, IfOk, IfSome, List, MatchOption, length, map};
    ghost use Rattle.gather.specs.Left.{left_of};
    ghost use Rattle.task_run.specs.Settling.{take as take_of};
    ghost use Rattle.task_run.specs.Translation.{task_result as result_of};

    /// Creates a table of these results.
    pub fn of(alloc: Global, results: Vec<TaskResult>) -> Result<Table, AllocError>
        ensures { IfOk result (λ table. left_of table ≡ results.items) }
    {
        let mut results = results;
        let mut places = Vec::with_capacity(alloc, results.len())?;
        let mut first = IndexMap::with_capacity(alloc, results.len())?;
        while let Some(task) = results.pop() {
            put_first(&mut places, &mut first, task)?;
        }
        Ok(Table { places, first })
    }

    /// Takes out the first result with a path.
    pub fn take(&mut self, path: &Path) -> Option<TaskResult>
        ensures found { IfSome result (λ task.
            take_of path.now.turns.items (map result_of (left_of self.old))
            ≡ Some (result_of task, map result_of (left_of self.new))) }
        ensures none { IfNone result
            (take_of path.now.turns.items (map result_of (left_of self.old)) ≡ None) }
        ensures fewer { IfSome result (λ _.
            length (left_of self.new) + 1 ≡ length (left_of self.old)) }
    {
        let place = first_place(&self.first, path)?;
        let entry = take_from(&mut self.places, place);
        set_first_place(&mut self.first, path, entry.next);
        Some(entry.task)
    }

    /// Returns the first of all remaining results.
    pub fn into_first(self) -> Option<TaskResult>
        ensures { MatchOption result (left_of self ≡ [])
            (λ task. (rest : List TaskResult) × (left_of self ≡ task ∷ rest)) }
    {
        let Table { places, .. } = self;
        let mut places = places;
        while let Some(place) = places.pop() {
            if let Some(entry) = place {
                return Some(entry.task);
            }
        }
        None
    }
}

/// Puts a result in front of the others.
fn put_first(
    places: &mut Vec<Option<ResultEntry>>,
    first: &mut IndexMap<Path, Option<usize>>,
    task: TaskResult,
) -> Result<(), AllocError>
    requires chained { AreChained (reverse places.old.items) }
    requires finds { FindsFirsts first.old (reverse places.old.items) }
    ensures left { OnOk result (left_in (reverse places.new.items)
        ≡ task ∷ left_in (reverse places.old.items)) }
    ensures chained { OnOk result (AreChained (reverse places.new.items)) }
    ensures finds { OnOk result (FindsFirsts first.new (reverse places.new.items)) }
{
    let path = task.path.clone()?;
    let next = first.insert(path, Some(places.len()))?.flatten();
    places.push(Some(ResultEntry { task, next }))?;
    Ok(())
}

/// Returns the position of the first result with a path, according to the table.
fn first_place(first: &IndexMap<Path, Option<usize>>, path: &Path) -> Option<usize>
    ensures { result ≡ said_of first.now path.now }
{
    first.get(path).copied().flatten()
}

/// Sets the position of the first result with a path. The table has to contain the path.
fn set_first_place(first: &mut IndexMap<Path, Option<usize>>, path: &Path, next: Option<usize>)
    requires { IsSome (said_of first.old path.now) }
    ensures { (other : Path) → said_of first.new other
        ≡ (if is_path path.now other then next else said_of first.old other) }
{
    if let Some(place) = first.get_mut(path) {
        *place = next;
    }
}

/// Takes the result out of a position.
fn take_from(places: &mut Vec<Option<ResultEntry>>, place: usize) -> ResultEntry
    requires { IsSome (slice_index_or places.old.items place None) }
    ensures found { slice_index_or places.old.items place None ≡ Some result }
    ensures taken { places.new.items ≡ slice_set places.old.items place None }
{
    places[place].take().unwrap()
}
