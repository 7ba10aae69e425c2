//! Settling: results are put together by path.

ghost use Rattle.std.specs.Prelude.{◌≡◌, ◌<◌, [], IfErr, IfOk, IsTrue, OnOk, Some, false, map};
ghost use Rattle.std.specs.List.{list_any};
ghost use Rattle.sections.specs.Place.{Place};
ghost use Rattle.task_run.specs.Settling.{settle as settle_of};
ghost use Rattle.task_run.specs.Translation.{owned_by, settled as settled_of, task_result as result_of};
ghost use Rattle.gather.specs.GivesBack.{GiveBack, all_owned};
ghost use Rattle.types.specs.Translation.{is_path};
ghost use Rattle.gather.specs.PartRefusal.{TellsLeftOver};
ghost use Rattle.gather.specs.Parts.{IsWhole, comes_to};
ghost use Rattle.gather.specs.Reached.{GoesOn, IsOwnCase, used_by, used_with};
ghost use Rattle.gather.specs.Refusal.{IsCaseOf, Refuses};
ghost use Rattle.gather.specs.Stages.{AreClear, Ends, IsClear, IsFull, Leads, gathering as stage_of};
ghost use Rattle.gather.specs.Stages.{gathering_before as stage_before, gathering_with as stage_with};
ghost use Rattle.gather.specs.Stages.{turns_of};

use crate::error::GatherError;
use crate::filling::{Filling, WaitingResult};
use crate::unused::Unused;
use std::alloc::Global;
use task_run::result::{Listed, Settled, TaskResult};
use types::path::Path;

/// The progress of the gathering.
#[derive(Drop)]
pub struct Stage {
    pub results: Results,
    /// The results that wait for one of their holes. The last one waits for `filling`.
    pub waiting: Vec<WaitingResult>,
    pub filling: Filling,
}

/// The results that were passed to `settle`.
#[derive(Drop)]
pub struct Results {
    /// The results that aren't used yet.
    pub unused: Unused,
    /// The paths of the used results.
    pub used: Vec<Path>,
}

/// Puts the results of tasks into the holes of a result. Each goes into the hole with its path, at
/// any depth. No function recurses along this depth.
pub fn settle(
    alloc: Global,
    start: TaskResult,
    results: Vec<TaskResult>,
) -> Result<Settled, GatherError>
    ensures settled { IfOk result (λ s. Some (settled_of s)
        ≡ settle_of (result_of start) (map result_of results.items)) }
    ensures owned { IfOk result (λ s. GiveBack (result_of start) (map result_of results.items)
        → (q : Place) → owned_by s.holdings q ≡ all_owned (result_of start) q) }
    ensures refused { IfErr result
        (Refuses (settle_of (result_of start) (map result_of results.items))) }
    ensures own_case { IfErr result
        (IsCaseOf (result_of start) (map result_of results.items)) }
{
    let (filling, _) = Filling::of(alloc, start);
    let unused = Unused::of(alloc, results)?;
    let results = Results {
        unused,
        used: Vec::new(alloc),
    };
    let mut stage = Stage {
        results,
        waiting: Vec::new(alloc),
        filling,
    };
    'turns: while stage.turn(alloc)? {}
    stage.end()
}

impl Stage {
    /// Opens the result of the next hole. If no hole is left, it fills the hole of the result that
    /// waits. Returns false if no result waits either, and then nothing has changed.
    fn turn(&mut self, alloc: Global) -> Result<bool, GatherError>
        ensures leads { OnOk result (Leads (stage_of self.old) (stage_of self.new)) }
        ensures clear { OnOk result
            (IsWhole (stage_of self.old) → AreClear self.old → AreClear self.new) }
        ensures reached { OnOk result (GoesOn (used_by self.old.results) (stage_of self.old)
            (used_by self.new.results) (stage_of self.new)) }
        ensures fewer { IfOk result (λ more. IsTrue more → turns_of self.new < turns_of self.old) }
        ensures full { IfOk result (λ more. (more ≡ false) → IsFull self.new) }
        ensures refused { IfErr result (Refuses (comes_to (stage_of self.old))) }
        ensures own_case { IfErr result (IsOwnCase (used_by self.old.results) (stage_of self.old)) }
    {
        match self.filling.holes.pop_front() {
            Some(hole) => {
                self.open(alloc, hole)?;
                Ok(true)
            }
            None => self.go_on(),
        }
    }

    /// Opens the result of a hole, while the current part waits. A result without holes is filled in
    /// at once, so nothing waits for it.
    fn open(&mut self, alloc: Global, hole: Listed) -> Result<(), GatherError>
        ensures leads { OnOk result (Leads (stage_before self.old hole) (stage_of self.new)) }
        ensures clear { OnOk result (IsWhole (stage_before self.old hole)
            → AreClear self.old → AreClear self.new) }
        ensures reached { OnOk result (GoesOn (used_by self.old.results) (stage_before self.old hole)
            (used_by self.new.results) (stage_of self.new)) }
        ensures fewer { OnOk result (turns_of self.new < turns_of self.old) }
        ensures refused { IfErr result (Refuses (comes_to (stage_before self.old hole))) }
        ensures own_case { IfErr result
            (IsOwnCase (used_by self.old.results) (stage_before self.old hole)) }
    {
        match self.results.unused.take(&hole.path) {
            None => Err(GatherError::Lost(hole.path)),
            Some(task) => {
                let (opened, path) = Filling::of(alloc, task);
                if opened.holes.is_empty() {
                    return self.fill_at_once(hole, opened, path);
                }
                let filling = std::mem::replace(&mut self.filling, opened);
                self.waiting.push(WaitingResult { filling, hole })?;
                self.results.used.push(path)?;
                Ok(())
            }
        }
    }

    /// Fills a hole of the current part with an opened result that has no holes.
    fn fill_at_once(&mut self, hole: Listed, opened: Filling, path: Path) -> Result<(), GatherError>
        requires { opened.holes.items ≡ [] }
        ensures leads { OnOk result (Leads (stage_with self.old hole opened) (stage_of self.new)) }
        ensures clear { OnOk result (IsWhole (stage_with self.old hole opened)
            → AreClear self.old → IsClear opened → AreClear self.new) }
        ensures reached { OnOk result (GoesOn (used_with self.old.results path)
            (stage_with self.old hole opened) (used_by self.new.results) (stage_of self.new)) }
        ensures as_many { OnOk result (turns_of self.new ≡ turns_of self.old) }
        ensures refused { IfErr result (Refuses (comes_to (stage_with self.old hole opened))) }
        ensures own_case { IfErr result (IsOwnCase (used_with self.old.results path)
            (stage_with self.old hole opened)) }
    {
        self.results.used.push(path)?;
        let child = opened.close()?;
        self.filling.fill(hole, child)?;
        Ok(())
    }

    /// Fills the hole of the waiting result with the current part, whose own holes are all filled.
    /// Returns false if no result waits.
    fn go_on(&mut self) -> Result<bool, GatherError>
        requires { self.old.filling.holes.items ≡ [] }
        ensures leads { OnOk result (Leads (stage_of self.old) (stage_of self.new)) }
        ensures clear { OnOk result
            (IsWhole (stage_of self.old) → AreClear self.old → AreClear self.new) }
        ensures reached { OnOk result (GoesOn (used_by self.old.results) (stage_of self.old)
            (used_by self.new.results) (stage_of self.new)) }
        ensures fewer { IfOk result (λ more. IsTrue more → turns_of self.new < turns_of self.old) }
        ensures full { IfOk result (λ more. (more ≡ false) → IsFull self.new) }
        ensures refused { IfErr result (Refuses (comes_to (stage_of self.old))) }
        ensures own_case { IfErr result (IsOwnCase (used_by self.old.results) (stage_of self.old)) }
    {
        match self.waiting.pop() {
            None => Ok(false),
            Some(next) => {
                let WaitingResult { filling, hole } = next;
                let part = std::mem::replace(&mut self.filling, filling);
                let child = part.close()?;
                self.filling.fill(hole, child)?;
                Ok(true)
            }
        }
    }

    /// Ends the gathering, when no result waits any more. It fails if a result is left.
    fn end(self) -> Result<Settled, GatherError>
        requires { IsFull self }
        ensures ends { IfOk result (Ends self) }
        ensures refused { IfErr result (Refuses (comes_to (stage_of self))) }
        ensures own_case { IfErr result (IsOwnCase (used_by self.results) (stage_of self)) }
    {
        let Stage {
            results,
            filling,
            ..
        } = self;
        let Results { unused, used } = results;
        let settled = filling.close()?;
        match unused.into_first() {
            None => Ok(settled),
            Some(task) => Err(left_over(&used, task.path)),
        }
    }
}

/// Returns the error for a result that is left over, given the paths of the used results.
fn left_over(used: &[Path], path: Path) -> GatherError
    ensures { TellsLeftOver (list_any (λ p. is_path p path) used.now) path result }
{
    if has_path(used, &path) {
        GatherError::Double(path)
    } else {
        GatherError::Stranger(path)
    }
}

/// Returns whether a path is among these paths.
fn has_path(paths: &[Path], path: &Path) -> bool
    ensures { result ≡ list_any (λ p. is_path p path.now) paths.now }
{
    paths.iter().any(|other| *other == *path)
}
