//! Results with holes, which are filled in order.

ghost use Rattle.std.specs.Prelude.{◌≡◌, ◌++◌, IfErr, IfOk, OnOk, false, map};
ghost use Rattle.sections.specs.Covers.{has};
ghost use Rattle.sections.specs.Place.{Place};
ghost use Rattle.sections.specs.Translation.{window as window_of};
ghost use Rattle.types.specs.Translation.{fault as fault_of};
ghost use Rattle.holdings.specs.Held.{AreApart, as_owned, over, owned};
ghost use Rattle.holdings.specs.Holdings.{held};
ghost use Rattle.task_run.specs.Places.{meets};
ghost use Rattle.task_run.specs.Translation.{contents_of, owned_by, settled as settled_of};
ghost use Rattle.task_run.specs.Translation.{task_result as result_of};
ghost use Rattle.gather.specs.Parts.{closed, comes_back_twice, filled, given_back, opened};
ghost use Rattle.gather.specs.Stages.{IsClear, part as part_of, waiting_for};
ghost use Rattle.gather.specs.PartRefusal.{RefusesBack, RefusesHole, RefusesPaste};

use crate::error::GatherError;
use holdings::error::HoldError;
use holdings::holdings::Holdings;
use sections::window::Window;
use std::alloc::{AllocError, Global};
use std::collections::VecDeque;
use task_run::result::{Listed, Settled, TaskResult};
use types::fault::Fault;
use types::path::Path;

/// A result with some of its holes filled.
#[derive(Drop)]
pub struct Filling {
    /// What has come back so far, together with what the task itself has.
    pub so_far: Settled,
    /// Windows that came back from tasks that didn't own exactly these windows. Their places count
    /// as owned, independent of the holdings. Tasks of a program leave none.
    pub strays: Vec<Window>,
    /// The holes that aren't filled yet.
    pub holes: VecDeque<Listed>,

    // Its lines and faults after its last hole.
    pub lines: Vec<Vec<i64>>,
    pub faults: Vec<Fault>,
}

/// A result that waits for the result of one of its holes.
#[derive(Drop)]
pub struct WaitingResult {
    pub filling: Filling,
    pub hole: Listed,
}

impl Filling {
    /// Returns a result with none of its holes filled, and its path.
    pub fn of(alloc: Global, task: TaskResult) -> (Filling, Path)
        ensures opened { part_of result.0 ≡ opened (result_of task) }
        ensures clear { IsClear result.0 }
        ensures path { result.1 ≡ task.path }
    {
        let so_far = Settled {
            stopped: task.stopped,
            holdings: task.holdings,
            lines: Vec::new(alloc),
            faults: Vec::new(alloc),
        };
        let strays = Vec::new(alloc);
        let filling = Filling {
            so_far,
            strays,
            holes: VecDeque::from(task.children),
            lines: task.lines,
            faults: task.faults,
        };
        (filling, task.path)
    }

    /// Returns what has come back, followed by the lines and faults after the last hole.
    pub fn close(self) -> Result<Settled, AllocError>
        ensures closed { IfOk result (λ s.
            settled_of s ≡ closed (part_of self) (part_of self).so_far) }
        ensures holdings { IfOk result (λ s. s.holdings ≡ self.so_far.holdings) }
    {
        let mut settled = self.so_far;
        tell(&mut settled, self.lines, self.faults)?;
        Ok(settled)
    }

    /// Fills a hole with the settled result of its task.
    pub fn fill(&mut self, hole: Listed, child: Settled) -> Result<(), GatherError>
        ensures filled { OnOk result
            (part_of self.new ≡ filled (waiting_for self.old hole) (settled_of child)) }
        ensures apart { OnOk result (comes_back_twice (waiting_for self.old hole) ≡ false) }
        ensures clear { OnOk result (IsClear self.old → ((q : Place)
            → owned_by child.holdings q ≡ has (waiting_for self.old hole).hole.windows q)
            → IsClear self.new) }
        ensures refused { IfErr result (RefusesHole (waiting_for self.old hole)) }
    {
        self.take_back(hole.path, hole.windows, child.holdings)?;
        self.so_far.stopped |= child.stopped;
        tell(&mut self.so_far, hole.lines, hole.faults)?;
        tell(&mut self.so_far, child.lines, child.faults)?;
        Ok(())
    }

    /// Takes the places of windows back from a task, with the numbers that it has there. If the
    /// task owns exactly these places, whole blocks move without a look at their numbers.
    fn take_back(
        &mut self,
        path: Path,
        windows: Vec<Window>,
        child: Holdings,
    ) -> Result<(), GatherError>
        ensures taken { OnOk result (part_of self.new
            ≡ given_back (part_of self.old) (map window_of windows.items) (contents_of child)) }
        ensures apart { OnOk result
            (meets (part_of self.old).owned (map window_of windows.items) ≡ false) }
        ensures clear { OnOk result (IsClear self.old → ((q : Place)
            → owned_by child q ≡ has (map window_of windows.items) q) → IsClear self.new) }
        ensures refused { IfErr result (RefusesBack path
            (meets (part_of self.old).owned (map window_of windows.items))) }
    {
        if self.strays.is_empty() && child.owns_just(&windows) {
            return paste(&mut self.so_far.holdings, child, path);
        }
        self.take_strays(path, windows, &child)
    }
}

/// Takes in the owned places that come back from a task.
fn paste(holdings: &mut Holdings, child: Holdings, path: Path) -> Result<(), GatherError>
    ensures pasted { OnOk result (held holdings.new
        ≡ over (as_owned (owned (held child))) (held holdings.old)) }
    ensures apart { OnOk result (AreApart (owned (held child)) (owned (held holdings.old))) }
    ensures refused { IfErr result (RefusesPaste path
        (AreApart (owned (held child)) (owned (held holdings.old)))) }
{
    match holdings.paste(child) {
        Ok(()) => Ok(()),
        Err((error, _)) => match error {
            HoldError::OwnedTwice => Err(GatherError::Double(path)),
            HoldError::NotHeld | HoldError::OutOfMemory => Err(GatherError::OutOfMemory),
        },
    }
}

/// Appends lines and faults.
fn tell(settled: &mut Settled, lines: Vec<Vec<i64>>, faults: Vec<Fault>) -> Result<(), AllocError>
    ensures told { OnOk result (settled_of settled.new ≡ record (settled_of settled.old) {
      lines = (settled_of settled.old).lines ++ map (λ v. v.items) lines.items;
      faults = (settled_of settled.old).faults ++ map fault_of faults.items;
    }) }
    ensures holdings { settled.new.holdings ≡ settled.old.holdings }
{
    let mut lines = lines;
    let mut faults = faults;
    settled.lines.append(&mut lines)?;
    settled.faults.append(&mut faults)
}
