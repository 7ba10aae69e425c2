//! The memory that a task reads and writes.

ghost use Rattle.std.specs.Prelude.{◌≡◌, ◌&&◌, ◌++◌, ◌∷◌, [], true, not, map, IfOk, IfSome, OnOk};
ghost use Rattle.sections.specs.Covers.{has};
ghost use Rattle.sections.specs.Translation.{section as section_of, window as window_of};
ghost use Rattle.types.specs.Contents.{read as read_of, IsThere};
ghost use Rattle.types.specs.Translation.{environment as environment_of};
ghost use Rattle.task_run.specs.Places.{Places as PlaceSet, only, without};
ghost use Rattle.task_run.specs.Translation.{contents_of, owned_by};

use holdings::error::HoldError;
use holdings::holdings::Holdings;
use sections::id::SectionId;
use sections::window::{Place, Window};
use serial_run::arrays::Arrays;
use serial_run::spot::Span;
use statement_steps::memory::Memory;
use std::alloc::{AllocError, Global};
use types::fault::FaultKind;
use types::value::{Environment, Places};

/// What a task holds, as the memory of its statements.
#[derive(Drop)]
pub struct TaskMemory {
    pub holdings: Holdings,
}

impl Places for TaskMemory {
    ghost numbers = { λ m. read_of (contents_of m.holdings) };

    #[inline(always)]
    fn read(&self, place: Place) -> i64 {
        self.holdings.number(place)
    }
}

impl Memory for TaskMemory {
    ghost use Rattle.std.specs.Prelude.{refl};

    ghost contents = { λ m. contents_of m.holdings };

    ghost Writable = { λ m q. owned_by m.holdings q ≡ true };

    ghost Shape = { PlaceSet };

    ghost shape = { λ m. owned_by m.holdings };

    fn write(&mut self, place: Place, value: i64) -> Result<(), AllocError> {
        if self.holdings.set(place, value) {
            return Ok(());
        }
        // The place is owned, so the only possible error is out of memory.
        match self.holdings.write(place.array, place.index, value) {
            Ok(()) => Ok(()),
            Err(_) => Err(AllocError),
        }
    }

    ghost reads = { λ s. refl };
}

/// A read is 0 where nothing is held. A write has no precondition: a write to a place that isn't
/// owned stores the number as a copy, and no accepted program does this. Therefore flat code needs
/// no facts about what a task holds.
impl Arrays for TaskMemory {
    ghost use Rattle.std.specs.Prelude.{⊤, refl};
    ghost use Rattle.task_run.specs.TaskKind.{task_kind};

    ghost kind = { task_kind };

    ghost Has = { λ m q. ⊤ };

    fn find(&self, windows: &[Window], spans: &mut Vec<Span>) -> Result<(), AllocError> {
        spans.clear();
        for window in windows {
            spans.push(self.span(*window))?;
        }
        Ok(())
    }

    #[inline(always)]
    fn get(
        &self,
        windows: &[Window],
        spans: &[Span],
        section: usize,
        index: i64,
    ) -> Result<i64, FaultKind> {
        let span = spans[section];
        if index < 0 || (index as usize) >= span.len {
            return self.get_apart(windows, section, index);
        }
        let at = span.at + index as usize;
        Ok(self.holdings.number_at(span.row, at))
    }

    #[inline(always)]
    fn set(
        &mut self,
        _windows: &[Window],
        spans: &[Span],
        section: usize,
        index: i64,
        value: i64,
    ) -> bool {
        let span = spans[section];
        if index < 0 || (index as usize) >= span.len {
            return false;
        }
        let at = span.at + index as usize;
        self.holdings.set_at(span.row, at, value)
    }

    #[inline(never)]
    fn put(&mut self, place: Place, value: i64) -> Result<(), AllocError> {
        self.holdings.put(place, value)
    }

    ghost reads = { λ s. refl };

    ghost has = { λ p s w v q fits lies is. tt };

    ghost fits_on = { λ p s t same fits. tt };

    ghost none_lies = { λ p. tt };

    ghost sides_lie = { λ p w v ws lies is. (tt, tt) };

    ghost piece_lies = { λ p w v n k lies is. tt };
}

impl TaskMemory {
    ghost use Rattle.std.specs.Prelude.{◌<◌, IfErr, Ok, length};
    ghost use Rattle.serial_run.specs.Runs.{windowed};
    ghost use Rattle.types.specs.Value.{element_of, then_try};
    ghost use Rattle.task_run.specs.Spans.{IsWhere};
    ghost use Rattle.holdings.specs.declared.error.HoldError.TheVariants.{OutOfMemory};

    /// Returns where the elements of a window are: side by side in the blocks of its array, or
    /// unknown, if the task has no blocks for some of them.
    fn span(&self, window: Window) -> Span
        ensures { IsWhere self.now.holdings (window_of window) result }
    {
        match self.holdings.distance(window) {
            None => Span {
                row: 0,
                at: 0,
                len: 0,
            },
            Some(at) => Span {
                row: window.array.number,
                at,
                len: window.len,
            },
        }
    }

    /// Does what `get` does, kept out of the fast path for windows whose elements are found.
    #[inline(never)]
    fn get_apart(&self, windows: &[Window], section: usize, index: i64) -> Result<i64, FaultKind>
        requires { section < length windows.now }
        ensures { result ≡ then_try (element_of (windowed windows.now section) index)
            (λ q. Ok (read_of (contents_of self.now.holdings) q)) }
    {
        match windows[section].place(index) {
            None => Err(FaultKind::Index),
            Some(place) => Ok(self.holdings.number(place)),
        }
    }

    /// Takes the places of `writes` out, and copies those of `reads`, for a child. Without `reads`,
    /// nothing is put together.
    pub fn part(
        &mut self,
        alloc: Global,
        writes: &[Window],
        reads: &[Window],
    ) -> Result<Holdings, HoldError>
        requires owned { (q : _) → has (map window_of writes.now) q ≡ true
            → owned_by self.old.holdings q ≡ true }
        requires there { (q : _) → has (map window_of reads.now) q ≡ true
            → IsThere (contents_of self.old.holdings q) }
        ensures contents { IfOk result (λ c. contents_of c
            ≡ only (has (map window_of (writes.now ++ reads.now)))
            (contents_of self.old.holdings)) }
        ensures owned { IfOk result (λ c. owned_by c ≡ has (map window_of writes.now)) }
        ensures left { OnOk result (contents_of self.new.holdings
            ≡ without (has (map window_of writes.now)) (contents_of self.old.holdings)) }
        ensures keeps { OnOk result (owned_by self.new.holdings
            ≡ (λ q. owned_by self.old.holdings q && not (has (map window_of writes.now) q))) }
        ensures refused { IfErr result (λ e. e ≡ OutOfMemory) }
    {
        if reads.is_empty() {
            return self.holdings.carve(alloc, writes);
        }
        let mut child = self.holdings.share(alloc, reads)?;
        let own = self.holdings.carve(alloc, writes)?;
        match child.paste(own) {
            Ok(()) => Ok(child),
            Err((error, _)) => Err(error),
        }
    }

    /// Takes the places of windows out, and copies those of sections, for a child. A single section
    /// needs no list of windows.
    pub fn part_for(
        &mut self,
        alloc: Global,
        environment: &Environment,
        writes: &[Window],
        reads: &[SectionId],
    ) -> Result<Holdings, HoldError>
        requires owned { (q : _) → has (map window_of writes.now) q ≡ true
            → owned_by self.old.holdings q ≡ true }
        requires there { (q : _) → has (map (environment_of environment.now).windows
            (map section_of reads.now)) q ≡ true → IsThere (contents_of self.old.holdings q) }
        ensures contents { IfOk result (λ c. contents_of c ≡ only (has (map window_of writes.now
            ++ map (environment_of environment.now).windows (map section_of reads.now)))
            (contents_of self.old.holdings)) }
        ensures owned { IfOk result (λ c. owned_by c ≡ has (map window_of writes.now)) }
        ensures left { OnOk result (contents_of self.new.holdings
            ≡ without (has (map window_of writes.now)) (contents_of self.old.holdings)) }
        ensures keeps { OnOk result (owned_by self.new.holdings
            ≡ (λ q. owned_by self.old.holdings q && not (has (map window_of writes.now) q))) }
        ensures refused { IfErr result (λ e. e ≡ OutOfMemory) }
    {
        match only_one(reads) {
            Some(section) => self.part(alloc, writes, &[environment.window(section)]),
            None => {
                let reads = environment.windows_of(alloc, reads)?;
                self.part(alloc, writes, &reads)
            }
        }
    }
}

/// Returns the section if there is exactly one.
fn only_one(sections: &[SectionId]) -> Option<SectionId>
    ensures { IfSome result (λ s. sections.now ≡ s ∷ []) }
{
    match sections {
        [section] => Some(*section),
        _ => None,
    }
}
