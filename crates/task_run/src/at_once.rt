//! Plain statements that are run at once, by their flat code.

ghost use Rattle.std.specs.Prelude.{◌≡◌, ◌+◌, ◌≤◌, IfSome, OnOk};
ghost use Rattle.types.specs.Translation.{program as program_of};
ghost use Rattle.serial_run.specs.Machines.{AreCodes};
ghost use Rattle.task_run.specs.Passed.{HasPiece, IsPassed};

use crate::frame::TaskFrame;
use crate::memory::TaskMemory;
use crate::run::Run;
use holdings::holdings::Holdings;
use plain_code::pieces::ProgramCode;
use serial_run::passing::{has_room_for, pass};
use statement_steps::flow::Flow;
use statement_steps::thread::Thread;
use std::alloc::{AllocError, Global};
use types::code::Stmt;
use types::path::Path;
use types::value::Environment;

impl<'p> Run<'p> {
    /// Returns the number of the next statement's code, and the rest of its block. Returns None if
    /// the statement has no code, or if the task doesn't continue.
    #[inline(always)]
    pub(crate) fn next_piece(&self, code: &ProgramCode<'p>) -> Option<(usize, &'p [Stmt])>
        ensures { IfSome result (λ t. HasPiece code.now self.now t.0 t.1) }
    {
        match self.thread.flow {
            Flow::On => {}
            Flow::Faulted | Flow::Stopped => return None,
        }
        let Some(top) = self.frames.last() else {
            return None;
        };
        let TaskFrame::Rest(block) = top else {
            return None;
        };
        let Some((stmt, rest)) = block.split_first() else {
            return None;
        };
        let Some(number) = code.piece(stmt.label) else {
            return None;
        };
        let Some(flat) = code.codes.get(number) else {
            return None;
        };
        if has_room_for(flat, &self.thread.environment) {
            Some((number, rest))
        } else {
            None
        }
    }

    /// Runs the next statement by its code. Afterwards `rest` is the rest of its block.
    pub(crate) fn do_at_once(
        &mut self,
        code: &ProgramCode<'p>,
        number: usize,
        rest: &'p [Stmt],
    ) -> Result<(), AllocError>
        requires few { self.old.thread.spawned + self.old.thread.steps ≤ self.old.plan.budget.steps }
        requires piece { HasPiece code.now self.old number rest }
        requires codes { AreCodes (program_of self.old.plan.program.now) code.now.codes.items }
        ensures { OnOk result (IsPassed code.now number rest.entry self.old self.new) }
    {
        let Some(top) = self.frames.last_mut() else {
            unreachable!()
        };
        *top = TaskFrame::Rest(rest);
        let thread = std::mem::replace(&mut self.thread, idle(self.plan.alloc));
        self.thread = pass(self.plan, &code.codes, number, thread)?;
        Ok(())
    }
}

/// Returns a thread that does nothing, as a replacement for one that is lent.
fn idle(alloc: Global) -> Thread<TaskMemory>
    ensures { result.steps ≡ 0 }
{
    Thread {
        flow: Flow::Stopped,
        store: TaskMemory {
            holdings: Holdings::none(alloc),
        },
        lines: Vec::new(alloc),
        faults: Vec::new(alloc),
        path: Path::root(alloc),
        spawned: 0,
        environment: Environment {
            scalars: Vec::new(alloc),
            windows: Vec::new(alloc),
        },
        steps: 0,
        nest: 0,
        spare: Vec::new(alloc),
    }
}
