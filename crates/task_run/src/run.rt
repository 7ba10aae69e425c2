//! A task between two turns, and the effect of its statements.

ghost use Rattle.std.specs.Prelude.{ℕ, ◌≡◌, ◌+◌, ◌-◌, ◌<◌, ◌++◌, [], ◌∷◌, IfOk, OnOk, Some, map};
ghost use Rattle.sections.specs.Place.{piece_of};
ghost use Rattle.sections.specs.Translation.{window as window_of};
ghost use Rattle.types.specs.Code.{Finish, Rescue};
ghost use Rattle.types.specs.Translation.{codes as codes_of, environment as environment_of};
ghost use Rattle.types.specs.Translation.{fault as fault_of};
ghost use Rattle.statement_steps.specs.Turns.{begun as begun_turns};
ghost use Rattle.task_run.specs.Frames.{handled};
ghost use Rattle.task_run.specs.Leading.{frames_of};
ghost use Rattle.task_run.specs.Reached.{begun};
ghost use Rattle.task_run.specs.Standings.{IsAt};
ghost use Rattle.task_run.specs.Translation.{contents_of, owned_by, start as start_of};

use crate::copy::faults as copied_faults;
use crate::frame::{Outer, TaskFrame};
use crate::memory::TaskMemory;
use crate::result::Listed;
use crate::rooms::Rooms;
use crate::start::Start;
use holdings::holdings::Holdings;
use sections::window::Window;
use statement_steps::flow::Flow;
use statement_steps::next::Next;
use statement_steps::thread::{Plan, Thread};
use statement_steps::turns::TurnsToCome;
use std::alloc::AllocError;
use types::child_number::ChildNumber;
use types::code::{Label, Stmt};
use types::fault::Fault;
use types::ids::Slot;
use types::value::Environment;

/// A task between two turns, with what it holds.
#[derive(Drop)]
pub struct Run<'p> {
    pub plan: Plan<'p>,
    pub thread: Thread<TaskMemory>,
    /// The work that is left, with the next frame last.
    pub frames: Vec<TaskFrame<'p>>,
    /// The tasks spawned in the innermost open finish.
    pub pending: Vec<Listed>,
}

/// The number of frames for which a run has room at its start. Few tasks have more, and their room
/// then grows.
const FIRST_FRAMES: usize = 12;

impl<'p> Run<'p> {
    ghost use Rattle.task_run.specs.RunTurns.{Acts, Turns, taken_off};

    /// Creates the run of a task at its start.
    pub fn begin(plan: Plan<'p>, start: Start<'p>) -> Result<Run<'p>, AllocError>
        ensures begun { IfOk result (λ r. IsAt r (begun plan.entry.budget.steps (start_of start.entry))) }
        ensures plan { IfOk result (λ r. r.plan ≡ plan.entry) }
        ensures nest { IfOk result (λ r. r.thread.nest ≡ start.entry.nest) }
    {
        let mut frames = Vec::with_capacity(plan.alloc, FIRST_FRAMES)?;
        frames.push(TaskFrame::Rest(start.body))?;
        let thread = Thread {
            flow: Flow::On,
            store: TaskMemory {
                holdings: start.holdings,
            },
            lines: Vec::new(plan.alloc),
            faults: Vec::new(plan.alloc),
            path: start.path,
            spawned: 0,
            environment: start.environment,
            steps: plan.budget.steps,
            nest: start.nest,
            spare: Vec::new(plan.alloc),
        };
        Ok(Run {
            plan,
            thread,
            frames,
            pending: Vec::new(plan.alloc),
        })
    }

    /// Makes a run that has ended the run of another task, at its start. Nothing of the old task is
    /// left but the room of its frames.
    pub fn begin_again(&mut self, plan: Plan<'p>, start: Start<'p>) -> Result<(), AllocError>
        ensures begun { OnOk result (IsAt self.new
            (begun plan.entry.budget.steps (start_of start.entry))) }
        ensures plan { OnOk result (self.new.plan ≡ plan.entry) }
        ensures nest { OnOk result (self.new.thread.nest ≡ start.entry.nest) }
    {
        self.frames.clear();
        self.frames.reserve(FIRST_FRAMES)?;
        self.frames.push(TaskFrame::Rest(start.body))?;
        self.pending.clear();
        self.thread.lines.clear();
        self.thread.faults.clear();
        self.plan = plan;
        self.thread.flow = Flow::On;
        self.thread.store.holdings = start.holdings;
        self.thread.path = start.path;
        self.thread.spawned = 0;
        self.thread.environment = start.environment;
        self.thread.steps = plan.budget.steps;
        self.thread.nest = start.nest;
        Ok(())
    }

    /// Takes the top frame off. This frame does nothing, or restores the caller's environment.
    pub(crate) fn take_off(&mut self, rooms: &mut Rooms<'p>) -> Result<(), AllocError>
        ensures { OnOk result (Turns taken_off self.old self.new) }
    {
        match self.frames.pop() {
            None => Ok(()),
            Some(frame) => match frame {
                TaskFrame::EndCall { environment } => {
                    let callee = std::mem::replace(&mut self.thread.environment, environment);
                    rooms.keep_environment(callee);
                    Ok(())
                }
                TaskFrame::Rest(_)
                | TaskFrame::Again { .. }
                | TaskFrame::Turns(_)
                | TaskFrame::OnFault { .. }
                | TaskFrame::EndFinish(_) => Ok(()),
            },
        }
    }

    /// Puts what comes next on top of the frames.
    #[inline(always)]
    pub(crate) fn take(&mut self, next: Next<'p>) -> Result<(), AllocError>
        ensures frames { OnOk result (self.new.frames.items
            ≡ self.old.frames.items ++ frames_of next.entry) }
        ensures rest { OnOk result (self.new ≡ record self.old { frames = self.new.frames }) }
    {
        match next {
            Next::Nothing => Ok(()),
            Next::Block(block) => self.push(TaskFrame::Rest(block)),
            Next::Iteration { label, guard, body } => {
                self.push(TaskFrame::Again { label, guard, body })?;
                self.push(TaskFrame::Rest(body))
            }
            Next::Turns(turns) => self.push(TaskFrame::Turns(turns)),
            Next::Body { body, caller } => {
                self.push(TaskFrame::EndCall {
                    environment: caller,
                })?;
                self.push(TaskFrame::Rest(body))
            }
        }
    }

    /// Puts a frame on top of the others.
    #[inline(always)]
    fn push(&mut self, frame: TaskFrame<'p>) -> Result<(), AllocError>
        ensures frames { OnOk result (self.new.frames.items ≡ self.old.frames.items ++ frame.entry ∷ []) }
        ensures rest { OnOk result (self.new ≡ record self.old { frames = self.new.frames }) }
    {
        self.frames.push(frame)?;
        Ok(())
    }

    /// Enters the block of a turn, whose step has been taken, with its piece. The later turns are
    /// after it.
    pub(crate) fn enter_turn(
        &mut self,
        turns: TurnsToCome<'p>,
        piece: Window,
    ) -> Result<(), AllocError>
        requires few { turns.next < 4194304 }
        requires piece { piece_of ((environment_of self.old.thread.environment).windows turns.section.number)
            turns.size turns.next ≡ Some (window_of piece) }
        ensures { OnOk result (Acts turns.entry.label (begun_turns turns.entry) self.old self.new) }
    {
        self.thread.begin_turn(turns, piece)?;
        self.frames.push(TaskFrame::Turns(turns.after_next()))?;
        self.frames.push(TaskFrame::Rest(turns.body))?;
        Ok(())
    }

    /// Returns the start of the next child, the body of the async with this label, with these
    /// holdings.
    pub(crate) fn start(
        &self,
        label: Label,
        body: &'p [Stmt],
        holdings: Holdings,
        rooms: &mut Rooms<'p>,
    ) -> Result<Start<'p>, AllocError>
        requires few { self.now.thread.spawned < 1000000000 }
        requires nest { 0 < self.now.thread.nest }
        ensures label { IfOk result (λ s. s.label ≡ label) }
        ensures body { IfOk result (λ s. codes_of s.body.now ≡ codes_of body.entry.now) }
        ensures start { IfOk result (λ s. start_of s ≡ record {
          body = codes_of body.entry.now;
          environment = environment_of self.now.thread.environment;
          contents = contents_of holdings;
          owned = owned_by holdings;
          nest = self.now.thread.nest - 1;
          path = self.now.thread.path.turns.items ++ (self.now.thread.spawned + 1) ∷ [];
        }) }
    {
        let environment = rooms.copied(&self.thread.environment)?;
        let number = ChildNumber::after(self.thread.spawned);
        let path = self.thread.path.child(number)?;
        Ok(Start {
            body,
            environment,
            holdings,
            nest: self.thread.nest - 1,
            path,
            label,
        })
    }

    /// Enters the body of a finish. A frame below it keeps the earlier lines, faults and
    /// listed tasks.
    pub(crate) fn enter(&mut self, body: &'p [Stmt]) -> Result<(), AllocError>
        ensures { OnOk result ((label : ℕ) → Acts label (Finish (codes_of body.entry.now))
            self.old self.new) }
    {
        let alloc = self.plan.alloc;
        let outer = Outer {
            lines: std::mem::replace(&mut self.thread.lines, Vec::new(alloc)),
            faults: std::mem::replace(&mut self.thread.faults, Vec::new(alloc)),
            pending: std::mem::replace(&mut self.pending, Vec::new(alloc)),
        };
        self.frames.push(TaskFrame::EndFinish(outer))?;
        self.frames.push(TaskFrame::Rest(body))?;
        Ok(())
    }

    /// Enters the body of a finish that has a handler. The handler is a frame behind its end.
    pub(crate) fn enter_rescue(
        &mut self,
        body: &'p [Stmt],
        faults: Slot,
        handler: &'p [Stmt],
    ) -> Result<(), AllocError>
        ensures { OnOk result ((label : ℕ) → Acts label (Rescue (codes_of body.entry.now)
            faults.number (codes_of handler.entry.now)) self.old self.new) }
    {
        let before = copied_faults(self.plan.alloc, &self.thread.faults)?;
        self.frames.push(TaskFrame::OnFault {
            before,
            faults,
            handler,
        })?;
        self.enter(body)
    }

    /// Continues after a finish that has a handler. If the task has faulted, its faults are `before`
    /// again, the scalar gets the number of the others, and the handler is next.
    pub(crate) fn handle(
        &mut self,
        before: Vec<Fault>,
        faults: Slot,
        handler: &'p [Stmt],
    ) -> Result<(), AllocError>
        ensures { OnOk result (Turns (λ fs st. handled st.flow (map fault_of before.items)
            faults.number (codes_of handler.entry.now) fs st) self.old self.new) }
    {
        match self.thread.flow {
            Flow::On | Flow::Stopped => Ok(()),
            Flow::Faulted => {
                self.thread.catch_faults(faults, before)?;
                self.frames.push(TaskFrame::Rest(handler))?;
                Ok(())
            }
        }
    }
}
