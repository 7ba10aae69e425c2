//! The turns of a run.

ghost use Rattle.std.specs.Prelude.{◌≡◌, ◌+◌, ◌<◌, ◌≤◌, IfOk, IfErr, List, Some, if◌then◌else◌, map};
ghost use Rattle.sections.specs.Place.{piece_of};
ghost use Rattle.sections.specs.Translation.{window as window_of};
ghost use Rattle.types.specs.Code.{Async, Codes, While};
ghost use Rattle.types.specs.Meaning.{after_finish};
ghost use Rattle.types.specs.Run.{State, On, Stopped};
ghost use Rattle.types.specs.Translation.{program as program_of, truth as truth_of, code as code_of};
ghost use Rattle.types.specs.Translation.{codes as codes_of, environment as environment_of};
ghost use Rattle.types.specs.Translation.{fault as fault_of};
ghost use Rattle.effects.specs.Needs.{Needs};
ghost use Rattle.holdings.specs.declared.error.HoldError.TheVariants.{OutOfMemory};
ghost use Rattle.plain_code.specs.Pieces.{IsCodeOfProgram};
ghost use Rattle.statement_steps.specs.Standing.{flow as flow_of};
ghost use Rattle.statement_steps.specs.declared.flow.Flow.TheVariants.{On as FlowOn};
ghost use Rattle.task_run.specs.Apart.{is_stopped as stops_all};
ghost use Rattle.task_run.specs.Frames.{Frame as Left, handed};
ghost use Rattle.task_run.specs.OwnRun.{Own, result_of};
ghost use Rattle.task_run.specs.RunTurns.{ComesBack, DoneSpawns, SpawnsNone, StepSpawns, Waits, WaitsAs};
ghost use Rattle.task_run.specs.RunTurns.{turn_of};
ghost use Rattle.task_run.specs.Standings.{IsAt, IsEnd, Shows, further, state_of, with_own};
ghost use Rattle.task_run.specs.Translation.{settled as settled_of, task_result};
ghost use Rattle.task_run.specs.declared.turn.Turn.TheVariants.{EndsFinish};

use crate::frame::{Outer, TaskFrame};
use crate::memory::TaskMemory;
use crate::needed::Needed;
use crate::result::{Listed, Settled, TaskResult};
use crate::rooms::{Rooms, no_environment};
use crate::run::Run;
use crate::turn::{Done, Paused, Step, Turn};
use holdings::error::HoldError;
use holdings::holdings::Holdings;
use plain_code::pieces::ProgramCode;
use sections::window::Window;
use statement_steps::control::Called;
use statement_steps::flow::Flow;
use statement_steps::thread::Thread;
use statement_steps::turns::TurnsToCome;
use std::alloc::AllocError;
use types::child_number::ChildNumber;
use types::code::{Label, Stmt, StmtKind, Truth};
use types::fault::Fault;
use types::path::Path;

/// The largest room for frames that an ended run keeps.
const MOST_FRAMES: usize = 192;

impl<'p> Run<'p> {
    ghost use Rattle.task_run.specs.RunTurns.{CanAct, CanTurn, DidAct, DidNext, DidTurn, GoesOn, HasRoom};
    ghost use Rattle.task_run.specs.RunTurns.{IsAtEnd, IsEnding, IsStep, IsTurn, NextIsOf};
    ghost use Rattle.task_run.specs.RunTurns.{StepsUpTo, below_top};
    ghost use Rattle.task_run.specs.declared.run.Run.{Run as AnyRun};

    /// Runs on in place up to the first visible turn, and takes this turn. A turn is visible if it
    /// does more than a step and more than going over the budget. Plain statements with flat code
    /// are run at once. At the end of a finish, or at its own end, the run stays in the
    /// configuration that it has reached.
    pub fn go<N: Needed>(
        &mut self,
        needed: &N,
        code: &ProgramCode<'p>,
        rooms: &mut Rooms<'p>,
    ) -> Result<Step<'p>, HoldError>
        requires code { IsCodeOfProgram (program_of self.old.plan.program.now) code.now }
        requires can { (r : AnyRun) → GoesOn (N.needs needed.now) self.old r
            → CanTurn (N.needs needed.now) (N.IsAsync needed.now) r }
        requires next { (r : AnyRun) → GoesOn (N.needs needed.now) self.old r
            → NextIsOf (program_of self.old.plan.program.now) r }
        ensures step { IfOk result (λ s. StepsUpTo (N.needs needed.entry.now) self.old s self.new) }
        ensures label { IfOk result (StepSpawns (N.IsAsync needed.entry.now)) }
        ensures refused { IfErr result (λ e. e ≡ OutOfMemory) }
    {
        'turns: loop {
            match self.next_piece(code) {
                Some((number, rest)) => self.do_at_once(code, number, rest)?,
                None => match self.step(needed, rooms)? {
                    Step::Did(done) => match done {
                        Done::Gone => {}
                        Done::Exceeded => {}
                        done => return Ok(Step::Did(done)),
                    },
                    Step::AtEnd => return Ok(Step::AtEnd),
                },
            }
        }
    }

    /// Takes one turn of the top frame. The only error is out of memory.
    pub fn advance<N: Needed>(self, needed: &N) -> Result<Turn<'p>, HoldError>
        requires { CanTurn (N.needs needed.now) (N.IsAsync needed.now) self }
        ensures turn { IfOk result (IsTurn (N.needs needed.entry.now) self.entry) }
        ensures refused { IfErr result (λ e. e ≡ OutOfMemory) }
    {
        let mut run = self;
        let mut rooms = Rooms::new(run.plan.alloc);
        match run.step(needed, &mut rooms)? {
            Step::Did(done) => Ok(turned(run, done)),
            Step::AtEnd => Ok(run.end(&mut rooms)?),
        }
    }

    /// Takes one turn in place. At the end of a finish, or at its own end, the run is unchanged.
    pub fn step<N: Needed>(
        &mut self,
        needed: &N,
        rooms: &mut Rooms<'p>,
    ) -> Result<Step<'p>, HoldError>
        requires { CanTurn (N.needs needed.now) (N.IsAsync needed.now) self.old }
        ensures step { IfOk result (λ s. IsStep (N.needs needed.entry.now) self.old s self.new) }
        ensures label { IfOk result (StepSpawns (N.IsAsync needed.entry.now)) }
        ensures refused { IfErr result (λ e. e ≡ OutOfMemory) }
    {
        match self.frames.last_mut() {
            None => Ok(Step::AtEnd),
            Some(top) => match top {
                TaskFrame::Rest(block) => match block.split_first() {
                    None => {
                        self.take_off(rooms)?;
                        Ok(Step::Did(Done::Gone))
                    }
                    Some((stmt, rest)) => {
                        *block = rest;
                        let done = self.first(needed, stmt, rooms)?;
                        Ok(Step::Did(done))
                    }
                },
                TaskFrame::Again { label, guard, body } => {
                    let (label, guard, body) = (*label, *guard, *body);
                    self.frames.pop();
                    let done = self.again(label, guard, body)?;
                    Ok(Step::Did(done))
                }
                TaskFrame::Turns(turns) => {
                    let turns = *turns;
                    self.frames.pop();
                    let done = self.next_turn(turns)?;
                    Ok(Step::Did(done))
                }
                TaskFrame::EndFinish(_) => Ok(Step::AtEnd),
                TaskFrame::OnFault {
                    before,
                    faults,
                    handler,
                } => {
                    let before = std::mem::replace(before, Vec::new(self.plan.alloc));
                    let (faults, handler) = (*faults, *handler);
                    self.frames.pop();
                    self.handle(before, faults, handler)?;
                    Ok(Step::Did(Done::Gone))
                }
                TaskFrame::EndCall { .. } => {
                    self.take_off(rooms)?;
                    Ok(Step::Did(Done::Gone))
                }
            },
        }
    }

    /// Runs the first statement of a block, whose rest is the top frame, if the flow is on and a
    /// step is left.
    fn first<N: Needed>(
        &mut self,
        needed: &N,
        stmt: &'p Stmt,
        rooms: &mut Rooms<'p>,
    ) -> Result<Done<'p>, HoldError>
        requires few { self.old.thread.spawned + self.old.thread.steps ≤ self.old.plan.budget.steps }
        requires can { CanAct (N.needs needed.now) (N.IsAsync needed.now) stmt.now.label
            (code_of stmt.now.kind) self.old }
        ensures did { IfOk result (λ d. DidNext (N.needs needed.now) below_top
            stmt.entry.now.label (code_of stmt.entry.now.kind) self.old d self.new) }
        ensures label { IfOk result (DoneSpawns (N.IsAsync needed.now)) }
        ensures refused { IfErr result (λ e. e ≡ OutOfMemory) }
    {
        if self.thread.flow != Flow::On {
            self.frames.pop();
            return Ok(Done::Gone);
        }
        if self.thread.takes_step() {
            self.act(needed, stmt, rooms)
        } else {
            Ok(Done::Exceeded)
        }
    }

    /// Starts the next iteration of a loop, if the flow is on and a step is left.
    fn again(
        &mut self,
        label: Label,
        guard: &'p Truth,
        body: &'p [Stmt],
    ) -> Result<Done<'p>, AllocError>
        ensures did { IfOk result (λ d. (needs : Codes → Needs) → DidNext needs (λ fs. fs) label
            (While (truth_of guard.entry.now) (codes_of body.entry.now)) self.old d self.new) }
        ensures none { IfOk result SpawnsNone }
    {
        if self.thread.flow != Flow::On {
            return Ok(Done::Gone);
        }
        if self.thread.takes_step() {
            let next = self.thread.turn_loop(self.plan, label, guard, body)?;
            self.take(next)?;
            Ok(Done::Gone)
        } else {
            Ok(Done::Exceeded)
        }
    }

    /// Starts the next turn of a `parts`, if one is left, the flow is on and a step is left.
    fn next_turn(&mut self, turns: TurnsToCome<'p>) -> Result<Done<'p>, AllocError>
        ensures did { IfOk result (λ d. (needs : Codes → Needs)
            → DidTurn needs (further turns.entry) self.old d self.new) }
        ensures none { IfOk result SpawnsNone }
    {
        match self.thread.flow {
            Flow::Faulted | Flow::Stopped => Ok(Done::Gone),
            Flow::On => match turns.next_piece(&self.thread.environment) {
                None => Ok(Done::Gone),
                Some(piece) => self.take_turn(turns, piece),
            },
        }
    }

    /// Starts the next turn of a `parts`, which has this piece, if a step is left.
    fn take_turn(&mut self, turns: TurnsToCome<'p>, piece: Window) -> Result<Done<'p>, AllocError>
        requires on { self.old.thread.flow ≡ FlowOn }
        requires few { turns.next < 4194304 }
        requires piece { piece_of ((environment_of self.old.thread.environment).windows turns.section.number)
            turns.size turns.next ≡ Some (window_of piece) }
        ensures did { IfOk result (λ d. (needs : Codes → Needs)
            → DidTurn needs (further turns.entry) self.old d self.new) }
        ensures none { IfOk result SpawnsNone }
    {
        if self.thread.takes_step() {
            self.enter_turn(turns, piece)?;
            Ok(Done::Gone)
        } else {
            Ok(Done::Exceeded)
        }
    }

    /// Runs a statement whose step has been taken.
    #[inline(always)]
    fn act<N: Needed>(
        &mut self,
        needed: &N,
        stmt: &'p Stmt,
        rooms: &mut Rooms<'p>,
    ) -> Result<Done<'p>, HoldError>
        requires room { HasRoom self.old }
        requires can { CanAct (N.needs needed.now) (N.IsAsync needed.now) stmt.now.label
            (code_of stmt.now.kind) self.old }
        ensures did { IfOk result (λ d. DidAct (N.needs needed.now)
            stmt.entry.now.label (code_of stmt.entry.now.kind) self.old d self.new) }
        ensures label { IfOk result (DoneSpawns (N.IsAsync needed.now)) }
        ensures refused { IfErr result (λ e. e ≡ OutOfMemory) }
    {
        let label = stmt.label;
        match &stmt.kind {
            StmtKind::Do(primitive) => {
                self.thread.primitive(self.plan, label, primitive)?;
                Ok(Done::Gone)
            }
            StmtKind::If { guard, body, other } => {
                let next = self.thread.choose(self.plan, label, guard, body, other)?;
                self.take(next)?;
                Ok(Done::Gone)
            }
            StmtKind::While { guard, body } => {
                let next = self.thread.turn_loop(self.plan, label, guard, body)?;
                self.take(next)?;
                Ok(Done::Gone)
            }
            StmtKind::Split { sides, body } => {
                let next = self.thread.split(self.plan, label, sides, body)?;
                self.take(next)?;
                Ok(Done::Gone)
            }
            StmtKind::Parts { pieces, body } => {
                let next = self.thread.begin_turns(self.plan, label, pieces, body)?;
                self.take(next)?;
                Ok(Done::Gone)
            }
            StmtKind::Call {
                procedure,
                values,
                sections,
            } => {
                let called = Called::of(self.plan, *procedure, values, sections);
                let room = rooms.room_for(called.procedure)?;
                let next = self.thread.call(self.plan, label, called, room)?;
                self.take(next)?;
                Ok(Done::Gone)
            }
            StmtKind::Async { body } => self.spawn(needed, label, body, rooms),
            StmtKind::Finish { body } => {
                self.enter(body)?;
                Ok(Done::Entered)
            }
            StmtKind::Rescue {
                body,
                faults,
                handler,
            } => {
                self.enter_rescue(body, *faults, handler)?;
                Ok(Done::Entered)
            }
        }
    }

    /// Spawns a task for the body of an async. It takes what the body may write, and copies of what
    /// the body may read.
    fn spawn<N: Needed>(
        &mut self,
        needed: &N,
        label: Label,
        body: &'p [Stmt],
        rooms: &mut Rooms<'p>,
    ) -> Result<Done<'p>, HoldError>
        requires room { HasRoom self.old }
        requires can { CanAct (N.needs needed.now) (N.IsAsync needed.now) label
            (Async (codes_of body.now)) self.old }
        ensures did { IfOk result (λ d. DidAct (N.needs needed.now) label
            (Async (codes_of body.entry.now)) self.old d self.new) }
        ensures label { IfOk result (DoneSpawns (N.IsAsync needed.now)) }
        ensures refused { IfErr result (λ e. e ≡ OutOfMemory) }
    {
        if self.thread.nest == 0 {
            self.thread.flow = Flow::Stopped;
            return Ok(Done::Exceeded);
        }
        let alloc = self.plan.alloc;
        let environment = &self.thread.environment;
        let windows = environment.windows_of(alloc, needed.writes(label, body))?;
        let store = &mut self.thread.store;
        let holdings = store.part_for(alloc, environment, &windows, needed.reads(label, body))?;
        let start = self.start(label, body, holdings, rooms)?;
        let start = rooms.boxed(start)?;
        let number = ChildNumber::after(self.thread.spawned);
        let listed = Listed {
            path: self.thread.path.child(number)?,
            windows,
            lines: std::mem::replace(&mut self.thread.lines, Vec::new(self.plan.alloc)),
            faults: std::mem::replace(&mut self.thread.faults, Vec::new(self.plan.alloc)),
        };
        self.pending.push(listed)?;
        self.thread.spawned += 1;
        Ok(Done::Spawned(start))
    }

    /// Takes the turn of a run at the end of a finish, or at its own end, in place. What the turn
    /// returns is moved out of the run. What is left is good only for `begin_again`.
    pub fn end(&mut self, rooms: &mut Rooms<'p>) -> Result<Turn<'p>, AllocError>
        requires { IsAtEnd self.old }
        ensures turn { IfOk result (λ t. (needs : Codes → Needs) → IsTurn needs self.old t) }
        ensures ends { IfOk result IsEnding }
    {
        match self.frames.pop() {
            None => {
                let made = self.result();
                self.leave(rooms);
                Ok(Turn::Ended(made))
            }
            Some(frame) => match frame {
                TaskFrame::EndFinish(outer) => {
                    let (paused, result) = self.pause(outer)?;
                    Ok(Turn::EndsFinish(paused, result))
                }
                TaskFrame::Rest(_)
                | TaskFrame::Again { .. }
                | TaskFrame::Turns(_)
                | TaskFrame::OnFault { .. }
                | TaskFrame::EndCall { .. } => unreachable!(),
            },
        }
    }

    /// Moves out what the task has made since its innermost open finish began, or since its own
    /// start.
    fn result(&mut self) -> TaskResult
        ensures { (fs : List (Left Own)) (x : Own) → Shows self.old fs x
            → task_result result ≡ result_of (with_own x (state_of self.old.thread)) }
    {
        let alloc = self.plan.alloc;
        let stopped = is_stopped(self.thread.flow);
        let path = std::mem::replace(&mut self.thread.path, Path::root(alloc));
        let holdings = std::mem::replace(&mut self.thread.store.holdings, Holdings::none(alloc));
        let lines = std::mem::replace(&mut self.thread.lines, Vec::new(alloc));
        let faults = std::mem::replace(&mut self.thread.faults, Vec::new(alloc));
        let children = std::mem::replace(&mut self.pending, Vec::new(alloc));
        TaskResult {
            path,
            stopped,
            holdings,
            lines,
            faults,
            children,
        }
    }

    /// Leaves its environment to the next tasks. The room of its frames stays, unless a deep
    /// recursion has made it large.
    fn leave(&mut self, rooms: &mut Rooms<'p>) {
        let alloc = self.plan.alloc;
        if self.frames.capacity() > MOST_FRAMES {
            self.frames = Vec::new(alloc);
        }
        let environment = std::mem::replace(&mut self.thread.environment, no_environment(alloc));
        rooms.keep_environment(environment);
    }

    /// Splits the run at the end of a finish into the waiting run and its result.
    fn pause(&mut self, outer: Outer) -> Result<(Paused<'p>, TaskResult), AllocError>
        ensures { IfOk result (λ t. (before : State Own) (fs : List (Left Own)) (x : Own)
            → IsEnd outer before → Shows self.old fs x
            → WaitsAs self.old fs before (with_own x (state_of self.old.thread))
            (EndsFinish t.0 t.1)) }
    {
        let alloc = self.plan.alloc;
        let path = self.thread.path.copied(alloc)?;
        let frames = std::mem::replace(&mut self.frames, Vec::new(alloc));
        let environment = std::mem::replace(&mut self.thread.environment, no_environment(alloc));
        let paused = Paused {
            plan: self.plan,
            path,
            spawned: self.thread.spawned,
            environment,
            steps: self.thread.steps,
            nest: self.thread.nest,
            frames,
            outer,
        };
        let made = self.result();
        Ok((paused, made))
    }
}

impl<'p> Paused<'p> {
    /// Continues with the settled result of the finish. The task owns the places that it owned
    /// before, and those that come back from the tasks listed in the finish.
    pub fn go_on(self, settled: Settled) -> Result<Run<'p>, AllocError>
        ensures stands { IfOk result (λ r. (fs : List (Left Own)) (before st : State Own)
            → Waits self.entry fs before st → ComesBack settled st
            → IsAt r (record { frames = fs; state = handed before (settled_of settled) st })) }
        ensures plan { IfOk result (λ r. r.plan ≡ self.entry.plan) }
        ensures nest { IfOk result (λ r. r.thread.nest ≡ self.entry.nest) }
    {
        let mut settled = settled;
        let mut outer = self.outer;
        let flow = flow_behind(settled.stopped, &settled.faults);
        outer.lines.append(&mut settled.lines)?;
        outer.faults.append(&mut settled.faults)?;
        let thread = Thread {
            flow,
            store: TaskMemory {
                holdings: settled.holdings,
            },
            lines: outer.lines,
            faults: outer.faults,
            path: self.path,
            spawned: self.spawned,
            environment: self.environment,
            steps: self.steps,
            nest: self.nest,
            spare: Vec::new(self.plan.alloc),
        };
        Ok(Run {
            plan: self.plan,
            thread,
            frames: self.frames,
            pending: outer.pending,
        })
    }
}

/// Returns the turn of a run that did this.
fn turned<'p>(run: Run<'p>, done: Done<'p>) -> Turn<'p>
    ensures { result ≡ turn_of run.entry done.entry }
{
    match done {
        Done::Gone => Turn::Going(run),
        Done::Spawned(start) => Turn::Spawns(run, Box::into_inner(start)),
        Done::Entered => Turn::EntersFinish(run),
        Done::Exceeded => Turn::Over(run),
    }
}

/// Returns whether the flow is stopped.
pub(crate) fn is_stopped(flow: Flow) -> bool
    ensures { result ≡ stops_all (flow_of flow) }
{
    match flow {
        Flow::Stopped => true,
        Flow::On | Flow::Faulted => false,
    }
}

/// Returns the flow after a finish.
fn flow_behind(stopped: bool, faults: &[Fault]) -> Flow
    ensures { flow_of result
        ≡ (if stopped then Stopped else after_finish On (map fault_of faults.now)) }
{
    if stopped {
        Flow::Stopped
    } else {
        Flow::On.behind_finish(0, faults)
    }
}
