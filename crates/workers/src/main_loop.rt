//! The workers of a run.

ghost use Rattle.std.specs.Prelude.{◌≡◌, ◌+◌, ◌≤◌, ◌++◌, [], ◌∷◌, length, IfErr, IfOk, IfSome};
ghost use Rattle.std.specs.Prelude.{OnOk, Option, Some};
ghost use Rattle.types.specs.Translation.{outcome as outcome_in};
ghost use Rattle.task_run.specs.Jobs.{IsJob, outcome_of};
ghost use Rattle.finish_scope.specs.Own.{IsOwnPassing};
ghost use Rattle.tickets.specs.Seats.{drawn_of, id_of};
ghost use Rattle.worker_threads.specs.DequeEnds.{put_into};
ghost use Rattle.workers.specs.Own.{HasCode, IsOwnBody, IsOwnChild, IsOwnEnded, IsOwnEnding, IsOwnNext};
ghost use Rattle.workers.specs.Own.{IsOwnLeaving, IsOwnStep, IsOwnTask, IsOwnTurn, IsOwnWhole};
ghost use Rattle.workers.specs.Causes.{Happens, IsOfResults};
ghost use Rattle.workers.specs.WorkerStates.{DrawsAlone, DrawsForEach, Fails, HasSeat, Tells};
ghost use Rattle.workers.specs.Words.{IsOwnStub};

use crate::code::OwnCode;
use crate::error::{RunError, Trouble};
use crate::gate::Gate;
use crate::locked_log::{LockedLog, hold};
use crate::log_guard::LogGuard;
use crate::open_scopes::{AfterTurn, Next, OpenScopes};
use crate::passing::pass;
use crate::pool::{Pool, Tasks};
use crate::ready::{First, Ready};
use crate::recorded::Recording;
use crate::scopes;
use crate::scopes::ScopeRecorder;
use crate::settings::Settings;
use crate::worker::{RanTask, Report, WorkerAtWork, WorkerParts, WorkerState};
use finish_scope::inner::Inner;
use finish_scope::resting::{Passing, Resting};
use finish_scope::running::Running;
use plain_code::pieces::ProgramCode;
use serial_run::passing::{Limit, Most};
use serial_run::programs::serial_within;
use std::alloc::AllocError;
use std::sync::{Arc, Mutex, Wait};
use std::thread;
use task_run::job::Job;
use task_run::result::TaskResult;
use tickets::{Stub, Tickets};
use types::outcome::Outcome;
use weighted_task::finish::{Ending, Entering, Parked};
use weighted_task::rooms::TaskRooms;
use weighted_task::stake::ScopeMark;
use weighted_task::task::{Child, Task};
use weighted_task::turn::{WeightedResult as Ended, WeightedTurn, WholeChild};
use weights::weight::Weight;
use worker_threads::{Crew, Refused};

/// The number of times that a worker looks for a task before it rests.
const LOOKS: u32 = 64;

/// A whole run continues as long as the run of all workers isn't over, and begins at most this many
/// asyncs.
#[derive(Drop)]
struct WhileRunning<'a, 'p, J: Running> {
    pool: &'a Pool<'p, J>,
    most: u64,
}

impl<'a, 'p, J: Running> Limit for WhileRunning<'a, 'p, J> {
    fn allows(&self, begun: u64) -> bool {
        begun <= self.most && !self.pool.is_over()
    }
}

/// The state that the workers of a run share.
#[derive(Drop)]
pub struct Shared<'p, J: Running, G: Gate> {
    pub job: Job<'p>,
    pub code: OwnCode<'p, J>,
    pub settings: Settings,
    pub gate: &'p G,
    pub tickets: Tickets,
    pub pool: Pool<'p, J>,
    pub log: Option<LockedLog<'p, J>>,
    pub ghost of: { J.job ≡ Some job },
    pub ghost word: { J.word ≡ Some (id_of tickets) },
}

impl<'p, J: Running + Recording, G: Gate> Shared<'p, J, G> {
    // ---- turns

    /// Continues a task up to a turn that is more than a step.
    fn turn<R: Wait>(
        &self,
        rt: &R,
        number: usize,
        rooms: &mut TaskRooms<'p>,
        open_scopes: &mut OpenScopes<'p, J>,
        task: Task<'p>,
    ) -> Result<AfterTurn<'p>, Trouble>
        requires { IsOwnTask J.job task }
        ensures step { IfOk result (IsOwnStep J.job) }
        ensures cause { IfErr result (Happens J.job) }
    {
        match self.next_turn(rt, rooms, task)? {
            WeightedTurn::Going(task) => Ok(AfterTurn::Follows(Next::Goes(task))),
            WeightedTurn::Over(task) => Ok(AfterTurn::Follows(Next::Goes(task))),
            WeightedTurn::Spawns(task, child) => { Ok(AfterTurn::Spawned(task, child)) }
            WeightedTurn::WantsWeight(wanting) => {
                let recorder = self.recorder(wanting.body.scope);
                let (task, child) = scopes::replenish(rt, &open_scopes.scope, wanting, &recorder)?;
                Ok(AfterTurn::Spawned(task, child))
            }
            WeightedTurn::EntersFinish(entering) => {
                Ok(AfterTurn::Follows(self.enter(rt, number, open_scopes, entering)?))
            }
            WeightedTurn::EndsFinish(ending) => Ok(AfterTurn::Follows(self.park(
                rt,
                number,
                open_scopes,
                ending,
            )?)),
            WeightedTurn::Ended(ended) => Ok(AfterTurn::Follows(self.end(
                rt,
                number,
                open_scopes,
                ended,
            )?)),
        }
    }

    /// Returns the next turn that is more than a step.
    fn next_turn<R: Wait>(
        &self,
        rt: &R,
        rooms: &mut TaskRooms<'p>,
        task: Task<'p>,
    ) -> Result<WeightedTurn<'p>, Trouble>
        requires { IsOwnTask J.job task }
        ensures next { IfOk result (IsOwnTurn J.job) }
        ensures cause { IfErr result (Happens J.job) }
    {
        if J::is_recorded() {
            self.noted_turn(rt, rooms, task)
        } else {
            Ok(go::<J>(task, self.code.lend(), rooms)?)
        }
    }

    /// Returns the next turn that is more than a step, and records each step; or a step, if the run
    /// is over.
    fn noted_turn<R: Wait>(
        &self,
        rt: &R,
        rooms: &mut TaskRooms<'p>,
        task: Task<'p>,
    ) -> Result<WeightedTurn<'p>, Trouble>
        requires { IsOwnTask J.job task }
        ensures next { IfOk result (IsOwnTurn J.job) }
        ensures cause { IfErr result (Happens J.job) }
    {
        let mut task = task;
        for _ in rt.forever() {
            match self.noted_step(rt, rooms, task)? {
                WeightedTurn::Going(next) => task = next,
                turn => return Ok(turn),
            }
            if self.pool.is_over() {
                return Ok(WeightedTurn::Going(task));
            }
        }
        unreachable!()
    }

    /// Takes one turn of a task. If it is a step or spawns a task, that is recorded in the same holding
    /// of the log's lock.
    fn noted_step<R: Wait>(
        &self,
        rt: &R,
        rooms: &mut TaskRooms<'p>,
        task: Task<'p>,
    ) -> Result<WeightedTurn<'p>, Trouble>
        requires { IsOwnTask J.job task }
        ensures next { IfOk result (IsOwnTurn J.job) }
        ensures cause { IfErr result (Happens J.job) }
    {
        let mut log_guard = self.hold(rt);
        let steps = steps_of::<J>(&task);
        match advance::<J>(task, rooms)? {
            WeightedTurn::Going(next) => {
                note_step::<J>(&mut log_guard, &next, steps);
                Ok(WeightedTurn::Going(next))
            }
            WeightedTurn::Spawns(task, child) => {
                note_spawn::<J>(&mut log_guard, &task);
                Ok(WeightedTurn::Spawns(task, child))
            }
            turn => Ok(turn),
        }
    }

    // ---- recording

    /// Takes the log's lock, if events are recorded and the run isn't over.
    fn hold<R: Wait>(&self, rt: &R) -> LogGuard<'_, 'p, J> {
        hold::<J, R>(&self.log, rt, &self.pool)
    }

    /// Returns the log and the gate for what the worker does at this scope.
    fn recorder(&self, scope: ScopeMark) -> ScopeRecorder<'_, 'p, J, G> {
        ScopeRecorder {
            log: &self.log,
            gate: self.gate,
            pool: &self.pool,
            scope,
        }
    }

    // ---- after a turn

    /// Draws the ticket of a task that starts.
    fn draw(&self, state: &mut WorkerAtWork<'p>) -> Result<Stub, RunError>
        requires seat { HasSeat self.now.tickets self.now.settings.tasks state.old.seat }
        ensures seat { OnOk result
            (HasSeat self.now.tickets self.now.settings.tasks state.new.seat) }
        ensures failed { IfErr result
            (Fails J.job self.now.tickets self.now.settings.tasks state.new.seat) }
        ensures word { IfOk result (IsOwnStub J.word) }
        ensures once { length (drawn_of state.new.seat) ≡ length (drawn_of state.old.seat) + 1 }
    {
        let ticket = self.tickets.draw(&mut state.seat);
        if ticket.number() < self.settings.tasks {
            Ok(ticket.into_stub())
        } else {
            Err(RunError::TooManyTasks(ticket))
        }
    }

    /// Pushes a spawned task, with its ticket, to the worker's deque.
    fn begin(
        &self,
        number: usize,
        tasks: &mut Tasks<'p, J>,
        open_scopes: &mut OpenScopes<'p, J>,
        child: Child<'p>,
        stub: Stub,
    ) -> Result<(), Trouble>
        requires own { IsOwnChild J.job child }
        requires drawn { IsOwnStub J.word stub }
        ensures put { OnOk result (put_into tasks.new.own
            ≡ put_into tasks.old.own ++ child.entry.start.value.path.turns.items ∷ []) }
        ensures cause { IfErr result (Happens J.job) }
    {
        let scope = Arc::try_clone(&open_scopes.scope)?;
        let is_spare = tasks.own.len() as u64 >= enough_waiting(self.settings.workers);
        let ready = Ready::new(child, scope, open_scopes.place, number, stub, is_spare);
        match tasks.own.push(ready) {
            Ok(()) => {
                self.pool.wake();
                Ok(())
            }
            Err(refused) => {
                let Refused { cause, .. } = refused;
                Err(Trouble::RefusedPush(cause))
            }
        }
    }

    /// Gives a task that started a finish its new scope.
    #[inline(never)]
    fn enter<R: Wait>(
        &self,
        rt: &R,
        number: usize,
        open_scopes: &mut OpenScopes<'p, J>,
        entering: Entering<'p>,
    ) -> Result<Next<'p>, Trouble>
        requires { IsOwnBody J.job entering.body.value }
        ensures next { IfOk result (IsOwnNext J.job) }
        ensures cause { IfErr result (Happens J.job) }
    {
        let (inner, weight) = Inner::open(self.job.alloc, self.settings.w0);
        let task = self.start_finish(rt, entering, weight);
        let scope = Arc::new(self.job.alloc, Mutex::new(inner))?;
        open_scopes.outer.push(open_scopes.place)?;
        open_scopes.place = self.pool.put(rt, number, Arc::try_clone(&scope)?)?;
        open_scopes.scope = scope;
        Ok(Next::Goes(task))
    }

    /// Starts a finish with the first weight of its scope, and records that.
    fn start_finish<R: Wait>(&self, rt: &R, entering: Entering<'p>, weight: Weight) -> Task<'p>
        requires own { IsOwnBody J.job entering.body.value }
        requires enough { 1 ≤ weight }
        ensures { IsOwnTask J.job result }
    {
        let mut log_guard = self.hold(rt);
        let task = entering.enter(weight);
        note_open::<J>(&mut log_guard, &task);
        task
    }

    /// Parks a task at the end of a finish, or of `main`.
    #[inline(never)]
    fn park<R: Wait>(
        &self,
        rt: &R,
        number: usize,
        open_scopes: &mut OpenScopes<'p, J>,
        ending: Ending<'p>,
    ) -> Result<Next<'p>, Trouble>
        requires { IsOwnEnding J.job ending }
        ensures next { IfOk result (IsOwnNext J.job) }
        ensures cause { IfErr result (Happens J.job) }
    {
        let outer = std::mem::replace(&mut open_scopes.outer, Vec::new(self.job.alloc));
        let recorder = self.recorder(ending.scope);
        let (weight, parked) = ending.set_down();
        let owner = Resting { parked, outer };
        let passing = scopes::park(rt, &open_scopes.scope, weight, owner, &recorder)?;
        self.after(rt, number, open_scopes, passing)
    }

    /// Returns the result of a task that has finished to its scope.
    fn end<R: Wait>(
        &self,
        rt: &R,
        number: usize,
        open_scopes: &mut OpenScopes<'p, J>,
        ended: Ended<'p>,
    ) -> Result<Next<'p>, Trouble>
        requires { IsOwnEnded J.job ended }
        ensures next { IfOk result (IsOwnNext J.job) }
        ensures cause { IfErr result (Happens J.job) }
    {
        let path = if G::wants_paths() {
            Some(ended.made.path.clone()?)
        } else {
            None
        };
        let recorder = self.recorder(ended.scope);
        let (weight, made) = ended.take_weight();
        let passing = scopes::give_back(rt, &open_scopes.scope, weight, made, &recorder)?;
        self.gate.leave(path.as_ref());
        self.after(rt, number, open_scopes, passing)
    }

    /// Returns what follows a task that waits or has finished: the owner that continues, if any.
    fn after<R: Wait>(
        &self,
        rt: &R,
        number: usize,
        open_scopes: &mut OpenScopes<'p, J>,
        passing: Option<Passing<'p>>,
    ) -> Result<Next<'p>, Trouble>
        requires { IfSome passing (IsOwnPassing J.job) }
        ensures next { IfOk result (IsOwnNext J.job) }
        ensures cause { IfErr result (Happens J.job) }
    {
        match passing {
            Some(passing) => {
                self.pool.clear(rt, open_scopes.place)?;
                self.go_behind(rt, number, open_scopes, passing)
            }
            None => Ok(Next::Idle),
        }
    }

    /// Continues an owner after its finish, in the surrounding scope.
    #[inline(never)]
    fn go_behind<R: Wait>(
        &self,
        rt: &R,
        number: usize,
        open_scopes: &mut OpenScopes<'p, J>,
        passing: Passing<'p>,
    ) -> Result<Next<'p>, Trouble>
        requires { IsOwnPassing J.job passing }
        ensures next { IfOk result (IsOwnNext J.job) }
        ensures cause { IfErr result (Happens J.job) }
    {
        let Passing { owner, results } = passing;
        let Resting { parked, mut outer } = owner;
        if let Some(place) = outer.pop() {
            open_scopes.scope = self.pool.scope_at(rt, place)?;
            open_scopes.place = place;
        }
        open_scopes.outer = outer;
        let mut log_guard = self.hold(rt);
        let (next, faults) = passed::<J>(parked, results)?;
        match next {
            Next::Goes(task) => {
                note_resume::<J>(&mut log_guard, number, &task, faults);
                Ok(Next::Goes(task))
            }
            next => Ok(next),
        }
    }

    // ---- running tasks

    /// Takes a turn of a task. If it spawned another, it draws its ticket, and then starts it.
    fn step<R: Wait>(
        &self,
        rt: &R,
        state: &mut WorkerAtWork<'p>,
        tasks: &mut Tasks<'p, J>,
        open_scopes: &mut OpenScopes<'p, J>,
        task: Task<'p>,
    ) -> Result<Next<'p>, RunError>
        requires task { IsOwnTask J.job task }
        requires seat { HasSeat self.now.tickets self.now.settings.tasks state.old.seat }
        ensures seat { OnOk result
            (HasSeat self.now.tickets self.now.settings.tasks state.new.seat) }
        ensures failed { IfErr result
            (Fails J.job self.now.tickets self.now.settings.tasks state.new.seat) }
        ensures next { IfOk result (IsOwnNext J.job) }
        ensures drawn { OnOk result (DrawsForEach 0 state.old.seat state.new.seat
            (put_into tasks.old.own) (put_into tasks.new.own)) }
        ensures once { length (drawn_of state.new.seat) ≤ length (drawn_of state.old.seat) + 1 }
    {
        match self.turn(rt, state.number, &mut state.rooms, open_scopes, task)? {
            AfterTurn::Follows(next) => Ok(next),
            AfterTurn::Spawned(task, child) => {
                let stub = self.draw(state)?;
                self.begin(state.number, tasks, open_scopes, child, stub)?;
                Ok(Next::Goes(task))
            }
        }
    }

    /// Runs a task until it waits or has finished, and then any owner that continues because of it.
    fn go_on<R: Wait>(
        &self,
        rt: &R,
        state: &mut WorkerAtWork<'p>,
        tasks: &mut Tasks<'p, J>,
        open_scopes: &mut OpenScopes<'p, J>,
        task: Task<'p>,
    ) -> Result<Option<Outcome>, RunError>
        requires task { IsOwnTask J.job task }
        requires seat { HasSeat self.now.tickets self.now.settings.tasks state.old.seat }
        ensures seat { OnOk result
            (HasSeat self.now.tickets self.now.settings.tasks state.new.seat) }
        ensures failed { IfErr result
            (Fails J.job self.now.tickets self.now.settings.tasks state.new.seat) }
        ensures outcome { IfOk result (λ o. IfSome o (λ x. outcome_in x ≡ outcome_of self.now.job)) }
        ensures drawn { OnOk result (DrawsForEach 0 state.old.seat state.new.seat
            (put_into tasks.old.own) (put_into tasks.new.own)) }
    {
        let mut task = task;
        for _ in rt.forever() {
            match self.step(rt, state, tasks, open_scopes, task)? {
                Next::Goes(next) => task = next,
                Next::Idle => return Ok(None),
                Next::Told(outcome) => return Ok(Some(outcome)),
            }
            if self.pool.is_over() {
                return Ok(None);
            }
        }
        unreachable!()
    }

    /// Runs the program on one thread, if there is no other worker and nobody observes the tasks. It
    /// draws a ticket for the root and for each async. Also returns the number of asyncs that were
    /// begun. Returns None if they are too many, or if a task is over its budget: on one thread
    /// everything stops then, but tasks apart go on.
    fn run_alone(&self, state: &mut WorkerAtWork<'p>) -> Result<Option<(Outcome, u64)>, RunError>
        requires job { IsJob self.now.job }
        requires seat { HasSeat self.now.tickets self.now.settings.tasks state.old.seat }
        ensures seat { OnOk result
            (HasSeat self.now.tickets self.now.settings.tasks state.new.seat) }
        ensures failed { IfErr result
            (Fails J.job self.now.tickets self.now.settings.tasks state.new.seat) }
        ensures outcome { IfOk result
            (λ o. IfSome o (λ r. outcome_in r.0 ≡ outcome_of self.now.job)) }
        ensures drawn { IfOk result (DrawsAlone state.old.seat state.new.seat) }
    {
        if self.settings.workers > 1 || J::is_recorded() || G::observes_all() {
            return Ok(None);
        }
        match self.on_one_thread()? {
            None => Ok(None),
            Some(ran) => {
                self.draw(state)?;
                self.draw_all(state, ran.1)?;
                Ok(Some(ran))
            }
        }
    }

    /// Runs the program on one thread. Returns its outcome and the number of asyncs that were begun,
    /// unless they are too many or the program is stopped.
    fn on_one_thread(&self) -> Result<Option<(Outcome, u64)>, AllocError>
        requires { IsJob self.now.job }
        ensures { IfOk result (λ o. IfSome o (λ r. outcome_in r.0 ≡ outcome_of self.now.job)) }
    {
        let limit = Most(self.settings.tasks);
        let codes = &self.code.lend().codes;
        let ran = serial_within(self.job.plan(), codes, self.job.input, &limit)?;
        match ran {
            None => Ok(None),
            Some((outcome, begun)) => match outcome {
                Outcome::Stopped => Ok(None),
                outcome => Ok(Some((outcome, begun))),
            },
        }
    }

    /// Runs the root from its start. It draws the first ticket.
    fn run_first<R: Wait>(
        &self,
        rt: &R,
        state: &mut WorkerAtWork<'p>,
        tasks: &mut Tasks<'p, J>,
        first: First<'p, J>,
    ) -> Result<Option<Outcome>, RunError>
        requires seat { HasSeat self.now.tickets self.now.settings.tasks state.old.seat }
        ensures seat { OnOk result
            (HasSeat self.now.tickets self.now.settings.tasks state.new.seat) }
        ensures failed { IfErr result
            (Fails J.job self.now.tickets self.now.settings.tasks state.new.seat) }
        ensures outcome { IfOk result (λ o. IfSome o (λ x. outcome_in x ≡ outcome_of self.now.job)) }
        ensures drawn { OnOk result (DrawsForEach 1 state.old.seat state.new.seat
            (put_into tasks.old.own) (put_into tasks.new.own)) }
    {
        let stub = self.draw(state)?;
        let mut log_guard = self.hold(rt);
        let (task, mut open_scopes) = first.begin(stub);
        note_taken::<J>(&mut log_guard, state.number, state.number, &task);
        drop(log_guard);
        self.go_on(rt, state, tasks, &mut open_scopes, task)
    }

    /// Runs a task below the root from its start.
    fn run_next<R: Wait>(
        &self,
        rt: &R,
        state: &mut WorkerAtWork<'p>,
        tasks: &mut Tasks<'p, J>,
        ready: Ready<'p, J>,
    ) -> Result<RanTask, RunError>
        requires seat { HasSeat self.now.tickets self.now.settings.tasks state.old.seat }
        ensures seat { OnOk result
            (HasSeat self.now.tickets self.now.settings.tasks state.new.seat) }
        ensures failed { IfErr result
            (Fails J.job self.now.tickets self.now.settings.tasks state.new.seat) }
        ensures outcome { IfOk result
            (λ r. IfSome r.outcome (λ x. outcome_in x ≡ outcome_of self.now.job)) }
        ensures drawn { IfOk result (λ r. DrawsForEach r.begun state.old.seat state.new.seat
            (put_into tasks.old.own) (put_into tasks.new.own)) }
    {
        let from = ready.from();
        let is_spare = ready.is_spare();
        let (child, mut open_scopes) = ready.begin();
        if self.may_run_whole(state, is_spare, &child) {
            return self.run_whole(rt, state, tasks, &mut open_scopes, child);
        }
        let outcome = self.run_apart(rt, state, tasks, &mut open_scopes, child, from)?;
        Ok(RanTask { outcome, begun: 0 })
    }

    /// Runs a spawned task from its start, with each task below it apart.
    fn run_apart<R: Wait>(
        &self,
        rt: &R,
        state: &mut WorkerAtWork<'p>,
        tasks: &mut Tasks<'p, J>,
        open_scopes: &mut OpenScopes<'p, J>,
        child: Child<'p>,
        from: usize,
    ) -> Result<Option<Outcome>, RunError>
        requires child { IsOwnChild J.job child }
        requires seat { HasSeat self.now.tickets self.now.settings.tasks state.old.seat }
        ensures seat { OnOk result
            (HasSeat self.now.tickets self.now.settings.tasks state.new.seat) }
        ensures failed { IfErr result
            (Fails J.job self.now.tickets self.now.settings.tasks state.new.seat) }
        ensures outcome { IfOk result (λ o. IfSome o (λ x. outcome_in x ≡ outcome_of self.now.job)) }
        ensures drawn { OnOk result (DrawsForEach 0 state.old.seat state.new.seat
            (put_into tasks.old.own) (put_into tasks.new.own)) }
    {
        let mut log_guard = self.hold(rt);
        let task = child.begin(&mut state.rooms)?;
        note_taken::<J>(&mut log_guard, state.number, from, &task);
        drop(log_guard);
        self.let_in(&task);
        self.go_on(rt, state, tasks, open_scopes, task)
    }

    /// Returns whether a spawned task may run whole: nobody observes the tasks below it, and the
    /// other workers have enough to take without them. A plain body has no tasks below it.
    fn may_run_whole(&self, state: &WorkerAtWork<'p>, is_spare: bool, child: &Child<'p>) -> bool {
        if J::is_recorded() || G::observes_all() {
            return false;
        }
        match self.code.lend().body(child.start.label) {
            None => false,
            Some(body) => body.is_plain || (is_spare && state.runs_whole),
        }
    }

    /// Runs a spawned task whole. It draws a ticket for each async that was begun in place.
    fn run_whole<R: Wait>(
        &self,
        rt: &R,
        state: &mut WorkerAtWork<'p>,
        tasks: &mut Tasks<'p, J>,
        open_scopes: &mut OpenScopes<'p, J>,
        child: Child<'p>,
    ) -> Result<RanTask, RunError>
        requires child { IsOwnChild J.job child }
        requires seat { HasSeat self.now.tickets self.now.settings.tasks state.old.seat }
        ensures seat { OnOk result
            (HasSeat self.now.tickets self.now.settings.tasks state.new.seat) }
        ensures failed { IfErr result
            (Fails J.job self.now.tickets self.now.settings.tasks state.new.seat) }
        ensures outcome { IfOk result
            (λ r. IfSome r.outcome (λ x. outcome_in x ≡ outcome_of self.now.job)) }
        ensures drawn { IfOk result (λ r. DrawsForEach r.begun state.old.seat state.new.seat
            (put_into tasks.old.own) (put_into tasks.new.own)) }
    {
        let limit = WhileRunning {
            pool: &self.pool,
            most: self.settings.tasks,
        };
        let code = self.code.lend();
        match whole::<J, WhileRunning<'_, 'p, J>>(child, code, &limit, &mut state.rooms)? {
            WholeChild::Made(ended, begun) => {
                self.draw_all(state, begun)?;
                let outcome = self.end_whole(rt, state, tasks, open_scopes, ended)?;
                Ok(RanTask { outcome, begun })
            }
            WholeChild::Cut(begun) => {
                self.draw_all(state, begun)?;
                Ok(RanTask {
                    outcome: None,
                    begun,
                })
            }
            WholeChild::Again(child) => {
                state.runs_whole = false;
                let from = state.number;
                let outcome = self.run_apart(rt, state, tasks, open_scopes, child, from)?;
                Ok(RanTask { outcome, begun: 0 })
            }
        }
    }

    /// Returns the result of a whole task to its scope, and runs any owner that continues because of
    /// it.
    fn end_whole<R: Wait>(
        &self,
        rt: &R,
        state: &mut WorkerAtWork<'p>,
        tasks: &mut Tasks<'p, J>,
        open_scopes: &mut OpenScopes<'p, J>,
        ended: Ended<'p>,
    ) -> Result<Option<Outcome>, RunError>
        requires ended { IsOwnEnded J.job ended }
        requires seat { HasSeat self.now.tickets self.now.settings.tasks state.old.seat }
        ensures seat { OnOk result
            (HasSeat self.now.tickets self.now.settings.tasks state.new.seat) }
        ensures failed { IfErr result
            (Fails J.job self.now.tickets self.now.settings.tasks state.new.seat) }
        ensures outcome { IfOk result (λ o. IfSome o (λ x. outcome_in x ≡ outcome_of self.now.job)) }
        ensures drawn { OnOk result (DrawsForEach 0 state.old.seat state.new.seat
            (put_into tasks.old.own) (put_into tasks.new.own)) }
    {
        match self.end(rt, state.number, open_scopes, ended)? {
            Next::Goes(task) => self.go_on(rt, state, tasks, open_scopes, task),
            Next::Idle => Ok(None),
            Next::Told(outcome) => Ok(Some(outcome)),
        }
    }

    /// Draws this many tickets.
    fn draw_all(&self, state: &mut WorkerAtWork<'p>, number: u64) -> Result<(), RunError>
        requires seat { HasSeat self.now.tickets self.now.settings.tasks state.old.seat }
        ensures seat { OnOk result
            (HasSeat self.now.tickets self.now.settings.tasks state.new.seat) }
        ensures failed { IfErr result
            (Fails J.job self.now.tickets self.now.settings.tasks state.new.seat) }
        ensures count { OnOk result (length (drawn_of state.new.seat)
            ≡ length (drawn_of state.old.seat) + number) }
    {
        let mut left = number;
        'tickets: while left > 0 {
            self.draw(state)?;
            left -= 1;
        }
        Ok(())
    }

    /// Lends a task to the gate before its first turn.
    fn let_in(&self, task: &Task<'p>)
        requires { IsOwnTask J.job task.now }
    {
        self.gate.enter(task);
    }

    // ---- a worker

    /// Sets the mark that ends the run, while no worker records an event. Returns true if it wasn't
    /// set before.
    fn end_run<R: Wait>(&self, rt: &R) -> bool {
        let _page = self.hold(rt);
        self.pool.end()
    }

    /// Returns a task, if there is one. A worker that has looked without success for long rests
    /// before.
    fn find_work<R: Wait>(
        &self,
        rt: &R,
        state: &WorkerAtWork<'p>,
        tasks: &mut Tasks<'p, J>,
        looks: &mut u32,
    ) -> Option<Ready<'p, J>> {
        let found = self.pool.find(tasks);
        if found.is_some() {
            *looks = 0;
            return found;
        }
        if *looks < LOOKS {
            *looks += 1;
            thread::yield_now();
            return None;
        }
        *looks = 0;
        self.pool.rest(rt, state.number, &state.parker, tasks)
    }

    /// Runs tasks until the run is over. One worker starts with the root.
    fn main_loop<R: Wait>(
        &self,
        rt: &R,
        state: &mut WorkerAtWork<'p>,
        tasks: &mut Tasks<'p, J>,
        first: Option<First<'p, J>>,
    ) -> Result<Option<Outcome>, RunError>
        requires seat { HasSeat self.now.tickets self.now.settings.tasks state.old.seat }
        ensures seat { OnOk result
            (HasSeat self.now.tickets self.now.settings.tasks state.new.seat) }
        ensures failed { IfErr result
            (Fails J.job self.now.tickets self.now.settings.tasks state.new.seat) }
        ensures outcome { IfOk result (λ o. IfSome o (λ x. outcome_in x ≡ outcome_of self.now.job)) }
    {
        tasks.thieves = self.pool.thieves(self.job.alloc, state.number)?;
        if let Some(first) = first {
            first.shows_job();
            if let Some(ran) = self.run_alone(state)? {
                return Ok(Some(ran.0));
            }
            if let Some(outcome) = self.run_first(rt, state, tasks, first)? {
                return Ok(Some(outcome));
            }
        }
        let mut looks = 0u32;
        for _ in rt.forever() {
            if self.pool.is_over() {
                return Ok(None);
            }
            if let Some(ready) = self.find_work(rt, state, tasks, &mut looks) {
                let ran = self.run_next(rt, state, tasks, ready)?;
                if let Some(outcome) = ran.outcome {
                    return Ok(Some(outcome));
                }
            }
        }
        unreachable!()
    }
}

/// Continues a task up to a turn that is more than a step.
fn go<'p, J: Running>(
    task: Task<'p>,
    code: &ProgramCode<'p>,
    rooms: &mut TaskRooms<'p>,
) -> Result<WeightedTurn<'p>, AllocError>
    requires own { IsOwnTask J.job task }
    requires code { HasCode J.job code.now }
    ensures { IfOk result (IsOwnTurn J.job) }
{
    task.go(code, rooms)
}

/// Returns how many tasks wait in a deque when the next one is spare. The other workers take those
/// first, because they are older. If each task spawns two of half its size, the largest spare one is
/// at most as large as a worker's share.
fn enough_waiting(workers: u64) -> u64 {
    2 + workers / 4
}

/// Runs a spawned task whole.
fn whole<'p, J: Running, L: Limit>(
    child: Child<'p>,
    code: &ProgramCode<'p>,
    limit: &L,
    rooms: &mut TaskRooms<'p>,
) -> Result<WholeChild<'p>, AllocError>
    requires own { IsOwnChild J.job child }
    requires code { HasCode J.job code.now }
    ensures { IfOk result (IsOwnWhole J.job) }
{
    child.run_whole(code, limit, rooms)
}

/// Takes one turn of a task.
fn advance<'p, J: Running>(
    task: Task<'p>,
    rooms: &mut TaskRooms<'p>,
) -> Result<WeightedTurn<'p>, AllocError>
    requires { IsOwnTask J.job task }
    ensures { IfOk result (IsOwnTurn J.job) }
{
    task.advance(rooms)
}

/// Returns the number of steps that a task may still take.
fn steps_of<'p, J: Running>(task: &Task<'p>) -> u32
    requires { IsOwnTask J.job task.now }
{
    task.steps()
}

// ---- recording

/// Records a step if the task has fewer steps left than before.
fn note_step<'p, J: Running + Recording>(
    log_guard: &mut LogGuard<'_, 'p, J>,
    task: &Task<'p>,
    before: u32,
)
    requires { IsOwnTask J.job task.now }
{
    if task.steps() < before {
        log_guard.stepped(task.path());
    }
}

/// Records that a task spawned another.
fn note_spawn<'p, J: Running + Recording>(log_guard: &mut LogGuard<'_, 'p, J>, task: &Task<'p>)
    requires { IsOwnTask J.job task.now }
{
    log_guard.spawned(task.path());
}

/// Records that a task started a finish.
fn note_open<'p, J: Running + Recording>(log_guard: &mut LogGuard<'_, 'p, J>, task: &Task<'p>)
    requires { IsOwnTask J.job task.now }
{
    log_guard.opened(task.path());
}

/// Records that a worker takes a task that it or another worker spawned.
fn note_taken<'p, J: Running + Recording>(
    log_guard: &mut LogGuard<'_, 'p, J>,
    number: usize,
    from: usize,
    task: &Task<'p>,
)
    requires { IsOwnTask J.job task.now }
{
    log_guard.taken(number, from, task.path());
}

/// Records that a worker continues with an owner after its finish.
fn note_resume<'p, J: Running + Recording>(
    log_guard: &mut LogGuard<'_, 'p, J>,
    number: usize,
    task: &Task<'p>,
    faults: u64,
)
    requires { IsOwnTask J.job task.now }
{
    log_guard.resumed(number, task.path(), faults);
}

// ---- tasks

/// Continues an owner of the run whose scope passes. Also returns the number of faults that the
/// scope has gathered.
#[inline(never)]
fn passed<'p, J: Running>(
    owner: Box<Parked<'p>>,
    results: Vec<TaskResult>,
) -> Result<(Next<'p>, u64), Trouble>
    requires own { IsOwnLeaving J.job owner.value results.items }
    ensures next { IfOk result (λ r. IsOwnNext J.job r.0) }
    ensures cause { IfErr result (Happens J.job) }
    ensures unsettled { IfErr result (IsOfResults owner.entry.value results.items) }
{
    pass(owner, results)
}

impl<'p, J: Running + Recording + Send + Sync, G: Gate + Sync> Crew for Shared<'p, J, G> {
    type Kit = WorkerParts<'p, J>;

    type Report = Report;

    ghost fits = { λ f k. HasSeat f.tickets f.settings.tasks k.state.seat };

    ghost told = { λ f r. Tells J.job f.tickets f.job f.settings.tasks r };

    fn work<R: Wait>(&self, rt: &R, parts: WorkerParts<'p, J>) -> Report {
        let WorkerParts {
            state,
            mut tasks,
            first,
        } = parts;
        let WorkerState {
            number,
            parker,
            seat,
        } = state;
        let mut state = WorkerAtWork {
            number,
            parker,
            seat,
            rooms: TaskRooms::new(self.job.alloc),
            runs_whole: true,
        };
        let told = self.main_loop(rt, &mut state, &mut tasks, first);
        let silent = match &told {
            Ok(None) => true,
            _ => false,
        };
        let is_first = !silent && self.end_run(rt);
        Report {
            told,
            is_first,
            seat: state.seat,
        }
    }

    fn call_off(&self) {
        self.pool.end();
    }
}
