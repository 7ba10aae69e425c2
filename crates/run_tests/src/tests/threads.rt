//! Workers: several work at once, each task passes the gate once, and gates change no outcome.

ghost use Rattle.types.specs.Contents.{FitsArrays};
ghost use Rattle.types.specs.Translation.{input as lists_in};
ghost use Rattle.types.specs.Typed.{code_of};

use crate::tests::worlds::{HALVES, THREE};
use crate::tests::{FAULTS, TWO_ARRAYS, accepted, compare, one_thread_outcome};
use finish_scope::inner::Inner;
use finish_scope::late::{Late, Reason};
use race_checker::accepted::Accepted;
use std::alloc::Global;
use std::hint::spin_loop;
use std::marker::Brand;
use std::process::Abort;
use std::sync::Wait;
use std::sync::atomic::{AtomicBool, AtomicU32, AtomicU64, Ordering};
use std::thread;
use std::thread::Threads;
use task_run::job::Job;
use tickets::Tickets;
use types::budget::Budget;
use types::input::Input;
use types::path::Path;
use weighted_task::task::Task;
use weights::book::MOST_ISSUES;
use workers::error::RunError;
use workers::gate::{Gate, NoGate};
use workers::reports::Finished;
use workers::run::{run, run_with};
use workers::settings::Settings;
use workers::word::Word;

/// The maximum number of looks of a task that waits for another.
const TURNS: u32 = 1_000_000;

const MANY_TASKS: &str =
    "main { var k = 0; finish { while k < 500 { async { skip; } k = k + 1; } } print k; }";

/// 2,046 tasks below the root, the deepest 10 inside one another.
const TREE: &str = "proc tree(n: int) { if n > 0 { async { tree(n - 1); } async { tree(n - 1); } } }
    main { finish { tree(10); } }";

pub(crate) const TWO_TASKS: &str = "main { finish { async { skip; } async { skip; } } }";

/// The outcome of tasks that do nothing.
const NOTHING: &str = "Ended { arrays: [], lines: [], faults: [] }";

/// The number of turns for which a slow gate spins.
const SLOW_TURNS: u32 = 5_000;

/// The turns of a task's path.
pub(crate) type Turns = &'static [u32];

/// A task that is held, and the one that it waits for. One worker alone would run both, in one of
/// the two orders.
pub(crate) const HELD: [(Turns, Turns); 2] = [(&[1], &[2]), (&[2], &[1])];

/// A gate that holds one task until another one has left.
#[derive(Drop)]
pub(crate) struct Holding {
    held: Turns,
    awaited: Turns,
    has_left: AtomicBool,
    gave_up: AtomicBool,
}

impl Holding {
    /// Returns a gate that holds the one until the other has left.
    pub(crate) fn new(held: Turns, awaited: Turns) -> Holding {
        Holding {
            held,
            awaited,
            has_left: AtomicBool::new(false),
            gave_up: AtomicBool::new(false),
        }
    }

    /// Returns whether it waited without success.
    pub(crate) fn gave_up(&self) -> bool {
        self.gave_up.load(Ordering::SeqCst)
    }
}

impl Gate for Holding {
    ghost wants = { Unit {0} };

    fn wants_paths() -> bool {
        true
    }

    fn observes_all() -> bool {
        true
    }

    fn enter(&self, task: &Task<'_>) {
        if is_at(task.path(), self.held) && !waited_for(&self.has_left) {
            self.gave_up.store(true, Ordering::SeqCst);
        }
    }

    fn leave(&self, path: Option<&Path>) {
        if let Some(path) = path {
            if is_at(path, self.awaited) {
                self.has_left.store(true, Ordering::SeqCst);
            }
        }
    }

    fn hold(&self) {}
}

/// Returns whether a path has these turns.
pub(crate) fn is_at(path: &Path, turns: Turns) -> bool {
    path.turns.len() == turns.len()
        && path
            .turns
            .iter()
            .zip(turns)
            .all(|(turn, number)| turn.get() == *number)
}

/// A gate that counts the tasks that pass.
#[derive(Drop)]
struct Counting {
    entered: AtomicU32,
    left: AtomicU32,
}

impl Gate for Counting {
    ghost wants = { ⊥ };

    fn wants_paths() -> bool {
        false
    }

    fn observes_all() -> bool {
        true
    }

    fn enter(&self, _task: &Task<'_>) {
        self.entered.fetch_add(1, Ordering::SeqCst);
    }

    fn leave(&self, _path: Option<&Path>) {
        self.left.fetch_add(1, Ordering::SeqCst);
    }

    fn hold(&self) {}
}

/// A gate that counts the tasks that leave, and lets tasks run whole.
#[derive(Drop)]
struct Leaving {
    left: AtomicU32,
}

impl Gate for Leaving {
    ghost wants = { ⊥ };

    fn wants_paths() -> bool {
        false
    }

    fn observes_all() -> bool {
        false
    }

    fn enter(&self, _task: &Task<'_>) {}

    fn leave(&self, _path: Option<&Path>) {
        self.left.fetch_add(1, Ordering::SeqCst);
    }

    fn hold(&self) {}
}

/// A gate that holds 0.1 until two other tasks have left.
#[derive(Drop)]
struct HoldingFirst {
    left: AtomicU32,
    both_have_left: AtomicBool,
    gave_up: AtomicBool,
}

impl Gate for HoldingFirst {
    ghost wants = { Unit {0} };

    fn wants_paths() -> bool {
        true
    }

    fn observes_all() -> bool {
        true
    }

    fn enter(&self, task: &Task<'_>) {
        if is_at(task.path(), &[1]) && !waited_for(&self.both_have_left) {
            self.gave_up.store(true, Ordering::SeqCst);
        }
    }

    fn leave(&self, path: Option<&Path>) {
        if let Some(path) = path {
            if !is_at(path, &[1]) && self.left.fetch_add(1, Ordering::SeqCst) == 1 {
                self.both_have_left.store(true, Ordering::SeqCst);
            }
        }
    }

    fn hold(&self) {}
}

/// A gate that yields 0 to 3 times, by numbers that look random.
#[derive(Drop)]
struct Yielding {
    drawn: AtomicU64,
}

impl Yielding {
    fn pass(&self) {
        let number = self
            .drawn
            .fetch_add(0x9E37_79B9_7F4A_7C15, Ordering::SeqCst);
        for _ in 0..number >> 62 {
            thread::yield_now();
        }
    }
}

impl Gate for Yielding {
    ghost wants = { ⊥ };

    fn wants_paths() -> bool {
        false
    }

    fn observes_all() -> bool {
        true
    }

    fn enter(&self, _task: &Task<'_>) {
        self.pass();
    }

    fn leave(&self, _path: Option<&Path>) {
        self.pass();
    }

    fn hold(&self) {
        self.pass();
    }
}

/// A gate that takes its time, also while a scope is locked.
struct Slow;

impl Slow {
    fn pass(&self) {
        for _ in 0..SLOW_TURNS {
            spin_loop();
        }
    }
}

impl Gate for Slow {
    ghost wants = { ⊥ };

    fn wants_paths() -> bool {
        false
    }

    fn observes_all() -> bool {
        true
    }

    fn enter(&self, _task: &Task<'_>) {
        self.pass();
    }

    fn leave(&self, _path: Option<&Path>) {
        self.pass();
    }

    fn hold(&self) {
        self.pass();
    }
}

/// Returns whether a flag was set before the last look.
pub(crate) fn waited_for(flag: &AtomicBool) -> bool {
    for _ in 0..TURNS {
        if flag.load(Ordering::SeqCst) {
            return true;
        }
        thread::yield_now();
    }
    false
}

/// Returns what a run without a log reports.
fn unlogged<'p>(
    rt: &(impl Abort + Threads + Wait + Sync),
    alloc: Global,
    of: (&'p Accepted, &'p Input),
    settings: Settings,
    gate: &'p (impl Gate + Sync),
) -> Result<Finished, RunError>
    requires { FitsArrays (code_of of.0.now.typed).arrays (lists_in of.1.now) }
{
    let (program, input) = of;
    match run(rt, alloc, program, input, settings, gate, None) {
        Ok((finished, _)) => Ok(finished),
        Err(error) => Err(error),
    }
}

/// Returns the outcome of a program on zeros, or the code of the error.
pub(crate) fn told(
    rt: &(impl Abort + Threads + Wait + Sync),
    alloc: Global,
    text: &str,
    settings: Settings,
    gate: &(impl Gate + Sync),
) -> String {
    let program = accepted(rt, alloc, text);
    let input = Input::zeros(alloc, program.typed()).expect(rt, "memory");
    let said = match unlogged(rt, alloc, (&program, &input), settings, gate) {
        Ok(finished) => format!(in alloc; "{:?}", finished.outcome),
        Err(error) => format!(in alloc; "{}", error.code()),
    };
    said.expect(rt, "memory")
}

/// Returns settings with a default budget.
pub(crate) fn settings(rt: &impl Abort, tasks: u64, w0: u64, workers: u64) -> Settings {
    Settings::new(Budget::usual(), tasks, w0, workers).expect(rt, "settings")
}

#[test]
fn two_workers_really_work(rt: HostRuntime) {
    let alloc = rt.alloc();
    for (held, awaited) in HELD {
        let gate = Holding::new(held, awaited);
        let said = told(&rt, alloc, TWO_TASKS, settings(&rt, 65_536, 8, 2), &gate);
        compare(&rt, alloc, "two tasks", said.as_str(), NOTHING);
        assert!(rt; !gate.gave_up(), "{held:?} waited in vain for {awaited:?}");
    }
}

#[test]
fn a_task_that_is_held_stops_no_other(rt: HostRuntime) {
    let alloc = rt.alloc();
    let gate = HoldingFirst {
        left: AtomicU32::new(0),
        both_have_left: AtomicBool::new(false),
        gave_up: AtomicBool::new(false),
    };
    let said = told(&rt, alloc, THREE, settings(&rt, 65_536, 8, 2), &gate);
    compare(&rt, alloc, "three tasks", said.as_str(), NOTHING);
    assert!(rt;
        !gate.gave_up.load(Ordering::SeqCst),
        "0.1 waited in vain for 0.2 and 0.3"
    );
}

#[test]
fn gates_change_no_outcome(rt: HostRuntime) {
    let alloc = rt.alloc();
    for text in [TWO_ARRAYS, HALVES, FAULTS, THREE] {
        let program = accepted(&rt, alloc, text);
        let want = one_thread_outcome(&rt, alloc, &program, Budget::usual());
        for workers in [1, 2, 8] {
            let settings = settings(&rt, 65_536, 8, workers);
            let yielding = Yielding {
                drawn: AtomicU64::new(workers),
            };
            let said = told(&rt, alloc, text, settings, &yielding);
            compare(&rt, alloc, text, said.as_str(), want.as_str());
            let said = told(&rt, alloc, text, settings, &Slow);
            compare(&rt, alloc, text, said.as_str(), want.as_str());
        }
    }
}

#[test]
fn each_task_passes_the_gate_once(rt: HostRuntime) {
    let alloc = rt.alloc();
    for workers in [1, 2, 8, 64] {
        let gate = Counting {
            entered: AtomicU32::new(0),
            left: AtomicU32::new(0),
        };
        told(
            &rt,
            alloc,
            MANY_TASKS,
            settings(&rt, 65_536, 8, workers),
            &gate,
        );
        let (entered, left) = (
            gate.entered.load(Ordering::SeqCst),
            gate.left.load(Ordering::SeqCst),
        );
        assert!(rt;
            entered == 500 && left == 500,
            "{entered} entered, {left} left"
        );
    }
}

#[test]
fn spare_tasks_run_whole(rt: HostRuntime) {
    let alloc = rt.alloc();
    let program = accepted(&rt, alloc, TREE);
    let input = Input::zeros(alloc, program.typed()).expect(&rt, "memory");
    for workers in [1, 2] {
        let gate = Leaving {
            left: AtomicU32::new(0),
        };
        let settings = settings(&rt, 65_536, 8, workers);
        let told = unlogged(&rt, alloc, (&program, &input), settings, &gate);
        let tasks = told.expect(&rt, "an outcome").tasks.number();
        let left = gate.left.load(Ordering::SeqCst);
        assert!(rt; tasks == 2_047, "{tasks} tasks");
        assert!(rt; left < 2_046, "{left} of them weren't in place");
    }
}

#[test]
fn as_many_tasks_as_allowed_end_a_run(rt: HostRuntime) {
    let alloc = rt.alloc();
    for workers in [1, 2, 8] {
        let said = told(&rt, alloc, TREE, settings(&rt, 2_047, 8, workers), &NoGate);
        compare(&rt, alloc, "as many as allowed", said.as_str(), NOTHING);
        let said = told(&rt, alloc, TREE, settings(&rt, 2_046, 8, workers), &NoGate);
        compare(&rt, alloc, "one too many", said.as_str(), "E2");
    }
}

#[test]
fn one_task_too_many_ends_a_run(rt: HostRuntime) {
    let alloc = rt.alloc();
    for workers in [1, 2, 8] {
        let said = told(&rt, alloc, TWO_TASKS, settings(&rt, 2, 8, workers), &NoGate);
        compare(&rt, alloc, "two of three tasks", said.as_str(), "E2");
    }
}

#[test]
fn tasks_are_counted(rt: HostRuntime) {
    let alloc = rt.alloc();
    let program = accepted(&rt, alloc, MANY_TASKS);
    let input = Input::zeros(alloc, program.typed()).expect(&rt, "memory");
    for workers in [1, 2, 8] {
        let settings = settings(&rt, 65_536, 8, workers);
        let told = run(&rt, alloc, &program, &input, settings, &NoGate, None);
        let (finished, _) = told.expect(&rt, "an outcome");
        let tasks = finished.tasks.number();
        assert!(rt; tasks == 501, "{tasks} tasks");
    }
}

#[test]
fn tasks_draw_from_the_given_word(rt: HostRuntime) {
    let alloc = rt.alloc();
    let program = accepted(&rt, alloc, MANY_TASKS);
    let input = Input::zeros(alloc, program.typed()).expect(&rt, "memory");
    for workers in [1, 2, 8] {
        let settings = settings(&rt, 65_536, 8, workers);
        let (tickets, seats) = Tickets::new(alloc, settings.workers).expect(&rt, "memory");
        let job = Job {
            alloc,
            accepted: &program,
            input: &input,
            budget: settings.budget,
        };
        let told = run_with(&rt, job, settings, Word { tickets, seats }, &NoGate, None);
        let (finished, _) = told.expect(&rt, "an outcome");
        let tasks = finished.tasks.number();
        assert!(rt; tasks == 501, "{tasks} tasks");
    }
}

#[test]
fn the_ticket_of_a_task_too_many_has_its_number(rt: HostRuntime) {
    let alloc = rt.alloc();
    let program = accepted(&rt, alloc, TWO_TASKS);
    let input = Input::zeros(alloc, program.typed()).expect(&rt, "memory");
    let settings = settings(&rt, 2, 8, 1);
    match unlogged(&rt, alloc, (&program, &input), settings, &NoGate) {
        Ok(_) => assert!(rt; false, "an outcome of two of three tasks"),
        Err(error) => match error {
            RunError::TooManyTasks(ticket) => {
                let number = ticket.number();
                assert!(rt; number == 2, "ticket {number}");
            }
            other => panic!(rt; "{}", other.code()),
        },
    }
}

#[test]
fn a_scope_issues_nothing_for_more_than_is_out(rt: HostRuntime) {
    let alloc = rt.alloc();
    let (mut inner, weight) = Inner::<Brand>::open(alloc, 8);
    let (_, more) = Inner::<Brand>::open(alloc, 9);
    match inner.replenish(more) {
        Ok(weight) => {
            weight.forfeit();
            assert!(rt; false, "a scope of weight 8 took a weight of 9");
        }
        Err(late) => {
            let Late { reason, back } = late;
            back.forfeit();
            match reason {
                Reason::NotDue(_) => {}
                Reason::IssuedTooOften(_) => assert!(rt; false, "another reason"),
            }
        }
    }
    weight.forfeit();
}

#[test]
fn a_scope_issues_weight_two_to_the_31_times(rt: HostRuntime) {
    let alloc = rt.alloc();
    let (mut inner, mut weight) = Inner::<Brand>::open(alloc, 1);
    for _ in 1..MOST_ISSUES {
        match inner.replenish(weight) {
            Ok(more) => weight = more,
            Err(late) => {
                let Late { reason: _, back } = late;
                back.forfeit();
                assert!(rt; false, "a scope refused before");
                return;
            }
        }
    }
    match inner.replenish(weight) {
        Ok(weight) => {
            weight.forfeit();
            assert!(rt; false, "a scope issued once too often");
        }
        Err(late) => {
            let Late { reason, back } = late;
            assert!(rt; back.units() == MOST_ISSUES, "another weight");
            back.forfeit();
            match reason {
                Reason::NotDue(_) => assert!(rt; false, "another reason"),
                Reason::IssuedTooOften(_) => {}
            }
        }
    }
}
