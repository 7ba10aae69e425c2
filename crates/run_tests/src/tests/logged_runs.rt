//! Logged runs: what the workers did is legal, in a possible order, and has the right numbers.

ghost use Rattle.types.specs.Contents.{FitsArrays};
ghost use Rattle.types.specs.Translation.{input as lists_in};
ghost use Rattle.types.specs.Typed.{code_of};

use crate::tests::threads::{Holding, TWO_TASKS, Turns};
use crate::tests::worlds::{FOUR, HALVES, NESTED, STOPPING, THREE};
use crate::tests::{FAULTS, TWO_ARRAYS, accepted, compare, one_thread_outcome, path};
use events::event::Event;
use race_checker::accepted::Accepted;
use std::alloc::Global;
use std::process::Abort;
use std::sync::Wait;
use std::thread::Threads;
use trace::log::Log;
use trace_text::read::read_lines;
use trace_text::write::{fits, write_lines};
use types::budget::Budget;
use types::input::Input;
use types::outcome::Outcome;
use types::scope_id::ScopeId;
use workers::gate::{Gate, NoGate};
use workers::run::run;
use workers::settings::{Settings, header_of};

/// A hundred tasks in one finish.
const MANY: &str =
    "main { var k = 0; finish { while k < 100 { async { skip; } k = k + 1; } } print k; }";

/// Ten thousand of them.
const TEN_THOUSAND: &str =
    "main { var k = 0; finish { while k < 10000 { async { skip; } k = k + 1; } } }";

/// A task whose child may finish after it.
const OUTLIVED: &str = "main { finish { async { async { skip; } } } }";

/// A program, a task that is held, and the task that it waits for.
const ROWS: [(&str, Turns, Turns); 3] = [
    (TWO_TASKS, &[1], &[2]),
    (TWO_TASKS, &[2], &[1]),
    (OUTLIVED, &[1, 1], &[1]),
];

/// Returns the outcome and the log of a run.
pub fn logged<'p>(
    rt: &(impl Abort + Threads + Wait + Sync),
    alloc: Global,
    of: (&'p Accepted, &'p Input),
    settings: Settings,
    gate: &'p (impl Gate + Sync),
) -> (Outcome, Log<'p>)
    requires { FitsArrays (code_of of.0.now.typed).arrays (lists_in of.1.now) }
{
    let (program, input) = of;
    let log = Log::new(alloc, &header_of(settings), program, input).expect(rt, "memory");
    let told = run(rt, alloc, program, input, settings, gate, Some(log));
    let (finished, log) = told.expect(rt, "an outcome");
    (finished.outcome, log.expect(rt, "the log"))
}

/// Returns settings with this number of workers.
fn settings(rt: &impl Abort, budget: Budget, w0: u64, workers: u64) -> Settings {
    Settings::new(budget, 65_536, w0, workers).expect(rt, "settings")
}

/// Returns a path's scope with this number.
fn scope(rt: &impl Abort, alloc: Global, owner: Turns, number: u32) -> ScopeId {
    ScopeId {
        owner: path(rt, alloc, owner),
        number,
    }
}

/// Returns the first position of an event.
fn place_of(rt: &impl Abort, events: &[Event], event: &Event) -> usize {
    events
        .iter()
        .position(|other| *other == *event)
        .expect(rt, "the event")
}

#[test]
fn what_workers_do_is_legal(rt: HostRuntime) {
    let alloc = rt.alloc();
    let budget = Budget::new(400, 100).expect(&rt, "a budget");
    for text in [TWO_ARRAYS, HALVES, FAULTS, NESTED, STOPPING, MANY] {
        let program = accepted(&rt, alloc, text);
        let input = Input::zeros(alloc, program.typed()).expect(&rt, "memory");
        let want = one_thread_outcome(&rt, alloc, &program, budget);
        for workers in [1, 4, 64] {
            for w0 in [1, 4_294_967_296] {
                let settings = settings(&rt, budget, w0, workers);
                let (outcome, log) = logged(&rt, alloc, (&program, &input), settings, &NoGate);
                let outcome = format!(in alloc; "{outcome:?}").expect(&rt, "memory");
                compare(&rt, alloc, text, outcome.as_str(), want.as_str());
                let header = header_of(settings);
                assert!(rt; fits(&header, log.events()), "{text} is another format");
                let lines = write_lines(alloc, &header, log.events());
                let lines = lines.expect(&rt, "memory");
                let (_, events) = read_lines(alloc, lines.as_str()).expect(&rt, "a trace");
                assert!(rt;
                    events.as_slice() == log.events(),
                    "{text} is read otherwise"
                );
                let told = log.world().outcome().expect(&rt, "an end");
                let told = format!(in alloc; "{told:?}").expect(&rt, "memory");
                compare(&rt, alloc, text, told.as_str(), want.as_str());
            }
        }
    }
}

/// Returns the positions of the ends of two tasks in a run of two workers. The first task is held
/// until the other has left.
fn ends(
    rt: &(impl Abort + Threads + Wait + Sync),
    alloc: Global,
    text: &str,
    held: Turns,
    awaited: Turns,
) -> (usize, usize, usize) {
    let program = accepted(rt, alloc, text);
    let input = Input::zeros(alloc, program.typed()).expect(rt, "memory");
    let gate = Holding::new(held, awaited);
    let settings = settings(rt, Budget::usual(), 8, 2);
    let (_, log) = logged(rt, alloc, (&program, &input), settings, &gate);
    assert!(*rt; !gate.gave_up(), "{held:?} waited in vain for {awaited:?}");
    let end_of = |turns: Turns| {
        let path = path(rt, alloc, turns);
        place_of(rt, log.events(), &Event::End { path })
    };
    let scope = scope(rt, alloc, &[], 1);
    let passes = place_of(rt, log.events(), &Event::Pass { scope });
    (end_of(awaited), end_of(held), passes)
}

#[test]
fn a_gate_shows_in_the_order_of_events(rt: HostRuntime) {
    let alloc = rt.alloc();
    for (text, held, awaited) in ROWS {
        let (first, second, passes) = ends(&rt, alloc, text, held, awaited);
        assert!(rt;
            first < second && second < passes,
            "{awaited:?} ended at {first}, {held:?} at {second}, the finish passed at {passes}"
        );
    }
}

/// Returns what the scope of the root's first finish has issued and got back, and the number of
/// replenishments of a run.
fn book(
    rt: &(impl Abort + Threads + Wait + Sync),
    alloc: Global,
    text: &str,
    w0: u64,
    workers: u64,
) -> (Option<(u64, u64)>, usize) {
    let program = accepted(rt, alloc, text);
    let input = Input::zeros(alloc, program.typed()).expect(rt, "memory");
    let settings = settings(rt, Budget::usual(), w0, workers);
    let (_, log) = logged(rt, alloc, (&program, &input), settings, &NoGate);
    let replenishings = log
        .events()
        .iter()
        .filter(|event| matches!(event, Event::Replenish { .. }))
        .count();
    let book = log.world().book(&scope(rt, alloc, &[], 1));
    (book, replenishings)
}

#[test]
fn a_book_tells_how_much_weight_was_issued(rt: HostRuntime) {
    let alloc = rt.alloc();
    let (told, replenishings) = book(&rt, alloc, TEN_THOUSAND, 1, 1);
    assert_eq!(rt; told, Some((10_001, 10_001)));
    assert_eq!(rt; replenishings, 10_000);
    let (told, replenishings) = book(&rt, alloc, TEN_THOUSAND, 4_294_967_296, 1);
    assert_eq!(rt; told, Some((1_305_670_057_984, 1_305_670_057_984)));
    assert_eq!(rt; replenishings, 303);
}

/// Three tasks and four, the weight that a scope issues at a time, how much it has issued and got
/// back, and the number of replenishments. Only the owner spawns tasks, so these numbers are the
/// same on any number of workers.
const FEW_TASKS: [(&str, u64, u64, usize); 2] = [(THREE, 1, 4, 3), (FOUR, 8, 16, 1)];

#[test]
fn a_book_of_few_tasks_is_the_same_on_any_number_of_workers(rt: HostRuntime) {
    let alloc = rt.alloc();
    for (text, w0, issued, times) in FEW_TASKS {
        for workers in [1, 2, 8, 64] {
            let (told, replenishings) = book(&rt, alloc, text, w0, workers);
            assert_eq!(rt; told, Some((issued, issued)), "{workers} workers");
            assert_eq!(rt; replenishings, times, "{workers} workers");
        }
    }
}
