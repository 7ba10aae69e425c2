//! Worlds that lists of events lead to, and random walks.

use crate::tests::{FAULTS, TWO_ARRAYS, accepted, compare, one_thread_outcome, path};
use event_worlds::job::WeightedJob;
use event_worlds::replay::replay;
use event_worlds::walk::random_walk;
use events::event::Event;
use events::worker_id::WorkerId;
use race_checker::accepted::Accepted;
use std::alloc::Global;
use std::process::Abort;
use std::thread::Threads;
use trace::log::Log;
use trace_text::format::Format;
use trace_text::header::Header;
use types::budget::Budget;
use types::input::Input;
use types::outcome::Outcome;
use types::path::Path;
use types::scope_id::ScopeId;

/// The turns of a task's path.
type Turns = &'static [u32];

/// What happens to a task, or to its scope with this number.
#[derive(Clone, Copy)]
enum Happens {
    Take(u32),
    Steal(u32, u32),
    Step,
    Replenish,
    Spawn,
    Open,
    Park,
    End,
    Pass(u32),
    Resume(u32),
}

use Happens::{End, Open, Park, Pass, Replenish, Resume, Spawn, Steal, Step, Take};

/// What happens, and the path of its task.
type Of = (Happens, Turns);

/// Returns the event of what happens.
fn event(rt: &impl Abort, happens: Happens, path: Path) -> Event {
    match happens {
        Take(number) => Event::Take {
            worker: worker(rt, number),
            path,
        },
        Steal(number, from) => Event::Steal {
            worker: worker(rt, number),
            from: worker(rt, from),
            path,
        },
        Step => Event::Step { path },
        Replenish => Event::Replenish { path },
        Spawn => Event::Spawn { path },
        Open => Event::Open { path },
        Park => Event::Park { path },
        End => Event::End { path },
        Pass(number) => Event::Pass {
            scope: ScopeId {
                owner: path,
                number,
            },
        },
        Resume(number) => Event::Resume {
            worker: worker(rt, number),
            path,
            faults: None,
        },
    }
}

/// Returns an event as a run records it: no finish of a row gathers a fault.
fn with_number(event: Event) -> Event {
    match event {
        Event::Resume { worker, path, .. } => Event::Resume {
            worker,
            path,
            faults: Some(0),
        },
        event => event,
    }
}

/// Returns a worker of a row.
fn worker(rt: &impl Abort, number: u32) -> WorkerId {
    WorkerId::new(number).expect(rt, "a worker")
}

/// Returns the events of several pieces of a row.
fn events(rt: &impl Abort, alloc: Global, pieces: &[&[Of]]) -> Vec<Event> {
    let mut events = Vec::new(alloc);
    for piece in pieces {
        for (happens, turns) in *piece {
            let event = event(rt, *happens, path(rt, alloc, turns));
            events.push(event).expect(rt, "memory");
        }
    }
    events
}

const ROOT: Turns = &[];

const FIRST: Turns = &[1];

const SECOND: Turns = &[2];

const THIRD: Turns = &[3];

const FOURTH: Turns = &[4];

/// One worker in the program with two arrays, up to the spawn of the task that writes the first
/// array.
const BEGIN: &[Of] = &[(Take(0), ROOT), (Open, ROOT), (Spawn, ROOT)];

/// First the root and then the task continue in the first worker's hand, and the finish ends.
const GO_ON: &[Of] = &[
    (Step, ROOT),
    (Park, ROOT),
    (Take(0), FIRST),
    (Step, FIRST),
    (End, FIRST),
    (Pass(1), ROOT),
    (Resume(0), ROOT),
];

/// After the finish.
const END: &[Of] = &[(Step, ROOT), (Park, ROOT), (Pass(0), ROOT)];

pub(crate) const THREE: &str =
    "main { finish { async { skip; } async { skip; } async { skip; } } }";

pub(crate) const FOUR: &str =
    "main { finish { async { skip; } async { skip; } async { skip; } async { skip; } } }";

/// With weight 1 each async needs more.
const SPAWN_THREE: &[Of] = &[
    (Take(0), ROOT),
    (Open, ROOT),
    (Replenish, ROOT),
    (Spawn, ROOT),
    (Replenish, ROOT),
    (Spawn, ROOT),
    (Replenish, ROOT),
    (Spawn, ROOT),
];

/// With weight 8 the fourth does, if the first has been spawned.
const SPAWN_MORE: &[Of] = &[
    (Spawn, ROOT),
    (Spawn, ROOT),
    (Replenish, ROOT),
    (Spawn, ROOT),
];

/// The parent waits, and its tasks finish after it.
const PARK: &[Of] = &[(Park, ROOT)];

const END_FIRST: &[Of] = &[(Take(0), FIRST), (Step, FIRST), (End, FIRST)];

const END_SECOND: &[Of] = &[(Take(0), SECOND), (Step, SECOND), (End, SECOND)];

const END_THIRD: &[Of] = &[(Take(0), THIRD), (Step, THIRD), (End, THIRD)];

const END_FOURTH: &[Of] = &[(Take(0), FOURTH), (Step, FOURTH), (End, FOURTH)];

const PASS_FIRST: &[Of] = &[(Pass(1), ROOT)];

/// A program on zeros, the weight that a scope issues at a time, events in pieces, and the result:
/// the book of the root's first finish and the printed lines, or which event isn't legal.
type Row = (&'static str, u64, &'static [&'static [Of]], &'static str);

const ROWS: &[Row] = &[
    (TWO_ARRAYS, 8, &[BEGIN, GO_ON, END], "8 8 [[7, 8]]"),
    (TWO_ARRAYS, 8, &[BEGIN, GO_ON], "8 8 none"),
    (TWO_ARRAYS, 8, &[BEGIN], "8 0 none"),
    (
        TWO_ARRAYS,
        8,
        &[&[(Take(0), ROOT), (Open, ROOT), (Park, ROOT)]],
        "IllegalAt(2)",
    ),
    (
        TWO_ARRAYS,
        8,
        &[&[(Take(0), ROOT), (Open, ROOT), (Pass(1), ROOT)]],
        "IllegalAt(2)",
    ),
    (
        TWO_ARRAYS,
        8,
        &[BEGIN, &[(Steal(1, 0), FIRST), (Take(1), FIRST)]],
        "8 0 none",
    ),
    (
        TWO_ARRAYS,
        8,
        &[BEGIN, &[(Steal(1, 1), FIRST)]],
        "IllegalAt(3)",
    ),
    (
        TWO_ARRAYS,
        8,
        &[BEGIN, &[(Steal(0, 0), FIRST)]],
        "IllegalAt(3)",
    ),
    (TWO_ARRAYS, 8, &[BEGIN, &[(Take(0), FIRST)]], "IllegalAt(3)"),
    (TWO_ARRAYS, 8, &[BEGIN, GO_ON, END, END], "IllegalAt(13)"),
    (TWO_ARRAYS, 8, &[&[(Take(0), FIRST)]], "IllegalAt(0)"),
    (THREE, 1, &[SPAWN_THREE], "4 0 none"),
    (
        THREE,
        1,
        &[
            SPAWN_THREE,
            PARK,
            END_FIRST,
            END_SECOND,
            END_THIRD,
            PASS_FIRST,
        ],
        "4 4 none",
    ),
    (THREE, 1, &[SPAWN_THREE, PASS_FIRST], "IllegalAt(8)"),
    (FOUR, 8, &[BEGIN, SPAWN_MORE], "16 0 none"),
    (
        FOUR,
        8,
        &[
            BEGIN, SPAWN_MORE, PARK, END_FIRST, END_SECOND, END_THIRD, PASS_FIRST,
        ],
        "IllegalAt(17)",
    ),
    (
        FOUR,
        8,
        &[
            BEGIN, SPAWN_MORE, PARK, END_FIRST, END_SECOND, END_THIRD, END_FOURTH, PASS_FIRST,
        ],
        "16 16 none",
    ),
];

/// Returns the result after the events of a row: the book of the root's first finish, and the
/// printed lines.
fn told(rt: &(impl Abort + Threads + Sync), alloc: Global, row: Row) -> String {
    let (text, w0, pieces, _) = row;
    let program = accepted(rt, alloc, text);
    let input = Input::zeros(alloc, program.typed()).expect(rt, "memory");
    let job = WeightedJob::new(alloc, &program, &input, Budget::usual(), w0).expect(rt, "a weight");
    let events = events(rt, alloc, pieces);
    let world = match replay(job, &events) {
        Ok(world) => world,
        Err(error) => return format!(in alloc; "{error:?}").expect(rt, "memory"),
    };
    let finish = ScopeId {
        owner: path(rt, alloc, ROOT),
        number: 1,
    };
    let (issued, returned) = world.book(&finish).expect(rt, "a finish");
    let lines = match world.outcome() {
        Some(Outcome::Ended { lines, .. }) => format!(in alloc; "{lines:?}"),
        Some(Outcome::Stopped) => String::from_str(alloc, "stopped"),
        None => String::from_str(alloc, "none"),
    };
    let lines = lines.expect(rt, "memory");
    format!(in alloc; "{issued} {returned} {lines}").expect(rt, "memory")
}

#[test]
fn events_are_legal_or_the_first_that_is_not_is_told(rt: HostRuntime) {
    let alloc = rt.alloc();
    for row in ROWS {
        let (text, _, _, want) = *row;
        let told = told(&rt, alloc, *row);
        compare(&rt, alloc, text, told.as_str(), want);
    }
}

/// Records the events of a row one by one. Returns the error and its number, or `legal`.
fn recorded(rt: &(impl Abort + Threads + Sync), alloc: Global, row: Row) -> String {
    let (text, w0, pieces, _) = row;
    let program = accepted(rt, alloc, text);
    let input = Input::zeros(alloc, program.typed()).expect(rt, "memory");
    let header = Header::new(Format::Two, Budget::usual(), w0, 64).expect(rt, "a header");
    let mut log = Log::new(alloc, &header, &program, &input).expect(rt, "memory");
    for event in events(rt, alloc, pieces) {
        let number = log.events().len();
        if let Err(error) = log.record(with_number(event)) {
            assert!(rt; log.events().len() == number, "{text} has another log");
            return format!(in alloc; "{error:?}At({number})").expect(rt, "memory");
        }
    }
    String::from_str(alloc, "legal").expect(rt, "memory")
}

#[test]
fn a_log_rejects_the_same_events(rt: HostRuntime) {
    let alloc = rt.alloc();
    for row in ROWS {
        let (text, _, _, want) = *row;
        let want = if want.starts_with("IllegalAt") {
            want
        } else {
            "legal"
        };
        let told = recorded(&rt, alloc, *row);
        compare(&rt, alloc, text, told.as_str(), want);
    }
}

#[test]
fn weights_are_halved_and_issued(rt: HostRuntime) {
    let alloc = rt.alloc();
    let program = accepted(&rt, alloc, FOUR);
    let input = Input::zeros(alloc, program.typed()).expect(&rt, "memory");
    let job = WeightedJob::new(alloc, &program, &input, Budget::usual(), 8).expect(&rt, "a weight");
    let events = events(&rt, alloc, &[BEGIN, SPAWN_MORE]);
    let world = replay(job, &events).expect(&rt, "legal events");
    for (turns, want) in [(FIRST, 4), (SECOND, 2), (THIRD, 1), (FOURTH, 4), (ROOT, 5)] {
        let weight = world.weight(&path(&rt, alloc, turns));
        assert!(rt; weight == Some(want), "the weight of {turns:?}");
    }
}

/// Doubles each of 16 elements, half by half, each left half in a task.
pub(crate) const HALVES: &str = "proc twice(mut s: int) {
  if len(s) <= 1 { s[0] = s[0] * 2 + 1; }
  else { split s at len(s) / 2 as l, r { async { twice(l); } twice(r); } }
}
main { array a: int[16]; finish { twice(a); } print a[0], a[15]; }";

pub(crate) const NESTED: &str = "main { array a: int[2]; array b: int[1];
  async { finish { async { a[0] = 1; async { b[0] = 3; } } } print a[0]; async { a[1] = 2; } }
  finish { finish { async { print 4; } } async { print 5; } } print 9; }";

pub(crate) const STOPPING: &str =
    "main { finish { async { while true { skip; } } async { print 1; } } print 2; }";

#[test]
fn walks_come_to_the_one_thread_outcome(rt: HostRuntime) {
    let alloc = rt.alloc();
    let budget = Budget::new(60, 100).expect(&rt, "a budget");
    for text in [HALVES, FAULTS, NESTED, STOPPING] {
        let program = accepted(&rt, alloc, text);
        let input = Input::zeros(alloc, program.typed()).expect(&rt, "memory");
        let one_thread = one_thread_outcome(&rt, alloc, &program, budget);
        for seed in 0..50u32 {
            let workers = seed * 9 % 64 + 1;
            let job = WeightedJob::new(alloc, &program, &input, budget, u64::from(seed % 9 + 1));
            let job = job.expect(&rt, "a weight");
            let walk = random_walk(job, workers, u64::from(seed), 1_000_000).expect(&rt, "memory");
            let outcome = walk.world.outcome().expect(&rt, "an end");
            compare(
                &rt,
                alloc,
                format_args!("walk {seed} of {text}"),
                format_args!("{outcome:?}"),
                one_thread.as_str(),
            );
        }
    }
}

/// Returns the events of a random walk on zeros, with four workers.
fn walked(rt: &impl Abort, alloc: Global, program: &Accepted, seed: u64) -> Vec<Event> {
    let budget = Budget::new(60, 100).expect(rt, "a budget");
    let input = Input::zeros(alloc, program.typed()).expect(rt, "memory");
    let job = WeightedJob::new(alloc, program, &input, budget, 2).expect(rt, "a weight");
    let walk = random_walk(job, 4, seed, 1_000_000).expect(rt, "memory");
    walk.events
}

#[test]
fn walks_depend_on_their_seeds(rt: HostRuntime) {
    let alloc = rt.alloc();
    for text in [HALVES, FAULTS, NESTED] {
        let program = accepted(&rt, alloc, text);
        let first = walked(&rt, alloc, &program, 0);
        let mut others = 0u32;
        for seed in 1..50u64 {
            if walked(&rt, alloc, &program, seed) != first {
                others = others.saturating_add(1);
            }
        }
        assert!(rt; others > 24, "{others} of 49 walks of {text} differ");
        let again = walked(&rt, alloc, &program, 0);
        assert!(rt; again == first, "two walks of {text} with one seed");
    }
}
