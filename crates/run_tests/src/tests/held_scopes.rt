//! A run in which a worker holds the lock of a scope for long: it stops no other worker.

use crate::tests::logged_runs::logged;
use crate::tests::threads::{Turns, is_at, settings, told, waited_for};
use crate::tests::{accepted, compare};
use std::sync::atomic::{AtomicBool, Ordering};
use types::input::Input;
use types::path::Path;
use weighted_task::task::Task;
use workers::gate::Gate;

/// The root opens the scopes of 0.1, 0.2, 0.3 and 0.4, one after the other. The first two are on the
/// shelf of the worker that starts with the root.
const FOUR_SCOPES: &str = "main { finish {
  async { skip; }
  finish { async { skip; } }
  finish { async { skip; } }
  finish { async { skip; } }
} }";

const FIRST: Turns = &[1];

const SECOND: Turns = &[2];

const FOURTH: Turns = &[4];

/// The gate of a run on two workers, in which 0.1 and 0.2 start at the same time. As soon as the
/// worker of 0.1 holds the lock of the scope of 0.1, that of 0.2 continues: it completes the scope
/// of 0.2 and resumes the root, which opens the scope of 0.3. That one is opened, completed and
/// resumed by this worker alone. Then the root starts 0.4, and only now the lock is given back.
#[derive(Drop)]
struct Meeting {
    first_is_in: AtomicBool,
    second_is_in: AtomicBool,
    is_held: AtomicBool,
    fourth_is_in: AtomicBool,
    gave_up: AtomicBool,
}

impl Meeting {
    fn new() -> Meeting {
        Meeting {
            first_is_in: AtomicBool::new(false),
            second_is_in: AtomicBool::new(false),
            is_held: AtomicBool::new(false),
            fourth_is_in: AtomicBool::new(false),
            gave_up: AtomicBool::new(false),
        }
    }

    fn wait_for(&self, flag: &AtomicBool) {
        if !waited_for(flag) {
            self.gave_up.store(true, Ordering::SeqCst);
        }
    }

    /// Keeps the caller's lock if 0.1 and 0.2 have started. Then only the worker of 0.1 can be the
    /// caller: the other one waits in the gate. All later calls return at once.
    fn keep(&self) {
        let both_are_in = self.first_is_in.load(Ordering::SeqCst)
            && self.second_is_in.load(Ordering::SeqCst);
        if both_are_in && !self.is_held.swap(true, Ordering::SeqCst) {
            self.wait_for(&self.fourth_is_in);
        }
    }
}

impl Gate for Meeting {
    ghost wants = { ⊥ };

    fn wants_paths() -> bool {
        false
    }

    fn observes_all() -> bool {
        true
    }

    fn enter(&self, task: &Task<'_>) {
        if is_at(task.path(), FIRST) {
            self.first_is_in.store(true, Ordering::SeqCst);
            self.wait_for(&self.second_is_in);
        }
        if is_at(task.path(), SECOND) {
            self.second_is_in.store(true, Ordering::SeqCst);
            self.wait_for(&self.is_held);
        }
        if is_at(task.path(), FOURTH) {
            self.fourth_is_in.store(true, Ordering::SeqCst);
        }
    }

    fn leave(&self, _path: Option<&Path>) {}

    fn hold(&self) {
        self.keep();
    }
}

#[test]
fn a_scope_that_is_held_stops_no_other(rt: HostRuntime) {
    let alloc = rt.alloc();
    let meeting = Meeting::new();
    let said = told(
        &rt,
        alloc,
        FOUR_SCOPES,
        settings(&rt, 65_536, 8, 2),
        &meeting,
    );
    let want = "Ended { arrays: [], lines: [], faults: [] }";
    compare(&rt, alloc, "four scopes", said.as_str(), want);
    assert!(rt; meeting.is_held.load(Ordering::SeqCst), "no scope was held");
    assert!(rt;
        !meeting.gave_up.load(Ordering::SeqCst),
        "while one scope was held, no other was opened, completed and resumed"
    );
}

#[test]
fn a_gate_that_waits_stops_no_record(rt: HostRuntime) {
    let alloc = rt.alloc();
    let meeting = Meeting::new();
    let program = accepted(&rt, alloc, FOUR_SCOPES);
    let input = Input::zeros(alloc, program.typed()).expect(&rt, "memory");
    let settings = settings(&rt, 65_536, 8, 2);
    let (_, log) = logged(&rt, alloc, (&program, &input), settings, &meeting);
    assert!(rt; !log.events().is_empty(), "nothing was recorded");
    assert!(rt; meeting.is_held.load(Ordering::SeqCst), "no scope was held");
    assert!(rt;
        !meeting.gave_up.load(Ordering::SeqCst),
        "while a worker was in the gate, the other one could record nothing"
    );
}
