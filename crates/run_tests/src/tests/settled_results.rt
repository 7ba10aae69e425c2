//! Results that are combined by path, including cases in which one is missing, too many come, or
//! one owns other places than are listed for it.

use crate::tests::{accepted, compare, path};
use gather::settle::settle;
use holdings::holdings::Holdings;
use sections::id::ArrayId;
use sections::window::Window;
use std::alloc::Global;
use std::process::Abort;
use std::thread::Threads;
use task_run::result::{Listed, TaskResult};
use types::code::Label;
use types::fault::{Fault, FaultKind};
use types::input::Input;

/// A task of a program with no array: its path, and the paths of its children. It ends with a
/// fault, whose number is that of its label.
type Task = (&'static [u32], Label, &'static [&'static [u32]]);

/// Returns what a parent knows of a child, if the parent has no lines and faults before it.
fn listed(rt: &impl Abort, alloc: Global, turns: &[u32], windows: Vec<Window>) -> Listed {
    Listed {
        path: path(rt, alloc, turns),
        windows,
        lines: Vec::new(alloc),
        faults: Vec::new(alloc),
    }
}

/// Returns the result of such a task.
fn result_of(rt: &impl Abort, alloc: Global, task: Task) -> TaskResult {
    let (turns, label, begun) = task;
    let mut children = Vec::new(alloc);
    for child in begun {
        let child = listed(rt, alloc, child, Vec::new(alloc));
        children.push(child).expect(rt, "memory");
    }
    let fault = Fault {
        path: path(rt, alloc, turns),
        label,
        kind: FaultKind::Raised(0),
    };
    TaskResult {
        path: path(rt, alloc, turns),
        stopped: false,
        holdings: Holdings::none(alloc),
        lines: Vec::new(alloc),
        faults: vec![in alloc; fault].expect(rt, "memory"),
        children,
    }
}

/// Returns the results of such tasks.
fn results_of(rt: &impl Abort, alloc: Global, tasks: &[Task]) -> Vec<TaskResult> {
    let mut results = Vec::new(alloc);
    for task in tasks {
        let result = result_of(rt, alloc, *task);
        results.push(result).expect(rt, "memory");
    }
    results
}

/// Returns the labels of faults.
fn labels_of(rt: &impl Abort, alloc: Global, faults: &[Fault]) -> Vec<Label> {
    let labels = faults.iter().map(|fault| fault.label).collect(alloc);
    labels.expect(rt, "memory")
}

/// The root spawned 0.1 and 0.2, and its fault came after both.
const ROOT: Task = (&[], 7, &[&[1], &[2]]);

const FIRST: Task = (&[1], 3, &[]);

const SECOND: Task = (&[2], 5, &[]);

/// 0.2 with a child, which it hadn't waited for.
const SECOND_WITH_CHILD: Task = (&[2], 5, &[&[2, 1]]);

const CHILD: Task = (&[2, 1], 9, &[]);

/// Results that come for the root, and the labels of the faults in their order, or why the results
/// are inconsistent.
const ROWS: &[(&str, &[Task], &str)] = &[
    ("both in turn", &[FIRST, SECOND], "[3, 5, 7]"),
    ("the second first", &[SECOND, FIRST], "[3, 5, 7]"),
    ("the first is missing", &[SECOND], "G1 0.1"),
    ("the second is missing", &[FIRST], "G1 0.2"),
    ("both are missing", &[], "G1 0.1"),
    (
        "the first twice, with another between",
        &[FIRST, SECOND, FIRST],
        "G2 0.1",
    ),
    ("the first twice", &[SECOND, FIRST, FIRST], "G2 0.1"),
    // 0.2 had gathered 0.2.1 in a finish.
    (
        "one that nobody listed",
        &[FIRST, CHILD, SECOND],
        "G3 0.2.1",
    ),
    (
        "one in another",
        &[CHILD, FIRST, SECOND_WITH_CHILD],
        "[3, 9, 5, 7]",
    ),
    (
        "one in another is missing",
        &[FIRST, SECOND_WITH_CHILD],
        "G1 0.2.1",
    ),
];

#[test]
fn results_settle_by_path(rt: HostRuntime) {
    let alloc = rt.alloc();
    for (name, tasks, want) in ROWS {
        let root = result_of(&rt, alloc, ROOT);
        let results = results_of(&rt, alloc, tasks);
        match settle(alloc, root, results) {
            Ok(settled) => {
                let labels = labels_of(&rt, alloc, &settled.faults);
                compare(&rt, alloc, *name, format_args!("{labels:?}"), want);
            }
            Err(error) => compare(&rt, alloc, *name, error, want),
        }
    }
}

/// Elements of an array of four: the first one, and their number.
type Places = &'static [(usize, usize)];

/// A task of a program with such an array: its path, the number that it has at all its elements,
/// those that it owns, those of which it has copies, and its children, each with what is listed for
/// it. It has no lines and faults.
type Holder = (
    &'static [u32],
    i64,
    Places,
    Places,
    &'static [(&'static [u32], Places)],
);

const ARRAY: ArrayId = ArrayId { number: 0 };

/// Returns the windows of elements.
fn windows(rt: &impl Abort, alloc: Global, places: &[(usize, usize)]) -> Vec<Window> {
    let mut windows = Vec::new(alloc);
    for (at, len) in places {
        let (at, len) = (*at, *len);
        assert!(rt; at <= 4 && len <= 4);
        let window = Window {
            array: ARRAY,
            at,
            len,
        };
        windows.push(window).expect(rt, "memory");
    }
    windows
}

/// Returns all elements, with a number at each.
fn all_elements(rt: &(impl Abort + Threads + Sync), alloc: Global, number: i64) -> Holdings {
    let program = accepted(rt, alloc, "main { array a: int[4]; }");
    let input = Input::zeros(alloc, program.typed()).expect(rt, "memory");
    let mut all = Holdings::of_input(alloc, program.typed(), &input).expect(rt, "memory");
    for index in 0..4 {
        all.write(ARRAY, index, number).expect(rt, "memory");
    }
    all
}

/// Returns a number at elements that are owned, and at others of which there are copies.
fn holdings_of(
    rt: &(impl Abort + Threads + Sync),
    alloc: Global,
    number: i64,
    owned: Places,
    copied: Places,
) -> Holdings {
    let mut all = all_elements(rt, alloc, number);
    let copies = all.share(alloc, &windows(rt, alloc, copied));
    let own = all.carve(alloc, &windows(rt, alloc, owned));
    let mut holdings = copies.expect(rt, "memory");
    let pasted = holdings.paste(own.expect(rt, "memory"));
    assert!(rt; pasted.is_ok());
    holdings
}

/// Returns the result of such a task.
fn held_result(rt: &(impl Abort + Threads + Sync), alloc: Global, holder: Holder) -> TaskResult {
    let (turns, number, owned, copied, begun) = holder;
    let mut children = Vec::new(alloc);
    for (child, places) in begun {
        let child = listed(rt, alloc, child, windows(rt, alloc, places));
        children.push(child).expect(rt, "memory");
    }
    TaskResult {
        path: path(rt, alloc, turns),
        stopped: false,
        holdings: holdings_of(rt, alloc, number, owned, copied),
        lines: Vec::new(alloc),
        faults: Vec::new(alloc),
        children,
    }
}

/// Returns the results of such tasks.
fn held_results(
    rt: &(impl Abort + Threads + Sync),
    alloc: Global,
    holders: &[Holder],
) -> Vec<TaskResult> {
    let mut results = Vec::new(alloc);
    for holder in holders {
        let result = held_result(rt, alloc, *holder);
        results.push(result).expect(rt, "memory");
    }
    results
}

/// The root owns the last element, and has copies of the others. It spawned 0.1 with the first two.
const OWNER: Holder = (&[], 9, &[(3, 1)], &[(0, 3)], &[(&[1], &[(0, 2)])]);

/// It spawned 0.2 with the second one, too.
const GIVER: Holder = (
    &[],
    9,
    &[(3, 1)],
    &[(0, 3)],
    &[(&[1], &[(0, 2)]), (&[2], &[(1, 1)])],
);

/// A root, the results that come for it, and the elements afterwards, or why the results are
/// inconsistent.
type HeldRow = (&'static str, Holder, &'static [Holder], &'static str);

const HELD_ROWS: &[HeldRow] = &[
    (
        "just what is listed",
        OWNER,
        &[(&[1], 1, &[(0, 2)], &[], &[])],
        "[1, 1, 9, 9]",
    ),
    (
        "just what is listed, with a copy beside it",
        OWNER,
        &[(&[1], 1, &[(0, 2)], &[(2, 1)], &[])],
        "[1, 1, 9, 9]",
    ),
    (
        "one more stays out",
        OWNER,
        &[(&[1], 1, &[(0, 3)], &[], &[])],
        "[1, 1, 9, 9]",
    ),
    (
        "one more that the root owns stays out",
        OWNER,
        &[(&[1], 1, &[(0, 4)], &[], &[])],
        "[1, 1, 9, 9]",
    ),
    (
        "one fewer keeps its number",
        OWNER,
        &[(&[1], 1, &[(0, 1)], &[], &[])],
        "[1, 9, 9, 9]",
    ),
    (
        "a copy comes as if it were owned",
        OWNER,
        &[(&[1], 1, &[(0, 1)], &[(1, 1)], &[])],
        "[1, 1, 9, 9]",
    ),
    (
        "nothing of what is listed",
        OWNER,
        &[(&[1], 1, &[], &[], &[])],
        "[9, 9, 9, 9]",
    ),
    (
        "one in two windows",
        (&[], 9, &[(3, 1)], &[], &[(&[1], &[(0, 2), (1, 2)])]),
        &[(&[1], 1, &[(0, 3)], &[], &[])],
        "[1, 1, 1, 9]",
    ),
    (
        "what is listed, by a copy of another task",
        OWNER,
        &[
            (&[1], 1, &[(1, 1)], &[], &[(&[1, 1], &[(0, 1)])]),
            (&[1, 1], 2, &[], &[(0, 1)], &[]),
        ],
        "[2, 1, 9, 9]",
    ),
    (
        "two that share none",
        (
            &[],
            9,
            &[(3, 1)],
            &[(0, 3)],
            &[(&[1], &[(0, 1)]), (&[2], &[(1, 1)])],
        ),
        &[
            (&[2], 2, &[(1, 1)], &[], &[]),
            (&[1], 1, &[(0, 2)], &[], &[]),
        ],
        "[1, 2, 9, 9]",
    ),
    (
        "one from two",
        GIVER,
        &[
            (&[1], 1, &[(0, 2)], &[], &[]),
            (&[2], 2, &[(1, 1)], &[], &[]),
        ],
        "G2 0.2",
    ),
    (
        "one from two, of which the first didn't have it",
        GIVER,
        &[
            (&[1], 1, &[(0, 1)], &[], &[]),
            (&[2], 2, &[(1, 1)], &[], &[]),
        ],
        "G2 0.2",
    ),
    (
        "one from two, of which neither has it",
        GIVER,
        &[(&[1], 1, &[], &[], &[]), (&[2], 2, &[], &[], &[])],
        "G2 0.2",
    ),
    (
        "one that the root owns",
        (&[], 9, &[(0, 4)], &[], &[(&[1], &[(1, 1)])]),
        &[(&[1], 1, &[(1, 1)], &[], &[])],
        "G2 0.1",
    ),
    (
        "one that the root owns and the task hasn't",
        (&[], 9, &[(0, 4)], &[], &[(&[1], &[(1, 1)])]),
        &[(&[1], 1, &[], &[], &[])],
        "G2 0.1",
    ),
];

#[test]
fn listed_places_come_back(rt: HostRuntime) {
    let alloc = rt.alloc();
    for (name, root, holders, want) in HELD_ROWS {
        let root = held_result(&rt, alloc, *root);
        let results = held_results(&rt, alloc, holders);
        match settle(alloc, root, results) {
            Ok(settled) => {
                let elements = settled.holdings.row(alloc, ARRAY, 4).expect(&rt, "memory");
                compare(&rt, alloc, *name, format_args!("{elements:?}"), want);
            }
            Err(error) => compare(&rt, alloc, *name, error, want),
        }
    }
}
