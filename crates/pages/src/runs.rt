//! Pages about errors of parallel runs, and about runs by choices.

use crate::page::{Page, page};

/// Returns these pages.
pub(crate) fn pages() -> &'static [Page] {
    PAGES
}

/// `E1` to `E5`, and the messages about choices
const PAGES: &[Page] = &[
    page! {
        name: "E1",
        about: "out of memory in a parallel run",
        rule: "Or a thread couldn't be started, or a finish would have to issue weight more than 2^31 times. The exit status is 4.",
        mend: "Use fewer workers, fewer tasks that read a large section, or `serial`. For weight, use a larger `--w0`.",
    },
    page! {
        name: "E2",
        about: "too many tasks",
        rule: "A run has at most as many tasks as `--tasks` allows, including the one for `main` (default: 65,536). The exit status is 4.",
        program: ["main {", "  async {", "    skip;", "  }", "  async {", "    skip;", "  }", "}"],
        tells: "run program.afx --tasks 2" => "E2",
        mend: "Raise the limit, as in `--tasks 1048576`, or give each task more work: see `afx explain parallel_loop`.",
    },
    page! {
        name: "E3",
        about: "internal error: inconsistent task results",
        rule: "A task's result was missing, duplicated or unknown. No program is known to cause this. The exit status is 5.",
    },
    page! {
        name: "E4",
        about: "internal error: inconsistent weights of a finish",
        rule: "No program is known to cause this. The exit status is 5.",
    },
    page! {
        name: "E5",
        about: "internal error: invalid recorded events",
        rule: "A run with `--trace` records its events and replays them. An event was not legal at its position, or the replay ended
with another outcome. No program is known to cause this. The exit status is 5.",
    },
    page! {
        name: "no-leaf",
        others: ["no leaf"],
        about: "choice names no task",
        rule: "Each choice of `explore` is the number of the task that takes the next step. The tasks that can take one, the leaves,
are numbered from 0 in depth-first order. A task can take a step unless it has ended or is waiting at a finish. The
message gives the position of the choice in the list, from 0.",
        program: ["main {", "  skip;", "}"],
        tells: "explore program.afx --choices 0,0" => "no leaf at choice 1",
        mend: "Remove that choice and those after it: `open N` then gives the number of tasks that can take a step.",
    },
    page! {
        name: "open",
        about: "run not ended after its choices",
        rule: "The number is how many tasks can still take a step. The exit status is 3.",
        program: ["main {", "  skip;", "}"],
        tells: "explore program.afx" => "open 1",
        mend: "Add choices, as in `--choices 0`, or let `--random 1` choose until the end.",
    },
    page! {
        name: "choices",
        others: ["choices not understood"],
        about: "malformed choices",
        rule: "Choices are numbers separated by single commas. In a file, they may also be separated by white space.",
        program: ["main {", "  skip;", "}"],
        tells: "explore program.afx --choices 0,,0" => "choices not understood",
        mend: "Write `--choices 0,0`.",
    },
];
