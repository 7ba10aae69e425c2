//! Pages about traces, and about invalid traces.

use crate::page::{Page, page};

/// Returns these pages.
pub(crate) fn pages() -> &'static [Page] {
    PAGES
}

/// `trace`, `J1`, `J2` and `illegal`
const PAGES: &[Page] = &[
    page! {
        name: "trace",
        about: "a record of what the workers did, event by event",
        rule: "`run --trace FILE` writes a trace: a header line with the budget, weight and workers of the run, then a line for each
event, about 40 bytes per step. `view` replays it with the same program and input. If every event is legal, it prints a
table or totals (`--summary`), draws a picture (`--svg OUT`), or writes a file for a trace viewer (`--chrome OUT`) or a
page for a browser (`--html OUT`).

The header begins with the format, 1 or 2. In format 2 a resume has the number of faults that its finish has gathered.
`run` writes format 2, and `view --upgrade OUT` writes a trace of format 1 in format 2.

take W P        worker W takes task P from its own queue
steal W F P     worker W steals task P from the queue of worker F
step P          P executes a statement
spawn P         P starts a task and gives it half of its weight
replenish P     P gets more weight before it spawns
open P          P enters a finish
park P          P waits at the end of a finish for the tasks started in it
end P           P has ended
pass O#N        all tasks of finish N of O have ended
resume W P      worker W resumes P after its finish

A trace has no timestamps: time is the number of the event.",
        program: ["main {", "}"],
        trace: [
            "{\"format\":2,\"nest\":100,\"steps\":1000000,\"w0\":8,\"workers\":1}",
            "{\"e\":\"take\",\"path\":\"0\",\"worker\":0}",
        ],
        tells: "view program.afx program.trace" => "       0 take       0    0",
    },
    page! {
        name: "J1",
        about: "malformed line in a trace",
        rule: "Every line must be spelled exactly as `run --trace` writes it: keys in order, no spaces, numbers in range, a line feed
at the end. A resume has `\"faults\"` in format 2 only. The message gives the number of the first malformed line, from 1.",
        program: ["main {", "}"],
        trace: [
            "{\"format\":2,\"nest\":100,\"steps\":1000000,\"w0\":8,\"workers\":1}",
            "{\"e\":\"take\", \"path\":\"0\", \"worker\":0}",
        ],
        tells: "view program.afx program.trace" => "J1 line 2",
        mend: "Check that it is the right file and complete, or record the trace again.",
    },
    page! {
        name: "J2",
        about: "out of memory while reading a trace",
        rule: "The trace may be correct. The exit status is 4.",
        mend: "Try again with more memory available.",
    },
    page! {
        name: "illegal",
        others: ["illegal at event"],
        about: "illegal event in a trace",
        rule: "`view` replays the events in order. For example, a task takes a step only while a worker runs it, and a finish passes
only when all of its weight has come back. In format 2 a resume must have the number of faults that its finish has
gathered. The message gives the number of the first illegal event, from 0.",
        program: ["main {", "}"],
        trace: [
            "{\"format\":2,\"nest\":100,\"steps\":1000000,\"w0\":8,\"workers\":1}",
            "{\"e\":\"end\",\"path\":\"0\"}",
        ],
        tells: "view program.afx program.trace" => "illegal at event 0",
        mend: "Use the program and the input of the traced run. If the trace was edited, record it again.",
    },
];
