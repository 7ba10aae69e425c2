//! Pages about tasks, and about the limits of a run.

use crate::page::{Page, page};

/// Returns these pages.
pub(crate) fn pages() -> &'static [Page] {
    PAGES
}

/// `async`, `finish`, `rescue`, `split`, `parts` and `budget`
const PAGES: &[Page] = &[
    page! {
        name: "async",
        others: ["task", "spawn"],
        about: "start a task",
        rule: "`async { .. }` starts a task that runs its block. The program continues at once with the next statement, and both may run
in parallel. The task starts with copies of the variables, and can't assign to them. It uses the sections around it; no
section that it writes may be used by what can run at the same time. A finish waits for it, at the latest the end of
main.",
        program: [
            "main {",
            "  array a: int[1];",
            "  array b: int[1];",
            "  finish {",
            "    async {",
            "      a[0] = 7;",
            "    }",
            "    b[0] = 8;",
            "  }",
            "  print a[0], b[0];",
            "}",
        ],
        tells: "run program.afx" => "7 8",
    },
    page! {
        name: "finish",
        others: ["sync", "join"],
        about: "wait for tasks",
        rule: "`finish { .. }` runs its block and then waits for all tasks that were started in it, also by procedures that it calls and
by other tasks. What comes after it can use the results. A procedure doesn't wait for the tasks that it starts: put its
call inside a finish. The fewer things a finish encloses, the fewer run in parallel.",
        program: [
            "proc start(mut s: int) {",
            "  async {",
            "    s[0] = 7;",
            "  }",
            "}",
            "main {",
            "  array a: int[1];",
            "  finish {",
            "    start(a);",
            "  }",
            "  print a[0];",
            "}",
        ],
        tells: "run program.afx" => "7",
    },
    page! {
        name: "rescue",
        others: ["try", "catch"],
        about: "continue after faults",
        rule: "`finish { .. } rescue n { .. }` waits like a finish. If there were faults in it, they are dropped, and the second block
runs: `n` is the number of the faults. Without faults the block is skipped. What was printed, stored and assigned before
a fault remains. The block is outside of the finish, so a fault in it ends the task as usual.",
        program: [
            "main {",
            "  array a: int[1];",
            "  finish {",
            "    async {",
            "      a[0] = 7;",
            "      fault 1;",
            "    }",
            "  } rescue n {",
            "    print a[0], n;",
            "  }",
            "}",
        ],
        tells: "run program.afx" => "7 1",
    },
    page! {
        name: "split",
        about: "give parts of a section to different tasks",
        rule: "`split s at n as l, r { .. }` names two parts of the section `s` for its block: `l` has the first n elements, and `r` the
others. `r[0]` is `s[n]`. Nothing is copied. The two parts never overlap, so one task can write `l` while another one
writes `r`. Sides of different splits of one section may overlap: for a third part, split a side. n is a number from 0
to `len(s)`.",
        program: [
            "main {",
            "  array a: int[4];",
            "  finish {",
            "    split a at 3 as l, r {",
            "      async {",
            "        l[0] = 7;",
            "      }",
            "      r[0] = 8;",
            "    }",
            "  }",
            "  print a[0], a[3], len(a);",
            "}",
        ],
        tells: "run program.afx" => "7 8 4",
        mend: "For halves of halves see `examples/halves.afx`, for a middle part `afx explain middle_part`.",
    },
    page! {
        name: "parts",
        others: ["pieces", "chunks"],
        about: "run a block for each piece of a section",
        rule: "`parts s by n as p, i { .. }` runs its block once for each piece of n elements of the section `s`, in order. `p` names the
piece; the last one may be shorter. `i` is the number of the turn, from 0, so `p[k]` is `s[i * n + k]`. The pieces of two
turns never overlap. If the block is an async, each piece has a task of its own. n is at least 1, and evaluated once. An
access to `s` itself overlaps each piece.",
        program: [
            "main {",
            "  array squares: int[10];",
            "  finish {",
            "    parts squares by 1 as p, i {",
            "      async {",
            "        p[0] = i * i;",
            "      }",
            "    }",
            "  }",
            "  print squares[0], squares[3], squares[9];",
            "}",
        ],
        tells: "run program.afx" => "0 9 81",
        mend: "For larger pieces, loop over the piece in the async: `while k < len(p) { .. }`.",
    },
    page! {
        name: "budget",
        others: ["limits", "steps", "nest", "tasks"],
        about: "limits of a run",
        rule: "Each task can take `--steps` steps (default: 1,000,000); a step is about one statement. Asyncs can be nested `--nest`
deep (default: 100). A run that exceeds one of these two limits prints `stopped`, with status 3. A parallel run can have
`--tasks` tasks (default: 65,536). One that would have more prints `E2`, with status 4. `--explain` says which task
exceeded which limit, and where.",
        program: ["main {", "  while true {", "    skip;", "  }", "}"],
        tells: "serial program.afx --steps 1000" => "stopped",
        mend: "Raise the limit, as in `--steps 100000000`, or give each task less work: see `afx explain parallel_loop`.",
    },
];
