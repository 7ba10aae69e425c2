//! Pages about files and arguments, and about running out of memory where no other code applies.

use crate::page::{Page, page};

/// Returns these pages.
pub(crate) fn pages() -> &'static [Page] {
    PAGES
}

/// Files that can't be read or written, aren't UTF-8 or aren't formatted; and memory
const PAGES: &[Page] = &[
    page! {
        name: "cannot-read",
        others: ["cannot read"],
        about: "file can't be read",
        rule: "The file doesn't exist, it can't be opened or read, or it has more than 1 GiB.",
        program: ["main {", "}"],
        tells: "check absent.afx" => "cannot read absent.afx",
        mend: "Check the name: it is relative to the current folder. `-` is standard input.",
    },
    page! {
        name: "cannot-write",
        others: ["cannot write output", "cannot write"],
        about: "file or output can't be written",
        rule: "The trace, picture, page or formatted program can't be written to this file, or the disk is full.
Or the command has read this file under another name, such as a link. Or `fmt --write` would make a program of over 1,048,576
bytes of it. Nothing is printed then.
`cannot write output`: writing to standard output failed. It may have received the beginning of the answer.",
        program: ["main {", "}"],
        tells: "run program.afx --trace -" => "cannot write -",
        mend: "Check the name: the folder must exist, and `-` can't be written.",
    },
    page! {
        name: "not-UTF-8",
        others: ["not UTF-8"],
        about: "file or argument is not UTF-8",
        rule: "Programs, inputs, traces and arguments must be UTF-8.",
        mend: "Save the file as UTF-8. Outside comments a program is ASCII only.",
    },
    page! {
        name: "not-formatted",
        others: ["not formatted"],
        about: "program is not formatted",
        rule: "`fmt --check` compares the file with the output of `fmt` byte by byte and changes nothing. The exit status is 1.",
        program: ["main {", "skip;", "}"],
        tells: "fmt --check program.afx" => "not formatted",
        mend: "Format the file in place: `afx fmt --write program.afx`.",
    },
    page! {
        name: "no-memory",
        others: ["no memory"],
        about: "out of memory",
        rule: "Memory ran out where no other code applies (`S6`, `Y10`, `C2`, `N6`, `E1`, `J2`). The exit status is 4.",
        mend: "Try again with more memory available.",
    },
];
