//! Places that are carved out, shared, written and pasted.

use crate::tests::section_trees::{WindowNumbers, windows};
use crate::tests::{compare, typed};
use holdings::error::HoldError;
use holdings::holdings::Holdings;
use sections::id::ArrayId;
use std::alloc::Global;
use std::process::Abort;
use types::input::Input;

/// A step on the holdings with a number. New ones come after the others.
#[derive(Clone, Copy)]
enum Step {
    /// The places of windows are carved out of them.
    Carve(usize, &'static [WindowNumbers]),
    /// Copies are made of the places of windows.
    Share(usize, &'static [WindowNumbers]),
    /// A number is written at a place.
    Write(usize, usize, i64),
    /// The last ones are pasted into them. If that is rejected, the last ones stay.
    Paste(usize),
    /// All places of an array with the numbers 10, 11, 12 and 13 are added, owned.
    Begin,
}

use Step::{Begin, Carve, Paste, Share, Write};

/// A step, why it is rejected, and what is held then.
type Row = (Step, &'static str, &'static str);

const INNER: &[WindowNumbers] = &[(0, 1, 2)];

/// Steps in order. For each holdings the numbers at five places of the array and at the first of
/// another array are shown.
const STORIES: &[&[Row]] = &[
    // ---- carved and pasted
    &[
        (Begin, "", "10 11 12 13 - - | "),
        (Carve(0, INNER), "", "10 - - 13 - - | - 11 12 - - - | "),
        (Write(0, 1, 5), "H1", "10 - - 13 - - | - 11 12 - - - | "),
        (Paste(0), "", "10 11 12 13 - - | "),
    ],
    // ---- places that are not held
    &[
        (Begin, "", "10 11 12 13 - - | "),
        (Carve(0, &[(0, 3, 2)]), "H1", "10 11 12 13 - - | "),
        (Share(0, &[(0, 3, 2)]), "H1", "10 11 12 13 - - | "),
        (
            Carve(0, &[(0, 0, 1), (0, 4, 1)]),
            "H1",
            "10 11 12 13 - - | ",
        ),
        (
            Share(0, &[(0, 0, 1), (0, 4, 1)]),
            "H1",
            "10 11 12 13 - - | ",
        ),
        (Carve(0, &[(1, 0, 1)]), "H1", "10 11 12 13 - - | "),
        (Share(0, &[(1, 0, 1)]), "H1", "10 11 12 13 - - | "),
        (Carve(0, &[(0, 100, 1)]), "H1", "10 11 12 13 - - | "),
        (Share(0, &[(0, 100, 1)]), "H1", "10 11 12 13 - - | "),
    ],
    // ---- snapshots keep their numbers, and are not written
    &[
        (Begin, "", "10 11 12 13 - - | "),
        (Share(0, INNER), "", "10 11 12 13 - - | - 11 12 - - - | "),
        (Write(0, 1, 7), "", "10 7 12 13 - - | - 11 12 - - - | "),
        (Write(1, 1, 5), "H1", "10 7 12 13 - - | - 11 12 - - - | "),
        (
            Share(1, INNER),
            "",
            "10 7 12 13 - - | - 11 12 - - - | - 11 12 - - - | ",
        ),
        (
            Carve(1, INNER),
            "H1",
            "10 7 12 13 - - | - 11 12 - - - | - 11 12 - - - | ",
        ),
    ],
    // ---- owned places that are pasted hide copies, and copies that come are dropped
    &[
        (Begin, "", "10 11 12 13 - - | "),
        (Share(0, INNER), "", "10 11 12 13 - - | - 11 12 - - - | "),
        (Write(0, 1, 7), "", "10 7 12 13 - - | - 11 12 - - - | "),
        (
            Carve(0, INNER),
            "",
            "10 - - 13 - - | - 11 12 - - - | - 7 12 - - - | ",
        ),
        (Paste(1), "", "10 - - 13 - - | - 7 12 - - - | "),
        (
            Share(0, &[(0, 3, 1)]),
            "",
            "10 - - 13 - - | - 7 12 - - - | - - - 13 - - | ",
        ),
        (Paste(1), "", "10 - - 13 - - | - 7 12 - - - | "),
    ],
    // ---- places owned twice
    &[
        (Begin, "", "10 11 12 13 - - | "),
        (Begin, "", "10 11 12 13 - - | 10 11 12 13 - - | "),
        (Paste(0), "H3", "10 11 12 13 - - | 10 11 12 13 - - | "),
    ],
];

const ARRAY: ArrayId = ArrayId { number: 0 };

/// Returns the places of such an array.
fn four(rt: &impl Abort, alloc: Global) -> Holdings {
    let typed = typed(rt, alloc, "main { array a: int[4]; }");
    let input = Input::zeros(alloc, &typed).expect(rt, "memory");
    let mut own = Holdings::of_input(alloc, &typed, &input).expect(rt, "memory");
    for (index, number) in [10, 11, 12, 13].into_iter().enumerate() {
        own.write(ARRAY, index, number).expect(rt, "an owned place");
    }
    own
}

/// Carries out a step.
fn act(
    rt: &impl Abort,
    alloc: Global,
    step: Step,
    all: &mut Vec<Holdings>,
) -> Result<(), HoldError> {
    match step {
        Carve(of, rows) => {
            let own = all.get_mut(of).expect(rt, "holdings");
            let part = own.carve(alloc, &windows(rt, alloc, rows))?;
            all.push(part)?;
        }
        Share(of, rows) => {
            let own = all.get(of).expect(rt, "holdings");
            let part = own.share(alloc, &windows(rt, alloc, rows))?;
            all.push(part)?;
        }
        Write(of, index, number) => {
            let own = all.get_mut(of).expect(rt, "holdings");
            own.write(ARRAY, index, number)?;
        }
        Paste(of) => {
            let last = all.pop().expect(rt, "holdings");
            let own = all.get_mut(of).expect(rt, "holdings");
            if let Err((error, back)) = own.paste(last) {
                all.push(back)?;
                return Err(error);
            }
        }
        Begin => all.push(four(rt, alloc))?,
    }
    Ok(())
}

/// Appends what is held at a place.
fn show(rt: &impl Abort, holdings: &Holdings, array: ArrayId, index: usize, text: &mut String) {
    match holdings.read(array, index) {
        Ok(number) => write!(text, "{number} ").expect(rt, "memory"),
        Err(_) => write!(text, "- ").expect(rt, "memory"),
    }
}

/// Returns what all holdings hold.
fn shown(rt: &impl Abort, alloc: Global, all: &[Holdings]) -> String {
    let mut text = String::new(alloc);
    for holdings in all {
        for index in 0..5 {
            show(rt, holdings, ARRAY, index, &mut text);
        }
        show(rt, holdings, ArrayId { number: 1 }, 0, &mut text);
        text.push_str("| ").expect(rt, "memory");
    }
    text
}

#[test]
fn what_is_held_after_each_step(rt: HostRuntime) {
    let alloc = rt.alloc();
    for story in STORIES {
        let mut all = Vec::new(alloc);
        for (step, refusal, held) in *story {
            match act(&rt, alloc, *step, &mut all) {
                Ok(()) => compare(&rt, alloc, *held, "", refusal),
                Err(error) => compare(&rt, alloc, *held, error, refusal),
            }
            compare(&rt, alloc, "holdings", shown(&rt, alloc, &all), held);
        }
    }
}
