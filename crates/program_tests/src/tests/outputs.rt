//! Outcomes as text, and writers that end.

use crate::tests::lists_of;
use printing::emit::emit;
use std::alloc::Global;
use std::io;
use std::io::ErrorKind;
use std::process::Abort;
use syntax_tree::tree::ElementType;
use types::child_number::ChildNumber;
use types::code::Array;
use types::fault::{Fault, FaultKind};
use types::outcome::Outcome;
use types::path::Path;

/// The way in which a writer ends.
#[derive(Clone, Copy)]
enum End {
    /// It returns an error.
    Fails,
    /// It accepts nothing.
    TakesNothing,
}

/// A writer that accepts one byte per call, and ends after `left` calls.
#[derive(Drop)]
struct Ending {
    left: usize,
    end: End,
    taken: Vec<u8>,
}

impl io::Write for Ending {
    fn write(&mut self, buf: &[u8]) -> io::Result<usize> {
        if self.left > 0 && !buf.is_empty() {
            self.left -= 1;
            self.taken.push(buf[0])?;
            return Ok(1);
        }
        match self.end {
            End::Fails => Err(io::Error::from(ErrorKind::Other)),
            End::TakesNothing => Ok(0),
        }
    }

    fn flush(&mut self) -> io::Result<()> {
        Ok(())
    }
}

/// A fault of each kind, in the task `0.1.12`.
const KINDS: &[FaultKind] = &[
    FaultKind::Index,
    FaultKind::Overflow,
    FaultKind::ZeroDivisor,
    FaultKind::OutOfElement,
    FaultKind::SplitPoint,
    FaultKind::Raised(-3),
    FaultKind::PieceSize,
];

/// Returns faults of these kinds.
fn faults_of(rt: &impl Abort, alloc: Global, kinds: &[FaultKind]) -> Vec<Fault> {
    let mut faults = Vec::new(alloc);
    for kind in kinds {
        let child = Path::root(alloc)
            .child(ChildNumber::after(0))
            .expect(rt, "memory");
        let path = child.child(ChildNumber::after(11)).expect(rt, "memory");
        let fault = Fault {
            path,
            label: 65_535,
            kind: *kind,
        };
        faults.push(fault).expect(rt, "memory");
    }
    faults
}

/// Returns an outcome with two lines, two arrays, and a fault of each kind.
fn faulted(rt: &impl Abort, alloc: Global) -> Outcome {
    Outcome::Ended {
        arrays: lists_of(rt, alloc, &[&[255], &[-1, 0, 10]]),
        lines: lists_of(rt, alloc, &[&[7, 8], &[i64::MIN]]),
        faults: faults_of(rt, alloc, KINDS),
    }
}

/// Returns the arrays `a` and `b_2`.
fn two_arrays(rt: &impl Abort, alloc: Global) -> Vec<Array> {
    let mut arrays = Vec::new(alloc);
    for (name, length) in [("a", 1), ("b_2", 3)] {
        let array = Array {
            name: String::from_str(alloc, name).expect(rt, "memory"),
            element: ElementType::Int,
            length,
        };
        arrays.push(array).expect(rt, "memory");
    }
    arrays
}

/// Its text without arrays.
const FAULTED: &str = "7 8
-9223372036854775808
fault 0.1.12 at 65535: F1
fault 0.1.12 at 65535: F2
fault 0.1.12 at 65535: F3
fault 0.1.12 at 65535: F4
fault 0.1.12 at 65535: F5
fault 0.1.12 at 65535: F6 -3
fault 0.1.12 at 65535: F7
";

/// The lines of its arrays, which follow.
const ARRAYS: &str = "array a 255\narray b_2 -1 0 10\n";

/// Returns its text with arrays.
fn with_arrays(rt: &impl Abort, alloc: Global) -> String {
    format!(in alloc; "{FAULTED}{ARRAYS}").expect(rt, "memory")
}

/// Compares the text that is written for an outcome, and for the two arrays, with the expected one.
fn compare_written(rt: &impl Abort, alloc: Global, outcome: &Outcome, arrays: bool, want: &str) {
    let declared = two_arrays(rt, alloc);
    let mut out = Vec::new(alloc);
    let emitted = emit(&mut out, outcome, &declared, arrays);
    assert!(rt; emitted.is_ok());
    assert!(rt; out.as_slice() == want.as_bytes(), "not written: {want}");
}

#[test]
fn outcomes_as_text(rt: HostRuntime) {
    let alloc = rt.alloc();
    let outcome = faulted(&rt, alloc);
    compare_written(&rt, alloc, &outcome, true, with_arrays(&rt, alloc).as_str());
    compare_written(&rt, alloc, &outcome, false, FAULTED);
    compare_written(&rt, alloc, &Outcome::Stopped, true, "stopped\n");
    compare_written(&rt, alloc, &Outcome::Stopped, false, "stopped\n");
}

#[test]
fn a_writer_that_ends_has_a_beginning(rt: HostRuntime) {
    let alloc = rt.alloc();
    let outcome = faulted(&rt, alloc);
    let declared = two_arrays(&rt, alloc);
    let whole = with_arrays(&rt, alloc);
    let text = whole.as_bytes();
    for end in [End::Fails, End::TakesNothing] {
        for left in 0..text.len() + 1 {
            let mut out = Ending {
                left,
                end,
                taken: Vec::new(alloc),
            };
            let is_whole = emit(&mut out, &outcome, &declared, true).is_ok();
            assert!(rt; is_whole == (left == text.len()), "after {left} bytes");
            let is_beginning = out.taken.len() == left && text.starts_with(&out.taken);
            assert!(rt; is_beginning, "what was taken of {left} bytes");
        }
    }
}
