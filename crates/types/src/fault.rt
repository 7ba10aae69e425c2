//! Faults of a run.

ghost use Rattle.std.specs.Prelude.{Some};
ghost use Rattle.types.specs.Names.{kind_text, fault_text};
ghost use Rattle.types.specs.Translation.{fault as fault_of};

use crate::code::Label;
use crate::path::Path;
use std::fmt;

/// A fault of a task. It ended the statements of the task up to the nearest finish.
#[derive(Clone, PartialEq, Eq, Debug, Drop)]
pub struct Fault {
    /// The task that faulted.
    pub path: Path,
    /// The statement that faulted.
    pub label: Label,
    pub kind: FaultKind,
}

/// A kind of fault.
#[derive(Clone, Copy, PartialEq, Eq, Debug)]
pub enum FaultKind {
    /// F1: `a[i]` if `i` is negative or not less than the length of `a`: `main { array a: int[1];
    /// a[1] = 0; }`.
    Index,
    /// F2: a number that doesn't fit in a signed 64-bit integer: `main { print 9223372036854775807
    /// + 1; }`.
    Overflow,
    /// F3: `x / 0` or `x % 0`: `main { print 1 / 0; }`.
    ZeroDivisor,
    /// F4: a number that doesn't fit in the element type: `main { array a: byte[1]; a[0] = 256; }`.
    OutOfElement,
    /// F5: a split below 0 or beyond the section's length:
    /// `main { array a: int[1]; split a at 2 as l, r { skip; } }`.
    SplitPoint,
    /// F6: `fault n`, with the value of `n`: `main { fault 1; }`.
    Raised(i64),
    /// F7: pieces of less than one element:
    /// `main { array a: int[1]; parts a by 0 as p, i { skip; } }`.
    PieceSize,
}

impl fmt::Display for FaultKind {
    ghost output = { λ kind. Some (kind_text kind) };

    fn fmt<W: fmt::Write>(&self, f: &mut fmt::Formatter<W>) -> fmt::Result {
        match self {
            FaultKind::Index => write!(f, "F1"),
            FaultKind::Overflow => write!(f, "F2"),
            FaultKind::ZeroDivisor => write!(f, "F3"),
            FaultKind::OutOfElement => write!(f, "F4"),
            FaultKind::SplitPoint => write!(f, "F5"),
            FaultKind::Raised(number) => write!(f, "F6 {number}"),
            FaultKind::PieceSize => write!(f, "F7"),
        }
    }
}

impl fmt::Display for Fault {
    ghost output = { λ fault. Some (fault_text (fault_of fault)) };

    fn fmt<W: fmt::Write>(&self, f: &mut fmt::Formatter<W>) -> fmt::Result {
        let path = &self.path;
        let label = self.label;
        let kind = self.kind;
        write!(f, "fault {path} at {label}: {kind}")
    }
}
