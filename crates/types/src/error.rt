//! Type errors.

ghost use Rattle.std.specs.Prelude.{◌≡◌};
ghost use Rattle.types.specs.declared.error.TypeError.TheVariants.{OutOfMemory};
ghost use Rattle.types.specs.Codes.{error_code, label_of};

use crate::code::Label;
use std::alloc::{AllocError, AllocFailed};
use std::error::Error;
use std::fmt;

/// A rule of the language that a program breaks. If a statement breaks it, the error has the label
/// of such a statement.
#[derive(Clone, Copy, PartialEq, Eq, Debug)]
pub enum TypeError {
    /// Y1: a name or a procedure that isn't in scope, such as `a` in `main { print a; }`.
    NotInScope { label: Label },
    /// Y2: a name that is declared while the same name is in scope, such as the second one in `main
    /// { var x = 1; var x = 2; }`. Arrays, parameters and procedures have no label, as in `main {
    /// array a: int[1]; array a: int[1]; }`.
    DeclaredTwice { label: Option<Label> },
    /// Y3: a number where a boolean is expected, as in `main { print true; }`, or a section where a
    /// scalar is expected, as in `main { array a: int[1]; print a; }`. The reverse cases are Y3,
    /// too.
    WrongKind { label: Label },
    /// Y4: a call with a wrong number of arguments, as in `proc f() { } main { f(1); }`. Also a
    /// call with an argument that isn't the name of a section of the parameter's element type, as
    /// in `proc f(read s: int) { } main { f(1); }`.
    WrongArguments { label: Label },
    /// Y5: a scalar that is assigned in an async body but declared outside it, as in `main { var x
    /// = 1; async { x = 2; } }`.
    AssignedOutsideAsync { label: Label },
    /// Y6: a `read` section, or a side of one, that is written or passed as `mut`, as in `proc
    /// f(read s: int) { s[0] = 1; } main { }`.
    ReadOnly { label: Label },
    /// Y7: a `mut` argument that overlaps another section argument, as in
    /// `proc f(mut s: int, read t: int) { } main { array a: int[1]; f(a, a); }`.
    Overlapping { label: Label },
    /// Y8: no `main`, as in the empty text.
    NoMain,
    /// Y9: more than 256 procedures, 16 parameters, 32 arrays, 4,194,304 elements or 65,535 statements, as
    /// in `main { array a: int[4194305]; }`.
    OverLimit,
    /// Y10: memory ran out, which is possible for any program.
    OutOfMemory,
}

impl TypeError {
    /// Returns the code that the program prints.
    pub fn code(self) -> &'static str
        ensures { result.now ≡ error_code self }
    {
        match self {
            TypeError::NotInScope { .. } => "Y1",
            TypeError::DeclaredTwice { .. } => "Y2",
            TypeError::WrongKind { .. } => "Y3",
            TypeError::WrongArguments { .. } => "Y4",
            TypeError::AssignedOutsideAsync { .. } => "Y5",
            TypeError::ReadOnly { .. } => "Y6",
            TypeError::Overlapping { .. } => "Y7",
            TypeError::NoMain => "Y8",
            TypeError::OverLimit => "Y9",
            TypeError::OutOfMemory => "Y10",
        }
    }

    /// Returns the label that the error reports.
    pub fn label(self) -> Option<Label>
        ensures { result ≡ label_of self }
    {
        match self {
            TypeError::NotInScope { label } => Some(label),
            TypeError::DeclaredTwice { label } => label,
            TypeError::WrongKind { label } => Some(label),
            TypeError::WrongArguments { label } => Some(label),
            TypeError::AssignedOutsideAsync { label } => Some(label),
            TypeError::ReadOnly { label } => Some(label),
            TypeError::Overlapping { label } => Some(label),
            TypeError::NoMain => None,
            TypeError::OverLimit => None,
            TypeError::OutOfMemory => None,
        }
    }
}

impl From<AllocError> for TypeError {
    ghost from_gives = { λ _ e. e ≡ OutOfMemory };

    fn from(_error: AllocError) -> TypeError {
        TypeError::OutOfMemory
    }
}

impl<T: Drop> From<AllocFailed<T>> for TypeError {
    ghost from_gives = { λ _ e. e ≡ OutOfMemory };

    fn from(_error: AllocFailed<T>) -> TypeError {
        TypeError::OutOfMemory
    }
}

/// `Y5 at label 3`
impl fmt::Display for TypeError {
    ghost use Rattle.std.specs.Prelude.{Some};
    ghost use Rattle.types.specs.Codes.{error_text};

    ghost output = { λ error. Some (error_text error) };

    fn fmt<W: fmt::Write>(&self, f: &mut fmt::Formatter<W>) -> fmt::Result {
        let code = self.code();
        match self.label() {
            None => write!(f, "{code}"),
            Some(label) => write!(f, "{code} at label {label}"),
        }
    }
}

impl Error for TypeError {}
