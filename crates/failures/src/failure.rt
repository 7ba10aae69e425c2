//! The reasons why a command ends early, with their messages and exit statuses.

ghost use Rattle.std.specs.Prelude.{◌≡◌};
ghost use Rattle.failures.specs.FailureStatus.{failure_status};
ghost use Rattle.failures.specs.Failures.{TellsNotUtf8, TellsUnread, TellsUnwritten};

use crate::escaped::EscapedInput;
use crate::least_race::LeastRace;
use excerpts::escaped::Escaped;
use finish_scope::run_error::RunError;
use std::alloc::{AllocError, Global};
use syntax::error::SyntaxError;
use thiserror::Error;
use trace_text::error::TraceError;
use types::error::TypeError;
use types::input_error::InputError;

/// The reason why a command ended without its answer. `message::emit_message` writes its line, and
/// the contract of that function states the bytes. `Display`, which is derived from the texts here,
/// gives the same text.
#[derive(Debug, Drop, Error)]
pub enum Failure {
    /// `cannot read nowhere.afx`: `run nowhere.afx`, if there is no such file
    #[error("cannot read {}", Escaped(.name.as_str()))]
    CannotRead { name: String },
    /// `not UTF-8 program.afx`: a file with the byte 255
    #[error("not UTF-8 {}", Escaped(.name.as_str()))]
    NotUtf8 { name: String },
    /// `S2 at 1:13`: `main { skip }`
    #[error(transparent)]
    Syntax(SyntaxError),
    /// `Y1 at label 1`: `main { print x; }`
    #[error(transparent)]
    Types(TypeError),
    /// `C1 race in main: 2 write a, 3 read a`: `main { array a: int[1]; async { a[0] = 1; } print a[0]; }`
    #[error("{0}")]
    Race(LeastRace),
    /// `C2`: out of memory during the race check, for any program
    #[error("C2")]
    NoMemoryInCheck,
    /// `N4 a`: `main { array a: int[1]; }` on `{"a": [1, 2]}`
    #[error("{}", EscapedInput(.0))]
    Input(InputError),
    /// `E1` to `E5`: `E2` is `main { async { skip; } async { skip; } }` with `--tasks 2`
    #[error("{}", .0.code())]
    Run(RunError),
    /// `J1 line 1`: an empty file as a trace; `J2`: out of memory while reading its lines
    #[error(transparent)]
    Trace(TraceError),
    /// `illegal at event 0`: a trace whose second line is `{"e":"end","path":"0"}`. The number is
    /// that of the first illegal event, from 0
    #[error("illegal at event {0}")]
    Illegal(usize),
    /// `choices not understood`: `explore --choices 0,,1`
    #[error("choices not understood")]
    ChoicesNotUnderstood,
    /// `no leaf at choice 0`: `main { }` with `explore --choices 7`. The number is that of the
    /// first choice that names no task, from 0
    #[error("no leaf at choice {0}")]
    NoLeaf(usize),
    /// `not formatted`: `main { }` on one line, with `fmt --check`
    #[error("not formatted")]
    NotLaidOut,
    /// `cannot write /`: `run program.afx --trace /`
    #[error("cannot write {}", Escaped(.name.as_str()))]
    CannotWrite { name: String },
    /// `cannot write output`: any output, to a full disk
    #[error("cannot write output")]
    CannotWriteOutput,
    /// `no memory`: out of memory anywhere else, for any program
    #[error("no memory")]
    NoMemory,
}

impl Failure {
    /// Returns the exit status: 4 for running out of memory and for too many tasks, 5 for a lost or
    /// inconsistent result or weight and for invalid recorded events, otherwise 1.
    pub fn status(&self) -> u8
        ensures { result ≡ failure_status self.now }
    {
        match self {
            Failure::Syntax(SyntaxError::OutOfMemory) => 4,
            Failure::Types(TypeError::OutOfMemory) => 4,
            Failure::NoMemoryInCheck => 4,
            Failure::Input(InputError::OutOfMemory) => 4,
            Failure::Run(RunError::OutOfMemory) => 4,
            Failure::Run(RunError::RefusedPush(_)) => 4,
            Failure::Run(RunError::RefusedThread(_)) => 4,
            Failure::Run(RunError::IssuedTooOften(_)) => 4,
            Failure::Run(RunError::TooManyTasks(_)) => 4,
            Failure::Trace(TraceError::NoMemory) => 4,
            Failure::NoMemory => 4,
            Failure::Run(RunError::Gather(_)) => 5,
            Failure::Run(RunError::NotDue(_)) => 5,
            Failure::Run(RunError::NoOwner(_)) => 5,
            Failure::Run(RunError::NoScope(_)) => 5,
            Failure::Run(RunError::NoReport(_)) => 5,
            Failure::Run(RunError::Unlogged) => 5,
            _ => 1,
        }
    }

    /// Returns the failure for a file that can't be read.
    pub fn cannot_read(alloc: Global, name: &str) -> Failure
        ensures { TellsUnread name.now result }
    {
        match String::from_str(alloc, name) {
            Ok(name) => Failure::CannotRead { name },
            Err(AllocError) => Failure::NoMemory,
        }
    }

    /// Returns the failure for a file that can't be written.
    pub fn cannot_write(alloc: Global, name: &str) -> Failure
        ensures { TellsUnwritten name.now result }
    {
        match String::from_str(alloc, name) {
            Ok(name) => Failure::CannotWrite { name },
            Err(AllocError) => Failure::NoMemory,
        }
    }

    /// Returns the failure for a file that isn't UTF-8.
    pub fn not_utf8(alloc: Global, name: &str) -> Failure
        ensures { TellsNotUtf8 name.now result }
    {
        match String::from_str(alloc, name) {
            Ok(name) => Failure::NotUtf8 { name },
            Err(AllocError) => Failure::NoMemory,
        }
    }
}
