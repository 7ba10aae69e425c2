//! Reasons why a text is not a trace.

ghost use Rattle.std.specs.Prelude.{◌≡◌, Some};
ghost use Rattle.trace_text.specs.Reading.{trace_error_text};
ghost use Rattle.trace_text.specs.declared.error.TraceError.TheVariants.{NoMemory};

use std::alloc::{AllocError, AllocFailed};
use std::error::Error;
use std::fmt;

/// The reason why a text is not a trace.
#[derive(Clone, Copy, PartialEq, Eq, Debug)]
pub enum TraceError {
    /// `J1 line 1`: the line with this number, counted from 1, is the first one that isn't the text
    /// of a header or an event. Example: line 1 of the empty text.
    NotALine(usize),
    /// `J2`: out of memory, which can happen with any text.
    NoMemory,
}

impl fmt::Display for TraceError {
    ghost output = { λ e. Some (trace_error_text e) };

    fn fmt<W: fmt::Write>(&self, f: &mut fmt::Formatter<W>) -> fmt::Result {
        match self {
            TraceError::NotALine(number) => write!(f, "J1 line {number}"),
            TraceError::NoMemory => write!(f, "J2"),
        }
    }
}

impl Error for TraceError {}

impl From<AllocError> for TraceError {
    ghost from_gives = { λ _ e. e ≡ NoMemory };

    fn from(_error: AllocError) -> TraceError {
        TraceError::NoMemory
    }
}

impl<T: Drop> From<AllocFailed<T>> for TraceError {
    ghost from_gives = { λ _ e. e ≡ NoMemory };

    fn from(_error: AllocFailed<T>) -> TraceError {
        TraceError::NoMemory
    }
}
