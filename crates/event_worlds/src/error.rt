//! The errors of events and of lists of events.

ghost use Rattle.std.specs.Prelude.{◌≡◌, Some};
ghost use Rattle.event_worlds.specs.Shown.{event_error_text};
ghost use Rattle.event_worlds.specs.declared.error.EventError.TheVariants.{NoMemory};

use std::alloc::{AllocError, AllocFailed};
use std::error::Error;
use std::fmt;

/// The reason why an event fails. The tables of the world stay unchanged.
#[derive(Clone, Copy, PartialEq, Eq, Debug)]
pub enum EventError {
    /// `I1`: the event isn't legal in this world. An example is `step 0` at the start, because the
    /// root is in a queue.
    Illegal,
    /// `I2`: out of memory. This can happen at `take 0 0`, for example.
    NoMemory,
}

impl fmt::Display for EventError {
    ghost output = { λ e. Some (event_error_text e) };

    fn fmt<W: fmt::Write>(&self, f: &mut fmt::Formatter<W>) -> fmt::Result {
        match self {
            EventError::Illegal => write!(f, "I1"),
            EventError::NoMemory => write!(f, "I2"),
        }
    }
}

impl Error for EventError {}

impl From<AllocError> for EventError {
    ghost from_gives = { λ _ e. e ≡ NoMemory };

    fn from(_error: AllocError) -> EventError {
        EventError::NoMemory
    }
}

impl<T: Drop> From<AllocFailed<T>> for EventError {
    ghost from_gives = { λ _ e. e ≡ NoMemory };

    fn from(_error: AllocFailed<T>) -> EventError {
        EventError::NoMemory
    }
}

/// The reason why a list of events fails.
#[derive(Clone, Copy, PartialEq, Eq, Debug)]
pub enum ReplayError {
    /// The event with this number, from 0, is the first that isn't legal. For `take 0 0`, `take 0
    /// 0` it is 1.
    IllegalAt(usize),
    /// Out of memory. This can happen at `take 0 0`, for example.
    NoMemory,
}
