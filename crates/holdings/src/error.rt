//! The reasons why calls to holdings fail.

ghost use Rattle.std.specs.Prelude.{◌≡◌, Some};
ghost use Rattle.holdings.specs.Errors.{error_code};
ghost use Rattle.holdings.specs.declared.error.HoldError.TheVariants.{OutOfMemory};

use std::alloc::{AllocError, AllocFailed};
use std::fmt;
use thiserror::Error;

/// The reason why a call failed. Nothing has changed in this case. In the examples,
/// `Holdings::of_input` makes `own` and `others` from `main { array a: int[1]; }`, and `a` is
/// `ArrayId { number: 0 }`.
#[derive(Clone, Copy, PartialEq, Eq, Debug, Error)]
pub enum HoldError {
    /// H1: a place isn't held, as in `own.read(a, 1)`. For a write or a carve, a place isn't owned.
    NotHeld,
    /// H2: out of memory, as is possible in `own.carve(alloc, &windows)`.
    OutOfMemory,
    /// H3: a pasted place is already owned here, as in `own.paste(others)`.
    OwnedTwice,
}

impl HoldError {
    /// Returns the code of the error.
    pub fn code(self) -> &'static str
        ensures { result.now ≡ error_code self }
    {
        match self {
            HoldError::NotHeld => "H1",
            HoldError::OutOfMemory => "H2",
            HoldError::OwnedTwice => "H3",
        }
    }
}

impl fmt::Display for HoldError {
    ghost output = { λ e. Some (error_code e) };

    fn fmt<W: fmt::Write>(&self, f: &mut fmt::Formatter<W>) -> fmt::Result {
        let code = self.code();
        write!(f, "{code}")
    }
}

impl From<AllocError> for HoldError {
    ghost from_gives = { λ _ e. e ≡ OutOfMemory };

    fn from(_error: AllocError) -> HoldError {
        HoldError::OutOfMemory
    }
}

impl<T: Drop> From<AllocFailed<T>> for HoldError {
    ghost from_gives = { λ _ e. e ≡ OutOfMemory };

    fn from(_error: AllocFailed<T>) -> HoldError {
        HoldError::OutOfMemory
    }
}
