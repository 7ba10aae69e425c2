//! The reasons why results can't be put together.

ghost use Rattle.std.specs.Prelude.{◌≡◌, Some};
ghost use Rattle.gather.specs.Errors.{error_code, error_text};
ghost use Rattle.gather.specs.declared.error.GatherError.TheVariants.{OutOfMemory};

use std::alloc::{AllocError, AllocFailed};
use std::fmt;
use thiserror::Error;
use types::path::Path;

/// The reason why results don't fit together, with an example of a call to `settle` for each. In
/// the examples, `root` is the result of the root of `main { async { } }`, which lists 0.1, and
/// `child` is the result of 0.1.
#[derive(PartialEq, Eq, Debug, Drop, Error)]
pub enum GatherError {
    /// `G1 0.1`: a listed task has no result. Example: `root` without results.
    Lost(Path),
    /// `G2 0.1`: a path has two results, or a place comes back that is already owned. Example:
    /// `root` with `child` twice.
    Double(Path),
    /// `G3 0.1`: nobody lists this result. Example: the result of the root of `main { }`, with
    /// `child`.
    Stranger(Path),
    /// `G4`: out of memory. Example: `root` with `child`, if an allocation fails.
    OutOfMemory,
}

impl GatherError {
    /// Returns the code of the error.
    pub fn code(&self) -> &'static str
        ensures { result.now ≡ error_code self.now }
    {
        match self {
            GatherError::Lost(_) => "G1",
            GatherError::Double(_) => "G2",
            GatherError::Stranger(_) => "G3",
            GatherError::OutOfMemory => "G4",
        }
    }
}

impl fmt::Display for GatherError {
    ghost output = { λ e. Some (error_text e) };

    fn fmt<W: fmt::Write>(&self, f: &mut fmt::Formatter<W>) -> fmt::Result {
        let code = self.code();
        match self {
            GatherError::Lost(path) => write!(f, "{code} {path}"),
            GatherError::Double(path) => write!(f, "{code} {path}"),
            GatherError::Stranger(path) => write!(f, "{code} {path}"),
            GatherError::OutOfMemory => write!(f, "{code}"),
        }
    }
}

impl From<AllocError> for GatherError {
    ghost from_gives = { λ _ e. e ≡ OutOfMemory };

    fn from(_error: AllocError) -> GatherError {
        GatherError::OutOfMemory
    }
}

impl<T: Drop> From<AllocFailed<T>> for GatherError {
    ghost from_gives = { λ _ e. e ≡ OutOfMemory };

    fn from(_error: AllocFailed<T>) -> GatherError {
        GatherError::OutOfMemory
    }
}
