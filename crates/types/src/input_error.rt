//! Errors of inputs.

ghost use Rattle.std.specs.Prelude.{◌≡◌, Some};
ghost use Rattle.types.specs.InputErrors.{error_code, error_text};
ghost use Rattle.types.specs.declared.input_error.InputError.TheVariants.{OutOfMemory};

use std::alloc::{AllocError, AllocFailed};
use std::error::Error;
use std::fmt;

/// The reason why an input is rejected, each with an example for `main { array a: byte[1]; }`.
/// Arrays are checked in the order of declaration, and for each array first the length, then the
/// elements.
#[derive(PartialEq, Eq, Debug, Drop)]
pub enum InputError {
    /// N1: a text that isn't JSON, such as `{`.
    NotJson,
    /// N2: a value that is no object, such as `[]`.
    NotAnObject,
    /// N3: a member that names no array, as in `{"z": []}`. If there are several, it is the
    /// smallest name in byte order.
    UnknownArray { name: String },
    /// N4 without a name: the number of lists isn't the number of arrays, as in `Input::new(alloc,
    /// &typed, Vec::new(alloc))`.
    WrongNumberOfLists,
    /// N4: an array whose value is no list, as in `{"a": 1}`, or a list of another length, as in
    /// `{"a": [1, 2]}`.
    WrongLength { name: String },
    /// N5: an element that isn't written as an integer, as in `{"a": [1.0]}`, or that doesn't fit
    /// in the element type, as in `{"a": [256]}`.
    WrongElement { name: String },
    /// N6: memory ran out, which is possible for any input.
    OutOfMemory,
}

impl InputError {
    /// Returns the code that the program prints.
    pub fn code(&self) -> &'static str
        ensures { result.now ≡ error_code self.now }
    {
        match self {
            InputError::NotJson => "N1",
            InputError::NotAnObject => "N2",
            InputError::UnknownArray { .. } => "N3",
            InputError::WrongNumberOfLists => "N4",
            InputError::WrongLength { .. } => "N4",
            InputError::WrongElement { .. } => "N5",
            InputError::OutOfMemory => "N6",
        }
    }
}

impl fmt::Display for InputError {
    ghost output = { λ e. Some (error_text e) };

    fn fmt<W: fmt::Write>(&self, f: &mut fmt::Formatter<W>) -> fmt::Result {
        let code = self.code();
        match self {
            InputError::UnknownArray { name } => write!(f, "{code} {name}"),
            InputError::WrongLength { name } => write!(f, "{code} {name}"),
            InputError::WrongElement { name } => write!(f, "{code} {name}"),
            InputError::NotJson => write!(f, "{code}"),
            InputError::NotAnObject => write!(f, "{code}"),
            InputError::WrongNumberOfLists => write!(f, "{code}"),
            InputError::OutOfMemory => write!(f, "{code}"),
        }
    }
}

impl Error for InputError {}

impl From<AllocError> for InputError {
    ghost from_gives = { λ _ e. e ≡ OutOfMemory };

    fn from(_error: AllocError) -> InputError {
        InputError::OutOfMemory
    }
}

impl<T: Drop> From<AllocFailed<T>> for InputError {
    ghost from_gives = { λ _ e. e ≡ OutOfMemory };

    fn from(_error: AllocFailed<T>) -> InputError {
        InputError::OutOfMemory
    }
}
