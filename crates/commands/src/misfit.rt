//! Explanations for inputs that don't match their program.

ghost use Rattle.std.specs.Prelude.{◌≡◌};

use crate::programs::typed_of;
use command_line::request::InputSource;
use explanations::input_errors::{Form, GivenInput, explained_input};
use files::file_source::FileSource;
use files::input_file::{bytes_text, lists_text};
use run_explanations::headings::heading_of;
use std::alloc::{AllocError, Global};
use types::input_error::InputError;

/// Explains what is wrong with an input for the program of a text, given by its source. It reads a
/// file again.
pub fn input_explained<F: FileSource>(
    alloc: Global,
    files: &mut F,
    text: &str,
    source: Option<InputSource<'_>>,
    error: &InputError,
) -> Result<String, AllocError>
    ensures { F.held files.new ≡ F.held files.old }
{
    match source {
        Some(InputSource::File(name)) => json_explained(alloc, files, text, name, error),
        Some(InputSource::Lists(words)) => {
            let input = lists_text(alloc, words)?;
            let given = GivenInput {
                text: input.as_str(),
                form: Form::Numbers,
            };
            told(alloc, text, given, "--set", error)
        }
        Some(InputSource::Bytes { name, file }) => {
            let Ok(bytes) = files.read(file) else {
                return Ok(String::new(alloc));
            };
            let input = bytes_text(alloc, name, &bytes)?;
            let given = GivenInput {
                text: input.as_str(),
                form: Form::Bytes,
            };
            told(alloc, text, given, file, error)
        }
        None => Ok(String::new(alloc)),
    }
}

/// Explains what is wrong with the JSON text in a file.
fn json_explained<F: FileSource>(
    alloc: Global,
    files: &mut F,
    text: &str,
    name: &str,
    error: &InputError,
) -> Result<String, AllocError>
    ensures { F.held files.new ≡ F.held files.old }
{
    let Ok(bytes) = files.read(name) else {
        return Ok(String::new(alloc));
    };
    let Ok(input) = std::str::from_utf8(&bytes) else {
        return Ok(String::new(alloc));
    };
    let given = GivenInput {
        text: input,
        form: Form::Json,
    };
    told(alloc, text, given, name, error)
}

/// Returns the explanation of an input that comes from here.
fn told(
    alloc: Global,
    text: &str,
    given: GivenInput<'_>,
    from: &str,
    error: &InputError,
) -> Result<String, AllocError> {
    match typed_of(alloc, text) {
        Ok(typed) => {
            let heading = heading_of(from, error.code());
            explained_input(alloc, &typed.code().arrays, given, error, heading)
        }
        Err(_) => Ok(String::new(alloc)),
    }
}
