//! The parts of a failure.

ghost use Rattle.std.specs.Prelude.{◌≡◌, IfOk, option_map};
ghost use Rattle.std.specs.String.{string_bytes};
ghost use Rattle.failures.specs.Messages.{failure_text};
ghost use Rattle.json_answers.specs.Refusals.{failure_array, failure_code, failure_label, failure_place};

use crate::text_places::place_at;
use failures::failure::Failure;
use failures::message::emit_message;
use std::alloc::{AllocError, Global};
use syntax::TextPlace;
use trace_text::error::TraceError;
use types::code::Label;
use types::input_error::InputError;

/// Returns its code, for example `Y5`, if it has one.
pub(crate) fn code_of(failure: &Failure) -> Option<&'static str>
    ensures { option_map (λ code. code.now) result ≡ failure_code failure.now }
{
    match failure {
        Failure::Syntax(error) => Some(error.code()),
        Failure::Types(error) => Some(error.code()),
        Failure::Race(_) => Some("C1"),
        Failure::NoMemoryInCheck => Some("C2"),
        Failure::Input(error) => Some(error.code()),
        Failure::Run(error) => Some(error.code()),
        Failure::Trace(TraceError::NotALine(_)) => Some("J1"),
        Failure::Trace(TraceError::NoMemory) => Some("J2"),
        _ => None,
    }
}

/// Returns the label of the statement that breaks a rule.
pub(crate) fn label_of(failure: &Failure) -> Option<Label>
    ensures { result ≡ failure_label failure.now }
{
    match failure {
        Failure::Types(error) => error.label(),
        _ => None,
    }
}

/// Returns its position in the text of the program: where the text is wrong, or where the statement
/// starts.
pub(crate) fn place_of(failure: &Failure, places: &[TextPlace]) -> Option<TextPlace>
    ensures { result ≡ failure_place places.now failure.now }
{
    match failure {
        Failure::Syntax(error) => error.place(),
        _ => match label_of(failure) {
            Some(label) => place_at(places, label),
            None => None,
        },
    }
}

/// Returns the name in an error of an input.
pub(crate) fn array_of(failure: &Failure) -> Option<&str>
    ensures { option_map (λ name. name.now) result ≡ failure_array failure.now }
{
    let Failure::Input(error) = failure else {
        return None;
    };
    match error {
        InputError::UnknownArray { name } => Some(name.as_str()),
        InputError::WrongLength { name } => Some(name.as_str()),
        InputError::WrongElement { name } => Some(name.as_str()),
        _ => None,
    }
}

/// Returns its line, without the line feed.
pub fn message_of(alloc: Global, failure: &Failure) -> Result<String, AllocError>
    ensures { IfOk result (λ text. string_bytes text ≡ failure_text failure.now) }
{
    let mut bytes = Vec::new(alloc);
    if emit_message(&mut bytes, failure).is_err() {
        return Err(AllocError);
    }
    let _feed = bytes.pop();
    match String::from_utf8(bytes) {
        Ok(text) => Ok(text),
        // It isn't specified that a message is text; it is built from texts.
        Err(_) => Err(AllocError),
    }
}
