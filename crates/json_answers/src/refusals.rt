//! Objects of failures.

ghost use Rattle.std.specs.Prelude.{◌≡◌, IfOk, OnOk, option_map};
ghost use Rattle.std.specs.String.{string_bytes};
ghost use Rattle.serde_json.specs.Data.{string};
ghost use Rattle.serde_json.specs.View.{view};
ghost use Rattle.failures.specs.Messages.{failure_text};
ghost use Rattle.json_answers.specs.Places.{column_of, line_of};
ghost use Rattle.json_answers.specs.Pieces.{IsReadBack, line, list_by, natural, object_of, or_null};
ghost use Rattle.json_answers.specs.Refusals.{explained_place, failure_array, failure_code};
ghost use Rattle.json_answers.specs.Refusals.{failure_label, helps_json};
ghost use Rattle.json_answers.specs.Refusals.{members_with, reason_json, refusal_json};

use crate::line::line_of;
use crate::reason::Reason;
use crate::text_places::{column_in, line_in};
use crate::told::{array_of, code_of, label_of, message_of, place_of};
use failures::failure::Failure;
use serde_json::{Value, json};
use std::alloc::{AllocError, Global};
use syntax::TextPlace;

/// Returns the object of a failure, with the file of the program as it was named, and the positions
/// of the program's statements if they are known. Members that the failure doesn't have are null:
/// `{"array":null,"code":"Y8","column":null,"file":"d.afx","help":["add `main { .. }`"],..}`.
pub fn refusal_object(
    alloc: Global,
    file: &str,
    places: &[TextPlace],
    failure: &Failure,
    reason: &Reason,
) -> Result<String, AllocError>
    ensures text { IfOk result (λ text. string_bytes text
        ≡ line (refusal_json file.now places.now failure.now reason.now)) }
    ensures reads { OnOk result
        (IsReadBack (refusal_json file.now places.now failure.now reason.now)) }
{
    let value = refusal_value(alloc, file, places, failure, reason)?;
    line_of(alloc, &value)
}

/// Returns the value of a failure.
fn refusal_value(
    alloc: Global,
    file: &str,
    places: &[TextPlace],
    failure: &Failure,
    reason: &Reason,
) -> Result<Value, AllocError>
    ensures { IfOk result (λ v. view v
        ≡ refusal_json file.now places.now failure.now reason.now) }
{
    let place = place_explained(failure, places, reason);
    let texts = texts_of(alloc, failure, place, reason)?;
    value_with(alloc, file, texts, failure.status())
}

/// Returns the value of a failure at this position, with what is said of it.
fn value_with(alloc: Global, file: &str, texts: Texts, status: u8) -> Result<Value, AllocError>
    ensures { IfOk result (λ v. view v ≡ object_of (members_with file.now
        (view texts.column) (view texts.line) (view texts.label) (view texts.array)
        (view texts.code) (view texts.help) (string_bytes texts.message) (view texts.reason)
        status)) }
{
    json!(in alloc; {
        "array": texts.array,
        "code": texts.code,
        "column": texts.column,
        "file": file,
        "help": texts.help,
        "label": texts.label,
        "line": texts.line,
        "message": texts.message,
        "reason": texts.reason,
        "status": status,
    })
}

/// What is said of a failure, as values: the name of its array, its code, the suggestions, its line
/// and why it is one.
#[derive(Drop)]
struct Texts {
    array: Value,
    code: Value,
    column: Value,
    help: Value,
    label: Value,
    line: Value,
    message: String,
    reason: Value,
}

/// Returns what is said of a failure.
fn texts_of(
    alloc: Global,
    failure: &Failure,
    place: Option<TextPlace>,
    reason: &Reason,
) -> Result<Texts, AllocError>
    ensures array { IfOk result (λ t. view t.array ≡ or_null string (failure_array failure.now)) }
    ensures code { IfOk result (λ t. view t.code ≡ or_null string (failure_code failure.now)) }
    ensures column { IfOk result (λ t. view t.column ≡ or_null natural (column_of place)) }
    ensures line { IfOk result (λ t. view t.line ≡ or_null natural (line_of place)) }
    ensures help { IfOk result (λ t. view t.help ≡ helps_json reason.now) }
    ensures label { IfOk result (λ t. view t.label ≡ or_null natural (failure_label failure.now)) }
    ensures message { IfOk result (λ t. string_bytes t.message ≡ failure_text failure.now) }
    ensures reason { IfOk result (λ t. view t.reason ≡ reason_json reason.now) }
{
    let Why { help, reason } = why_of(alloc, reason)?;
    Ok(Texts {
        array: text_or_null(alloc, array_of(failure))?,
        code: text_or_null(alloc, code_of(failure))?,
        column: number_or_null(column_in(place)),
        help,
        label: number_or_null(label_of(failure)),
        line: number_or_null(line_in(place)),
        message: message_of(alloc, failure)?,
        reason,
    })
}

/// What an explanation says, as values.
#[derive(Drop)]
pub struct Why {
    pub help: Value,
    pub reason: Value,
}

/// Returns what an explanation says.
pub fn why_of(alloc: Global, reason: &Reason) -> Result<Why, AllocError>
    ensures help { IfOk result (λ why. view why.help ≡ helps_json reason.now) }
    ensures reason { IfOk result (λ why. view why.reason ≡ reason_json reason.now) }
{
    let help = helps_value(alloc, reason)?;
    let reason = reason_value(alloc, reason)?;
    Ok(Why { help, reason })
}

/// Returns the position of a failure: where the text is wrong, where the statement starts, or else
/// the position in the explanation.
fn place_explained(failure: &Failure, places: &[TextPlace], reason: &Reason) -> Option<TextPlace>
    ensures { result ≡ explained_place places.now failure.now reason.now }
{
    place_of(failure, places).or(reason.place)
}

/// Returns why a failure is one, or null.
fn reason_value(alloc: Global, reason: &Reason) -> Result<Value, AllocError>
    ensures { IfOk result (λ v. view v ≡ reason_json reason.now) }
{
    match &reason.reason {
        None => Ok(Value::Null),
        Some(text) => Value::try_from_str(alloc, text.as_str()),
    }
}

/// Returns the list of suggestions.
fn helps_value(alloc: Global, reason: &Reason) -> Result<Value, AllocError>
    ensures { IfOk result (λ v. view v ≡ helps_json reason.now) }
{
    texts_value(alloc, &reason.helps)
}

/// Returns a list of texts.
fn texts_value(alloc: Global, texts: &[String]) -> Result<Value, AllocError>
    ensures { IfOk result (λ v. view v ≡ list_by (λ t. string (string_bytes t)) texts.now) }
{
    let mut list = Vec::new(alloc);
    for text in texts {
        list.push(Value::try_from_str(alloc, text.as_str())?)?;
    }
    Ok(Value::Array(list))
}

/// Returns a number, or null if there is none.
fn number_or_null(number: Option<u32>) -> Value
    ensures { view result ≡ or_null natural number }
{
    match number {
        Some(number) => Value::from(number),
        None => Value::Null,
    }
}

/// Returns a text, or null if there is none.
pub fn text_or_null(alloc: Global, text: Option<&str>) -> Result<Value, AllocError>
    ensures { IfOk result (λ v. view v ≡ or_null string (option_map (λ t. t.now) text.entry)) }
{
    match text {
        Some(text) => Value::try_from_str(alloc, text),
        None => Ok(Value::Null),
    }
}
