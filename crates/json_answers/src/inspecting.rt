//! `inspect`: the answers of several commands for one program, in one object.

ghost use Rattle.std.specs.Prelude.{◌≡◌, IfOk};
ghost use Rattle.std.specs.String.{string_bytes};
ghost use Rattle.json_answers.specs.Inspected.{members_text, status_of_both};

use crate::object_line::ObjectLine;
use std::alloc::{AllocError, Global};

/// Returns the object with these answers, each as the line that its command writes:
/// `{"check":{..},"list":{..},"serial":{..},"status":0}`, with a line feed after each answer.
pub fn inspected(
    alloc: Global,
    check: &ObjectLine,
    list: &ObjectLine,
    serial: &ObjectLine,
) -> Result<ObjectLine, AllocError>
    ensures line { IfOk result (λ t. string_bytes t.line ≡ members_text
        (string_bytes check.now.line) (string_bytes list.now.line) (string_bytes serial.now.line)
        t.status) }
    ensures status { IfOk result (λ t. t.status ≡ status_of_both check.now.status serial.now.status) }
{
    let status = status_of(check.status, serial.status);
    let line = members_of(
        alloc,
        check.line.as_str(),
        list.line.as_str(),
        serial.line.as_str(),
        status,
    )?;
    Ok(ObjectLine { line, status })
}

/// Returns the status of `check`, or that of `serial` if the program is accepted.
fn status_of(check: u8, serial: u8) -> u8
    ensures { result ≡ status_of_both check serial }
{
    if check == 0 { serial } else { check }
}

/// Returns the text of an object with these members.
fn members_of(
    alloc: Global,
    check: &str,
    list: &str,
    serial: &str,
    status: u8,
) -> Result<String, AllocError>
    ensures { IfOk result (λ text. string_bytes text
        ≡ members_text check.now list.now serial.now status) }
{
    format!(in alloc;
        "{{\"check\":{check},\"list\":{list},\"serial\":{serial},\"status\":{status}}}\n"
    )
}
