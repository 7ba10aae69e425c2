//! The commands that report on a program without a run.

ghost use Rattle.std.specs.Prelude.{IfErr, IfOk};
ghost use Rattle.std.specs.String.{string_bytes};
ghost use Rattle.command_line.specs.Requests.{Settings as SettingsOf};
ghost use Rattle.files.specs.Held.{Held};
ghost use Rattle.json_answers.specs.Objects.{FailsEarly, ObjectOf};

use crate::object_line::{ObjectLine, told_or_no_memory};
use crate::programs::{accepted_object, formatted_object, pairs_object};
use crate::statements::statements_object;
use command_line::request::Command;
use commands::programs::{accepted_of, program_of, typed_of};
use commands::statements::NamedStatements;
use commands::telling::pairs_of;
use failures::failure::Failure;
use layout::laid_out;
use std::alloc::Global;
use std::thread::Threads;

/// `check`: returns the object with the numbers of procedures and labels of an accepted program.
pub fn check_told<R: Threads + Sync>(
    rt: &R,
    alloc: Global,
    text: &str,
) -> Result<ObjectLine, Failure>
    ensures object { (s : SettingsOf) (held : Held)
        → IfOk result (λ t. ObjectOf Command.Check s held text.now (string_bytes t.line) t.status) }
    ensures why { (s : SettingsOf) (held : Held) → IfErr result (FailsEarly Command.Check s held text.now) }
{
    let accepted = accepted_of(rt, alloc, text)?;
    told_or_no_memory(accepted_object(alloc, accepted.typed().code()), 0)
}

/// `mhp`: returns the object with the pairs of labels of a program that may run together.
pub fn pairs_told(alloc: Global, text: &str) -> Result<ObjectLine, Failure>
    ensures object { (s : SettingsOf) (held : Held)
        → IfOk result (λ t. ObjectOf Command.Pairs s held text.now (string_bytes t.line) t.status) }
    ensures why { (s : SettingsOf) (held : Held) → IfErr result (FailsEarly Command.Pairs s held text.now) }
{
    let typed = typed_of(alloc, text)?;
    match pairs_of(alloc, &typed) {
        Ok(pairs) => told_or_no_memory(pairs_object(alloc, pairs.list()), 0),
        Err(_) => Err(Failure::NoMemory),
    }
}

/// `list`: returns the object with the statements of a program, even if it breaks rules.
pub fn list_told(alloc: Global, text: &str) -> Result<ObjectLine, Failure>
    ensures object { (s : SettingsOf) (held : Held)
        → IfOk result (λ t. ObjectOf Command.Labels s held text.now (string_bytes t.line) t.status) }
    ensures why { (s : SettingsOf) (held : Held)
        → IfErr result (FailsEarly Command.Labels s held text.now) }
{
    let program = program_of(alloc, text)?;
    match NamedStatements::of(alloc, text, &program) {
        Ok(statements) => told_or_no_memory(statements_object(alloc, &statements), 0),
        Err(_) => Err(Failure::NoMemory),
    }
}

/// `fmt --check`: returns the object of a text that is formatted.
pub fn format_told(alloc: Global, text: &str) -> Result<ObjectLine, Failure>
    ensures object { (s : SettingsOf) (held : Held) → IfOk result
        (λ t. ObjectOf Command.CheckFormat s held text.now (string_bytes t.line) t.status) }
    ensures why { (s : SettingsOf) (held : Held)
        → IfErr result (FailsEarly Command.CheckFormat s held text.now) }
{
    let _program = program_of(alloc, text)?;
    let Ok(laid) = laid_out(alloc, text) else {
        return Err(Failure::NoMemory);
    };
    if laid.as_str() == text {
        told_or_no_memory(formatted_object(alloc), 0)
    } else {
        Err(Failure::NotLaidOut)
    }
}
