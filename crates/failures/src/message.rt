//! The messages of failures, written piece by piece without allocating.

ghost use Rattle.std.specs.Prelude.{◌++◌, codes};
ghost use Rattle.types.specs.Translation.{procedure as plain_procedure, program};
ghost use Rattle.effects.specs.Translation.{access as access_of};
ghost use Rattle.race_checker.specs.Translation.{race as race_of};
ghost use Rattle.printing.specs.Appending.{Writes};
ghost use Rattle.trace_text.specs.Reading.{trace_error_text};
ghost use Rattle.failures.specs.Messages.{failure_text};
ghost use Rattle.failures.specs.Races.{race_line, race_text, section_text};

use crate::failure::Failure;
use crate::names::{kind, procedure_of, section_name};
use effects::access::Access;
use printing::emit::{EmitError, append, emit_label};
use printing::reasons::{
    emit_file, emit_input_error, emit_named, emit_numbered, emit_syntax_error, emit_text,
    emit_type_error,
};
use race_checker::race::Race;
use std::io::Write;
use trace_text::error::TraceError;
use types::code::{Procedure, Program};

/// Writes the line of a failure, with its newline.
pub fn emit_message<W: Write>(err: &mut W, failure: &Failure) -> Result<(), EmitError>
    ensures { Writes (W.contents err.old) (W.contents err.new) result
        (failure_text failure.now ++ codes "\n") }
{
    emit_failure(err, failure)?;
    append(err, b"\n")
}

/// Writes the line without its newline.
fn emit_failure<W: Write>(err: &mut W, failure: &Failure) -> Result<(), EmitError>
    ensures { Writes (W.contents err.old) (W.contents err.new) result (failure_text failure.now) }
{
    match failure {
        Failure::CannotRead { name } => emit_file(err, "cannot read ", name.as_str()),
        Failure::NotUtf8 { name } => emit_file(err, "not UTF-8 ", name.as_str()),
        Failure::Syntax(error) => emit_syntax_error(err, error),
        Failure::Types(error) => emit_type_error(err, *error),
        Failure::Race(found) => emit_race(err, found.typed.code(), found.race),
        Failure::NoMemoryInCheck => emit_text(err, "C2"),
        Failure::Input(error) => emit_input_error(err, error),
        Failure::Run(error) => emit_text(err, error.code()),
        Failure::Trace(error) => emit_trace_error(err, *error),
        Failure::Illegal(event) => emit_numbered(err, "illegal at event ", *event),
        Failure::ChoicesNotUnderstood => emit_text(err, "choices not understood"),
        Failure::NoLeaf(choice) => emit_numbered(err, "no leaf at choice ", *choice),
        Failure::NotLaidOut => emit_text(err, "not formatted"),
        Failure::CannotWrite { name } => emit_file(err, "cannot write ", name.as_str()),
        Failure::CannotWriteOutput => emit_text(err, "cannot write output"),
        Failure::NoMemory => emit_text(err, "no memory"),
    }
}

/// Writes the line of a race of a program, without its newline: `C1 race in main: 2 write a, 3 read a`
pub fn emit_race<W: Write>(err: &mut W, code: &Program, race: Race) -> Result<(), EmitError>
    ensures { Writes (W.contents err.old) (W.contents err.new) result
        (race_text (program code.now) (race_of race)) }
{
    emit_race_of(err, procedure_of(code, race.procedure), race)
}

/// Writes the line of a race of a procedure.
fn emit_race_of<W: Write>(err: &mut W, procedure: &Procedure, race: Race) -> Result<(), EmitError>
    ensures { Writes (W.contents err.old) (W.contents err.new) result
        (race_line (plain_procedure procedure.now) (race_of race)) }
{
    emit_named(err, "C1 race in ", procedure.name.as_str())?;
    emit_access(err, ": ", procedure, race.first)?;
    emit_access(err, ", ", procedure, race.second)
}

/// Writes a text and an access: `: 2 write a`
fn emit_access<W: Write>(
    err: &mut W,
    told: &str,
    procedure: &Procedure,
    access: Access,
) -> Result<(), EmitError>
    ensures { Writes (W.contents err.old) (W.contents err.new) result
        (told.now ++ section_text (plain_procedure procedure.now) (access_of access)) }
{
    emit_text(err, told)?;
    emit_label(err, access.label)?;
    emit_named(err, " ", kind(access.write))?;
    emit_named(err, " ", section_name(procedure, access.section))
}

/// `J1 line 3`
fn emit_trace_error<W: Write>(err: &mut W, error: TraceError) -> Result<(), EmitError>
    ensures { Writes (W.contents err.old) (W.contents err.new) result (trace_error_text error) }
{
    match error {
        TraceError::NotALine(line) => emit_numbered(err, "J1 line ", line),
        TraceError::NoMemory => emit_text(err, "J2"),
    }
}
