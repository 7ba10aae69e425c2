//! `mhp --accesses`: the pairs of accesses of each procedure that may run together.

ghost use Rattle.std.specs.Prelude.{◌≡◌, ◌++◌, IfOk, OnOk, length, map, suc};
ghost use Rattle.std.specs.String.{string_bytes};
ghost use Rattle.types.specs.Translation.{procedure as plain_procedure};
ghost use Rattle.types.specs.Typed.{code_of};
ghost use Rattle.effects.specs.Summarized.{AreSummaries};
ghost use Rattle.parallel_relation.specs.Translation.{meeting as plain_meeting};
ghost use Rattle.commands.specs.Answers.{DoesAlone};
ghost use Rattle.commands.specs.MeetingLines.{AddsLines, HasLines, meeting_line, meeting_lines};

use crate::memory::or_no_memory;
use crate::programs::typed_of;
use crate::showing::answer;
use command_line::request::Command;
use effects::summaries::{Summaries, summarize};
use failures::failure::Failure;
use failures::names::{procedure_of, section_told};
use parallel_relation::meeting::Meeting;
use parallel_relation::meetings::meetings;
use std::alloc::{AllocError, Global};
use std::io::Write;
use types::code::Procedure;
use types::ids::ProcedureId;
use types::laws::typed_programs_are_sound;
use types::typed::Typed;

/// `mhp --accesses`: writes the pairs of accesses of each procedure that may run together, one per
/// line.
pub fn list_accesses<O: Write>(alloc: Global, text: &str, out: &mut O) -> Result<u8, Failure>
    ensures { DoesAlone Command.Meetings text.now (O.contents out.old) (O.contents out.new) result }
{
    let typed = typed_of(alloc, text)?;
    let told = or_no_memory(lines_of(alloc, &typed))?;
    answer(out, told.as_str())
}

/// Returns the lines of all procedures, in the order of the text.
fn lines_of(alloc: Global, typed: &Typed) -> Result<String, AllocError>
    ensures { let p = code_of typed.now in
        IfOk result (λ told. HasLines p (suc (length p.procedures)) (string_bytes told)) }
{
    typed_programs_are_sound(typed);
    let summaries = summarize(alloc, typed)?;
    let main = typed.code().procedures.len();
    let mut told = String::new(alloc);
    for number in 0..main {
        push_lines(alloc, typed, &summaries, ProcedureId { number }, &mut told)?;
    }
    push_lines(
        alloc,
        typed,
        &summaries,
        ProcedureId { number: main },
        &mut told,
    )?;
    Ok(told)
}

/// Adds the lines of a procedure; `main` is numbered after the others.
fn push_lines(
    alloc: Global,
    typed: &Typed,
    summaries: &Summaries,
    procedure: ProcedureId,
    told: &mut String,
) -> Result<(), AllocError>
    requires { ∥ AreSummaries (code_of typed.now) summaries.now ∥₁ }
    ensures { OnOk result (AddsLines (code_of typed.now) procedure.number
        (string_bytes told.old) (string_bytes told.new)) }
{
    let found = meetings(alloc, typed, summaries, procedure)?;
    push_each(alloc, procedure_of(typed.code(), procedure), &found, told)
}

/// Adds a line for each of these.
fn push_each(
    alloc: Global,
    procedure: &Procedure,
    meetings: &[Meeting],
    told: &mut String,
) -> Result<(), AllocError>
    ensures { OnOk result (string_bytes told.new ≡ string_bytes told.old
        ++ meeting_lines (plain_procedure procedure.now) (map plain_meeting meetings.now)) }
{
    for meeting in meetings {
        push_line(alloc, procedure, *meeting, told)?;
    }
    Ok(())
}

/// Adds the line of two accesses: `main: 2 write a, 5 write a`.
fn push_line(
    alloc: Global,
    procedure: &Procedure,
    meeting: Meeting,
    told: &mut String,
) -> Result<(), AllocError>
    ensures { OnOk result (string_bytes told.new ≡ string_bytes told.old
        ++ meeting_line (plain_procedure procedure.now) (plain_meeting meeting)) }
{
    let name = procedure.name.as_str();
    let first = section_told(alloc, procedure, meeting.first)?;
    let second = section_told(alloc, procedure, meeting.second)?;
    write!(told, "{name}: {first}, {second}\n")?;
    Ok(())
}
