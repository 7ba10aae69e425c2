//! `cost --by-line`: the cost of a run on one thread, with the share of each statement.

ghost use Rattle.std.specs.Prelude.{◌≡◌, IfErr, IfOk};
ghost use Rattle.std.specs.Str.{chars};
ghost use Rattle.std.specs.String.{string_bytes};
ghost use Rattle.syntax.specs.Lexical.{AreTokensOf};
ghost use Rattle.syntax.specs.Spelling.{spelling};
ghost use Rattle.types.specs.Typed.{program_of};
ghost use Rattle.command_line.specs.Requests.{settings as settings_of};
ghost use Rattle.json_answers.specs.Objects.{FailsEarly, ObjectOf, TellsShares};

use crate::object_line::{ObjectLine, told_or_no_memory};
use crate::run_outcomes::outcome_told;
use crate::statements::shares_object;
use command_line::request::Command;
use commands::costing::label_rows;
use commands::question::Question;
use commands::showing::status;
use commands::statements::NamedStatements;
use cost::cost::{CostByLabel, measure_by_label};
use failures::failure::Failure;
use files::file_source::FileSource;
use std::alloc::{AllocError, Global};
use types::typed::Typed;

/// `cost --by-line`: returns the object of the cost of the one-thread run with the shares of all
/// statements, or of its outcome if it has faults or was stopped.
pub fn shares_told<F: FileSource>(
    alloc: Global,
    question: Question<'_>,
    files: &mut F,
) -> Result<ObjectLine, Failure>
    ensures object { IfOk result (λ t. ObjectOf Command.CostByLabel
        (settings_of question.entry.settings) (F.held files.old) question.entry.text.now
        (string_bytes t.line) t.status) }
    ensures why { IfErr result (FailsEarly Command.CostByLabel
        (settings_of question.entry.settings) (F.held files.old) question.entry.text.now) }
    ensures keeps { F.held files.new ≡ F.held files.old }
{
    let given = question.given(alloc, files)?;
    let rows = label_rows(&given.typed)?;
    let budget = question.settings.budget;
    let Ok(cost) = measure_by_label(alloc, &given.typed, &given.input, budget, rows) else {
        return Err(Failure::NoMemory);
    };
    if status(&cost.costed.outcome) == 0 {
        told_or_no_memory(line_of_shares(alloc, question.text, &given.typed, &cost), 0)
    } else {
        outcome_told(
            alloc,
            question.text,
            &given.typed.code().arrays,
            &cost.costed.outcome,
        )
    }
}

/// Returns the line of a cost of a text's program, with the shares of all statements.
fn line_of_shares(
    alloc: Global,
    text: &str,
    typed: &Typed,
    cost: &CostByLabel,
) -> Result<String, AllocError>
    ensures { AreTokensOf (chars text.now) (spelling (program_of typed.now))
        → IfOk result (λ told. TellsShares text.now cost.now.costed.cost
        cost.now.work.items cost.now.span.items (string_bytes told)) }
{
    let statements = NamedStatements::of(alloc, text, typed.program())?;
    shares_object(alloc, cost, &statements)
}
