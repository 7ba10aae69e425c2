//! `--explain`: the text after the line of a failure, and after an outcome.

ghost use Rattle.std.specs.Prelude.{◌≡◌, ◌≤◌, [], IfOk};
ghost use Rattle.std.specs.String.{string_bytes};

use crate::misfit::input_explained;
use crate::question::Question;
use crate::unchosen::{choices_explained, no_leaf_explained, open_explained};
use crate::unlaid::layout_explained;
use crate::unread::{reread_explained, unreadable_explained, unwritten_explained};
use command_line::request::{Command, Request, RunOptions};
use explanations::syntax_errors::explained_syntax;
use explanations::told::{explained, push_races};
use failures::failure::Failure;
use failures::least_race::LeastRace;
use files::file_source::FileSource;
use finish_scope::run_error::RunError;
use rule_explanations::rule_errors::explained_rule;
use run_explanations::headings::heading_of;
use run_explanations::run::{seen_again, surplus_task};
use run_explanations::runs::explained_run;
use run_explanations::tasks::explained_tasks;
use run_explanations::traces::{Wrong, explained_trace};
use std::alloc::{AllocError, Global};
use trace_text::error::TraceError;
use types::budget::{Budget, MOST_NEST, MOST_STEPS};
use witness::witness::Witness;

/// Returns what went wrong, why, and what would be right: in the text of a program, in the file of
/// its input or of a trace, in its choices, or in its formatting. The request names the file of the
/// program. If it is for all races, they are listed after the explanation of a race, for which a
/// witness is searched. Returns an empty text if there is no more to say than the failure's line.
pub fn explanation<F: FileSource>(
    alloc: Global,
    files: &mut F,
    request: Request<'_>,
    text: &str,
    failure: &Failure,
) -> Result<String, AllocError>
    ensures { F.held files.new ≡ F.held files.old }
{
    let Request { file, settings, .. } = request;
    match failure {
        Failure::Syntax(error) => {
            explained_syntax(alloc, text, error, heading_of(file, error.code()))
        }
        Failure::Types(error) => {
            explained_rule(alloc, text, *error, heading_of(file, error.code()))
        }
        Failure::Race(found) => {
            let witness = found.witness(alloc)?;
            race_explanation(alloc, request, text, found, &witness)
        }
        Failure::Input(error) => input_explained(alloc, files, text, settings.input, error),
        Failure::Run(RunError::TooManyTasks(_)) => {
            let question = Question { text, settings };
            tasks_explained(alloc, files, file, question)
        }
        Failure::Trace(TraceError::NotALine(line)) => {
            trace_explained(alloc, files, settings.trace, Wrong::Line(*line))
        }
        Failure::Illegal(event) => {
            trace_explained(alloc, files, settings.trace, Wrong::Event(*event))
        }
        Failure::NotLaidOut => layout_explained(alloc, text, heading_of(file, "not-formatted")),
        Failure::ChoicesNotUnderstood => choices_explained(alloc, files, settings.choices),
        Failure::NoLeaf(choice) => no_leaf_explained(alloc, file, *choice),
        _ => file_explained(alloc, files, failure),
    }
}

/// Explains which async would start one task too many. It runs the program, in the file with this
/// name, on one thread, and reads files again.
fn tasks_explained<F: FileSource>(
    alloc: Global,
    files: &mut F,
    file: &str,
    question: Question<'_>,
) -> Result<String, AllocError>
    ensures { F.held files.new ≡ F.held files.old }
{
    let tasks = question.settings.spread.tasks;
    let heading = heading_of(file, "E2");
    let Ok(given) = question.given(alloc, files) else {
        return explained_tasks(alloc, question.text, tasks, heading, None);
    };
    let budget = question.settings.budget;
    let surplus = surplus_task(alloc, &given.typed, &given.input, budget, tasks)?;
    explained_tasks(alloc, question.text, tasks, heading, surplus)
}

/// Explains what is wrong with a file that a command names in addition to that of the program.
/// Returns an empty text for any other failure.
fn file_explained<F: FileSource>(
    alloc: Global,
    files: &mut F,
    failure: &Failure,
) -> Result<String, AllocError>
    ensures { F.held files.new ≡ F.held files.old }
{
    match failure {
        Failure::CannotRead { name } => unreadable_explained(alloc, files, name.as_str()),
        Failure::NotUtf8 { name } => reread_explained(alloc, files, name.as_str()),
        Failure::CannotWrite { name } => unwritten_explained(alloc, name.as_str()),
        _ => Ok(String::new(alloc)),
    }
}

/// Explains why the least race of a program is one, by a witness of it. Lists all races of the
/// program if the request is for all.
pub fn race_explanation(
    alloc: Global,
    request: Request<'_>,
    text: &str,
    found: &LeastRace,
    witness: &Witness,
) -> Result<String, AllocError> {
    let heading = heading_of(request.file, "C1");
    let mut told = explained(alloc, text, &found.typed, found.race, witness, heading)?;
    push_races(alloc, &mut told, text, &found.typed, request.telling.all)?;
    Ok(told)
}

/// Explains what is wrong with the file of a trace. It reads the file again.
fn trace_explained<F: FileSource>(
    alloc: Global,
    files: &mut F,
    name: Option<&str>,
    wrong: Wrong,
) -> Result<String, AllocError>
    ensures { F.held files.new ≡ F.held files.old }
{
    let Some(name) = name else {
        return Ok(String::new(alloc));
    };
    let Ok(bytes) = files.read(name) else {
        return Ok(String::new(alloc));
    };
    match std::str::from_utf8(&bytes) {
        Ok(trace) => explained_trace(alloc, trace, wrong, heading_of(name, word_of(wrong))),
        Err(_) => Ok(String::new(alloc)),
    }
}

/// Returns the word of the page about what is wrong with a trace.
fn word_of(wrong: Wrong) -> &'static str {
    match wrong {
        Wrong::Line(_) => "J1",
        Wrong::Event(_) => "illegal",
    }
}

/// Explains the faults of a run, or which task was over its budget, after an outcome with this
/// status. It runs the program, in the file with this name, again on one thread, and reads files
/// again. Returns an empty text after any other answer, and if files can't be read again.
pub fn run_explanation<F: FileSource>(
    alloc: Global,
    files: &mut F,
    file: &str,
    command: Command,
    question: Question<'_>,
    status: u8,
) -> Result<String, AllocError>
    ensures calm { status ≤ 1 → IfOk result (λ more. string_bytes more ≡ []) }
    ensures keeps { F.held files.new ≡ F.held files.old }
{
    if status < 2 {
        return Ok(String::new(alloc));
    }
    match budget_of(command, question.settings, status) {
        None => without_run(alloc, file, command, question.settings, status),
        Some(budget) => run_again(alloc, files, file, question, budget),
    }
}

/// Explains an answer that needs no further run: a run by choices that is open.
fn without_run(
    alloc: Global,
    file: &str,
    command: Command,
    settings: RunOptions<'_>,
    status: u8,
) -> Result<String, AllocError> {
    match command {
        Command::Explore if status == 3 => open_explained(alloc, file, settings.choices),
        _ => Ok(String::new(alloc)),
    }
}

/// Returns the budget of a run of a command that finished with this status, or None if no run has
/// finished. A run by choices has no budget, and with status 3 it is open.
fn budget_of(command: Command, settings: RunOptions<'_>, status: u8) -> Option<Budget> {
    match command {
        Command::Run => Some(settings.budget),
        Command::Serial | Command::Cost | Command::CostByLabel | Command::CostByProcedure => {
            Some(settings.budget)
        }
        Command::Explore if status == 2 => Budget::new(u64::from(MOST_STEPS), u64::from(MOST_NEST)),
        _ => None,
    }
}

/// Runs the program again under a budget, and explains what happens.
fn run_again<F: FileSource>(
    alloc: Global,
    files: &mut F,
    file: &str,
    question: Question<'_>,
    budget: Budget,
) -> Result<String, AllocError>
    ensures { F.held files.new ≡ F.held files.old }
{
    let Ok(given) = question.given(alloc, files) else {
        return Ok(String::new(alloc));
    };
    let seen = seen_again(alloc, &given.typed, &given.input, budget)?;
    explained_run(
        alloc,
        question.text,
        given.typed.code(),
        budget,
        &seen,
        file,
    )
}
