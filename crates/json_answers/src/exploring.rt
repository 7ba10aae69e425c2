//! `explore --format json`: where a run by choices stands. The program may have a race.

ghost use Rattle.std.specs.Prelude.{◌≡◌, IfErr, IfOk, map, option_map};
ghost use Rattle.std.specs.String.{string_bytes};
ghost use Rattle.types.specs.Translation.{input as lists_in};
ghost use Rattle.types.specs.Typed.{code_of};
ghost use Rattle.step_trees.specs.Standing.{candidate_of};
ghost use Rattle.command_line.specs.Requests.{choosing as choosing_of, settings as settings_of};
ghost use Rattle.commands.specs.Chosen.{AreChosen};
ghost use Rattle.commands.specs.Outcomes.{Fits};
ghost use Rattle.files.specs.Choosing.{TellsNoChoices};
ghost use Rattle.json_answers.specs.Explored.{FailsUnexplored, ObjectOfStanding, TellsOpen};

use crate::object_line::ObjectLine;
use crate::run_outcomes::{outcome_told, places_in};
use crate::standings::open_object;
use command_line::request::Choosing;
use commands::question::{ProgramAndInput, Question};
use failures::failure::Failure;
use files::choices::{choices_in_file, choices_said};
use files::file_source::FileSource;
use std::alloc::Global;
use step_trees::leaf::Candidate;
use step_trees::standing::{Standing, draw, stand_after};

/// Returns the object of the outcome of a run by choices, or of the tasks that may step.
pub fn explored_told<F: FileSource>(
    alloc: Global,
    question: Question<'_>,
    files: &mut F,
) -> Result<ObjectLine, Failure>
    ensures object { IfOk result (λ t. ObjectOfStanding (settings_of question.entry.settings)
        (F.held files.old) question.entry.text.now (string_bytes t.line) t.status) }
    ensures why { IfErr result (FailsUnexplored (settings_of question.entry.settings)
        (F.held files.old) question.entry.text.now) }
    ensures keeps { F.held files.new ≡ F.held files.old }
{
    let given = question.given(alloc, files)?;
    let choices = choices_of(alloc, files, question.settings.choices, &given)?;
    let Ok(stands) = stand_after(alloc, &given.typed, &given.input, &choices) else {
        return Err(Failure::NoMemory);
    };
    match stands {
        Standing::Ended(outcome) => {
            outcome_told(alloc, question.text, &given.typed.code().arrays, &outcome)
        }
        Standing::Open(tasks) => open_told(alloc, question.text, &tasks),
        Standing::NoSuchChoice(choice) => Err(Failure::NoLeaf(choice)),
    }
}

/// Returns the choices for a program and its input: of a list, of a file, or drawn from a seed.
fn choices_of<F: FileSource>(
    alloc: Global,
    files: &mut F,
    choosing: Option<Choosing<'_>>,
    given: &ProgramAndInput,
) -> Result<Vec<u32>, Failure>
    requires { Fits given.now.typed given.now.input }
    ensures chosen { IfOk result (λ choices. AreChosen (option_map choosing_of choosing.entry)
        (F.held files.old) (code_of given.now.typed) (lists_in given.now.input) choices.items) }
    ensures why { IfErr result
        (TellsNoChoices (option_map choosing_of choosing.entry) (F.held files.old)) }
    ensures keeps { F.held files.new ≡ F.held files.old }
{
    match choosing {
        None => Ok(Vec::new(alloc)),
        Some(Choosing::Listed(text)) => choices_said(alloc, text),
        Some(Choosing::InFile(name)) => choices_in_file(alloc, files, name),
        Some(Choosing::Random(seed)) => match draw(alloc, &given.typed, &given.input, seed) {
            Ok(choices) => Ok(choices),
            Err(_) => Err(Failure::NoMemory),
        },
    }
}

/// Returns the object of the tasks of a text's program that may step.
fn open_told(alloc: Global, text: &str, tasks: &[Candidate]) -> Result<ObjectLine, Failure>
    ensures object { IfOk result (λ t. TellsOpen (map candidate_of tasks.now) text.now
        (string_bytes t.line) t.status) }
    ensures why { IfErr result (λ f. f ≡ Failure.NoMemory) }
{
    let Ok(places) = places_in(alloc, text) else {
        return Err(Failure::NoMemory);
    };
    match open_object(alloc, &places, tasks) {
        Ok(line) => Ok(ObjectLine { line, status: 3 }),
        Err(_) => Err(Failure::NoMemory),
    }
}
