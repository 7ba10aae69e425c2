//! Runs by choices, from any source of choices.

ghost use Rattle.std.specs.Prelude.{◌≡◌, IfErr, IfOk, option_map};
ghost use Rattle.types.specs.Translation.{input as lists_in};
ghost use Rattle.types.specs.Typed.{code_of};
ghost use Rattle.step_trees.specs.Exploring.{explored_of};
ghost use Rattle.commands.specs.Chosen.{ComesTo, HasLeaves};
ghost use Rattle.commands.specs.Outcomes.{Fits};
ghost use Rattle.files.specs.Choosing.{TellsNoChoices};
ghost use Rattle.command_line.specs.Requests.{choosing as choosing_of};

use crate::memory::or_no_memory;
use command_line::request::Choosing;
use failures::failure::Failure;
use files::choices::{choices_in_file, choices_said};
use files::file_source::FileSource;
use race_checker::accepted::Accepted;
use std::alloc::Global;
use step_trees::explore::{Explored, explore, explore_random};
use types::input::Input;

/// Runs an accepted program by the requested choices.
pub fn explored_by<F: FileSource>(
    alloc: Global,
    files: &mut F,
    accepted: &Accepted,
    input: &Input,
    choosing: Option<Choosing<'_>>,
) -> Result<Explored, Failure>
    requires { Fits accepted.now.typed input.now }
    ensures comes_to { IfOk result (λ e. ComesTo (option_map choosing_of choosing.entry)
        (F.held files.old) (code_of accepted.now.typed) (lists_in input.now) (explored_of e)) }
    ensures open { IfOk result (λ e. HasLeaves (explored_of e)) }
    ensures why { IfErr result
        (TellsNoChoices (option_map choosing_of choosing.entry) (F.held files.old)) }
    ensures keeps { F.held files.new ≡ F.held files.old }
{
    match choosing {
        None => or_no_memory(explore(alloc, accepted, input, &[])),
        Some(Choosing::Listed(text)) => {
            let choices = choices_said(alloc, text)?;
            or_no_memory(explore(alloc, accepted, input, &choices))
        }
        Some(Choosing::InFile(name)) => {
            let choices = choices_in_file(alloc, files, name)?;
            or_no_memory(explore(alloc, accepted, input, &choices))
        }
        Some(Choosing::Random(seed)) => or_no_memory(explore_random(alloc, accepted, input, seed)),
    }
}
