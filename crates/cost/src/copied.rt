//! The number of places copied at an async.

ghost use Rattle.std.specs.Prelude.{◌≡◌, IfOk, map};
ghost use Rattle.sections.specs.Translation.{section as section_of};
ghost use Rattle.types.specs.Code.{Program as Code};
ghost use Rattle.types.specs.Translation.{environment as environment_of, program as program_of};
ghost use Rattle.effects.specs.Summarized.{AreSummaries};
ghost use Rattle.cost.specs.Copied.{copied_at, written_at};

use crate::splits::{plus, split_in};
use effects::summaries::Summaries;
use sections::cover::cover;
use sections::id::SectionId;
use std::alloc::{AllocError, Global};
use types::code::{Label, Program};
use types::value::Environment;

/// Returns the number of places that are copied when the async with a label starts a task in this
/// environment, and when the task has ended. Returns 0 for the label of another statement. In an
/// array of 1,024 places, an async that may write the first 300 copies 88.
///
/// `carve` of `holdings` copies at most half of that, no matter who else holds blocks of the array.
pub fn copied_places(
    alloc: Global,
    code: &Program,
    summaries: &Summaries,
    label: Label,
    environment: &Environment,
) -> Result<usize, AllocError>
    requires { AreSummaries (program_of code.now) summaries.now }
    ensures { IfOk result (λ n. n
        ≡ copied_at (program_of code.now) label (environment_of environment.now)) }
{
    let windows = environment.windows_of(alloc, written(summaries, label))?;
    let places = cover(alloc, &windows)?;
    let split = split_in(code, &places)?;
    plus(split, split)
}

/// Returns the sections that the body of the async with a label may write.
fn written(summaries: &Summaries, label: Label) -> &[SectionId]
    ensures { (p : Code) → AreSummaries p summaries.now
        → map section_of result.now ≡ written_at p label }
{
    match summaries.needs(label) {
        Some(needs) => &needs.writes,
        None => &[],
    }
}
