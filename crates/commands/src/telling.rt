//! The commands that report on a program without a run.

ghost use Rattle.std.specs.Prelude.{◌≡◌, ◌++◌, IfOk, OnOk};
ghost use Rattle.std.specs.List.{flat_map};
ghost use Rattle.std.specs.String.{string_bytes};
ghost use Rattle.types.specs.Typed.{code_of, program_of as program_in};
ghost use Rattle.parallel_relation.specs.Pairs.{ArePairs, pairs_left};
ghost use Rattle.commands.specs.Answers.{DoesAlone, accepted_told, command_about};
ghost use Rattle.commands.specs.Statements.{named_pair};

use crate::memory::or_no_memory;
use crate::programs::{accepted_of, typed_of};
use crate::showing::{answer, answer_pairs};
use crate::statements::NamedStatements;
use command_line::request::Command;
use effects::summaries::summarize;
use failures::failure::Failure;
use parallel_relation::pairs::{PairList, Pairs, may_run_together};
use printing::labels::accepted_line;
use std::alloc::{AllocError, Global};
use std::io::Write;
use std::thread::Threads;
use syntax::listing;
use types::code::Label;
use types::laws::typed_programs_are_sound;
use types::typed::Typed;

/// The part of an answer about a program that has no race.
#[derive(Clone, Copy)]
pub enum About {
    /// The numbers of its procedures and labels: `check`.
    Counts,
    /// Its listing: `check --list`.
    Lines,
}

/// Writes this part for an accepted program.
pub fn check<R: Threads + Sync, O: Write>(
    rt: &R,
    alloc: Global,
    about: About,
    text: &str,
    out: &mut O,
) -> Result<u8, Failure>
    ensures { DoesAlone (command_about about) text.now
        (O.contents out.old) (O.contents out.new) result }
{
    let accepted = accepted_of(rt, alloc, text)?;
    let told = or_no_memory(told_of(alloc, about, accepted.typed()))?;
    answer(out, told.as_str())
}

/// Returns the text of this part.
fn told_of(alloc: Global, about: About, typed: &Typed) -> Result<String, AllocError>
    ensures { IfOk result (λ told. string_bytes told
        ≡ accepted_told about (code_of typed.now) (program_in typed.now)) }
{
    match about {
        About::Counts => Ok(accepted_line(alloc, typed.code())?),
        About::Lines => Ok(listing(alloc, typed.program())?),
    }
}

/// `mhp`: writes the pairs of labels of a program that may run together.
pub fn pairs<O: Write>(alloc: Global, text: &str, out: &mut O) -> Result<u8, Failure>
    ensures { DoesAlone Command.Pairs text.now (O.contents out.old) (O.contents out.new) result }
{
    let typed = typed_of(alloc, text)?;
    let pairs = or_no_memory(pairs_of(alloc, &typed))?;
    answer_pairs(out, pairs.list())
}

/// `mhp --by-line`: writes the pairs of labels of a program that may run together, with the position
/// and the text of both statements.
pub fn pairs_by_line<O: Write>(alloc: Global, text: &str, out: &mut O) -> Result<u8, Failure>
    ensures { DoesAlone Command.PairsByLine text.now
        (O.contents out.old) (O.contents out.new) result }
{
    let typed = typed_of(alloc, text)?;
    let statements = or_no_memory(NamedStatements::of(alloc, text, typed.program()))?;
    let pairs = or_no_memory(pairs_of(alloc, &typed))?;
    let lines = or_no_memory(lines_of_pairs(alloc, &statements, pairs.list()))?;
    answer(out, lines.as_str())
}

/// Returns a line for each pair, with both statements.
fn lines_of_pairs(
    alloc: Global,
    statements: &NamedStatements,
    pairs: PairList<'_>,
) -> Result<String, AllocError>
    ensures { IfOk result (λ told. string_bytes told
        ≡ flat_map (named_pair statements.now) (pairs_left pairs.entry)) }
{
    let mut told = String::new(alloc);
    for (one, other) in pairs {
        push_pair(alloc, &mut told, statements, one, other)?;
    }
    Ok(told)
}

/// Adds the line of a pair: `4:5 label 2  async { .. } || 6:5 label 4  a[0] = 8;`.
fn push_pair(
    alloc: Global,
    told: &mut String,
    statements: &NamedStatements,
    one: Label,
    other: Label,
) -> Result<(), AllocError>
    ensures { OnOk result (string_bytes told.new
        ≡ string_bytes told.old ++ named_pair statements.now (one, other)) }
{
    statements.push(alloc, told, one)?;
    told.push_str(" || ")?;
    statements.push(alloc, told, other)?;
    told.push('\n')
}

/// Returns the pairs of labels of a program that may run together.
pub fn pairs_of(alloc: Global, typed: &Typed) -> Result<Pairs, AllocError>
    ensures { IfOk result (ArePairs (code_of typed.now)) }
{
    typed_programs_are_sound(typed);
    let summaries = summarize(alloc, typed)?;
    may_run_together(alloc, typed, &summaries)
}
