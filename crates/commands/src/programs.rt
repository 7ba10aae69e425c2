//! The program of a text.

ghost use Rattle.std.specs.Prelude.{◌≤◌, IfOk, IfErr, length};
ghost use Rattle.std.specs.Str.{chars};
ghost use Rattle.syntax.specs.Lexical.{AreTokensOf};
ghost use Rattle.syntax.specs.Spelling.{spelling};
ghost use Rattle.syntax_tree.specs.Tree.{program as tree_of};
ghost use Rattle.types.specs.Typed.{code_of, program_of as program_in};
ghost use Rattle.commands.specs.Answers.{IsCodeOf, TellsNoCode, TellsNotAccepted, TellsUnspelled};

use failures::failure::Failure;
use failures::least_race::LeastRace;
use race_checker::accepted::Accepted;
use race_checker::check::Refused;
use std::alloc::Global;
use std::thread::Threads;
use syntax_tree::tree::Program;
use types::check::type_check;
use types::laws::typed_programs_are_sound;
use types::typed::Typed;

/// Returns the program of a text, if it breaks no rule and has no race.
pub fn accepted_of<R: Threads + Sync>(
    rt: &R,
    alloc: Global,
    text: &str,
) -> Result<Accepted, Failure>
    ensures spelled { IfOk result (λ a. AreTokensOf (chars text.now) (spelling (program_in a.typed))) }
    ensures why { IfErr result (TellsNotAccepted text.now) }
{
    let typed = typed_of(alloc, text)?;
    typed_programs_are_sound(&typed);
    match race_checker::check::check(rt, alloc, typed) {
        Ok(accepted) => Ok(accepted),
        Err(Refused::OutOfMemory) => Err(Failure::NoMemoryInCheck),
        Err(Refused::Race { race, typed }) => Err(Failure::Race(LeastRace::new(typed, race))),
    }
}

/// Returns the program that a text spells, if it breaks no rule.
pub fn typed_of(alloc: Global, text: &str) -> Result<Typed, Failure>
    ensures spelled { IfOk result (λ t. AreTokensOf (chars text.now) (spelling (program_in t))) }
    ensures code { IfOk result (λ t. IsCodeOf text.now (code_of t)) }
    ensures why { IfErr result (TellsNoCode text.now) }
{
    let program = program_of(alloc, text)?;
    match type_check(alloc, program) {
        Ok(typed) => Ok(typed),
        Err(error) => Err(Failure::Types(error)),
    }
}

/// Returns the program that a text spells, even if it breaks rules.
pub fn program_of(alloc: Global, text: &str) -> Result<Program, Failure>
    ensures spelled { IfOk result (λ p. AreTokensOf (chars text.now) (spelling (tree_of p))) }
    ensures short { IfOk result (λ _. length text.now ≤ 1048576) }
    ensures why { IfErr result (TellsUnspelled text.now) }
{
    match syntax::parse(alloc, text) {
        Ok(program) => Ok(program),
        Err(error) => Err(Failure::Syntax(error)),
    }
}
