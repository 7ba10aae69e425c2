//! Theorems about the definitions and the calls, each stated as the contract of a function that no
//! program needs.

ghost use Rattle.std.specs.Prelude.{◌≡◌, ◌≢◌, ◌≤◌, ℕ, List, length, MatchResult};
ghost use Rattle.syntax.specs.Canonical.{canonical};
ghost use Rattle.syntax.specs.declared.error.SyntaxError.{SyntaxError as AnyError};
ghost use Rattle.syntax.specs.Lexical.{AreTokensOf, StopsAt};
ghost use Rattle.syntax.specs.Refusals.{IsTooDeep, TellsOf, error_code};
ghost use Rattle.syntax.specs.Spelled.{IsSpelled};
ghost use Rattle.syntax.specs.Spelling.{spelling};
ghost use Rattle.syntax.specs.Token.{Token};
ghost use Rattle.syntax_tree.specs.Tree.{Program as ProgramTree, program as program_tree};

use crate::error::SyntaxError;
use crate::{canonical, parser};
use std::alloc::Global;
use syntax_tree::tree::Program;

/// Parses the canonical text of a program; the result is that program. A `Program` that was built
/// by hand can contain a name that is no identifier. No text spells such a program, and the theorem
/// states nothing about it.
pub fn read_again(alloc: Global, program: &Program) -> Result<Program, SyntaxError>
    ensures { IsSpelled (program_tree program.now)
        → length (canonical (program_tree program.now)) ≤ 1048576
        → MatchResult result (λ again. program_tree again ≡ program_tree program.now)
        (λ e. e ≡ SyntaxError.OutOfMemory) }
{
    let text = canonical::format(alloc, program)?;
    parser::parse(alloc, text.as_str())
}

/// States that a text has at most one list of tokens. A text that can't be read to its end has
/// none, and reading always stops at the same position.
pub fn texts_are_read_in_one_way()
    ensures one { (text : List ℕ) (ts us : List Token)
        → AreTokensOf text ts → AreTokensOf text us → ts ≡ us }
    ensures none { (text : List ℕ) (at : ℕ) (ts : List Token)
        → StopsAt text at → AreTokensOf text ts → ⊥ }
    ensures place { (text : List ℕ) (at other : ℕ)
        → StopsAt text at → StopsAt text other → at ≡ other }
{}

/// States that all errors that are true of one text have one code, apart from `OutOfMemory`. So the
/// order of the checks doesn't matter. There is also only one position at which too many brackets
/// are open for the first time.
pub fn texts_are_refused_for_one_reason()
    ensures one { (text : List ℕ) (e f : AnyError) → TellsOf text e → TellsOf text f
        → e ≢ SyntaxError.OutOfMemory → f ≢ SyntaxError.OutOfMemory → error_code e ≡ error_code f }
    ensures place { (text : List ℕ) (at other : ℕ)
        → IsTooDeep text at → IsTooDeep text other → at ≡ other }
{}

/// States that no two programs have the same spelling.
pub fn one_spelling()
    ensures { (p q : ProgramTree) → spelling p ≡ spelling q → p ≡ q }
{}
