//! The typing rules, and the resolution of names.

ghost use Rattle.std.specs.Prelude.{◌≡◌, IfOk, IfErr, OnOk, IsOkUnless, Some};
ghost use Rattle.syntax_tree.specs.Tree.{program as tree_of};
ghost use Rattle.types.specs.Resolution.{resolution};
ghost use Rattle.types.specs.Rules.{errors_of, BreaksNoRule};
ghost use Rattle.types.specs.Told.{Told};
ghost use Rattle.types.specs.Translation.{program as plain};
ghost use Rattle.types.specs.Typed.{code_of, program_of};

mod calls;
mod expressions;
mod limits;
mod names;
mod procedures;
mod program;
mod scope;
mod statements;

use crate::check::limits::{MOST_PROCEDURES, limit};
use crate::check::procedures::Procedures;
use crate::check::program::{resolve_main, resolve_procedures};
use crate::check::statements::Statements;
use crate::code::Program;
use crate::error::TypeError;
use crate::typed::Typed;
use std::alloc::Global;
use syntax_tree::tree;

/// Checks a program and resolves its names, if it breaks no rule of the language.
pub fn type_check(alloc: Global, program: tree::Program) -> Result<Typed, TypeError>
    ensures code { IfOk result (λ t. resolution (tree_of program) ≡ Some (code_of t)) }
    ensures program { IfOk result (λ t. program_of t ≡ tree_of program) }
    ensures right { OnOk result (BreaksNoRule (tree_of program)) }
    ensures error { IfErr result (Told (errors_of (tree_of program))) }
    ensures exact { BreaksNoRule (tree_of program) → IsOkUnless result TypeError.OutOfMemory }
{
    let code = resolve(alloc, &program)?;
    Ok(Typed { program, code })
}

/// Returns the code of a program.
fn resolve(alloc: Global, program: &tree::Program) -> Result<Program, TypeError>
    ensures code { IfOk result (λ p. resolution (tree_of program.now) ≡ Some (plain p)) }
    ensures right { OnOk result (BreaksNoRule (tree_of program.now)) }
    ensures error { IfErr result (Told (errors_of (tree_of program.now))) }
{
    let declared = program.procedures.as_slice();
    limit(MOST_PROCEDURES, declared.len())?;
    let procedures = Procedures::new(alloc, declared)?;
    let statements = Statements { alloc, procedures };
    let mut label = 1;
    let procedures = resolve_procedures(&statements, &mut label, declared)?;
    let main = match &program.main {
        None => return Err(TypeError::NoMain),
        Some(main) => main,
    };
    let (arrays, main) = resolve_main(&statements, label, main)?;
    Ok(Program {
        arrays,
        procedures,
        main,
    })
}
