//! A well-typed program.

ghost use Rattle.std.specs.Prelude.{◌≡◌, Some};
ghost use Rattle.syntax_tree.specs.Tree.{program as tree_of};
ghost use Rattle.types.specs.Resolution.{resolution};
ghost use Rattle.types.specs.Rules.{BreaksNoRule};
ghost use Rattle.types.specs.Sets.{one_proof};
ghost use Rattle.types.specs.Translation.{program as plain};

use crate::code;

/// A program that breaks no rule of the language, with its names resolved. Only `type_check`
/// creates it.
#[derive(Drop)]
pub struct Typed {
    pub(crate) program: syntax_tree::tree::Program,
    pub(crate) code: code::Program,
    pub ghost right: { BreaksNoRule (tree_of program) },
    pub ghost resolved: { resolution (tree_of program) ≡ Some (plain code) } by { one_proof _ _ },
}

impl Typed {
    ghost use Rattle.types.specs.Typed.{program_of, code_of};

    /// Returns the program as it was parsed.
    pub fn program(&self) -> &syntax_tree::tree::Program
        ensures program { tree_of result.now ≡ program_of self.now }
        ensures right { BreaksNoRule (program_of self.now) }
    {
        &self.program
    }

    /// Returns the resolved program.
    pub fn code(&self) -> &code::Program
        ensures field { result.now ≡ self.now.code }
        ensures code { plain result.now ≡ code_of self.now }
    {
        &self.code
    }
}
