//! The names of scopes.

ghost use Rattle.std.specs.Prelude.{Some};
ghost use Rattle.types.specs.Names.{scope_text};

use crate::path::Path;
use std::fmt;

/// The name of a scope, which a `finish` opens: the task that owns it and a number. `0#0` is the
/// root scope. The finishes of a task are numbered from 1.
#[derive(Clone, PartialEq, Eq, Hash, Debug, Drop)]
pub struct ScopeId {
    pub owner: Path,
    pub number: u32,
}

impl fmt::Display for ScopeId {
    ghost output = { λ s. Some (scope_text s.owner.turns.items s.number) };

    fn fmt<W: fmt::Write>(&self, f: &mut fmt::Formatter<W>) -> fmt::Result {
        let owner = &self.owner;
        let number = self.number;
        write!(f, "{owner}#{number}")
    }
}
