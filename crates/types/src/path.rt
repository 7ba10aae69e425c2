//! The names of tasks.

ghost use Rattle.std.specs.Prelude.{◌≡◌, ◌++◌, ◌∷◌, [], IfOk, Some};
ghost use Rattle.types.specs.Names.{path_text};

use crate::child_number::ChildNumber;
use std::alloc::{AllocError, Global};
use std::fmt;

/// The name of a task. The root is `0`. The n-th child that a task spawns (from 1) has the path of
/// the task, followed by a dot and n.
#[derive(Clone, PartialEq, Eq, Hash, Debug, Drop)]
pub struct Path {
    /// The child numbers that lead from the root to the task. The list is empty for the root.
    pub turns: Vec<ChildNumber>,
}

impl fmt::Display for Path {
    ghost output = { λ p. Some (path_text p.turns.items) };

    fn fmt<W: fmt::Write>(&self, f: &mut fmt::Formatter<W>) -> fmt::Result {
        write!(f, "0")?;
        for turn in &self.turns {
            let number = turn.get();
            write!(f, ".{number}")?;
        }
        Ok(())
    }
}

impl Path {
    /// Returns the path of the root.
    pub fn root(alloc: Global) -> Path
        ensures { result.turns.items ≡ [] }
    {
        Path {
            turns: Vec::new(alloc),
        }
    }

    /// Returns a copy of the path.
    pub fn copied(&self, alloc: Global) -> Result<Path, AllocError>
        ensures { IfOk result (λ p. p.turns.items ≡ self.now.turns.items) }
    {
        let turns = Vec::from_slice(alloc, &self.turns)?;
        Ok(Path { turns })
    }

    /// Returns the path of the n-th child.
    pub fn child(&self, number: ChildNumber) -> Result<Path, AllocError>
        ensures { IfOk result (λ p. p.turns.items ≡ self.now.turns.items ++ number ∷ []) }
    {
        let room = self.turns.len().saturating_add(1);
        let mut turns = Vec::with_capacity(*self.turns.allocator(), room)?;
        turns.extend_from_slice(&self.turns)?;
        turns.push(number)?;
        Ok(Path { turns })
    }
}
