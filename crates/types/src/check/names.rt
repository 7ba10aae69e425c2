//! The names in scope.

#![tactic(auto, using(crate::proofs::Telling::telling))]

ghost use Rattle.indexmap.specs.IndexMap.{IsUnique};
ghost use Rattle.std.proofs.Props.{props};
ghost use Rattle.std.specs.String.{string_eq};

use crate::code::Label;
use crate::error::TypeError;
use crate::ids::Slot;
use indexmap::IndexMap;
use sections::id::SectionId;
use std::alloc::Global;

/// The meaning of a name.
#[derive(Clone, Copy)]
pub enum Meaning {
    Section(SectionId),
    Scalar(Slot),
}

/// The names in scope, each with its meaning. No two names are equal.
#[derive(Drop)]
pub struct Names {
    meanings: IndexMap<String, Meaning>,
    ghost apart: { IsUnique string_eq meanings } by { Prim.hlevel props },
}

impl Names {
    ghost use Rattle.std.specs.Prelude.{◌≡◌, ◌∷◌, [], ◌-◌, length, drop, OnOk, IfErr};
    ghost use Rattle.std.specs.Option.{option_map};
    ghost use Rattle.std.specs.String.{string_bytes};
    ghost use Rattle.types.specs.NameErrors.{declaring};
    ghost use Rattle.types.specs.Resolving.{meant_by, names_of};
    ghost use Rattle.types.specs.Scope.{meant};
    ghost use Rattle.types.specs.Told.{Told};

    /// Returns an empty list of names.
    pub fn new(alloc: Global) -> Names
        ensures { names_of result ≡ [] }
    {
        Names {
            meanings: IndexMap::new(alloc),
        }
    }

    /// Returns the number of names.
    pub fn len(&self) -> usize
        ensures { result ≡ length (names_of self.now) }
    {
        self.meanings.len()
    }

    /// Returns the meaning of a name, if it is in scope.
    pub fn meaning(&self, name: &String) -> Option<Meaning>
        ensures { option_map meant_by result ≡ meant (string_bytes name.now) (names_of self.now) }
    {
        self.meanings.get(name).copied()
    }

    /// Adds a name to the scope. The declaration is in the statement with the label.
    pub fn declare(
        &mut self,
        label: Option<Label>,
        name: &String,
        meaning: Meaning,
    ) -> Result<(), TypeError>
        ensures right { OnOk result
            (declaring label (meant (string_bytes name.now) (names_of self.old)) ≡ []) }
        ensures names { OnOk result (names_of self.new
            ≡ (string_bytes name.now, meant_by meaning) ∷ names_of self.old) }
        ensures error { IfErr result
            (Told (declaring label (meant (string_bytes name.now) (names_of self.old)))) }
    {
        if self.meanings.contains_key(name) {
            return Err(TypeError::DeclaredTwice { label });
        }
        let name = name.clone()?;
        self.meanings.insert(name, meaning)?;
        Ok(())
    }

    /// Removes the latest names from the scope, until `count` are left.
    pub fn forget(&mut self, count: usize)
        ensures { names_of self.new
            ≡ drop (length (names_of self.old) - count) (names_of self.old) }
    {
        self.meanings.truncate(count);
    }
}
