//! The procedures of a program, by name.

#![tactic(auto, using(crate::proofs::Telling::telling))]

ghost use Rattle.std.specs.Prelude.{◌≡◌, map};
ghost use Rattle.std.specs.String.{string_bytes};

use crate::error::TypeError;
use crate::ids::ProcedureId;
use indexmap::IndexSet;
use std::alloc::Global;
use syntax_tree::tree;

/// The procedures of a program, by name.
#[derive(Drop)]
pub struct Procedures<'p> {
    names: IndexSet<String>,
    declared: &'p [tree::Procedure],
    ghost named: { map string_bytes names.keys ≡ map (λ f. string_bytes f.name) declared.now },
}

impl Procedures<'_> {
    ghost use Rattle.std.specs.Prelude.{[], OnOk, IfOk, IfErr};
    ghost use Rattle.std.specs.Option.{option_map};
    ghost use Rattle.syntax_tree.specs.Tree.{parameter as parameter_of, procedure as procedure_as};
    ghost use Rattle.types.specs.Resolution as resolution;
    ghost use Rattle.types.specs.Resolving.{procedures_of};
    ghost use Rattle.types.specs.Rules.{name_errors};
    ghost use Rattle.types.specs.Told.{Told};

    /// Collects the declared procedures. No two may have the same name.
    pub fn new(alloc: Global, declared: &[tree::Procedure]) -> Result<Procedures<'_>, TypeError>
        ensures procedures { IfOk result
            (λ p. procedures_of p ≡ map procedure_as declared.now) }
        ensures right { OnOk result (name_errors [] (map procedure_as declared.now) ≡ []) }
        ensures error { IfErr result (Told (name_errors [] (map procedure_as declared.now))) }
    {
        let mut names = IndexSet::new(alloc);
        for procedure in declared {
            let name = procedure.name.clone()?;
            let added = names.insert(name)?;
            if !added {
                return Err(TypeError::DeclaredTwice { label: None });
            }
        }
        Ok(Procedures { names, declared })
    }

    /// Returns the number and the parameters of the procedure with a name.
    pub fn find(&self, name: &String) -> Option<(ProcedureId, &[tree::Parameter])>
        ensures { option_map (λ f. (f.0.number, map parameter_of f.1.now)) result
            ≡ resolution.procedure_of 0 (string_bytes name.now) (procedures_of self.now) }
    {
        let number = self.names.get_index_of(name)?;
        let procedure = self.declared.get(number)?;
        Some((ProcedureId { number }, procedure.parameters.as_slice()))
    }
}
