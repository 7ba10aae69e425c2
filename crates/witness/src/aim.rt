//! An access of a race, and the ways to it.

ghost use Rattle.std.specs.Prelude.{◌≡◌, IfOk, length};
ghost use Rattle.types.specs.Translation.{code as plain_code, codes as codes_of, program as program_of};
ghost use Rattle.effects.specs.Translation.{access as access_of};
ghost use Rattle.witness.specs.Known.{steps};
ghost use Rattle.witness.specs.Least.{IsLeast, all_covered};
ghost use Rattle.witness.specs.Settled.{IsAim};
ghost use Rattle.witness.specs.Ways.{Way, WayOf};

use crate::known::Known;
use crate::search::{Sought, way_in, way_of};
use crate::settling::settled;
use crate::step::WayStep;
use effects::access::Access;
use std::alloc::{AllocError, Global};
use types::code::{Program, Stmt};

/// An access, and the shortest ways from procedures to it.
#[derive(Drop)]
pub struct Aim {
    pub access: Access,
    known: Known,
}

impl Aim {
    /// Finds the shortest ways to an access.
    pub fn at(alloc: Global, code: &Program, access: Access) -> Result<Aim, AllocError>
        ensures access { IfOk result (λ aim. aim.access ≡ access) }
        ensures aim { IfOk result (IsAim (program_of code.now)) }
    {
        let known = settled(alloc, code, access)?;
        Ok(Aim { access, known })
    }

    /// Returns the shortest way from a statement that leaves the access pending, or does it.
    pub fn way_of(
        &self,
        alloc: Global,
        code: &Program,
        pending: bool,
        statement: &Stmt,
    ) -> Result<Option<Vec<WayStep>>, AllocError>
        requires aim { IsAim (program_of code.now) self.now }
        ensures { IfOk result (λ found. IsLeast length all_covered (λ way.
            WayOf (program_of code.now) pending statement.now.label
            (plain_code statement.now.kind) way (access_of self.now.access)) (steps found)) }
    {
        let sought = Sought {
            access: self.access,
            pending,
        };
        way_of(alloc, code, &self.known, sought, statement)
    }

    /// Returns the shortest way from a list of statements.
    pub fn way_in(
        &self,
        alloc: Global,
        code: &Program,
        pending: bool,
        list: &[Stmt],
    ) -> Result<Option<Vec<WayStep>>, AllocError>
        requires aim { IsAim (program_of code.now) self.now }
        ensures { IfOk result (λ found. IsLeast length all_covered (λ way.
            Way (program_of code.now) pending (codes_of list.now) way
            (access_of self.now.access)) (steps found)) }
    {
        let sought = Sought {
            access: self.access,
            pending,
        };
        way_in(alloc, code, &self.known, sought, list)
    }
}
