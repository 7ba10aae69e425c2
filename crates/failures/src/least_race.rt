//! The race for which a program is rejected.

ghost use Rattle.std.specs.Prelude.{◌≡◌, IfOk};
ghost use Rattle.types.specs.Typed.{code_of};
ghost use Rattle.race_checker.specs.Races.{IsLeastRace};
ghost use Rattle.race_checker.specs.Translation.{race as race_of};
ghost use Rattle.witness.specs.Witness.{IsShortest, IsWitness};

use crate::names::{kind, procedure_of, section_name};
use race_checker::race::Race;
use std::alloc::{AllocError, Global};
use std::fmt;
use types::typed::Typed;
use witness::witness::{Witness, witness_of};

/// The least race of a program, with the program. So nothing has to be read or checked again to
/// print the race or to explain it.
#[derive(Drop)]
pub struct LeastRace {
    pub typed: Typed,
    pub race: Race,
    pub ghost least: { ∥ IsLeastRace (code_of typed) (race_of race) ∥₁ },
}

impl LeastRace {
    /// Returns the least race of a program, which keeps the program.
    pub fn new(typed: Typed, race: Race) -> LeastRace
        requires { IsLeastRace (code_of typed) (race_of race) }
        ensures typed { result.typed ≡ typed }
        ensures race { result.race ≡ race }
    {
        LeastRace { typed, race }
    }

    /// Searches for a witness of the race with the minimum number of steps.
    pub fn witness(&self, alloc: Global) -> Result<Witness, AllocError>
        ensures shows { IfOk result (IsWitness (code_of self.now.typed) (race_of self.now.race)) }
        ensures shortest { IfOk result (IsShortest (code_of self.now.typed) (race_of self.now.race)) }
    {
        match witness_of(alloc, &self.typed, self.race)? {
            Some(witness) => Ok(witness),
            None => unreachable!(),
        }
    }
}

/// The line of the race: `C1 race in main: 2 write a, 3 read a`
impl fmt::Display for LeastRace {
    fn fmt<W: fmt::Write>(&self, f: &mut fmt::Formatter<W>) -> fmt::Result {
        let Race {
            procedure,
            first,
            second,
        } = self.race;
        let procedure = procedure_of(self.typed.code(), procedure);
        let name = procedure.name.as_str();
        let one = section_name(procedure, first.section);
        let other = section_name(procedure, second.section);
        write!(
            f,
            "C1 race in {name}: {} {} {one}, {} {} {other}",
            first.label,
            kind(first.write),
            second.label,
            kind(second.write)
        )
    }
}

impl fmt::Debug for LeastRace {
    fn fmt<W: fmt::Write>(&self, f: &mut fmt::Formatter<W>) -> fmt::Result {
        write!(f, "{self}")
    }
}
