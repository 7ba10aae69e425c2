//! Races, in the order in which they are reported.

ghost use Rattle.std.specs.Prelude.{◌≡◌};
ghost use Rattle.effects.specs.Translation.{access as access_of};
ghost use Rattle.race_checker.specs.Races.{comes_before, race_key};
ghost use Rattle.race_checker.specs.Search.{race_of, lesser_of};
ghost use Rattle.race_checker.specs.Translation.{race as plain, found};

use effects::access::Access;
use parallel_relation::meeting::is_before;
use types::ids::ProcedureId;

/// Two accesses that clash, in the names of the procedure in which they clash. The first access has
/// the smaller label. If the labels are equal, it has the smaller section. If the sections are
/// equal too, it is the read.
#[derive(Clone, Copy, PartialEq, Eq, Debug)]
pub struct Race {
    pub procedure: ProcedureId,
    pub first: Access,
    pub second: Access,
}

impl Race {
    /// Returns the race of two accesses, given in either order.
    pub(crate) fn of(procedure: ProcedureId, one: Access, other: Access) -> Race
        ensures { plain result ≡ race_of procedure.number (access_of one, access_of other) }
    {
        if is_before(other, one) {
            Race {
                procedure,
                first: other,
                second: one,
            }
        } else {
            Race {
                procedure,
                first: one,
                second: other,
            }
        }
    }

    /// Returns whether this race is reported before the other. Races are ordered by both labels,
    /// then by procedure, then by what each access does.
    pub(crate) fn is_before(self, other: Race) -> bool
        ensures { result ≡ comes_before (plain self) (plain other) }
    {
        self.key() < other.key()
    }

    /// Returns the numbers by which races are ordered.
    fn key(self) -> [usize; 7]
        ensures { result ≡ race_key (plain self) }
    {
        [
            self.first.label as usize,
            self.second.label as usize,
            self.procedure.number,
            self.first.section.number,
            usize::from(self.first.write),
            self.second.section.number,
            usize::from(self.second.write),
        ]
    }
}

/// Returns the lesser of two races that were found.
pub(crate) fn lesser(one: Option<Race>, other: Option<Race>) -> Option<Race>
    ensures { found result ≡ lesser_of (found one) (found other) }
{
    match (one, other) {
        (None, _) => other,
        (Some(_), None) => one,
        (Some(race), Some(next)) => { if next.is_before(race) { other } else { one } }
    }
}
