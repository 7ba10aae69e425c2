//! The least clash of some accesses with others.

ghost use Rattle.std.specs.Prelude.{◌≡◌, ◌<◌, All, None, fold, length, map};
ghost use Rattle.sections.specs.Tree.{origins_of};
ghost use Rattle.effects.specs.Translation.{access as access_of};
ghost use Rattle.race_checker.specs.Acceptance.{is_clash};
ghost use Rattle.race_checker.specs.Search.{tell, is_news, each_with};
ghost use Rattle.race_checker.specs.Translation.{race as plain, found};

use crate::race::Race;
use effects::access::Access;
use sections::tree::SectionTree;
use types::ids::ProcedureId;

/// Returns the least clash of a pending access with a later access, in the names of a procedure.
pub(crate) fn least_clash(
    sections: &SectionTree,
    procedure: ProcedureId,
    pending: &[Access],
    later: &[Access],
) -> Option<Race>
    requires pending { All (λ x. x.section.number < length (origins_of sections.now)) pending.now }
    requires later { All (λ x. x.section.number < length (origins_of sections.now)) later.now }
    ensures { found result ≡ fold (tell (origins_of sections.now) procedure.number) None
        (each_with (map access_of pending.now) (map access_of later.now)) }
{
    let mut race = None;
    for access in pending {
        race = least_clash_with(sections, procedure, race, *access, later);
    }
    race
}

/// Returns the least of a race found before and the clashes of one access with later accesses.
fn least_clash_with(
    sections: &SectionTree,
    procedure: ProcedureId,
    before: Option<Race>,
    access: Access,
    later: &[Access],
) -> Option<Race>
    requires access { access.section.number < length (origins_of sections.now) }
    requires later { All (λ x. x.section.number < length (origins_of sections.now)) later.now }
    ensures { found result ≡ fold (tell (origins_of sections.now) procedure.number) (found before)
        (map (λ y. (access_of access, y)) (map access_of later.now)) }
{
    let mut race = before;
    for other in later {
        race = told(sections, procedure, race, access, *other);
    }
    race
}

/// Returns the lesser of a race found before and a pair, if that pair clashes.
fn told(
    sections: &SectionTree,
    procedure: ProcedureId,
    before: Option<Race>,
    one: Access,
    other: Access,
) -> Option<Race>
    requires one { one.section.number < length (origins_of sections.now) }
    requires other { other.section.number < length (origins_of sections.now) }
    ensures { found result ≡ tell (origins_of sections.now) procedure.number (found before)
        (access_of one, access_of other) }
{
    let race = Race::of(procedure, one, other);
    if is_told_first(race, before) && clash(sections, one, other) {
        Some(race)
    } else {
        before
    }
}

/// Returns whether a race is reported before the one that was found.
fn is_told_first(race: Race, before: Option<Race>) -> bool
    ensures { result ≡ is_news (found before) (plain race) }
{
    match before {
        None => true,
        Some(known) => race.is_before(known),
    }
}

/// Returns whether two accesses clash: one of them writes, and their sections overlap.
fn clash(sections: &SectionTree, one: Access, other: Access) -> bool
    requires one { one.section.number < length (origins_of sections.now) }
    requires other { other.section.number < length (origins_of sections.now) }
    ensures { result ≡ is_clash (origins_of sections.now) (access_of one, access_of other) }
{
    (one.write || other.write) && sections.overlap(one.section, other.section)
}
