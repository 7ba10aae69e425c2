//! All races of a program, those that are most likely real first.

ghost use Rattle.types.specs.Typed.{code_of};
ghost use Rattle.effects.specs.Summarized.{AreSummaries};

use crate::elements::{Elements, elements_of, use_one_index};
use crate::names::{procedure_name, procedure_of, section_name};
use effects::access::Access;
use effects::summaries::{Summaries, summarize};
use excerpts::statements::PlacedStatements;
use parallel_relation::meetings::meetings;
use race_checker::race::Race;
use std::alloc::{AllocError, Global};
use types::code::Program;
use types::ids::ProcedureId;
use types::laws::typed_programs_are_sound;
use types::typed::Typed;
use witness::sharing::sharing_of;
use witness::witness::witness_of;

/// The maximum number of statements of a program of which all races are found: every pair of
/// accesses that may run together is kept in memory.
const MOST_STATEMENTS: usize = 1_000;

/// The maximum number of races that are listed.
const MOST_LISTED: usize = 1_000;

/// How likely a race is real.
#[derive(Clone, Copy, PartialEq, Eq)]
enum Likelihood {
    /// Both accesses use one element, as `a[0]` and `a[0]` do.
    OneElement,
    /// Both use one index, as `a[i]` and `a[i]` do.
    OneIndex,
    /// Nothing is known of their elements: `a[i]` and `a[j]`.
    Open,
    /// They use different elements, as `a[0]` and `a[1]` do.
    Apart,
}

/// A race and how likely it is real.
#[derive(Clone, Copy)]
struct RatedRace {
    race: Race,
    likelihood: Likelihood,
    elements: Elements,
}

/// Returns the races of a program, in the order of its procedures: the least one for each two
/// statements and sections. Returns None if the program has too many statements.
pub fn races_of(
    alloc: Global,
    typed: &Typed,
    statements: &PlacedStatements<'_>,
) -> Result<Option<Vec<Race>>, AllocError> {
    if statements.places.len() > MOST_STATEMENTS {
        return Ok(None);
    }
    typed_programs_are_sound(typed);
    let summaries = summarize(alloc, typed)?;
    let mut races = Vec::new(alloc);
    for number in 0..typed.code().procedures.len() + 1 {
        add_races(alloc, typed, &summaries, ProcedureId { number }, &mut races)?;
    }
    Ok(Some(races))
}

/// Adds the races of a procedure, or of `main`, which is numbered after the others.
fn add_races(
    alloc: Global,
    typed: &Typed,
    summaries: &Summaries,
    procedure: ProcedureId,
    races: &mut Vec<Race>,
) -> Result<(), AllocError>
    requires { ∥ AreSummaries (code_of typed.now) summaries.now ∥₁ }
{
    for meeting in &meetings(alloc, typed, summaries, procedure)? {
        let race = Race {
            procedure,
            first: meeting.first,
            second: meeting.second,
        };
        if is_race(typed.code(), race) && !is_known(races, race) {
            races.push(race)?;
        }
    }
    Ok(())
}

/// Returns whether two accesses that may run together clash: one writes, and the sections overlap.
fn is_race(code: &Program, race: Race) -> bool {
    let sections = &procedure_of(code, race.procedure).sections;
    (race.first.write || race.second.write)
        && sharing_of(sections, race.first.section, race.second.section).is_some()
}

/// Returns whether a race of the same statements and sections is among these, which end with the
/// races of the same statements.
fn is_known(races: &[Race], race: Race) -> bool {
    for known in races.iter().rev() {
        if !has_statements_of(*known, race) {
            return false;
        }
        if known.first.section == race.first.section
            && known.second.section == race.second.section
        {
            return true;
        }
    }
    false
}

/// Returns whether a race is between the same statements, in the same procedure, as another.
fn has_statements_of(race: Race, other: Race) -> bool {
    race.procedure == other.procedure
        && race.first.label == other.first.label
        && race.second.label == other.second.label
}

/// Adds how many races a program has in addition to the one that was explained.
pub fn push_others(told: &mut String, races: &[Race]) -> Result<(), AllocError> {
    match races.len().saturating_sub(1) {
        0 => Ok(()),
        1 => told.push_str("More: the program has another race; `afx check --all` lists both.\n"),
        others => write!(
            told,
            "More: the program has {others} other races; `afx check --all` lists all.\n"
        ),
    }
}

/// Adds a line for each race of a program, those that are most likely real first.
pub fn push_all(
    alloc: Global,
    told: &mut String,
    statements: &PlacedStatements<'_>,
    typed: &Typed,
    races: &[Race],
) -> Result<(), AllocError> {
    let listed = races.get(..MOST_LISTED).unwrap_or(races);
    let rated = rated_races(alloc, statements, typed, listed)?;
    told.push_str("\nAll races, those on one element first:\n")?;
    for likelihood in [
        Likelihood::OneElement,
        Likelihood::OneIndex,
        Likelihood::Open,
        Likelihood::Apart,
    ] {
        push_rated(told, statements, typed.code(), &rated, likelihood)?;
    }
    let left = races.len().saturating_sub(listed.len());
    if left == 0 {
        return Ok(());
    }
    write!(told, "and {left} more\n")
}

/// Adds that the races of a program aren't listed.
pub fn push_too_many(told: &mut String) -> Result<(), AllocError> {
    write!(
        told,
        "\nThe races of a program with more than {MOST_STATEMENTS} statements are not listed.\n"
    )
}

/// Returns how likely each of these races is real.
fn rated_races(
    alloc: Global,
    statements: &PlacedStatements<'_>,
    typed: &Typed,
    races: &[Race],
) -> Result<Vec<RatedRace>, AllocError> {
    let mut rated = Vec::new(alloc);
    for race in races {
        rated.push(rated_race(alloc, statements, typed, *race)?)?;
    }
    Ok(rated)
}

/// Returns how likely a race is real.
fn rated_race(
    alloc: Global,
    statements: &PlacedStatements<'_>,
    typed: &Typed,
    race: Race,
) -> Result<RatedRace, AllocError> {
    let Some(witness) = witness_of(alloc, typed, race)? else {
        return Ok(RatedRace {
            race,
            likelihood: Likelihood::Open,
            elements: Elements::Any,
        });
    };
    let elements = elements_of(typed.code(), statements, race, &witness);
    let likelihood = match elements {
        Elements::Only | Elements::Same(_) => Likelihood::OneElement,
        Elements::Different(_, _) => Likelihood::Apart,
        Elements::Any => {
            if use_one_index(typed.code(), statements, race, &witness) {
                Likelihood::OneIndex
            } else {
                Likelihood::Open
            }
        }
    };
    Ok(RatedRace {
        race,
        likelihood,
        elements,
    })
}

/// Adds a line for each race that is as likely as this.
fn push_rated(
    told: &mut String,
    statements: &PlacedStatements<'_>,
    code: &Program,
    rated: &[RatedRace],
    likelihood: Likelihood,
) -> Result<(), AllocError> {
    for one in rated {
        if one.likelihood == likelihood {
            push_race(told, statements, code, one)?;
        }
    }
    Ok(())
}

/// Adds the line of a race: the one that `check` reports for it, where its statements are, and what
/// is known of the elements.
fn push_race(
    told: &mut String,
    statements: &PlacedStatements<'_>,
    code: &Program,
    rated: &RatedRace,
) -> Result<(), AllocError> {
    let race = rated.race;
    let name = procedure_name(code, race.procedure);
    write!(told, "C1 race in {name}: ")?;
    push_access(told, code, race.procedure, race.first)?;
    told.push_str(", ")?;
    push_access(told, code, race.procedure, race.second)?;
    told.push_str(" (")?;
    push_place(told, statements, race.first)?;
    if race.first.label != race.second.label {
        told.push_str(", ")?;
        push_place(told, statements, race.second)?;
    }
    told.push(')')?;
    let section = section_name(procedure_of(code, race.procedure), race.first.section);
    push_reason(told, rated, section)?;
    told.push('\n')
}

/// Adds an access, as in `2 write a`.
fn push_access(
    told: &mut String,
    code: &Program,
    procedure: ProcedureId,
    access: Access,
) -> Result<(), AllocError> {
    let label = access.label;
    let kind = if access.write { "write" } else { "read" };
    let name = section_name(procedure_of(code, procedure), access.section);
    write!(told, "{label} {kind} {name}")
}

/// Adds where the statement of an access starts, as in `5:3`.
fn push_place(
    told: &mut String,
    statements: &PlacedStatements<'_>,
    access: Access,
) -> Result<(), AllocError> {
    match statements.place(access.label) {
        Some(place) => {
            let line = place.line;
            let column = place.column;
            write!(told, "{line}:{column}")
        }
        None => Ok(()),
    }
}

/// Adds what is known of the elements of a race, whose first access is to this section.
fn push_reason(told: &mut String, rated: &RatedRace, section: &str) -> Result<(), AllocError> {
    match rated.elements {
        Elements::Only => write!(told, ": {section} has one element"),
        Elements::Same(index) => write!(told, ": both use element {index}"),
        Elements::Different(one, other) => write!(told, ": elements {one} and {other}"),
        Elements::Any if rated.likelihood == Likelihood::OneIndex => {
            told.push_str(": both use one index")
        }
        Elements::Any => Ok(()),
    }
}
