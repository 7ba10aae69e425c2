//! The text after the line of a race.

use crate::all::{push_all, push_others, push_too_many, races_of};
use crate::elements::elements_of;
use crate::lines::push_lines;
use crate::mends::{push_mend, push_sharing, push_unfinished};
use crate::names::{kind_word, procedure_name, procedure_of, section_name};
use crate::starts::starts_in_turns;
use crate::way::{WayLine, end_of, push_way};
use effects::access::Access;
use excerpts::heading::Heading;
use excerpts::statements::PlacedStatements;
use race_checker::race::Race;
use std::alloc::{AllocError, Global};
use types::code::Program;
use types::ids::ProcedureId;
use types::typed::Typed;
use witness::crossing::RunsTogether;
use witness::step::WayStep;
use witness::witness::Witness;

/// Returns where both accesses of a race are, why they may run in parallel, why the sections
/// overlap, and how to fix it. The text is empty if the program is larger than a mebibyte.
pub fn explained(
    alloc: Global,
    text: &str,
    typed: &Typed,
    race: Race,
    witness: &Witness,
    heading: Heading<'_>,
) -> Result<String, AllocError> {
    let Some(statements) = PlacedStatements::of(alloc, text)? else {
        return Ok(String::new(alloc));
    };
    let code = typed.code();
    let mut told = String::new(alloc);
    heading.push(&mut told, statements.place(race.first.label))?;
    let ways = in_order(
        witness,
        witness.pending.as_slice(),
        witness.later.as_slice(),
    );
    push_accesses(&mut told, &statements, code, race, ways)?;
    told.push_str("They may run in parallel:\n")?;
    push_ways(alloc, &mut told, &statements, code, race, witness)?;
    let elements = elements_of(code, &statements, race, witness);
    push_unfinished(&mut told, witness)?;
    push_sharing(&mut told, code, race, witness.sharing, elements)?;
    push_mend(&mut told, code, &statements, race, witness, elements)?;
    Ok(told)
}

/// Adds how many other races a program has, or all its races. Adds nothing if there isn't enough
/// memory to find them.
pub fn push_races(
    alloc: Global,
    told: &mut String,
    text: &str,
    typed: &Typed,
    all: bool,
) -> Result<(), AllocError> {
    let Some(statements) = PlacedStatements::of(alloc, text)? else {
        return Ok(());
    };
    let Ok(found) = races_of(alloc, typed, &statements) else {
        return Ok(());
    };
    match found {
        Some(races) if all => push_all(alloc, told, &statements, typed, &races),
        Some(races) => push_others(told, &races),
        None if all => push_too_many(told),
        None => Ok(()),
    }
}

/// Returns two things in this order if the first access of the race is the pending one, and
/// otherwise in the reverse order.
fn in_order<T>(witness: &Witness, one: T, other: T) -> (T, T) {
    if witness.first_pends {
        (one, other)
    } else {
        (other, one)
    }
}

/// Adds both accesses, to which these ways lead.
fn push_accesses(
    told: &mut String,
    statements: &PlacedStatements<'_>,
    code: &Program,
    race: Race,
    ways: (&[WayStep], &[WayStep]),
) -> Result<(), AllocError> {
    let (first, second) = ways;
    push_access(told, code, race.procedure, race.first, first)?;
    statements.push_at(told, race.first.label, None)?;
    push_access(told, code, race.procedure, race.second, second)?;
    statements.push_at(told, race.second.label, None)
}

/// Adds what an access of a procedure does, and the name of its section where it is made.
fn push_access(
    told: &mut String,
    code: &Program,
    procedure: ProcedureId,
    access: Access,
    way: &[WayStep],
) -> Result<(), AllocError> {
    let label = access.label;
    let kind = kind_word(access.write);
    let name = section_name(procedure_of(code, procedure), access.section);
    write!(told, "{label} {kind} {name}")?;
    let end = end_of(procedure, way);
    let there = section_name(procedure_of(code, end.procedure), end.section);
    if end.procedure != procedure {
        let called = procedure_name(code, end.procedure);
        write!(told, ", as {there} in {called}")?;
    } else if end.section != access.section {
        write!(told, ", as {there}")?;
    }
    told.push_str(":\n")
}

/// Adds the ways to both accesses. The second is left out if it is only the access.
fn push_ways(
    alloc: Global,
    told: &mut String,
    statements: &PlacedStatements<'_>,
    code: &Program,
    race: Race,
    witness: &Witness,
) -> Result<(), AllocError> {
    let (pending, later) = in_order(witness, race.first, race.second);
    let mut lines = Vec::new(alloc);
    push_loop(alloc, witness, &mut lines)?;
    push_way(
        alloc,
        code,
        race.procedure,
        &witness.pending,
        pending.write,
        &mut lines,
    )?;
    push_lines(told, statements, &lines)?;
    if witness.later.len() < 2 || (pending == later && witness.pending == witness.later) {
        return Ok(());
    }
    told.push_str("         and meanwhile\n")?;
    let mut lines = Vec::new(alloc);
    push_way(
        alloc,
        code,
        race.procedure,
        &witness.later,
        later.write,
        &mut lines,
    )?;
    push_lines(told, statements, &lines)
}

/// Adds the line of the loop or of the `parts`, if the two accesses are in different turns.
fn push_loop(alloc: Global, witness: &Witness, lines: &mut Vec<WayLine>) -> Result<(), AllocError> {
    if matches!(witness.meeting, RunsTogether::Follows) {
        return Ok(());
    }
    match witness.pending.first() {
        Some(step) => {
            let label = step.label;
            let words = if starts_in_turns(witness) {
                format!(in alloc;
                    "{label} continues while tasks from earlier turns may still be running"
                )?
            } else {
                format!(in alloc;
                    "{label} loops while tasks from earlier iterations may still be running"
                )?
            };
            lines.push(WayLine { label, words })?;
            Ok(())
        }
        None => Ok(()),
    }
}
