//! What is known of the elements that the two accesses of a race use.

use crate::names::{is_main, procedure_of, section_name};
use crate::way::end_of;
use effects::access::Access;
use excerpts::statements::PlacedStatements;
use race_checker::race::Race;
use types::code::Program;
use types::ids::ProcedureId;
use witness::crossing::RunsTogether;
use witness::sharing::Sharing;
use witness::step::{Rule, WayStep};
use witness::witness::Witness;

/// The elements that two accesses to one section use.
#[derive(Clone, Copy)]
pub enum Elements {
    /// Nothing is known of them.
    Any,
    /// The section is an array of one element: `sum` in `array sum: int[1];`
    Only,
    /// Both use the element with this index: 0 for `a[0]` and `a[0]`
    Same(u64),
    /// They use elements with these indices, in order: 0 and 1 for `a[1]` and `a[0]`
    Different(u64, u64),
}

impl Elements {
    /// Returns whether both accesses use one element.
    pub fn is_one(self) -> bool {
        matches!(self, Elements::Only | Elements::Same(_))
    }
}

/// Returns what is known of the elements that the two accesses of a race use.
pub fn elements_of(
    code: &Program,
    statements: &PlacedStatements<'_>,
    race: Race,
    witness: &Witness,
) -> Elements {
    if !matches!(witness.sharing, Sharing::Same) {
        return Elements::Any;
    }
    if has_one_element(code, race) {
        return Elements::Only;
    }
    if has_side(&witness.pending) || has_side(&witness.later) {
        return Elements::Any;
    }
    let (pending, later) = if witness.first_pends {
        (race.first, race.second)
    } else {
        (race.second, race.first)
    };
    let one = index_of(code, statements, race.procedure, pending, &witness.pending);
    let other = index_of(code, statements, race.procedure, later, &witness.later);
    match (one, other) {
        (Some(one), Some(other)) if one == other => Elements::Same(one),
        (Some(one), Some(other)) => Elements::Different(one.min(other), one.max(other)),
        _ => Elements::Any,
    }
}

/// Returns whether the two accesses of a race use one section of the same frame with the same index,
/// such as `a[i]` in a task and in a statement after it.
pub fn use_one_index(
    code: &Program,
    statements: &PlacedStatements<'_>,
    race: Race,
    witness: &Witness,
) -> bool {
    let is_one_frame = !enters(&witness.pending) && !enters(&witness.later);
    let follows = matches!(witness.meeting, RunsTogether::Follows);
    if !is_one_frame || !follows || !matches!(witness.sharing, Sharing::Same) {
        return false;
    }
    let name = section_name(procedure_of(code, race.procedure), race.first.section);
    statements.use_one_index(race.first.label, race.second.label, name)
}

/// Returns whether a way goes into a procedure, or through a split or a `parts`.
fn enters(way: &[WayStep]) -> bool {
    for step in way {
        if matches!(step.rule, Rule::Enter { .. } | Rule::Side | Rule::Piece) {
            return true;
        }
    }
    false
}

/// Returns whether the section of a race is an array of one element.
fn has_one_element(code: &Program, race: Race) -> bool {
    if !is_main(code, race.procedure) {
        return false;
    }
    match code.arrays.get(race.first.section.number) {
        Some(array) => array.length == 1,
        None => false,
    }
}

/// Returns whether a way goes from a section to a side or a piece of it: then an index doesn't count
/// from the start of the section any more.
fn has_side(way: &[WayStep]) -> bool {
    let mut outside = None;
    for step in way {
        if outside.is_some_and(|number| number != step.section.number) {
            return true;
        }
        outside = match step.rule {
            Rule::Side | Rule::Piece => Some(step.section.number),
            _ => None,
        };
    }
    false
}

/// Returns the constant index that an access of a procedure uses at the end of its way.
fn index_of(
    code: &Program,
    statements: &PlacedStatements<'_>,
    procedure: ProcedureId,
    access: Access,
    way: &[WayStep],
) -> Option<u64> {
    let end = end_of(procedure, way);
    let section = section_name(procedure_of(code, end.procedure), end.section);
    statements.constant_index(access.label, section)
}
