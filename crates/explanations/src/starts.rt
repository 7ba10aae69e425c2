//! How the two ways of a race start.

use sections::id::SectionId;
use types::ids::ProcedureId;
use witness::crossing::RunsTogether;
use witness::step::{Rule, WayStep};
use witness::witness::Witness;

/// What the first statement of a way does, or that of its task.
#[derive(Clone, Copy, PartialEq, Eq)]
enum Start {
    /// It makes the access.
    Access,
    /// It calls a procedure, which gets the section as this one.
    Call {
        procedure: ProcedureId,
        section: SectionId,
    },
    /// It starts a task.
    Task,
    /// It waits for tasks.
    Finish,
}

/// Returns whether the two ways of a race do the same work, which could be done on parts: the later
/// one is a task, or a call of the procedure that the pending one calls, with the section in the
/// same place. In a loop each iteration starts a task itself. Rounds that call a procedure, and
/// calls that swap two sections, follow one another.
pub fn are_alike(witness: &Witness) -> bool {
    if matches!(witness.meeting, RunsTogether::Turns) {
        return start_of(&witness.pending) == Start::Task;
    }
    match start_of(&witness.later) {
        Start::Task => true,
        Start::Call { procedure, section } => {
            work_of(&witness.pending) == Start::Call { procedure, section }
        }
        Start::Access | Start::Finish => false,
    }
}

/// Returns whether the later access of a race is made by a statement of the list in which the ways
/// start, or by one of its blocks.
pub fn is_direct(witness: &Witness) -> bool {
    start_of(&witness.later) == Start::Access
}

/// A statement that divides a section.
#[derive(Clone, Copy)]
pub enum Division {
    Split,
    Parts,
}

/// Returns how a way first divides a section, before its first task or call.
pub fn first_division(way: &[WayStep]) -> Option<Division> {
    for step in way {
        match step.rule {
            Rule::Side => return Some(Division::Split),
            Rule::Piece => return Some(Division::Parts),
            Rule::Begin | Rule::Enter { .. } => return None,
            _ => {}
        }
    }
    None
}

/// Returns how a way starts. Blocks around its first statement don't count.
fn start_of(way: &[WayStep]) -> Start {
    start_behind(way, false)
}

/// Returns what a way does, in a task or not.
fn work_of(way: &[WayStep]) -> Start {
    start_behind(way, true)
}

/// Returns how a way starts, without the blocks around its first statement, and without a task
/// around it if `enters_task`.
fn start_behind(way: &[WayStep], enters_task: bool) -> Start {
    for (number, step) in way.iter().enumerate() {
        match step.rule {
            Rule::Body | Rule::Other | Rule::Turn | Rule::Side | Rule::Piece | Rule::Handler => {}
            Rule::Begin if enters_task => {}
            Rule::Own => return Start::Access,
            Rule::Begin => return Start::Task,
            Rule::Await => return Start::Finish,
            Rule::Enter { procedure } => {
                let section = match way.get(number.saturating_add(1)) {
                    Some(next) => next.section,
                    None => step.section,
                };
                return Start::Call { procedure, section };
            }
        }
    }
    Start::Access
}

/// Returns whether the two ways of a race start at a `parts`, in two of its turns.
pub fn starts_in_turns(witness: &Witness) -> bool {
    matches!(witness.meeting, RunsTogether::Turns)
        && matches!(witness.pending.first(), Some(step) if matches!(step.rule, Rule::Piece))
}
