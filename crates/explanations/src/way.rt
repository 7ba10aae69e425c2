//! The steps of a way in words.

use crate::names::{kind_word, procedure_name, procedure_of, section_name};
use sections::id::SectionId;
use std::alloc::{AllocError, Global};
use types::code::{Label, Program};
use types::ids::ProcedureId;
use witness::step::{Rule, WayStep};

/// A line of a way: what the statement with this label does.
#[derive(Drop)]
pub struct WayLine {
    pub label: Label,
    pub words: String,
}

/// Where the access of a way is made: in this procedure, to this section there.
#[derive(Clone, Copy)]
pub struct WayEnd {
    pub procedure: ProcedureId,
    pub section: SectionId,
}

/// Returns the end of a way that starts in a procedure.
pub fn end_of(procedure: ProcedureId, way: &[WayStep]) -> WayEnd {
    let mut end = WayEnd {
        procedure,
        section: SectionId { number: 0 },
    };
    for step in way {
        end.section = step.section;
        if let Rule::Enter { procedure } = step.rule {
            end.procedure = procedure;
        }
    }
    end
}

/// Adds the lines of a way that starts in a procedure: its calls, tasks, splits and `parts`, and its
/// access.
pub fn push_way(
    alloc: Global,
    code: &Program,
    procedure: ProcedureId,
    way: &[WayStep],
    write: bool,
    lines: &mut Vec<WayLine>,
) -> Result<(), AllocError> {
    let mut procedure = procedure;
    let mut left = way;
    'steps: while let [step, behind @ ..] = left {
        let inside = match behind.first() {
            Some(next) => next.section,
            None => step.section,
        };
        let words = words_of(alloc, code, procedure, *step, inside, write)?;
        if !words.is_empty() {
            lines.push(WayLine {
                label: step.label,
                words,
            })?;
        }
        if let Rule::Enter { procedure: callee } = step.rule {
            procedure = callee;
        }
        left = behind;
    }
    Ok(())
}

/// Returns what a step in a procedure does. `inside` is the section of the access after the step.
/// The text is empty if the step only goes into a block.
fn words_of(
    alloc: Global,
    code: &Program,
    procedure: ProcedureId,
    step: WayStep,
    inside: SectionId,
    write: bool,
) -> Result<String, AllocError> {
    let here = procedure_of(code, procedure);
    let label = step.label;
    let name = section_name(here, step.section);
    match step.rule {
        Rule::Own => {
            let kind = kind_word(write);
            format!(in alloc; "{label} {kind} {name}")
        }
        Rule::Begin => format!(in alloc; "{label} starts a task"),
        Rule::Enter { procedure: callee } => {
            let called = procedure_name(code, callee);
            let parameter = section_name(procedure_of(code, callee), inside);
            format!(in alloc; "{label} calls {called}, with {name} as {parameter}")
        }
        Rule::Side | Rule::Piece => {
            if inside == step.section {
                return Ok(String::new(alloc));
            }
            let side = section_name(here, inside);
            format!(in alloc; "{label} names {side}, a part of {name}")
        }
        _ => Ok(String::new(alloc)),
    }
}
