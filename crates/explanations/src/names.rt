//! The names of sections and procedures.

use sections::id::SectionId;
use sections::origin::Origin;
use types::code::{Procedure, Program};
use types::ids::ProcedureId;

/// Returns the procedure with this number. `main` is numbered after the others.
pub fn procedure_of(code: &Program, procedure: ProcedureId) -> &Procedure {
    match code.procedures.get(procedure.number) {
        Some(procedure) => procedure,
        None => &code.main,
    }
}

/// Returns whether a procedure is `main`.
pub fn is_main(code: &Program, procedure: ProcedureId) -> bool {
    code.procedures.get(procedure.number).is_none()
}

/// Returns the other side of the split that a section is a side of.
pub fn other_side(procedure: &Procedure, side: SectionId) -> Option<SectionId> {
    let sections = &procedure.sections;
    if side.number >= sections.len() {
        return None;
    }
    match sections.origin(side) {
        Origin::Root | Origin::Piece { .. } => None,
        Origin::Left { .. } => Some(SectionId {
            number: side.number.saturating_add(1),
        }),
        Origin::Right { .. } => Some(SectionId {
            number: side.number.saturating_sub(1),
        }),
    }
}

/// Returns the name of a section of a procedure, or an empty text if it has none.
pub fn section_name(procedure: &Procedure, section: SectionId) -> &str {
    match procedure.section_names.get(section.number) {
        Some(name) => name.as_str(),
        None => "",
    }
}

/// Returns the name of a procedure.
pub fn procedure_name(code: &Program, procedure: ProcedureId) -> &str {
    procedure_of(code, procedure).name.as_str()
}

/// Returns what an access does, such as `writes`.
pub fn kind_word(write: bool) -> &'static str {
    if write { "writes" } else { "reads" }
}

/// Returns whether a section is the piece of a `parts`.
pub fn is_piece(procedure: &Procedure, section: SectionId) -> bool {
    let sections = &procedure.sections;
    section.number < sections.len() && matches!(sections.origin(section), Origin::Piece { .. })
}

/// Returns the part of `whole` in which a section lies: a side of a split of it, or a piece.
pub fn part_below(procedure: &Procedure, section: SectionId, whole: SectionId) -> SectionId {
    let sections = &procedure.sections;
    let mut part = section;
    for _ in 0..sections.len() {
        if part.number >= sections.len() {
            break;
        }
        let parent = match sections.origin(part) {
            Origin::Root => break,
            Origin::Left { parent } | Origin::Right { parent } | Origin::Piece { parent } => parent,
        };
        if parent == whole {
            return part;
        }
        part = parent;
    }
    section
}
