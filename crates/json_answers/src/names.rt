//! Names of procedures and sections, and kinds of accesses.

ghost use Rattle.std.specs.Prelude.{◌≡◌};
ghost use Rattle.types.specs.Translation.{procedure as procedure_of, program};
ghost use Rattle.failures.specs.Races.{kind_of as kind_text, section_name as name_of_section};
ghost use Rattle.failures.specs.Races.{told_procedure};

use sections::id::SectionId;
use types::code::{Procedure, Program};
use types::ids::ProcedureId;

/// Returns the procedure with a number; `main` comes after the others.
pub(crate) fn procedure_in(code: &Program, procedure: ProcedureId) -> &Procedure
    ensures { procedure_of result.now ≡ told_procedure (program code.now) procedure.number }
{
    match code.procedures.get(procedure.number) {
        Some(procedure) => procedure,
        None => &code.main,
    }
}

/// Returns the name of a section.
pub(crate) fn section_name(procedure: &Procedure, section: SectionId) -> &str
    ensures { result.now ≡ name_of_section (procedure_of procedure.now) section.number }
{
    match procedure.section_names.get(section.number) {
        Some(name) => name.as_str(),
        None => "",
    }
}

/// Returns the kind of an access.
pub(crate) fn kind_of(write: bool) -> &'static str
    ensures { result.now ≡ kind_text write }
{
    if write { "write" } else { "read" }
}
