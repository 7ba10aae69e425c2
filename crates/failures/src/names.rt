//! Accesses in the names of a procedure, as messages print them.

ghost use Rattle.std.specs.Prelude.{◌≡◌, IfOk};
ghost use Rattle.std.specs.String.{string_bytes};
ghost use Rattle.types.specs.Translation.{procedure as plain_procedure, program};
ghost use Rattle.effects.specs.Translation.{access as access_of};
ghost use Rattle.failures.specs.Races.{access_text, kind_of, section_text, told_procedure};
ghost use Rattle.failures.specs.Races.{section_name as name_of_section};

use effects::access::Access;
use sections::id::SectionId;
use std::alloc::{AllocError, Global};
use types::code::{Label, Procedure, Program};
use types::ids::ProcedureId;

/// Returns the procedure with this number. `main` is numbered after the others.
pub fn procedure_of(code: &Program, procedure: ProcedureId) -> &Procedure
    ensures { plain_procedure result.now ≡ told_procedure (program code.now) procedure.number }
{
    match code.procedures.get(procedure.number) {
        Some(procedure) => procedure,
        None => &code.main,
    }
}

/// Returns an access of a section as the message of a race prints it: `2 write a`.
pub fn section_told(
    alloc: Global,
    procedure: &Procedure,
    access: Access,
) -> Result<String, AllocError>
    ensures { IfOk result (λ text. string_bytes text
        ≡ section_text (plain_procedure procedure.now) (access_of access)) }
{
    told(
        alloc,
        access.label,
        access.write,
        section_name(procedure, access.section),
    )
}

/// Returns the name of a section.
pub fn section_name(procedure: &Procedure, section: SectionId) -> &str
    ensures { result.now ≡ name_of_section (plain_procedure procedure.now) section.number }
{
    match procedure.section_names.get(section.number) {
        Some(name) => name.as_str(),
        None => "",
    }
}

/// Returns an access as the message prints it: `2 write a`.
fn told(alloc: Global, label: Label, write: bool, name: &str) -> Result<String, AllocError>
    ensures { IfOk result (λ text. string_bytes text ≡ access_text label write name.now) }
{
    let kind = kind(write);
    format!(in alloc; "{label} {kind} {name}")
}

/// Returns what an access does.
pub fn kind(write: bool) -> &'static str
    ensures { result.now ≡ kind_of write }
{
    if write { "write" } else { "read" }
}
