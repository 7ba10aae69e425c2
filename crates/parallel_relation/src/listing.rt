//! What procedures may do and leave pending, as lists.

ghost use Rattle.std.specs.Prelude.{◌≡◌, ◌↔◌, ◌<◌, ◌^◌, IfOk, OnOk};
ghost use Rattle.types.specs.Translation.{program};
ghost use Rattle.effects.specs.Accesses.{Access as PlainAccess};
ghost use Rattle.effects.specs.AccessSets.{HasAccess, IsUseOf};
ghost use Rattle.effects.specs.Summarized.{AreSummaries};
ghost use Rattle.parallel_relation.specs.Around.{Gains};
ghost use Rattle.parallel_relation.specs.Listing.{InList, IsUse, AreListsOf};

use effects::access::Access;
use effects::accesses::Accesses;
use effects::label_set::LabelSet;
use effects::summaries::Summaries;
use sections::id::SectionId;
use std::alloc::{AllocError, Global};
use types::code::{Label, Program};
use types::ids::ProcedureId;

/// The accesses of a procedure.
#[derive(Drop)]
pub struct ListedAccesses {
    pub all: Vec<Access>,
    /// The accesses that it leaves pending.
    pub pending: Vec<Access>,
}

/// Returns the accesses of each procedure, in the order of the text.
pub fn list_procedures(
    alloc: Global,
    code: &Program,
    summaries: &Summaries,
) -> Result<Vec<ListedAccesses>, AllocError>
    requires { AreSummaries (program code.now) summaries.now }
    ensures { IfOk result (λ lists. AreListsOf (program code.now) lists.items) }
{
    let mut lists = Vec::new(alloc);
    for number in 0..code.procedures.len() {
        let summary = summaries.of(ProcedureId { number });
        let all = items_of(alloc, &summary.all)?;
        let pending = items_of(alloc, &summary.pending)?;
        lists.push(ListedAccesses { all, pending })?;
    }
    Ok(lists)
}

/// Returns the accesses of a set.
fn items_of(alloc: Global, accesses: &Accesses) -> Result<Vec<Access>, AllocError>
    ensures { IfOk result (λ found. (x : PlainAccess)
        → InList found.items x ↔ HasAccess accesses.now x) }
{
    let mut found = Vec::new(alloc);
    for number in 0..accesses.end() {
        let section = SectionId { number };
        add_uses(alloc, accesses, section, false, &mut found)?;
        add_uses(alloc, accesses, section, true, &mut found)?;
    }
    Ok(found)
}

/// Adds the accesses of one kind to a section.
fn add_uses(
    alloc: Global,
    accesses: &Accesses,
    section: SectionId,
    write: bool,
    found: &mut Vec<Access>,
) -> Result<(), AllocError>
    ensures { OnOk result (Gains (InList found.old.items)
        (λ x. IsUseOf section.number write x × HasAccess accesses.now x) (InList found.new.items)) }
{
    let labels = accesses.copied(alloc, section, write)?;
    for label in 0..labels.end() {
        add_use(&labels, label, section, write, found)?;
    }
    Ok(())
}

/// Adds the access of one statement, if its label is in the set.
fn add_use(
    labels: &LabelSet,
    label: usize,
    section: SectionId,
    write: bool,
    found: &mut Vec<Access>,
) -> Result<(), AllocError>
    requires { label < 2 ^ 32 }
    ensures { OnOk result (Gains (InList found.old.items)
        (λ x. (x.label ≡ label) × IsUse labels.now section.number write x) (InList found.new.items)) }
{
    if !labels.has(label as Label) {
        return Ok(());
    }
    found.push(Access {
        label: label as Label,
        section,
        write,
    })?;
    Ok(())
}
