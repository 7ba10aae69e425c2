//! What the statements of a body do without their calls.

ghost use Rattle.std.specs.Prelude.{◌≡◌, ◌++◌, OnOk};
ghost use Rattle.effects.specs.Roots.{root_in};
ghost use Rattle.effects.specs.Starts.{starts_at, starts_of, starts_of_label, starts_of_access};
ghost use Rattle.effects.specs.Translation.{access as access_of};
ghost use Rattle.effects.specs.Visits.{visit as visit_of};

use crate::access::Access;
use crate::own::own_accesses;
use crate::roots::Roots;
use crate::summary::SummaryRow;
use crate::visits::{Standing, Visit};
use std::alloc::{AllocError, Global};
use types::code::{Label, Stmt};

/// A label that is in a row from the start.
#[derive(Clone, Copy)]
pub struct FirstLabel {
    pub row: SummaryRow,
    pub label: Label,
}

/// Adds what a statement does without its call, in the names of the parameters.
pub fn start_visit(
    alloc: Global,
    roots: &Roots,
    visit: Visit<'_>,
    into: &mut Vec<FirstLabel>,
) -> Result<(), AllocError>
    ensures { OnOk result (into.new.items
        ≡ into.old.items ++ starts_of (root_in roots.now) (visit_of visit.entry)) }
{
    let Stmt { label, kind } = visit.statement;
    let accesses = own_accesses(alloc, *label, kind)?;
    start_label(visit.standing, *label, into)?;
    for access in &accesses {
        start_access(roots, visit.standing, *access, into)?;
    }
    Ok(())
}

/// Adds the rows of a statement's label.
fn start_label(
    standing: Standing,
    label: Label,
    into: &mut Vec<FirstLabel>,
) -> Result<(), AllocError>
    ensures { OnOk result (into.new.items ≡ into.old.items ++ starts_of_label standing label) }
{
    let all = FirstLabel {
        row: SummaryRow::Labels,
        label,
    };
    let pending = FirstLabel {
        row: SummaryRow::PendingLabels,
        label,
    };
    add_rows(standing, all, pending, into)
}

/// Adds the rows of an access.
fn start_access(
    roots: &Roots,
    standing: Standing,
    access: Access,
    into: &mut Vec<FirstLabel>,
) -> Result<(), AllocError>
    ensures { OnOk result (into.new.items ≡ into.old.items
        ++ starts_of_access (root_in roots.now) standing (access_of access)) }
{
    let Access { label, write, .. } = access;
    let section = roots.of(access.section);
    let all = FirstLabel {
        row: SummaryRow::All { section, write },
        label,
    };
    let pending = FirstLabel {
        row: SummaryRow::Pending { section, write },
        label,
    };
    add_rows(standing, all, pending, into)
}

/// Adds a row of everything that is done and, if a spawned task does it, a row of what is pending.
fn add_rows(
    standing: Standing,
    all: FirstLabel,
    pending: FirstLabel,
    into: &mut Vec<FirstLabel>,
) -> Result<(), AllocError>
    ensures { OnOk result (into.new.items ≡ into.old.items ++ starts_at standing all pending) }
{
    into.push(all)?;
    match standing {
        Standing::Open => Ok(()),
        Standing::Begun => {
            into.push(pending)?;
            Ok(())
        }
        Standing::Awaited => Ok(()),
    }
}
