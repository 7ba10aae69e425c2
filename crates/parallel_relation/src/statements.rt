//! What statements may do and leave pending, as lists.

ghost use Rattle.std.specs.Prelude.{◌≡◌, ◌++◌, OnOk, map};
ghost use Rattle.sections.specs.Translation.{section as section_of};
ghost use Rattle.types.specs.Translation.{code as plain_code, codes as codes_of};
ghost use Rattle.effects.specs.Accesses.{own_accesses as own_by};
ghost use Rattle.types.specs.Sound.{passed_for};
ghost use Rattle.effects.specs.Effects.{accesses, past_split, renamed};
ghost use Rattle.effects.specs.Tables.{all_in, all_inside, left_by, left_in};
ghost use Rattle.effects.specs.Translation.{access as access_of};
ghost use Rattle.parallel_relation.specs.Listing.{alls_of, pendings_of};

use crate::listing::ListedAccesses;
use effects::access::Access;
use effects::firsts::around;
use effects::own::own_accesses;
use sections::id::SectionId;
use std::alloc::{AllocError, Global};
use types::code::{Label, Stmt, StmtKind};

/// Adds what the statements of a block may do.
#[cycle(done)]
pub fn add_block(
    alloc: Global,
    lists: &[ListedAccesses],
    block: &[Stmt],
    into: &mut Vec<Access>,
) -> Result<(), AllocError>
    ensures { OnOk result (map access_of into.new.items ≡ map access_of into.old.items
        ++ all_in accesses (alls_of lists.now) (codes_of block.now)) }
{
    for statement in block {
        add_own(alloc, statement.label, &statement.kind, into)?;
        add_inside(alloc, lists, &statement.kind, into)?;
    }
    Ok(())
}

/// Adds what a statement does by its own expressions.
pub fn add_own(
    alloc: Global,
    label: Label,
    kind: &StmtKind,
    into: &mut Vec<Access>,
) -> Result<(), AllocError>
    ensures { OnOk result (map access_of into.new.items ≡ map access_of into.old.items
        ++ own_by label (plain_code kind.now)) }
{
    let own = own_accesses(alloc, label, kind)?;
    into.extend_from_slice(&own)?;
    Ok(())
}

/// Adds what the blocks and the call of a statement may do.
#[cycle(done)]
fn add_inside(
    alloc: Global,
    lists: &[ListedAccesses],
    kind: &StmtKind,
    into: &mut Vec<Access>,
) -> Result<(), AllocError>
    ensures { OnOk result (map access_of into.new.items ≡ map access_of into.old.items
        ++ all_inside accesses (alls_of lists.now) (plain_code kind.now)) }
{
    match kind {
        StmtKind::Do(_) => Ok(()),
        StmtKind::If { body, other, .. } => {
            add_block(alloc, lists, body, into)?;
            add_block(alloc, lists, other, into)
        }
        StmtKind::Rescue { body, handler, .. } => {
            add_block(alloc, lists, body, into)?;
            add_block(alloc, lists, handler, into)
        }
        StmtKind::While { body, .. } | StmtKind::Async { body } | StmtKind::Finish { body } => {
            add_block(alloc, lists, body, into)
        }
        StmtKind::Split { sides, body } => {
            let mut inside = Vec::new(alloc);
            add_block(alloc, lists, body, &mut inside)?;
            add_around(&inside, sides.section, sides.left, sides.right, into)
        }
        StmtKind::Parts { pieces, body } => {
            let mut inside = Vec::new(alloc);
            add_block(alloc, lists, body, &mut inside)?;
            add_around(&inside, pieces.section, pieces.piece, pieces.piece, into)
        }
        StmtKind::Call {
            procedure,
            sections,
            ..
        } => match lists.get(procedure.number) {
            Some(callee) => add_passed(&callee.all, sections, into),
            None => Ok(()),
        },
    }
}

/// Adds what the statements of a block leave pending.
#[cycle(left)]
pub fn add_left(
    alloc: Global,
    lists: &[ListedAccesses],
    block: &[Stmt],
    into: &mut Vec<Access>,
) -> Result<(), AllocError>
    ensures { OnOk result (map access_of into.new.items ≡ map access_of into.old.items
        ++ left_in accesses (alls_of lists.now) (pendings_of lists.now) (codes_of block.now)) }
{
    for statement in block {
        add_left_by(alloc, lists, &statement.kind, into)?;
    }
    Ok(())
}

/// Adds what a statement leaves pending.
#[cycle(left)]
pub fn add_left_by(
    alloc: Global,
    lists: &[ListedAccesses],
    kind: &StmtKind,
    into: &mut Vec<Access>,
) -> Result<(), AllocError>
    ensures { OnOk result (map access_of into.new.items ≡ map access_of into.old.items
        ++ left_by accesses (alls_of lists.now) (pendings_of lists.now) (plain_code kind.now)) }
{
    match kind {
        StmtKind::Do(_) => Ok(()),
        StmtKind::If { body, other, .. } => {
            add_left(alloc, lists, body, into)?;
            add_left(alloc, lists, other, into)
        }
        StmtKind::While { body, .. } => add_left(alloc, lists, body, into),
        StmtKind::Split { sides, body } => {
            let mut inside = Vec::new(alloc);
            add_left(alloc, lists, body, &mut inside)?;
            add_around(&inside, sides.section, sides.left, sides.right, into)
        }
        StmtKind::Parts { pieces, body } => {
            let mut inside = Vec::new(alloc);
            add_left(alloc, lists, body, &mut inside)?;
            add_around(&inside, pieces.section, pieces.piece, pieces.piece, into)
        }
        StmtKind::Call {
            procedure,
            sections,
            ..
        } => match lists.get(procedure.number) {
            Some(callee) => add_passed(&callee.pending, sections, into),
            None => Ok(()),
        },
        StmtKind::Async { body } => add_block(alloc, lists, body, into),
        StmtKind::Finish { .. } => Ok(()),
        StmtKind::Rescue { handler, .. } => add_left(alloc, lists, handler, into),
    }
}

/// Adds accesses inside a split, in the names around it. The piece of a `parts` is both sides.
fn add_around(
    inside: &[Access],
    section: SectionId,
    left: SectionId,
    right: SectionId,
    into: &mut Vec<Access>,
) -> Result<(), AllocError>
    ensures { OnOk result (map access_of into.new.items ≡ map access_of into.old.items
        ++ map (renamed (past_split section.number left.number right.number))
        (map access_of inside.now)) }
{
    for access in inside {
        into.push(around(*access, section, left, right))?;
    }
    Ok(())
}

/// Adds accesses of a procedure, in the names around a call with these sections.
fn add_passed(
    inside: &[Access],
    sections: &[SectionId],
    into: &mut Vec<Access>,
) -> Result<(), AllocError>
    ensures { OnOk result (map access_of into.new.items ≡ map access_of into.old.items
        ++ map (renamed (passed_for (map section_of sections.now))) (map access_of inside.now)) }
{
    for access in inside {
        into.push(passed(*access, sections))?;
    }
    Ok(())
}

/// Returns an access of a procedure in the names around a call with these sections.
fn passed(access: Access, sections: &[SectionId]) -> Access
    ensures { access_of result ≡ renamed (passed_for (map section_of sections.now)) (access_of access) }
{
    match sections.get(access.section.number) {
        Some(section) => Access {
            section: *section,
            ..access
        },
        None => Access {
            section: SectionId { number: 0 },
            ..access
        },
    }
}
