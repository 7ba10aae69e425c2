//! The statements of a body, at any depth, each with its position relative to asyncs and finishes.

ghost use Rattle.std.specs.Prelude.{◌≡◌, ◌++◌, OnOk, map};
ghost use Rattle.types.specs.Translation.{code as plain_code, codes as codes_of};
ghost use Rattle.effects.specs.Visits.{visits_in, visits_inside, visit as visit_of, in_async, in_finish};

use std::alloc::AllocError;
use types::code::{Stmt, StmtKind};

/// Whether the effects of a statement may be pending after the body has finished.
#[derive(Clone, Copy, PartialEq, Eq, Debug)]
pub enum Standing {
    /// The statement is in no async and no finish: what it leaves pending stays pending.
    Open,
    /// The statement is in an async for which no finish of the body waits: all of it may be
    /// pending.
    Begun,
    /// The statement is in a finish, which waits for all of it.
    Awaited,
}

/// A statement and its position.
#[derive(Clone, Copy)]
pub struct Visit<'p> {
    pub standing: Standing,
    pub statement: &'p Stmt,
}

impl Standing {
    /// Returns the position of the body of an async.
    pub fn in_async(self) -> Standing
        ensures { result ≡ in_async self }
    {
        match self {
            Standing::Open => Standing::Begun,
            Standing::Begun => Standing::Begun,
            Standing::Awaited => Standing::Awaited,
        }
    }

    /// Returns the position of the body of a finish.
    pub fn in_finish(self) -> Standing
        ensures { result ≡ in_finish self }
    {
        match self {
            Standing::Open => Standing::Awaited,
            Standing::Begun => Standing::Begun,
            Standing::Awaited => Standing::Awaited,
        }
    }
}

/// Adds the statements of a block, each before those inside it.
#[cycle(visit)]
pub fn visit_block<'p>(
    standing: Standing,
    block: &'p [Stmt],
    into: &mut Vec<Visit<'p>>,
) -> Result<(), AllocError>
    ensures { OnOk result (map visit_of into.new.items
        ≡ map visit_of into.old.items ++ visits_in standing (codes_of block.entry.now)) }
{
    for statement in block {
        into.push(Visit {
            standing,
            statement,
        })?;
        visit_inside(standing, &statement.kind, into)?;
    }
    Ok(())
}

/// Adds the statements inside a statement.
#[cycle(visit)]
fn visit_inside<'p>(
    standing: Standing,
    kind: &'p StmtKind,
    into: &mut Vec<Visit<'p>>,
) -> Result<(), AllocError>
    ensures { OnOk result (map visit_of into.new.items
        ≡ map visit_of into.old.items ++ visits_inside standing (plain_code kind.entry.now)) }
{
    match kind {
        StmtKind::Do(_) => Ok(()),
        StmtKind::If { body, other, .. } => {
            visit_block(standing, body, into)?;
            visit_block(standing, other, into)?;
            Ok(())
        }
        StmtKind::While { body, .. } => {
            visit_block(standing, body, into)?;
            Ok(())
        }
        StmtKind::Split { body, .. } => {
            visit_block(standing, body, into)?;
            Ok(())
        }
        StmtKind::Parts { body, .. } => {
            visit_block(standing, body, into)?;
            Ok(())
        }
        StmtKind::Call { .. } => Ok(()),
        StmtKind::Async { body } => {
            visit_block(standing.in_async(), body, into)?;
            Ok(())
        }
        StmtKind::Finish { body } => {
            visit_block(standing.in_finish(), body, into)?;
            Ok(())
        }
        StmtKind::Rescue { body, handler, .. } => {
            visit_block(standing.in_finish(), body, into)?;
            visit_block(standing, handler, into)?;
            Ok(())
        }
    }
}
