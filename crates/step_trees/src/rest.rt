//! The remaining statements of a leaf: blocks that run one after the other, the next one last.

ghost use Rattle.std.specs.Prelude.{◌≡◌, IfOk, OnOk};
ghost use Rattle.sections.specs.Translation.{window as window_of};
ghost use Rattle.types.specs.Code.{Then};
ghost use Rattle.types.specs.Translation.{code as code_of, codes as codes_of};
ghost use Rattle.types.specs.Trees.{append};
ghost use Rattle.step_trees.specs.Translation.{blocks as statements_of, label_of, with_turns, Takes};

use sections::window::Window;
use statement_steps::turns::TurnsToCome;
use std::alloc::{AllocError, Global};
use types::code::{Label, Stmt};

/// Remaining statements, at least one of them.
#[derive(Clone, Copy)]
pub enum RestOfBlock<'p> {
    /// Those of a block.
    Block { first: &'p Stmt, others: &'p [Stmt] },
    /// The turns to come of a `parts`, of which at least one is left.
    Turns(TurnsToCome<'p>),
}

/// What a leaf does next.
#[derive(Clone, Copy)]
pub enum NextStep<'p> {
    Statement(&'p Stmt),
    /// A turn of a `parts`.
    Turn(TurnsToCome<'p>),
}

impl RestOfBlock<'_> {
    /// Returns the label of what is next in it.
    pub fn label(&self) -> Label
        ensures { result ≡ label_of self.now }
    {
        match self {
            RestOfBlock::Block { first, others: _ } => first.label,
            RestOfBlock::Turns(turns) => turns.label,
        }
    }
}

/// Returns the list of one block, or an empty list if the block is empty.
pub fn block_alone<'p>(alloc: Global, block: &'p [Stmt]) -> Result<Vec<RestOfBlock<'p>>, AllocError>
    ensures { IfOk result (λ rest. statements_of rest.items ≡ codes_of block.entry.now) }
{
    let mut rest = Vec::new(alloc);
    enter(&mut rest, block)?;
    Ok(rest)
}

/// Adds a block that runs first.
pub fn enter<'p>(rest: &mut Vec<RestOfBlock<'p>>, block: &'p [Stmt]) -> Result<(), AllocError>
    ensures { OnOk result (statements_of rest.new.items
        ≡ append (codes_of block.entry.now) (statements_of rest.old.items)) }
{
    if let Some((first, others)) = block.split_first() {
        rest.push(RestOfBlock::Block { first, others })?;
    }
    Ok(())
}

/// Adds a statement that runs first.
pub fn begin<'p>(rest: &mut Vec<RestOfBlock<'p>>, stmt: &'p Stmt) -> Result<(), AllocError>
    ensures { OnOk result (statements_of rest.new.items
        ≡ Then stmt.entry.now.label (code_of stmt.entry.now.kind) (statements_of rest.old.items)) }
{
    rest.push(RestOfBlock::Block {
        first: stmt,
        others: &[],
    })?;
    Ok(())
}

/// Adds the turns of a `parts` of a section with this window, which run first, if one is left.
pub fn begin_turns<'p>(
    rest: &mut Vec<RestOfBlock<'p>>,
    turns: TurnsToCome<'p>,
    window: Window,
) -> Result<(), AllocError>
    ensures { OnOk result (statements_of rest.new.items
        ≡ with_turns turns.entry (window_of window) (statements_of rest.old.items)) }
{
    match window.piece(turns.size, turns.next) {
        None => Ok(()),
        Some(_) => {
            rest.push(RestOfBlock::Turns(turns))?;
            Ok(())
        }
    }
}

/// Removes what is next and returns it.
pub fn next<'p>(rest: &mut Vec<RestOfBlock<'p>>) -> Result<Option<NextStep<'p>>, AllocError>
    ensures { IfOk result (λ step. Takes step (statements_of rest.old.items)
        (statements_of rest.new.items)) }
{
    let Some(top) = rest.pop() else {
        return Ok(None);
    };
    match top {
        RestOfBlock::Block { first, others } => {
            enter(rest, others)?;
            Ok(Some(NextStep::Statement(first)))
        }
        RestOfBlock::Turns(turns) => Ok(Some(NextStep::Turn(turns))),
    }
}
