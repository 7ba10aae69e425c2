//! A leaf of a step tree.

ghost use Rattle.std.specs.Prelude.{◌≡◌};
ghost use Rattle.types.specs.Trees.{returned as returned_leaf, done as done_leaf};
ghost use Rattle.step_trees.specs.Standing.{candidates_by, listed};
ghost use Rattle.step_trees.specs.Translation.{leaf_of};

use crate::rest::RestOfBlock;
use std::alloc::Global;
use types::code::{Label, Stmt};
use types::fault::Fault;
use types::ids::Slot;
use types::path::Path;
use types::value::Environment;

/// What waits for a call to end.
#[derive(Drop)]
pub struct Caller<'p> {
    pub environment: Environment,
    pub rest: Vec<RestOfBlock<'p>>,
}

/// The state of a task.
#[derive(Drop)]
pub struct Leaf<'p> {
    // What remains to be done.
    pub environment: Environment,
    pub rest: Vec<RestOfBlock<'p>>,
    /// The calls that the task is in, the innermost one last.
    pub callers: Vec<Caller<'p>>,

    // Its name.
    pub path: Path,
    /// The number of children that it has spawned.
    pub spawned: u32,

    // Its output.
    pub lines: Vec<Vec<i64>>,
    pub faults: Vec<Fault>,
}

/// What a task does if the finish for which it waits has gathered faults.
#[derive(Clone, Copy)]
pub struct Handler<'p> {
    /// In the block, this scalar is the number of the faults.
    pub faults: Slot,
    pub block: &'p [Stmt],
}

/// The state of a task that waits for the end of a finish.
#[derive(Drop)]
pub struct Waiting<'p> {
    pub leaf: Leaf<'p>,
    pub handler: Option<Handler<'p>>,
}

/// Returns from all calls whose bodies are finished. The leaf continues after the call, in its
/// caller.
pub fn returned<'p>(leaf: Leaf<'p>) -> Leaf<'p>
    ensures { leaf_of result ≡ returned_leaf (leaf_of leaf.entry) }
{
    let Leaf {
        mut environment,
        mut rest,
        mut callers,
        path,
        spawned,
        lines,
        faults,
    } = leaf;
    'calls: while rest.is_empty() {
        match callers.pop() {
            None => break,
            Some(caller) => {
                environment = caller.environment;
                rest = caller.rest;
            }
        }
    }
    Leaf {
        environment,
        rest,
        callers,
        path,
        spawned,
        lines,
        faults,
    }
}

/// Drops what a leaf has left to do.
pub fn done<'p>(alloc: Global, mut leaf: Leaf<'p>) -> Leaf<'p>
    ensures { leaf_of result ≡ done_leaf (leaf_of leaf.entry) }
{
    'calls: while let Some(caller) = leaf.callers.pop() {
        leaf.environment = caller.environment;
    }
    leaf.rest = Vec::new(alloc);
    leaf
}

/// A task that may step.
#[derive(PartialEq, Eq, Debug, Drop)]
pub struct Candidate {
    pub path: Path,
    /// The label of its next statement.
    pub label: Label,
}

/// Returns the task of a leaf, if it may step.
pub fn task_of<'p>(leaf: Leaf<'p>) -> Option<Candidate>
    ensures { listed result ≡ candidates_by (leaf_of leaf.entry).rest (leaf_of leaf.entry) }
{
    let Leaf { mut rest, path, .. } = leaf;
    match rest.pop() {
        None => None,
        Some(next) => Some(Candidate {
            path,
            label: next.label(),
        }),
    }
}
