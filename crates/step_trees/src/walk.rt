//! The position of a run in a tree: ways from there to a leaf, and to the next position.

ghost use Rattle.std.specs.Prelude.{◌≡◌, ◌<◌, ◌+◌, [], IfOk, true, false};
ghost use Rattle.types.specs.Trees.{all_done, ready as ready_leaves};
ghost use Rattle.step_trees.specs.Alike.{AreAlike};
ghost use Rattle.step_trees.specs.Found.{IsFoundAlike};
ghost use Rattle.step_trees.specs.Held.{tree_of, inside, IsCounted};
ghost use Rattle.step_trees.specs.Places.{whole, IsPlace, IsRaised, IsRound};

use crate::leaf::Leaf;
use crate::tree::{Round, Tree};
use std::alloc::{AllocError, Global};

/// A tree within another, at the position of the last step. It isn't done, unless it is the whole
/// tree.
#[derive(Drop)]
pub struct Zipper<'p> {
    pub round: Round<'p>,
    pub tree: Tree<'p>,
    /// The number of leaves in the whole tree that may step.
    pub ready: u32,
}

/// Goes to the leaf with a number, counted from the left and from 0, among the leaves that may
/// step.
pub fn found<'p>(
    alloc: Global,
    place: Zipper<'p>,
    choice: u32,
) -> Result<(Round<'p>, Leaf<'p>), AllocError>
    requires place { IsPlace place }
    requires choice { choice < ready_leaves (whole place) }
    ensures { IfOk result (IsFoundAlike (whole place.entry) choice) }
{
    let Zipper {
        round,
        tree,
        ready: _,
    } = place;
    let (round, tree) = raised(alloc, round, tree, choice)?;
    let inside = choice - round.left;
    tree.leaf(round, inside)
}

/// Goes up until the leaf with a number is inside.
fn raised<'p>(
    alloc: Global,
    round: Round<'p>,
    tree: Tree<'p>,
    choice: u32,
) -> Result<(Round<'p>, Tree<'p>), AllocError>
    requires round { IsRound round }
    requires tree { IsCounted tree }
    requires going { all_done (tree_of tree) ≡ false }
    requires choice { choice < ready_leaves (inside round.around.items (tree_of tree)) }
    ensures { IfOk result (IsRaised (inside round.entry.around.items (tree_of tree.entry)) choice) }
{
    let mut round = round;
    let mut tree = tree;
    'up: loop {
        if round.left <= choice && choice - round.left < tree.ready() {
            return Ok((round, tree));
        }
        match round.pop() {
            None => return Ok((round, tree)),
            Some(around) => tree = around.within(alloc, tree)?,
        }
    }
}

/// Goes up to the whole tree.
pub fn rooted<'p>(alloc: Global, round: Round<'p>, tree: Tree<'p>) -> Result<Tree<'p>, AllocError>
    requires round { IsRound round }
    requires tree { IsCounted tree }
    ensures { IfOk result (λ t. AreAlike (tree_of t)
        (inside round.entry.around.items (tree_of tree.entry))) }
{
    let mut round = round;
    let mut tree = tree;
    'up: loop {
        match round.pop() {
            None => return Ok(tree),
            Some(around) => tree = around.within(alloc, tree)?,
        }
    }
}

/// Goes up while all leaves are done, so what waits for their end continues. After a spawn, goes up
/// to all tasks of the spawning task's finish, to keep them balanced.
pub fn settled<'p>(
    alloc: Global,
    round: Round<'p>,
    tree: Tree<'p>,
) -> Result<Zipper<'p>, AllocError>
    requires round { IsRound round }
    requires tree { IsCounted tree }
    ensures whole { IfOk result (λ c. AreAlike (whole c)
        (inside round.entry.around.items (tree_of tree.entry))) }
    ensures place { IfOk result IsPlace }
{
    let spawned = tree.size() > 1;
    let mut round = round;
    let mut tree = tree;
    'up: loop {
        if !tree.is_done() && (!spawned || round.waits()) {
            return placed(round, tree);
        }
        match round.pop() {
            None => return placed(round, tree),
            Some(around) => tree = around.within(alloc, tree)?,
        }
    }
}

/// Returns a place, with the number of leaves that may step.
pub fn placed<'p>(round: Round<'p>, tree: Tree<'p>) -> Result<Zipper<'p>, AllocError>
    requires round { IsRound round }
    requires tree { IsCounted tree }
    requires settled { all_done (tree_of tree) ≡ true → round.around.items ≡ [] }
    ensures whole { IfOk result (λ c. whole c
        ≡ inside round.entry.around.items (tree_of tree.entry)) }
    ensures place { IfOk result IsPlace }
{
    let here = tree.ready();
    let left = round.left;
    let right = round.right;
    let ready = in_all(left, here, right)?;
    Ok(Zipper { round, tree, ready })
}

/// Returns the total number of leaves that may step: left of a position, there, and right of it.
fn in_all(left: u32, here: u32, right: u32) -> Result<u32, AllocError>
    ensures { IfOk result (λ n. n ≡ left + here + right) }
{
    let Some(until) = left.checked_add(here) else {
        return Err(AllocError);
    };
    let Some(all) = until.checked_add(right) else {
        return Err(AllocError);
    };
    Ok(all)
}
