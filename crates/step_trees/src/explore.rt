//! Runs by given choices, and by choices that a random number generator draws.

ghost use Rattle.std.specs.Prelude.{◌≡◌, ◌≢◌, ◌<◌, ℕ, IfOk, length};
ghost use Rattle.types.specs.Contents.{FitsArrays};
ghost use Rattle.types.specs.Outcome.{Budget as BudgetOf, IsLarger, Outcome as OutcomeOf};
ghost use Rattle.types.specs.Outcome.{outcome as one_thread_outcome};
ghost use Rattle.types.specs.Translation.{program as program_of, input as lists_in};
ghost use Rattle.types.specs.TreeRuns.{Ends, Open, NoSuchChoice, told as told_of};
ghost use Rattle.types.specs.TreeRuns.{explored as explored_by, explored_from};
ghost use Rattle.types.specs.TreeSteps.{first_tree};
ghost use Rattle.types.specs.Trees.{ready as ready_leaves};
ghost use Rattle.types.specs.Typed.{code_of};
ghost use Rattle.statement_steps.specs.Lists.{contents_of};
ghost use Rattle.step_trees.specs.Turns.{becomes as becomes_tree};
ghost use Rattle.step_trees.specs.Drawing.{drawn, drawn_choices, next_number as number_behind};
ghost use Rattle.step_trees.specs.Drawing.{picked as picked_by};
ghost use Rattle.step_trees.specs.Exploring.{explored_of, Begins, IsHeld, StepsTree};
ghost use Rattle.step_trees.specs.Held.{tree_of, IsCounted};
ghost use Rattle.step_trees.specs.Places.{whole, IsPlace};

use crate::leaf::{Leaf, returned};
use crate::rest::block_alone;
use crate::tree::{Round, Tree, and_then, beside};
use crate::turn::{Becomes, step as leaf_turn};
use crate::walk::{Zipper, found, placed, settled};
use race_checker::accepted::Accepted;
use statement_steps::store::Store;
use statement_steps::thread::{Plan, main_environment};
use std::alloc::{AllocError, Global};
use types::budget::Budget;
use types::input::Input;
use types::laws::typed_programs_are_sound;
use types::outcome::Outcome;
use types::path::Path;
use types::typed::Typed;

/// The result of a run by given choices.
#[derive(PartialEq, Eq, Debug, Drop)]
pub enum Explored {
    /// The run has ended.
    Ended(Outcome),
    /// The run hasn't ended, and this number of leaves may step.
    Open { leaves: u32 },
    /// The index of the first choice that names no leaf, counted from 0.
    NoSuchChoice(usize),
}

/// The state of a run.
#[derive(Drop)]
pub struct Course<'p> {
    pub store: Store,
    pub place: Zipper<'p>,
}

/// Runs an accepted program by choices. Each choice is the number of the leaf that steps next,
/// counted from the left and from 0, among the leaves that may step. The input has a list for each
/// array, of its length.
///
/// If the result is `Open`, there is a leaf that may step. If it is `Ended`, it is the outcome of
/// one thread, under every budget of at least as many steps, and as much nest, as there are
/// choices.
pub fn explore(
    alloc: Global,
    accepted: &Accepted,
    input: &Input,
    choices: &[u32],
) -> Result<Explored, AllocError>
    requires { FitsArrays (code_of accepted.now.typed).arrays (lists_in input.now) }
    ensures told { IfOk result (λ e. explored_of e
        ≡ explored_by (code_of accepted.now.typed) (lists_in input.now) choices.now) }
    ensures open { IfOk result (λ e. (leaves : ℕ) → explored_of e ≡ Open leaves → 0 < leaves) }
    ensures ended { IfOk result (λ e. (o : OutcomeOf) → explored_of e ≡ Ends o → (b : BudgetOf)
        → IsLarger b (record { steps = length choices.now; nest = length choices.now })
        → one_thread_outcome (code_of accepted.now.typed) (lists_in input.now) b ≡ o) }
{
    typed_programs_are_sound(accepted.typed());
    let (plan, course) = begun(alloc, accepted, input)?;
    by_choices(plan, course, choices)
}

/// Continues a run by choices.
fn by_choices<'p>(
    plan: Plan<'p>,
    course: Course<'p>,
    choices: &[u32],
) -> Result<Explored, AllocError>
    requires { IsHeld plan course }
    ensures { IfOk result (λ e. explored_of e ≡ explored_from (program_of plan.entry.program.now) 0
        choices.now (whole course.entry.place) (contents_of course.entry.store)) }
{
    let mut course = course;
    let mut left = choices;
    'choices: while let Some((choice, later)) = left.split_first() {
        if *choice >= course.place.ready {
            return Ok(Explored::NoSuchChoice(choices.len() - left.len()));
        }
        course = step(plan, course, *choice)?;
        left = later;
    }
    told(plan, course)
}

/// The maximum number of choices that are drawn.
pub(crate) const MOST_DRAWN: u32 = 1_000_000;

/// Runs an accepted program by choices that a generator draws from a seed, until no leaf may step
/// or 1,000,000 leaves have. The input has a list for each array, of its length.
///
/// Each choice names a leaf. So the result is the outcome of one thread, under every budget of at
/// least 1,000,000 steps and as much nest, or the number of leaves that may step after 1,000,000
/// choices.
pub fn explore_random(
    alloc: Global,
    accepted: &Accepted,
    input: &Input,
    seed: u64,
) -> Result<Explored, AllocError>
    requires { FitsArrays (code_of accepted.now.typed).arrays (lists_in input.now) }
    ensures told { let p = code_of accepted.now.typed in let i = lists_in input.now in
        IfOk result (λ e. explored_of e ≡ explored_by p i (drawn_choices p i seed)) }
    ensures named { IfOk result (λ e. (n : ℕ) → explored_of e ≢ NoSuchChoice n) }
    ensures open { IfOk result (λ e. (leaves : ℕ) → explored_of e ≡ Open leaves → 0 < leaves) }
    ensures used { let p = code_of accepted.now.typed in let i = lists_in input.now in
        IfOk result (λ e. (leaves : ℕ) → explored_of e ≡ Open leaves
        → length (drawn_choices p i seed) ≡ 1000000) }
    ensures ended { IfOk result (λ e. (o : OutcomeOf) → explored_of e ≡ Ends o → (b : BudgetOf)
        → IsLarger b (record { steps = 1000000; nest = 1000000 })
        → one_thread_outcome (code_of accepted.now.typed) (lists_in input.now) b ≡ o) }
{
    typed_programs_are_sound(accepted.typed());
    let (plan, course) = begun(alloc, accepted, input)?;
    by_draws(plan, course, seed)
}

/// Continues a run by choices that are drawn.
fn by_draws<'p>(plan: Plan<'p>, course: Course<'p>, seed: u64) -> Result<Explored, AllocError>
    requires { IsHeld plan course }
    ensures { let p = program_of plan.entry.program.now in
        let t = whole course.entry.place in let a = contents_of course.entry.store in
        IfOk result (λ e. explored_of e ≡ explored_from p 0 (drawn p 1000000 seed t a) t a) }
{
    let mut course = course;
    let mut number = seed;
    let mut left = MOST_DRAWN;
    'choices: while let Some(later) = left.checked_sub(1) {
        let leaves = course.place.ready;
        if leaves == 0 {
            return told(plan, course);
        }
        number = next_number(number);
        course = step(plan, course, picked(number, leaves))?;
        left = later;
    }
    told(plan, course)
}

/// Returns the generator's next number after this one.
pub(crate) fn next_number(number: u64) -> u64
    ensures { result ≡ number_behind number }
{
    let product = u128::from(number) * 6_364_136_223_846_793_005;
    ((product + 1_442_695_040_888_963_407) % 18_446_744_073_709_551_616) as u64
}

/// Returns the leaf that a number names, among this number of leaves. The upper half of the number
/// decides.
pub(crate) fn picked(number: u64, leaves: u32) -> u32
    requires { 0 < leaves }
    ensures named { result < leaves }
    ensures picked { result ≡ picked_by number leaves }
{
    (number / 4_294_967_296 % u64::from(leaves)) as u32
}

/// Returns a run of an accepted program on an input, at its start.
fn begun<'p>(
    alloc: Global,
    accepted: &'p Accepted,
    input: &Input,
) -> Result<(Plan<'p>, Course<'p>), AllocError>
    requires { FitsArrays (code_of accepted.now.typed).arrays (lists_in input.now) }
    ensures { IfOk result (Begins (code_of accepted.entry.now.typed) (lists_in input.now)) }
{
    begun_of(alloc, accepted.typed(), input)
}

/// Returns a run of a program on an input, at its start.
pub(crate) fn begun_of<'p>(
    alloc: Global,
    typed: &'p Typed,
    input: &Input,
) -> Result<(Plan<'p>, Course<'p>), AllocError>
    requires { FitsArrays (code_of typed.now).arrays (lists_in input.now) }
    ensures { IfOk result (Begins (code_of typed.entry.now) (lists_in input.now)) }
{
    let plan = Plan {
        alloc,
        program: typed.code(),
        budget: Budget::usual(),
    };
    let place = start(plan)?;
    let store = Store::of_input(alloc, input)?;
    Ok((plan, Course { store, place }))
}

/// Returns the place where a run starts.
fn start<'p>(plan: Plan<'p>) -> Result<Zipper<'p>, AllocError>
    ensures tree { IfOk result (λ c. whole c ≡ first_tree (program_of plan.entry.program.now)) }
    ensures place { IfOk result IsPlace }
{
    let tree = first(plan)?;
    placed(Round::nothing(plan.alloc), tree)
}

/// Returns the tree of `main` at its start.
fn first<'p>(plan: Plan<'p>) -> Result<Tree<'p>, AllocError>
    ensures tree { IfOk result (λ t. tree_of t ≡ first_tree (program_of plan.entry.program.now)) }
    ensures counted { IfOk result IsCounted }
{
    let environment = main_environment(plan)?;
    let rest = block_alone(plan.alloc, &plan.program.main.body)?;
    let leaf = Leaf {
        environment,
        rest,
        callers: Vec::new(plan.alloc),
        path: Path::root(plan.alloc),
        spawned: 0,
        lines: Vec::new(plan.alloc),
        faults: Vec::new(plan.alloc),
    };
    Ok(Tree::Single(returned(leaf)))
}

/// Runs one step of the leaf with a number, among the leaves that may step.
pub(crate) fn step<'p>(
    plan: Plan<'p>,
    course: Course<'p>,
    choice: u32,
) -> Result<Course<'p>, AllocError>
    requires held { IsHeld plan course }
    requires choice { choice < ready_leaves (whole course.place) }
    ensures { IfOk result (StepsTree plan.entry course.entry choice) }
{
    let (round, leaf) = found(plan.alloc, course.place, choice)?;
    let (becomes, store) = leaf_turn(plan, course.store, leaf)?;
    let tree = grown(plan.alloc, becomes)?;
    let place = settled(plan.alloc, round, tree)?;
    Ok(Course { store, place })
}

/// Returns the tree that a leaf becomes by a step.
fn grown<'p>(alloc: Global, becomes: Becomes<'p>) -> Result<Tree<'p>, AllocError>
    ensures tree { IfOk result (λ t. tree_of t ≡ becomes_tree becomes.entry) }
    ensures counted { IfOk result IsCounted }
{
    match becomes {
        Becomes::Single(leaf) => Ok(Tree::Single(leaf)),
        Becomes::Spawned { child, parent } => {
            let left = Box::new(alloc, Tree::Single(child))?;
            let right = Box::new(alloc, Tree::Single(parent))?;
            beside(left, right)
        }
        Becomes::Entered { body, behind } => and_then(alloc, Tree::Single(body), behind),
    }
}

/// Returns the result for a tree once all choices are used.
fn told<'p>(plan: Plan<'p>, course: Course<'p>) -> Result<Explored, AllocError>
    requires { IsHeld plan course }
    ensures { IfOk result (λ e. explored_of e ≡ told_of (program_of plan.entry.program.now)
        (whole course.entry.place) (contents_of course.entry.store)) }
{
    let Course { store, place } = course;
    let Zipper {
        round: _,
        tree,
        ready,
    } = place;
    if !tree.is_done() {
        return Ok(Explored::Open { leaves: ready });
    }
    let remains = tree.take_apart(plan.alloc)?;
    Ok(Explored::Ended(Outcome::Ended {
        arrays: store.arrays,
        lines: remains.lines,
        faults: remains.faults,
    }))
}
