//! Where a run by choices stands: its outcome, or the tasks that may step. The program may have a
//! race.

ghost use Rattle.std.specs.Prelude.{◌≡◌, IfOk};
ghost use Rattle.types.specs.Contents.{FitsArrays};
ghost use Rattle.types.specs.Translation.{program as program_of, input as lists_in};
ghost use Rattle.types.specs.Typed.{code_of};
ghost use Rattle.statement_steps.specs.Lists.{contents_of};
ghost use Rattle.step_trees.specs.Drawing.{drawn, drawn_choices};
ghost use Rattle.step_trees.specs.Exploring.{IsHeld};
ghost use Rattle.step_trees.specs.Places.{whole};
ghost use Rattle.step_trees.specs.Standing.{standing, standing_from, standing_of};
ghost use Rattle.step_trees.specs.Standing.{stands_at};

use crate::explore::{Course, MOST_DRAWN, begun_of, next_number, picked, step};
use crate::leaf::Candidate;
use crate::walk::{Zipper, rooted};
use statement_steps::thread::Plan;
use std::alloc::{AllocError, Global};
use types::input::Input;
use types::outcome::Outcome;
use types::typed::Typed;

/// Where a run by given choices stands.
#[derive(PartialEq, Eq, Debug, Drop)]
pub enum Standing {
    /// The run has ended.
    Ended(Outcome),
    /// These tasks may step, from left to right. The number of each, from 0, is the choice that
    /// names it.
    Open(Vec<Candidate>),
    /// The index of the first choice that names no task, counted from 0.
    NoSuchChoice(usize),
}

/// Runs a program by choices, and returns where the run stands. The input has a list for each
/// array, of its length. The program may have a race: then other choices may lead to another
/// outcome.
pub fn stand_after(
    alloc: Global,
    typed: &Typed,
    input: &Input,
    choices: &[u32],
) -> Result<Standing, AllocError>
    requires { FitsArrays (code_of typed.now).arrays (lists_in input.now) }
    ensures { IfOk result (λ s. standing_of s
        ≡ standing (code_of typed.now) (lists_in input.now) choices.now) }
{
    let (plan, course) = begun_of(alloc, typed, input)?;
    stands_behind(plan, course, choices)
}

/// Continues a run by choices.
fn stands_behind<'p>(
    plan: Plan<'p>,
    course: Course<'p>,
    choices: &[u32],
) -> Result<Standing, AllocError>
    requires { IsHeld plan course }
    ensures { IfOk result (λ s. standing_of s ≡ standing_from (program_of plan.entry.program.now) 0
        choices.now (whole course.entry.place) (contents_of course.entry.store)) }
{
    let mut course = course;
    let mut left = choices;
    'choices: while let Some((choice, later)) = left.split_first() {
        if *choice >= course.place.ready {
            return Ok(Standing::NoSuchChoice(choices.len() - left.len()));
        }
        course = step(plan, course, *choice)?;
        left = later;
    }
    stands(plan, course)
}

/// Returns where a run stands once all choices are used.
fn stands<'p>(plan: Plan<'p>, course: Course<'p>) -> Result<Standing, AllocError>
    requires { IsHeld plan course }
    ensures { IfOk result (λ s. standing_of s ≡ stands_at (program_of plan.entry.program.now)
        (whole course.entry.place) (contents_of course.entry.store)) }
{
    let Course { store, place } = course;
    let Zipper {
        round,
        tree,
        ready: _,
    } = place;
    if !tree.is_done() {
        let all = rooted(plan.alloc, round, tree)?;
        return Ok(Standing::Open(all.candidates(plan.alloc)?));
    }
    let remains = tree.take_apart(plan.alloc)?;
    Ok(Standing::Ended(Outcome::Ended {
        arrays: store.arrays,
        lines: remains.lines,
        faults: remains.faults,
    }))
}

/// Returns the choices that a generator draws from a seed, until no task may step or there are
/// 1,000,000. The input has a list for each array, of its length.
pub fn draw(alloc: Global, typed: &Typed, input: &Input, seed: u64) -> Result<Vec<u32>, AllocError>
    requires { FitsArrays (code_of typed.now).arrays (lists_in input.now) }
    ensures { IfOk result (λ choices. choices.items
        ≡ drawn_choices (code_of typed.now) (lists_in input.now) seed) }
{
    let (plan, course) = begun_of(alloc, typed, input)?;
    draw_from(plan, course, seed)
}

/// Continues a run by choices that are drawn, and returns them.
fn draw_from<'p>(plan: Plan<'p>, course: Course<'p>, seed: u64) -> Result<Vec<u32>, AllocError>
    requires { IsHeld plan course }
    ensures { IfOk result (λ choices. choices.items ≡ drawn (program_of plan.entry.program.now)
        1000000 seed (whole course.entry.place) (contents_of course.entry.store)) }
{
    let mut course = course;
    let mut number = seed;
    let mut left = MOST_DRAWN;
    let mut choices = Vec::new(plan.alloc);
    'choices: while let Some(later) = left.checked_sub(1) {
        let leaves = course.place.ready;
        if leaves == 0 {
            return Ok(choices);
        }
        number = next_number(number);
        let choice = picked(number, leaves);
        choices.push(choice)?;
        course = step(plan, course, choice)?;
        left = later;
    }
    Ok(choices)
}
