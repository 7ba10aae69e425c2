//! Where what a statement leaves pending meets what is done after it.

ghost use Rattle.std.specs.Prelude.{◌≡◌, ◌+◌, IfOk, length};
ghost use Rattle.types.specs.Translation.{code as plain_code, codes as codes_of, program as program_of};
ghost use Rattle.effects.specs.Effects.{past_parts};
ghost use Rattle.effects.specs.Translation.{access as access_of};
ghost use Rattle.witness.specs.Crossed.{ArePaired, IsAcross, IsInTurn, IsInTurns, IsShortestOf, MeetAt};
ghost use Rattle.witness.specs.Crossed.{MeetIn, both, crossed};
ghost use Rattle.witness.specs.Known.{steps};
ghost use Rattle.witness.specs.Least.{IsLeast, IsLesserOf, all_covered};
ghost use Rattle.witness.specs.Meets.{WayInto};
ghost use Rattle.witness.specs.Settled.{IsAim};
ghost use Rattle.witness.specs.Ways.{step as step_of};

use crate::aim::Aim;
use crate::step::{Rule, WayStep, led_on, shorter};
use effects::access::Access;
use effects::firsts::around;
use parallel_relation::meetings::are_to_pieces;
use std::alloc::{AllocError, Global};
use types::code::{Label, Pieces, Program, Stmt, StmtKind};

/// How two accesses can run together.
#[derive(Clone, Copy, PartialEq, Eq, Debug)]
pub enum RunsTogether {
    /// A statement leaves one pending, and a later statement of its list does the other.
    Follows,
    /// A loop leaves one pending, and does the other in a later iteration; or a `parts`, in a later
    /// turn.
    Turns,
}

/// Two accesses of a program. The first is the one to be left pending.
#[derive(Clone, Copy)]
pub(crate) struct Pairing<'a> {
    pub alloc: Global,
    pub code: &'a Program,
    pub first: &'a Aim,
    pub second: &'a Aim,
}

impl<'a> Pairing<'a> {
    /// Returns the two accesses in the other order.
    pub fn swapped(&self) -> Pairing<'a>
        ensures { result ≡ record self.now { first = self.now.second; second = self.now.first } }
    {
        Pairing {
            first: self.second,
            second: self.first,
            ..*self
        }
    }
}

/// Two ways that start where they meet.
#[derive(Drop)]
pub(crate) struct Crossing {
    pub meeting: RunsTogether,
    pub pending: Vec<WayStep>,
    pub later: Vec<WayStep>,
}

impl Crossing {
    /// Returns the number of steps of both ways.
    pub fn len(&self) -> u128
        ensures { result ≡ length self.now.pending.items + length self.now.later.items }
    {
        self.pending.len() as u128 + self.later.len() as u128
    }
}

/// Returns the shorter of two crossings, or the first if they are equally long.
pub(crate) fn shorter_crossing(one: Option<Crossing>, other: Option<Crossing>) -> Option<Crossing>
    ensures { IsLesserOf both (crossed one) (crossed other) (crossed result) }
{
    let Some(crossing) = one else {
        return other;
    };
    let Some(next) = other else {
        return Some(crossing);
    };
    if crossing.len() <= next.len() {
        Some(crossing)
    } else {
        Some(next)
    }
}

/// Finds the shortest two ways from statements of a list, at any depth. The first one is left
/// pending.
#[cycle(crossing)]
pub(crate) fn crossing_in(
    pairing: &Pairing<'_>,
    list: &[Stmt],
) -> Result<Option<Crossing>, AllocError>
    requires { ArePaired pairing.now }
    ensures { IfOk result (IsShortestOf pairing.now (λ p. MeetIn p (codes_of list.now))) }
{
    let mut best = None;
    let mut behind = None;
    for place in (0..list.len()).rev() {
        let statement = &list[place];
        let follow = across(pairing, statement, &behind)?;
        let here = crossing_of(pairing, statement)?;
        best = shorter_crossing(follow, shorter_crossing(here, best));
        let way = pairing
            .second
            .way_of(pairing.alloc, pairing.code, false, statement)?;
        behind = shorter(way, behind);
    }
    Ok(best)
}

/// Combines the way that a statement leaves pending with the way from the statements after it.
fn across(
    pairing: &Pairing<'_>,
    statement: &Stmt,
    behind: &Option<Vec<WayStep>>,
) -> Result<Option<Crossing>, AllocError>
    requires { ArePaired pairing.now }
    ensures { IfOk result (λ found. IsLeast both all_covered (IsAcross (program_of pairing.now.code.now)
        statement.now.label (plain_code statement.now.kind)
        (access_of pairing.now.first.now.access) (steps behind.now)) (crossed found)) }
{
    let Some(behind) = behind else {
        return Ok(None);
    };
    let Some(pending) = pairing
        .first
        .way_of(pairing.alloc, pairing.code, true, statement)?
    else {
        return Ok(None);
    };
    let mut later = Vec::new(pairing.alloc);
    later.extend_from_slice(behind)?;
    Ok(Some(Crossing {
        meeting: RunsTogether::Follows,
        pending,
        later,
    }))
}

/// Finds the shortest two ways from a loop, in two of its iterations, or from statements inside a
/// statement.
#[cycle(crossing)]
fn crossing_of(pairing: &Pairing<'_>, statement: &Stmt) -> Result<Option<Crossing>, AllocError>
    requires { ArePaired pairing.now }
    ensures { IfOk result (IsShortestOf pairing.now
        (λ p. MeetAt p statement.now.label (plain_code statement.now.kind))) }
{
    match &statement.kind {
        StmtKind::Do(_) => Ok(None),
        StmtKind::If { body, other, .. } => {
            let one = crossing_in(pairing, body)?;
            let next = crossing_in(pairing, other)?;
            Ok(shorter_crossing(one, next))
        }
        StmtKind::While { body, .. } => {
            let turn = in_turn(pairing, statement)?;
            let inside = crossing_in(pairing, body)?;
            Ok(shorter_crossing(turn, inside))
        }
        StmtKind::Parts { pieces, body } => {
            let turns = in_turns(pairing, statement.label, pieces, body)?;
            let inside = crossing_in(pairing, body)?;
            Ok(shorter_crossing(turns, inside))
        }
        StmtKind::Split { body, .. } | StmtKind::Async { body } | StmtKind::Finish { body } => {
            crossing_in(pairing, body)
        }
        StmtKind::Rescue { body, handler, .. } => {
            let one = crossing_in(pairing, body)?;
            let next = crossing_in(pairing, handler)?;
            Ok(shorter_crossing(one, next))
        }
        StmtKind::Call { .. } => Ok(None),
    }
}

/// Finds the ways from a loop, in two of its iterations.
fn in_turn(pairing: &Pairing<'_>, statement: &Stmt) -> Result<Option<Crossing>, AllocError>
    requires { ArePaired pairing.now }
    ensures { IfOk result (IsShortestOf pairing.now
        (λ p. IsInTurn p statement.now.label (plain_code statement.now.kind))) }
{
    let Some(pending) = pairing
        .first
        .way_of(pairing.alloc, pairing.code, true, statement)?
    else {
        return Ok(None);
    };
    let Some(later) = pairing
        .second
        .way_of(pairing.alloc, pairing.code, false, statement)?
    else {
        return Ok(None);
    };
    Ok(Some(Crossing {
        meeting: RunsTogether::Turns,
        pending,
        later,
    }))
}

/// Finds the ways from a `parts`, in two of its turns. Two accesses to the pieces never meet.
#[tactic(auto, using(crate::proofs::Crossings::apart_in_turns, crate::proofs::Crossings::in_two_turns))]
fn in_turns(
    pairing: &Pairing<'_>,
    label: Label,
    pieces: &Pieces,
    body: &[Stmt],
) -> Result<Option<Crossing>, AllocError>
    requires { ArePaired pairing.now }
    ensures { IfOk result (IsShortestOf pairing.now (λ p. IsInTurns p label
        pieces.now.section.number pieces.now.piece.number (codes_of body.now))) }
{
    let first = pairing.first;
    let second = pairing.second;
    if are_to_pieces(first.access, second.access, pieces.piece) {
        return Ok(None);
    }
    let Some(pending) = way_into(pairing, first, true, label, pieces, body)? else {
        return Ok(None);
    };
    let Some(later) = way_into(pairing, second, false, label, pieces, body)? else {
        return Ok(None);
    };
    Ok(Some(Crossing {
        meeting: RunsTogether::Turns,
        pending,
        later,
    }))
}

/// Returns the shortest way into the block of a `parts`, to an access in the names of the block.
fn way_into(
    pairing: &Pairing<'_>,
    aim: &Aim,
    pending: bool,
    label: Label,
    pieces: &Pieces,
    body: &[Stmt],
) -> Result<Option<Vec<WayStep>>, AllocError>
    requires aim { IsAim (program_of pairing.now.code.now) aim.now }
    ensures { IfOk result (λ found. IsLeast length all_covered (λ way.
        WayInto (program_of pairing.now.code.now) pending label pieces.now.section.number
        pieces.now.piece.number (codes_of body.now) way (access_of aim.now.access)) (steps found)) }
{
    let way = aim.way_in(pairing.alloc, pairing.code, pending, body)?;
    led_on(pairing.alloc, step_into(label, pieces, aim.access), way)
}

/// Returns the step into the block of a `parts`, to an access with this section in the block.
fn step_into(label: Label, pieces: &Pieces, access: Access) -> WayStep
    ensures { result ≡ step_of label Rule.Piece
        (past_parts pieces.now.section.number pieces.now.piece.number access.section.number) }
{
    let outside = around(access, pieces.section, pieces.piece, pieces.piece);
    WayStep {
        label,
        rule: Rule::Piece,
        section: outside.section,
    }
}
