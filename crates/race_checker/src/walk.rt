//! What statements do and leave pending, and which of them clash, in one pass over a procedure.

ghost use Rattle.std.specs.Prelude.{◌≡◌, ◌≤◌, length, map, IfOk, None};
ghost use Rattle.std.specs.List.{AllZip};
ghost use Rattle.rayon.specs.Lists.{chunks_of};
ghost use denote.Param.Send.{IsSync};
ghost use Rattle.sections.specs.Translation.{section as section_of};
ghost use Rattle.types.specs.Translation.{code as plain_code, codes as codes_of, procedure as procedure_as};
ghost use Rattle.types.specs.Translation.{program as program_as};
ghost use Rattle.effects.specs.Sound.{IsSound};
ghost use Rattle.effects.specs.Summarized.{AreSummaries};
ghost use Rattle.types.specs.Run.{procedure_of as plain_procedure_of};
ghost use Rattle.types.specs.Sound.{passed_for};
ghost use Rattle.effects.specs.Effects.{accesses, All, Pending};
ghost use Rattle.effects.specs.Firsts.{AreFirsts, kept_in};
ghost use Rattle.effects.specs.Rows.{Renamed};
ghost use Rattle.race_checker.specs.Found.{Stands, StandsOf, IsFoundIn, IsFoundOf};
ghost use Rattle.race_checker.specs.Translation.{found as race_found};
ghost use Rattle.race_checker.specs.Races.{numbered};

use crate::found::Found;
use effects::firsts::Firsts;
use effects::own::own_accesses;
use effects::summaries::Summaries;
use rayon::prelude::*;
use sections::id::SectionId;
use std::alloc::{AllocError, Global};
use std::thread::Threads;
use types::code::{Procedure, Program, Stmt, StmtKind};
use types::ids::ProcedureId;

/// Returns the procedure with this number; `main` is numbered after the others.
pub(crate) fn procedure_of(program: &Program, procedure: ProcedureId) -> &Procedure
    requires { procedure.number ≤ length program.now.procedures.items }
    ensures { procedure_as result.now ≡ numbered (program_as program.now) procedure.number }
{
    match program.procedures.get(procedure.number) {
        Some(procedure) => procedure,
        None => &program.main,
    }
}

/// The number of statements of a list that form one piece. One thread handles a piece.
const PIECE: usize = 256;

/// Returns what is found of a list of statements. Its pieces are walked separately, and the results
/// are combined from the last piece to the first.
#[cycle(walk)]
pub(crate) fn found_in<R: Threads + Sync>(
    rt: &R,
    alloc: Global,
    code: &Program,
    summaries: &Summaries,
    procedure: ProcedureId,
    body: &[Stmt],
) -> Result<Found, AllocError>
    requires sound { IsSound (program_as code.now) }
    requires summaries { AreSummaries (program_as code.now) summaries.now }
    requires procedure { procedure.number ≤ length (program_as code.now).procedures }
    requires stands { Stands (program_as code.now)
        (numbered (program_as code.now) procedure.number).sections (codes_of body.now) }
    ensures { IfOk result (IsFoundIn (program_as code.now)
        (numbered (program_as code.now) procedure.number).sections procedure.number
        (codes_of body.now)) }
{
    if body.len() < 2 * PIECE {
        return found_in_piece(rt, alloc, code, summaries, procedure, body);
    }
    found_in_pieces(rt, alloc, code, summaries, procedure, body)
}

/// Returns what is found of a long list of statements. It isn't inlined, so that the frames of short
/// lists inside one another are small.
#[cycle(walk)]
#[inline(never)]
fn found_in_pieces<R: Threads + Sync>(
    rt: &R,
    alloc: Global,
    code: &Program,
    summaries: &Summaries,
    procedure: ProcedureId,
    body: &[Stmt],
) -> Result<Found, AllocError>
    requires sound { IsSound (program_as code.now) }
    requires summaries { AreSummaries (program_as code.now) summaries.now }
    requires procedure { procedure.number ≤ length (program_as code.now).procedures }
    requires stands { Stands (program_as code.now)
        (numbered (program_as code.now) procedure.number).sections (codes_of body.now) }
    requires long { 512 ≤ length body.now }
    ensures { IfOk result (IsFoundIn (program_as code.now)
        (numbered (program_as code.now) procedure.number).sections procedure.number
        (codes_of body.now)) }
{
    let pieces = body
        .par_chunks(PIECE)
        .with_min_len(1)
        .map(
            |piece: &[Stmt]| -> Result<Found, AllocError>
                requires shared { IsSync R.row }
                requires sound { IsSound (program_as code.now) }
                requires summaries { AreSummaries (program_as code.now) summaries.now }
                requires procedure { procedure.number ≤ length (program_as code.now).procedures }
                requires stands { Stands (program_as code.now)
                    (numbered (program_as code.now) procedure.number).sections
                    (codes_of piece.now) }
                ensures { IfOk result (IsFoundIn (program_as code.entry.now)
                    (numbered (program_as code.entry.now) procedure.number).sections
                    procedure.number (codes_of piece.now)) }
            { found_in_piece(rt, alloc, code, summaries, procedure, piece) },
        )
        .collect::<Result<Vec<Found>, AllocError>>(rt, alloc)??;
    joined(alloc, code, procedure, body, pieces)
}

/// Returns what is found of a piece of a list, walked from its end to its start.
#[cycle(walk)]
fn found_in_piece<R: Threads + Sync>(
    rt: &R,
    alloc: Global,
    code: &Program,
    summaries: &Summaries,
    procedure: ProcedureId,
    piece: &[Stmt],
) -> Result<Found, AllocError>
    requires sound { IsSound (program_as code.now) }
    requires summaries { AreSummaries (program_as code.now) summaries.now }
    requires procedure { procedure.number ≤ length (program_as code.now).procedures }
    requires stands { Stands (program_as code.now)
        (numbered (program_as code.now) procedure.number).sections (codes_of piece.now) }
    ensures { IfOk result (IsFoundIn (program_as code.now)
        (numbered (program_as code.now) procedure.number).sections procedure.number
        (codes_of piece.now)) }
{
    let sections = &procedure_of(code, procedure).sections;
    let mut found = Found::nothing(alloc);
    for place in (0..piece.len()).rev() {
        let here = found_of(rt, alloc, code, summaries, procedure, &piece[place])?;
        found = found.with_first(sections, procedure, here)?;
    }
    Ok(found)
}

/// Returns what is found of a list of statements, from what is found of its pieces.
fn joined(
    alloc: Global,
    code: &Program,
    procedure: ProcedureId,
    body: &[Stmt],
    pieces: Vec<Found>,
) -> Result<Found, AllocError>
    requires sound { IsSound (program_as code.now) }
    requires procedure { procedure.number ≤ length (program_as code.now).procedures }
    requires stands { Stands (program_as code.now)
        (numbered (program_as code.now) procedure.number).sections (codes_of body.now) }
    requires pieces { AllZip (λ piece found. IsFoundIn (program_as code.now)
        (numbered (program_as code.now) procedure.number).sections procedure.number
        (codes_of piece) found) (chunks_of 256 body.now) pieces.items }
    ensures { IfOk result (IsFoundIn (program_as code.now)
        (numbered (program_as code.now) procedure.number).sections procedure.number
        (codes_of body.now)) }
{
    let sections = &procedure_of(code, procedure).sections;
    let mut found = Found::nothing(alloc);
    for piece in pieces {
        found = piece.with_first(sections, procedure, found)?;
    }
    Ok(found)
}

/// Returns what is found of a statement.
#[cycle(walk)]
fn found_of<R: Threads + Sync>(
    rt: &R,
    alloc: Global,
    code: &Program,
    summaries: &Summaries,
    procedure: ProcedureId,
    statement: &Stmt,
) -> Result<Found, AllocError>
    requires sound { IsSound (program_as code.now) }
    requires summaries { AreSummaries (program_as code.now) summaries.now }
    requires procedure { procedure.number ≤ length (program_as code.now).procedures }
    requires stands { StandsOf (program_as code.now)
        (numbered (program_as code.now) procedure.number).sections
        statement.now.label (plain_code statement.now.kind) }
    ensures { IfOk result (IsFoundOf (program_as code.now)
        (numbered (program_as code.now) procedure.number).sections procedure.number
        statement.now.label (plain_code statement.now.kind)) }
{
    let own = own_accesses(alloc, statement.label, &statement.kind)?;
    match &statement.kind {
        StmtKind::Do(_) => Found::nothing(alloc).with_own(&own),
        StmtKind::If { body, other, .. } => {
            let body = found_in(rt, alloc, code, summaries, procedure, body)?;
            let other = found_in(rt, alloc, code, summaries, procedure, other)?;
            body.or(other)?.with_own(&own)
        }
        StmtKind::While { body, .. } => {
            let turn = found_in(rt, alloc, code, summaries, procedure, body)?.with_own(&own)?;
            Ok(turn.in_turn(&procedure_of(code, procedure).sections, procedure))
        }
        StmtKind::Split { sides, body } => {
            let found = found_in(rt, alloc, code, summaries, procedure, body)?;
            let outside = found.past_split(alloc, sides.section, sides.left, sides.right)?;
            outside.with_own(&own)
        }
        StmtKind::Parts { pieces, body } => {
            let turn = found_in(rt, alloc, code, summaries, procedure, body)?;
            let sections = &procedure_of(code, procedure).sections;
            let found = turn.in_turns(alloc, sections, procedure, pieces.piece)?;
            let outside = found.past_parts(alloc, pieces.section, pieces.piece)?;
            outside.with_own(&own)
        }
        StmtKind::Call {
            procedure: callee,
            sections,
            ..
        } => {
            let found = found_of_call(alloc, code, summaries, *callee, sections)?;
            found.with_own(&own)
        }
        StmtKind::Async { body } => {
            let found = found_in(rt, alloc, code, summaries, procedure, body)?;
            found.in_async(alloc)?.with_own(&own)
        }
        StmtKind::Finish { body } => {
            let found = found_in(rt, alloc, code, summaries, procedure, body)?;
            found.in_finish(alloc).with_own(&own)
        }
        StmtKind::Rescue { body, handler, .. } => {
            let body = found_in(rt, alloc, code, summaries, procedure, body)?;
            let handler = found_in(rt, alloc, code, summaries, procedure, handler)?;
            body.in_finish(alloc).or(handler)?.with_own(&own)
        }
    }
}

/// Returns what is found of a call: what its procedure does and leaves pending, in the names around
/// the call. Clashes inside the procedure are found in that procedure.
fn found_of_call(
    alloc: Global,
    code: &Program,
    summaries: &Summaries,
    callee: ProcedureId,
    sections: &[SectionId],
) -> Result<Found, AllocError>
    requires sound { IsSound (program_as code.now) }
    requires summaries { AreSummaries (program_as code.now) summaries.now }
    requires number { length sections.now
        ≡ length (plain_procedure_of (program_as code.now) callee.number).parameters }
    ensures all { IfOk result (λ found. AreFirsts
        (Renamed (program_as code.now) accesses (passed_for (map section_of sections.now))
        (All (program_as code.now) accesses
        (plain_procedure_of (program_as code.now) callee.number).body))
        (kept_in found.all)) }
    ensures pending { IfOk result (λ found. AreFirsts
        (Renamed (program_as code.now) accesses (passed_for (map section_of sections.now))
        (Pending (program_as code.now) accesses
        (plain_procedure_of (program_as code.now) callee.number).body))
        (kept_in found.pending)) }
    ensures race { IfOk result (λ found. race_found found.race ≡ None) }
{
    // Typed programs call only procedures that exist.
    if callee.number >= code.procedures.len() {
        return Ok(Found::nothing(alloc));
    }
    let summary = summaries.of(callee);
    Ok(Found {
        all: Firsts::past_call(alloc, &summary.all, sections)?,
        pending: Firsts::past_call(alloc, &summary.pending, sections)?,
        race: None,
    })
}
