//! The pairs of accesses that may run together.

ghost use Rattle.std.specs.Prelude.{◌≡◌, ◌++◌, IfOk, OnOk, map};
ghost use Rattle.types.specs.Typed.{code_of};
ghost use Rattle.types.specs.Translation.{code as plain_code, codes as codes_of, program};
ghost use Rattle.effects.specs.Effects.{accesses, of_pieces};
ghost use Rattle.effects.specs.Summarized.{AreSummaries, body_of as plain_body_of};
ghost use Rattle.effects.specs.Tables.{all_in, left_by, left_in};
ghost use Rattle.effects.specs.Translation.{access as access_of};
ghost use Rattle.parallel_relation.specs.Listing.{alls_of, pendings_of, is_asked as asks};
ghost use Rattle.parallel_relation.specs.Meetings.{added, added_in, added_inside, crossed, turned};
ghost use Rattle.parallel_relation.specs.Meetings.{met_by_turn as met_by_turn_of, met_by_turns as met_by_turns_of};
ghost use Rattle.parallel_relation.specs.Order.{AreMeetings, meeting_of};
ghost use Rattle.parallel_relation.specs.Together.{Together, AccessesAddedAt};
ghost use Rattle.parallel_relation.specs.Translation.{meeting as plain};

use crate::listing::{ListedAccesses, list_procedures};
use crate::meeting::{Meeting, put_in_order};
use crate::statements::{add_block, add_left, add_left_by, add_own};
use effects::access::Access;
use effects::summaries::Summaries;
use sections::id::SectionId;
use std::alloc::{AllocError, Global};
use types::code::{Label, Program, Stmt, StmtKind};
use types::ids::ProcedureId;
use types::typed::Typed;

/// Returns the pairs of accesses of a procedure that may run together, each once and in order;
/// `main` is numbered after the others.
pub fn meetings(
    alloc: Global,
    typed: &Typed,
    summaries: &Summaries,
    procedure: ProcedureId,
) -> Result<Vec<Meeting>, AllocError>
    requires { ∥ AreSummaries (code_of typed.now) summaries.now ∥₁ }
    ensures { let p = code_of typed.now in IfOk result (λ found.
        AreMeetings (Together p accesses (plain_body_of p procedure.number))
        (map plain found.items)) }
{
    let code = typed.code();
    let lists = list_procedures(alloc, code, summaries)?;
    let mut found = Vec::new(alloc);
    add_meetings(alloc, &lists, None, body_of(code, procedure), &mut found)?;
    put_in_order(&mut found);
    Ok(found)
}

/// Returns the pairs that the statement with this label adds, each once and in order: with what
/// comes after it in its list, and with its own next iteration. Returns no pairs if no statement
/// has this label.
pub fn meetings_at(
    alloc: Global,
    typed: &Typed,
    summaries: &Summaries,
    label: Label,
) -> Result<Vec<Meeting>, AllocError>
    requires { ∥ AreSummaries (code_of typed.now) summaries.now ∥₁ }
    ensures { let p = code_of typed.now in IfOk result (λ found.
        AreMeetings (AccessesAddedAt p label) (map plain found.items)) }
{
    let code = typed.code();
    let lists = list_procedures(alloc, code, summaries)?;
    let mut found = Vec::new(alloc);
    for number in 0..code.procedures.len() {
        let body = body_of(code, ProcedureId { number });
        add_meetings(alloc, &lists, Some(label), body, &mut found)?;
    }
    add_meetings(alloc, &lists, Some(label), &code.main.body, &mut found)?;
    put_in_order(&mut found);
    Ok(found)
}

/// Returns the body of a procedure; `main` is numbered after the others, and larger numbers have an
/// empty body.
fn body_of(code: &Program, procedure: ProcedureId) -> &[Stmt]
    ensures { codes_of result.now ≡ plain_body_of (program code.now) procedure.number }
{
    if procedure.number == code.procedures.len() {
        return &code.main.body;
    }
    match code.procedures.get(procedure.number) {
        Some(procedure) => &procedure.body,
        None => &[],
    }
}

/// Adds the pairs that the statements of a block add: all of them, or those with one label.
#[cycle(meetings)]
fn add_meetings(
    alloc: Global,
    lists: &[ListedAccesses],
    label: Option<Label>,
    block: &[Stmt],
    into: &mut Vec<Meeting>,
) -> Result<(), AllocError>
    ensures { OnOk result (map plain into.new.items ≡ map plain into.old.items ++ map meeting_of
        (added_in accesses (alls_of lists.now) (pendings_of lists.now) (asks label)
        (codes_of block.now))) }
{
    for (place, statement) in block.iter().enumerate() {
        if is_asked(label, statement.label) {
            add_pairs(alloc, lists, statement, &block[place + 1..], into)?;
        }
        add_meetings_inside(alloc, lists, label, &statement.kind, into)?;
    }
    Ok(())
}

/// Adds the pairs that the statements inside a statement add.
#[cycle(meetings)]
fn add_meetings_inside(
    alloc: Global,
    lists: &[ListedAccesses],
    label: Option<Label>,
    kind: &StmtKind,
    into: &mut Vec<Meeting>,
) -> Result<(), AllocError>
    ensures { OnOk result (map plain into.new.items ≡ map plain into.old.items ++ map meeting_of
        (added_inside accesses (alls_of lists.now) (pendings_of lists.now) (asks label)
        (plain_code kind.now))) }
{
    match kind {
        StmtKind::Do(_) | StmtKind::Call { .. } => Ok(()),
        StmtKind::If { body, other, .. } => {
            add_meetings(alloc, lists, label, body, into)?;
            add_meetings(alloc, lists, label, other, into)
        }
        StmtKind::Rescue { body, handler, .. } => {
            add_meetings(alloc, lists, label, body, into)?;
            add_meetings(alloc, lists, label, handler, into)
        }
        StmtKind::While { body, .. }
        | StmtKind::Split { body, .. }
        | StmtKind::Parts { body, .. }
        | StmtKind::Async { body }
        | StmtKind::Finish { body } => add_meetings(alloc, lists, label, body, into),
    }
}

/// Returns whether the pairs of a label are requested: if no label is named, all are.
fn is_asked(asked: Option<Label>, label: Label) -> bool
    ensures { result ≡ asks asked label }
{
    match asked {
        None => true,
        Some(one) => one == label,
    }
}

/// Adds the pairs that a statement in front of the rest of its list adds.
fn add_pairs(
    alloc: Global,
    lists: &[ListedAccesses],
    statement: &Stmt,
    rest: &[Stmt],
    into: &mut Vec<Meeting>,
) -> Result<(), AllocError>
    ensures { OnOk result (map plain into.new.items ≡ map plain into.old.items ++ map meeting_of
        (added accesses (alls_of lists.now) (pendings_of lists.now) statement.now.label
        (plain_code statement.now.kind) (codes_of rest.now))) }
{
    let mut left = Vec::new(alloc);
    add_left_by(alloc, lists, &statement.kind, &mut left)?;
    if left.is_empty() {
        return Ok(());
    }
    let mut later = Vec::new(alloc);
    add_block(alloc, lists, rest, &mut later)?;
    add_crossed(&left, &later, into)?;
    add_turned(alloc, lists, statement, &left, into)
}

/// Adds the pairs of a loop with its next iteration, and of a `parts` with its later turns.
fn add_turned(
    alloc: Global,
    lists: &[ListedAccesses],
    statement: &Stmt,
    left: &[Access],
    into: &mut Vec<Meeting>,
) -> Result<(), AllocError>
    requires { map access_of left.now
        ≡ left_by accesses (alls_of lists.now) (pendings_of lists.now) (plain_code statement.now.kind) }
    ensures { OnOk result (map plain into.new.items ≡ map plain into.old.items ++ map meeting_of
        (turned accesses (alls_of lists.now) (pendings_of lists.now) statement.now.label
        (plain_code statement.now.kind))) }
{
    match &statement.kind {
        StmtKind::Do(_) => Ok(()),
        StmtKind::If { .. } => Ok(()),
        StmtKind::While { body, .. } => {
            let mut turn = Vec::new(alloc);
            add_own(alloc, statement.label, &statement.kind, &mut turn)?;
            add_block(alloc, lists, body, &mut turn)?;
            add_crossed(left, &turn, into)
        }
        StmtKind::Split { .. } => Ok(()),
        StmtKind::Parts { pieces, body } => add_of_pieces(alloc, lists, pieces.piece, body, into),
        StmtKind::Call { .. } => Ok(()),
        StmtKind::Async { .. } => Ok(()),
        StmtKind::Finish { .. } => Ok(()),
        StmtKind::Rescue { .. } => Ok(()),
    }
}

/// Adds the pairs of two turns of a `parts`: what one leaves pending with all that a later one does,
/// without the pairs of which both accesses are to the pieces.
fn add_of_pieces(
    alloc: Global,
    lists: &[ListedAccesses],
    piece: SectionId,
    body: &[Stmt],
    into: &mut Vec<Meeting>,
) -> Result<(), AllocError>
    ensures { OnOk result (map plain into.new.items ≡ map plain into.old.items ++ map meeting_of
        (met_by_turns_of accesses piece.number
        (left_in accesses (alls_of lists.now) (pendings_of lists.now) (codes_of body.now))
        (all_in accesses (alls_of lists.now) (codes_of body.now)))) }
{
    let mut left = Vec::new(alloc);
    add_left(alloc, lists, body, &mut left)?;
    let mut turn = Vec::new(alloc);
    add_block(alloc, lists, body, &mut turn)?;
    for first in &left {
        add_unless_apart(*first, &turn, piece, into)?;
    }
    Ok(())
}

/// Adds an access paired with each of these, unless both are to the piece.
fn add_unless_apart(
    first: Access,
    seconds: &[Access],
    piece: SectionId,
    into: &mut Vec<Meeting>,
) -> Result<(), AllocError>
    ensures { OnOk result (map plain into.new.items ≡ map plain into.old.items ++ map meeting_of
        (met_by_turn_of accesses piece.number (access_of first) (map access_of seconds.now))) }
{
    for second in seconds {
        if !are_to_pieces(first, *second, piece) {
            into.push(Meeting::of(first, *second))?;
        }
    }
    Ok(())
}

/// Returns whether both accesses are to the piece of a `parts`, so that in two turns they share no
/// place.
pub fn are_to_pieces(first: Access, second: Access, piece: SectionId) -> bool
    ensures { result ≡ of_pieces piece.number (access_of first) (access_of second) }
{
    first.section.number == piece.number && second.section.number == piece.number
}

/// Adds each of the first accesses paired with each of the second.
fn add_crossed(
    firsts: &[Access],
    seconds: &[Access],
    into: &mut Vec<Meeting>,
) -> Result<(), AllocError>
    ensures { OnOk result (map plain into.new.items ≡ map plain into.old.items ++ map meeting_of
        (crossed (map access_of firsts.now) (map access_of seconds.now))) }
{
    for first in firsts {
        add_each(*first, seconds, into)?;
    }
    Ok(())
}

/// Adds an access paired with each of these.
fn add_each(first: Access, seconds: &[Access], into: &mut Vec<Meeting>) -> Result<(), AllocError>
    ensures { OnOk result (map plain into.new.items ≡ map plain into.old.items ++ map meeting_of
        (map (λ y. (access_of first, y)) (map access_of seconds.now))) }
{
    for second in seconds {
        into.push(Meeting::of(first, *second))?;
    }
    Ok(())
}
