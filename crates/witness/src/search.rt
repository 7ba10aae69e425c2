//! The shortest way from statements to an access.

ghost use Rattle.std.specs.Prelude.{◌≡◌, ◌↔◌, if◌then◌else◌, false, length, map};
ghost use Rattle.std.specs.Prelude.{IfOk, IfSome, IsTrue, MatchOption, None, Some};
ghost use Rattle.sections.specs.Translation.{section as section_of};
ghost use Rattle.types.specs.Translation.{code as plain_code, codes as codes_of, program as program_of};
ghost use Rattle.effects.specs.Effects.{past_split};
ghost use Rattle.effects.specs.Translation.{access as access_of};
ghost use Rattle.witness.specs.Known.{AreWays, IsFound, steps};
ghost use Rattle.witness.specs.Least.{IsLeast, all_covered};
ghost use Rattle.witness.specs.Searched.{GoesIn, GoesOn, IsFromParameter, IsInside, IsLed, IsOwn};
ghost use Rattle.witness.specs.Ways.{Way, WayOf, step as step_of};

use crate::known::{Entry, Known};
use crate::own::makes;
use crate::step::{Rule, WayStep, led_on, shorter};
use effects::access::Access;
use effects::firsts::around;
use sections::id::SectionId;
use std::alloc::{AllocError, Global};
use types::code::{Program, Stmt, StmtKind};
use types::ids::ProcedureId;

/// What a way must lead to: an access that is done, or one that is left pending.
#[derive(Clone, Copy)]
pub(crate) struct Sought {
    pub access: Access,
    pub pending: bool,
}

impl Sought {
    /// Returns the step at a statement.
    fn step(self, statement: &Stmt, rule: Rule) -> WayStep
        ensures { result ≡ step_of statement.now.label rule self.access.section.number }
    {
        WayStep {
            label: statement.label,
            rule,
            section: self.access.section,
        }
    }

    /// Returns the step into a call.
    fn entering(self, statement: &Stmt, procedure: ProcedureId) -> WayStep
        ensures { result ≡ step_of statement.now.label (Rule.Enter procedure)
            self.access.section.number }
    {
        self.step(statement, Rule::Enter { procedure })
    }

    /// Returns the same access as one that is done.
    fn done(self) -> Sought
        ensures { result ≡ record self { pending = false } }
    {
        Sought {
            access: self.access,
            pending: false,
        }
    }

    /// Returns what is sought inside a `finish`, or `None` if the access must be left pending.
    fn awaited(self) -> Option<Sought>
        ensures { result ≡ (if self.pending then None else Some self) }
    {
        if self.pending {
            return None;
        }
        Some(self)
    }

    /// Returns whether a statement's own expressions make the access.
    fn is_own(self, alloc: Global, statement: &Stmt) -> Result<bool, AllocError>
        ensures { IfOk result (λ own. IsTrue own ↔ IsOwn self.pending statement.now.label
            (plain_code statement.now.kind) (access_of self.access)) }
    {
        if self.pending {
            return Ok(false);
        }
        makes(alloc, statement, self.access)
    }

    /// Returns what is sought inside a split, if this section there has the sought name outside.
    /// Else returns `None`.
    fn inside(
        self,
        section: SectionId,
        left: SectionId,
        right: SectionId,
        inner: SectionId,
    ) -> Option<Sought>
        ensures { MatchOption result
            (past_split section.number left.number right.number inner.number
            ≡ self.access.section.number → ⊥)
            (IsInside self section.number left.number right.number inner) }
    {
        let access = Access {
            section: inner,
            ..self.access
        };
        if around(access, section, left, right).section.number != self.access.section.number {
            return None;
        }
        Some(Sought {
            access,
            pending: self.pending,
        })
    }
}

/// Returns the shortest way from a list of statements, given the known ways of procedures.
#[cycle(search)]
pub(crate) fn way_in(
    alloc: Global,
    code: &Program,
    known: &Known,
    sought: Sought,
    list: &[Stmt],
) -> Result<Option<Vec<WayStep>>, AllocError>
    requires ways { AreWays (program_of code.now) (access_of sought.access) known.now }
    ensures { IfOk result (IsFound (program_of code.now) (access_of sought.access) known.now
        (λ way. Way (program_of code.now) sought.pending (codes_of list.now) way
        (access_of sought.access))) }
{
    let mut best = None;
    for place in (0..list.len()).rev() {
        let way = way_of(alloc, code, known, sought, &list[place])?;
        best = shorter(way, best);
    }
    Ok(best)
}

/// Returns the shortest way from a statement.
#[cycle(search)]
pub(crate) fn way_of(
    alloc: Global,
    code: &Program,
    known: &Known,
    sought: Sought,
    statement: &Stmt,
) -> Result<Option<Vec<WayStep>>, AllocError>
    requires ways { AreWays (program_of code.now) (access_of sought.access) known.now }
    ensures { IfOk result (IsFound (program_of code.now) (access_of sought.access) known.now
        (λ way. WayOf (program_of code.now) sought.pending statement.now.label
        (plain_code statement.now.kind) way (access_of sought.access))) }
{
    if sought.is_own(alloc, statement)? {
        let mut way = Vec::new(alloc);
        way.push(sought.step(statement, Rule::Own))?;
        return Ok(Some(way));
    }
    way_inside(alloc, code, known, sought, statement)
}

/// Returns the shortest way from a statement into its blocks and its call.
#[cycle(search)]
fn way_inside(
    alloc: Global,
    code: &Program,
    known: &Known,
    sought: Sought,
    statement: &Stmt,
) -> Result<Option<Vec<WayStep>>, AllocError>
    requires ways { AreWays (program_of code.now) (access_of sought.access) known.now }
    ensures { IfOk result (IsFound (program_of code.now) (access_of sought.access) known.now
        (GoesOn (program_of code.now) sought.pending statement.now.label
        (plain_code statement.now.kind) (access_of sought.access))) }
{
    match &statement.kind {
        StmtKind::Do(_) => Ok(None),
        StmtKind::If { body, other, .. } => {
            let step = sought.step(statement, Rule::Body);
            let way = way_behind(alloc, code, known, Some(sought), step, body)?;
            let step = sought.step(statement, Rule::Other);
            let next = way_behind(alloc, code, known, Some(sought), step, other)?;
            Ok(shorter(way, next))
        }
        StmtKind::While { body, .. } => {
            let step = sought.step(statement, Rule::Turn);
            way_behind(alloc, code, known, Some(sought), step, body)
        }
        StmtKind::Split { sides, body } => {
            let step = sought.step(statement, Rule::Side);
            let aim = sought.inside(sides.section, sides.left, sides.right, sides.left);
            let by_left = way_behind(alloc, code, known, aim, step, body)?;
            let aim = sought.inside(sides.section, sides.left, sides.right, sides.right);
            let by_right = way_behind(alloc, code, known, aim, step, body)?;
            let itself = sought.access.section;
            let aim = sought.inside(sides.section, sides.left, sides.right, itself);
            let by_itself = way_behind(alloc, code, known, aim, step, body)?;
            Ok(shorter(by_left, shorter(by_right, by_itself)))
        }
        StmtKind::Parts { pieces, body } => {
            let step = sought.step(statement, Rule::Piece);
            let aim = sought.inside(pieces.section, pieces.piece, pieces.piece, pieces.piece);
            let by_piece = way_behind(alloc, code, known, aim, step, body)?;
            let itself = sought.access.section;
            let aim = sought.inside(pieces.section, pieces.piece, pieces.piece, itself);
            let by_itself = way_behind(alloc, code, known, aim, step, body)?;
            Ok(shorter(by_piece, by_itself))
        }
        StmtKind::Call {
            procedure,
            sections,
            ..
        } => {
            let step = sought.entering(statement, *procedure);
            way_past_call(alloc, known, sought, step, *procedure, sections)
        }
        StmtKind::Async { body } => {
            let step = sought.step(statement, Rule::Begin);
            way_behind(alloc, code, known, Some(sought.done()), step, body)
        }
        StmtKind::Finish { body } => {
            let step = sought.step(statement, Rule::Await);
            way_behind(alloc, code, known, sought.awaited(), step, body)
        }
        StmtKind::Rescue { body, handler, .. } => {
            let step = sought.step(statement, Rule::Await);
            let way = way_behind(alloc, code, known, sought.awaited(), step, body)?;
            let step = sought.step(statement, Rule::Handler);
            let next = way_behind(alloc, code, known, Some(sought), step, handler)?;
            Ok(shorter(way, next))
        }
    }
}

/// Returns a step followed by the shortest way from a list of statements, or `None` if nothing is
/// sought there.
#[cycle(search)]
fn way_behind(
    alloc: Global,
    code: &Program,
    known: &Known,
    sought: Option<Sought>,
    step: WayStep,
    list: &[Stmt],
) -> Result<Option<Vec<WayStep>>, AllocError>
    requires ways { IfSome sought (λ sought.
        AreWays (program_of code.now) (access_of sought.access) known.now) }
    ensures { IfOk result (λ found. MatchOption sought (steps found ≡ None) (λ sought.
        IsFound (program_of code.now) (access_of sought.access) known.now
        (IsLed step (λ way. Way (program_of code.now) sought.pending (codes_of list.now) way
        (access_of sought.access))) found)) }
{
    let Some(sought) = sought else {
        return Ok(None);
    };
    let way = way_in(alloc, code, known, sought, list)?;
    led_on(alloc, step, way)
}

/// Returns a step followed by the shortest known way of a procedure to which these sections are
/// passed.
fn way_past_call(
    alloc: Global,
    known: &Known,
    sought: Sought,
    step: WayStep,
    procedure: ProcedureId,
    sections: &[SectionId],
) -> Result<Option<Vec<WayStep>>, AllocError>
    ensures { IfOk result (λ found. IsLeast length all_covered
        (GoesIn known.now sought.pending procedure.number (map section_of sections.now)
        sought.access.section.number step) (steps found)) }
{
    let mut best = None;
    for number in 0..sections.len() {
        let entry = Entry {
            procedure,
            parameter: SectionId { number },
            pending: sought.pending,
        };
        let way = way_from(alloc, known, sought, step, entry, sections[number])?;
        best = shorter(best, way);
    }
    Ok(best)
}

/// Does the same for one parameter, for which this section is passed.
fn way_from(
    alloc: Global,
    known: &Known,
    sought: Sought,
    step: WayStep,
    entry: Entry,
    passed: SectionId,
) -> Result<Option<Vec<WayStep>>, AllocError>
    ensures { IfOk result (λ found. IsLeast length all_covered (IsFromParameter known.now entry
        (passed.number ≡ sought.access.section.number) step) (steps found)) }
{
    if passed.number != sought.access.section.number {
        return Ok(None);
    }
    known.led_from(alloc, step, entry)
}
