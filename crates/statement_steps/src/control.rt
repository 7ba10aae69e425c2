//! The statements that lead to other statements: conditions, loops, `split`, `parts` and calls. Each
//! takes its step and says what comes next; a machine keeps that as its frames.

ghost use Rattle.std.specs.Prelude.{◌≡◌, ℕ, IfOk, map};
ghost use Rattle.sections.specs.Translation.{section as section_of};
ghost use Rattle.types.specs.Code.{Call, If, Parts, Split, While};
ghost use Rattle.types.specs.Run.{procedure_of as numbered};
ghost use Rattle.types.specs.Translation.{codes as codes_of, number as number_of, program as program_of};
ghost use Rattle.types.specs.Translation.{truth as truth_of};
ghost use Rattle.statement_steps.specs.Leading.{faulted, led, Leads};
ghost use Rattle.statement_steps.specs.Standing.{state_by};

use crate::memory::Memory;
use crate::next::Next;
use crate::thread::{Plan, Thread};
use sections::id::SectionId;
use std::alloc::AllocError;
use types::code::{Label, Number, Pieces, Procedure, Sides, Stmt, Truth};
use types::fault::FaultKind;
use types::ids::ProcedureId;
use types::value::Environment;

/// A call: the procedure with its body, and the arguments.
#[derive(Clone, Copy)]
pub struct Called<'p> {
    pub procedure: &'p Procedure,
    pub body: &'p [Stmt],
    pub values: &'p [Number],
    pub sections: &'p [SectionId],
}

impl<'p> Called<'p> {
    /// Returns the call of the procedure with a number. A missing procedure does nothing.
    pub fn of(
        plan: Plan<'p>,
        procedure: ProcedureId,
        values: &'p [Number],
        sections: &'p [SectionId],
    ) -> Called<'p>
        ensures body { codes_of result.body.now
            ≡ (numbered (program_of plan.entry.program.now) procedure.number).body }
        ensures values { result.values ≡ values.entry }
        ensures sections { result.sections ≡ sections.entry }
    {
        let (procedure, body) = procedure_of(plan, procedure);
        Called {
            procedure,
            body,
            values,
            sections,
        }
    }
}

impl<S: Memory> Thread<S> {
    /// Evaluates a condition. One of the two blocks comes next.
    pub fn choose<'p>(
        &mut self,
        plan: Plan<'_>,
        label: Label,
        guard: &Truth,
        body: &'p [Stmt],
        other: &'p [Stmt],
    ) -> Result<Next<'p>, AllocError>
        ensures { IfOk result (λ n. Leads S.contents S.shape
            (led (program_of plan.entry.program.now) label (If (truth_of guard.now)
            (codes_of body.entry.now) (codes_of other.entry.now)) (state_by S.contents self.old))
            n self.old self.new) }
    {
        match self.truth(guard) {
            Err(kind) => self.fails(plan, label, kind),
            Ok(true) => Ok(Next::Block(body)),
            Ok(false) => Ok(Next::Block(other)),
        }
    }

    /// Evaluates the condition of a loop. If it is true, the body comes next, and then the next
    /// iteration.
    pub fn turn_loop<'p>(
        &mut self,
        plan: Plan<'_>,
        label: Label,
        guard: &'p Truth,
        body: &'p [Stmt],
    ) -> Result<Next<'p>, AllocError>
        ensures { IfOk result (λ n. Leads S.contents S.shape
            (led (program_of plan.entry.program.now) label (While (truth_of guard.entry.now)
            (codes_of body.entry.now)) (state_by S.contents self.old)) n self.old self.new) }
    {
        match self.truth(guard) {
            Err(kind) => self.fails(plan, label, kind),
            Ok(false) => Ok(Next::Nothing),
            Ok(true) => Ok(Next::Iteration { label, guard, body }),
        }
    }

    /// Names both sides of a section. The block comes next.
    pub fn split<'p>(
        &mut self,
        plan: Plan<'_>,
        label: Label,
        sides: &Sides,
        body: &'p [Stmt],
    ) -> Result<Next<'p>, AllocError>
        ensures { IfOk result (λ n. Leads S.contents S.shape
            (led (program_of plan.entry.program.now) label (Split sides.now.section.number
            (number_of sides.now.at) sides.now.left.number sides.now.right.number
            (codes_of body.entry.now)) (state_by S.contents self.old)) n self.old self.new) }
    {
        match self.sides(sides.section, &sides.at) {
            Err(kind) => self.fails(plan, label, kind),
            Ok((left, right)) => {
                self.environment.name_window(sides.right, right)?;
                self.environment.name_window(sides.left, left)?;
                Ok(Next::Block(body))
            }
        }
    }

    /// Evaluates the size of the pieces of a `parts`. Its turns come next.
    pub fn begin_turns<'p>(
        &mut self,
        plan: Plan<'_>,
        label: Label,
        pieces: &Pieces,
        body: &'p [Stmt],
    ) -> Result<Next<'p>, AllocError>
        ensures { IfOk result (λ n. Leads S.contents S.shape
            (led (program_of plan.entry.program.now) label (Parts pieces.now.section.number
            (number_of pieces.now.size) pieces.now.piece.number pieces.now.turn.number
            (codes_of body.entry.now)) (state_by S.contents self.old)) n self.old self.new) }
    {
        match self.turns_of(label, pieces, body) {
            Err(kind) => self.fails(plan, label, kind),
            Ok(turns) => Ok(Next::Turns(turns)),
        }
    }

    /// Evaluates the arguments of a call from left to right, and enters the procedure's environment,
    /// which is made in `room`. The procedure's body comes next, and then the caller's environment
    /// comes back.
    pub fn call<'p>(
        &mut self,
        plan: Plan<'_>,
        label: Label,
        called: Called<'p>,
        room: Environment,
    ) -> Result<Next<'p>, AllocError>
        ensures { IfOk result (λ n. (f : ℕ)
            → codes_of called.entry.body.now ≡ (numbered (program_of plan.entry.program.now) f).body
            → Leads S.contents S.shape (led (program_of plan.entry.program.now) label
            (Call f (map number_of called.entry.values.now) (map section_of called.entry.sections.now))
            (state_by S.contents self.old)) n self.old self.new) }
    {
        let Environment { scalars, windows } = room;
        let values = match self.numbers(scalars, called.values)? {
            Err(kind) => return self.fails(plan, label, kind),
            Ok(values) => values,
        };
        let entry = self.entry(called.procedure, values, windows, called.sections)?;
        let caller = std::mem::replace(&mut self.environment, entry);
        Ok(Next::Body {
            body: called.body,
            caller,
        })
    }

    /// Records a fault of the task. Nothing comes next.
    fn fails<'p>(
        &mut self,
        plan: Plan<'_>,
        label: Label,
        kind: FaultKind,
    ) -> Result<Next<'p>, AllocError>
        ensures { IfOk result (λ n. Leads S.contents S.shape
            (faulted label kind (state_by S.contents self.old)) n self.old self.new) }
    {
        self.fault(plan, label, kind)?;
        Ok(Next::Nothing)
    }
}

/// Returns the procedure with this number and its body. A missing procedure does nothing.
fn procedure_of<'p>(plan: Plan<'p>, procedure: ProcedureId) -> (&'p Procedure, &'p [Stmt])
    ensures { codes_of result.1.now
        ≡ (numbered (program_of plan.entry.program.now) procedure.number).body }
{
    match plan.program.procedures.get(procedure.number) {
        Some(procedure) => (procedure, &procedure.body),
        None => (&plan.program.main, &[]),
    }
}
