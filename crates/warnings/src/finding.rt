//! The warnings of a program, in the order of the text.

ghost use Rattle.std.specs.Prelude.{◌≡◌, ◌<◌, ◌+◌, ◌-◌, ◌++◌, ◌^◌, false, map, slice_get, IfOk, OnOk};
ghost use Rattle.syntax_tree.specs.Tree.{parameter as parameter_of};
ghost use Rattle.types.specs.Translation.{code as plain_code, codes as codes_of, number as number_of};
ghost use Rattle.types.specs.Translation.{primitive as primitive_of, procedure as procedure_of};
ghost use Rattle.types.specs.Translation.{program as program_in};
ghost use Rattle.types.specs.Typed.{code_of, program_of};
ghost use Rattle.warnings.specs.Scopes.{HasRoots};
ghost use Rattle.warnings.specs.Warnings.{block_warnings, called_by, cannot_hold as holds_none};
ghost use Rattle.warnings.specs.Warnings.{finish_warnings, inner_warnings, is_called as calls};
ghost use Rattle.warnings.specs.Warnings.{is_positive as positive, own_warnings, parameter_warnings};
ghost use Rattle.warnings.specs.Warnings.{parameters_in};
ghost use Rattle.warnings.specs.Warnings.{procedure_warnings, program_warnings, scalars_after};
ghost use Rattle.warnings.specs.Warnings.{section_cannot_hold, sections_after, step_warnings};
ghost use Rattle.warnings.specs.Warnings.{thing_of as thing_in, unused, warn_if, warnings_from};

use crate::ends::{block_may_leave, is_always, is_lone_task, is_never, stops};
use crate::uses::{Thing, block_uses};
use crate::warning::Warning;
use effects::roots::Roots;
use sections::id::SectionId;
use std::alloc::{AllocError, Global};
use syntax_tree::tree::{ElementType, Parameter};
use types::code::{Label, Number, Primitive, Procedure, Program, Stmt, StmtKind};
use types::element::holds;
use types::typed::Typed;

/// A procedure, and the array or the parameter of each of its sections.
#[derive(Clone, Copy)]
struct Scope<'s> {
    procedure: &'s Procedure,
    roots: &'s Roots,
}

/// The number of scalars and of sections among the parameters before one.
#[derive(Clone, Copy)]
struct Before {
    scalars: usize,
    sections: usize,
}

/// Returns the warnings of a program.
pub fn warnings_of(alloc: Global, typed: &Typed) -> Result<Vec<Warning>, AllocError>
    ensures { IfOk result (λ found.
        found.items ≡ program_warnings (program_of typed.now) (code_of typed.now)) }
{
    let mut found = Vec::new(alloc);
    push_procedures(alloc, typed, &typed.code().procedures, &mut found)?;
    push_body(alloc, &typed.code().main, &mut found)?;
    Ok(found)
}

/// Adds the warnings of these procedures, which are numbered from 0.
fn push_procedures(
    alloc: Global,
    typed: &Typed,
    procedures: &[Procedure],
    found: &mut Vec<Warning>,
) -> Result<(), AllocError>
    ensures { OnOk result (found.new.items ≡ found.old.items ++ warnings_from
        (program_of typed.now) (code_of typed.now) 0 (map procedure_of procedures.now)) }
{
    for (number, procedure) in procedures.iter().enumerate() {
        push_procedure(alloc, typed, number, procedure, found)?;
    }
    Ok(())
}

/// Adds the warnings of the procedure with this number.
fn push_procedure(
    alloc: Global,
    typed: &Typed,
    number: usize,
    procedure: &Procedure,
    found: &mut Vec<Warning>,
) -> Result<(), AllocError>
    ensures { OnOk result (found.new.items ≡ found.old.items ++ procedure_warnings
        (program_of typed.now) (code_of typed.now) number (procedure_of procedure.now)) }
{
    let called = is_called(typed.code(), number);
    push_if(!called, Warning::UnusedProcedure(number), found)?;
    push_parameters(number, &procedure.body, parameters_of(typed, number), found)?;
    push_body(alloc, procedure, found)
}

/// Returns the parameters of the procedure with this number.
fn parameters_of(typed: &Typed, number: usize) -> &[Parameter]
    ensures { map parameter_of result.now
        ≡ parameters_in (slice_get (program_of typed.now).procedures number) }
{
    match typed.program().procedures.get(number) {
        None => &[],
        Some(procedure) => &procedure.parameters,
    }
}

/// Returns whether another procedure than that with this number, or `main`, calls it.
fn is_called(code: &Program, number: usize) -> bool
    ensures { result ≡ calls (program_in code.now) number }
{
    let thing = Thing::ProcedureOf(number);
    block_uses(thing, &code.main.body) | is_called_by(number, &code.procedures)
}

/// Returns whether one of these procedures calls that with this number, and is another one.
fn is_called_by(number: usize, procedures: &[Procedure]) -> bool
    ensures { result ≡ called_by number 0 (map procedure_of procedures.now) }
{
    for (other, procedure) in procedures.iter().enumerate() {
        let calls = block_uses(Thing::ProcedureOf(number), &procedure.body);
        if (number != other) & calls {
            return true;
        }
    }
    false
}

/// Adds a warning for each of these parameters that isn't used in a block.
fn push_parameters(
    procedure: usize,
    body: &[Stmt],
    parameters: &[Parameter],
    found: &mut Vec<Warning>,
) -> Result<(), AllocError>
    ensures { OnOk result (found.new.items ≡ found.old.items ++ parameter_warnings procedure
        (codes_of body.now) 0 0 0 (map parameter_of parameters.now)) }
{
    let mut before = Before {
        scalars: 0,
        sections: 0,
    };
    for (number, parameter) in parameters.iter().enumerate() {
        let thing = thing_of(parameter, before);
        push_unused(
            thing,
            body,
            Warning::UnusedParameter(procedure, number),
            found,
        )?;
        before = counted(parameter, before);
    }
    Ok(())
}

/// Returns a parameter as a thing that a procedure can use.
fn thing_of(parameter: &Parameter, before: Before) -> Thing
    ensures { result ≡ thing_in (parameter_of parameter.now) before.scalars before.sections }
{
    match parameter {
        Parameter::Scalar { .. } => Thing::ScalarIn(before.scalars),
        Parameter::Written { .. } => Thing::SectionOf(before.sections),
        Parameter::Read { .. } => Thing::SectionOf(before.sections),
    }
}

/// Counts a parameter.
fn counted(parameter: &Parameter, before: Before) -> Before
    requires { before.scalars + before.sections < 2 ^ 64 - 1 }
    ensures scalars { result.scalars ≡ scalars_after (parameter_of parameter.now) before.scalars }
    ensures sections { result.sections
        ≡ sections_after (parameter_of parameter.now) before.sections }
{
    match parameter {
        Parameter::Scalar { .. } => Before {
            scalars: before.scalars + 1,
            sections: before.sections,
        },
        Parameter::Written { .. } | Parameter::Read { .. } => Before {
            scalars: before.scalars,
            sections: before.sections + 1,
        },
    }
}

/// Adds the warnings of the statements of a procedure.
fn push_body(
    alloc: Global,
    procedure: &Procedure,
    found: &mut Vec<Warning>,
) -> Result<(), AllocError>
    ensures { let f = procedure_of procedure.now in
        OnOk result (found.new.items ≡ found.old.items ++ block_warnings f false f.body) }
{
    let roots = Roots::new(alloc, &procedure.sections)?;
    let scope = Scope {
        procedure,
        roots: &roots,
    };
    push_block(scope, false, &procedure.body, found)
}

// ---- statements

/// Adds the warnings of a block, whose first statement isn't reached if `dead` is true.
#[cycle(within)]
fn push_block(
    scope: Scope<'_>,
    dead: bool,
    block: &[Stmt],
    found: &mut Vec<Warning>,
) -> Result<(), AllocError>
    requires { HasRoots scope.procedure.now scope.roots.now }
    ensures { OnOk result (found.new.items ≡ found.old.items
        ++ block_warnings (procedure_of scope.entry.procedure.now) dead (codes_of block.now)) }
{
    let mut unreached = dead;
    for stmt in block {
        push_if(unreached, Warning::Unreached(stmt.label), found)?;
        push_own(scope, stmt.label, &stmt.kind, found)?;
        push_inner(scope, &stmt.kind, found)?;
        unreached = stops(&stmt.kind);
    }
    Ok(())
}

/// Adds the warnings inside a statement.
#[cycle(within)]
fn push_inner(scope: Scope<'_>, kind: &StmtKind, found: &mut Vec<Warning>) -> Result<(), AllocError>
    requires { HasRoots scope.procedure.now scope.roots.now }
    ensures { OnOk result (found.new.items ≡ found.old.items
        ++ inner_warnings (procedure_of scope.entry.procedure.now) (plain_code kind.now)) }
{
    match kind {
        StmtKind::Do(_) => Ok(()),
        StmtKind::If { guard, body, other } => {
            push_block(scope, is_never(guard), body, found)?;
            push_block(scope, is_always(guard), other, found)?;
            Ok(())
        }
        StmtKind::While { guard, body } => {
            push_block(scope, is_never(guard), body, found)?;
            Ok(())
        }
        StmtKind::Split { body, .. } => {
            push_block(scope, false, body, found)?;
            Ok(())
        }
        StmtKind::Parts { body, .. } => {
            push_block(scope, false, body, found)?;
            Ok(())
        }
        StmtKind::Call { .. } => Ok(()),
        StmtKind::Async { body } => {
            push_block(scope, false, body, found)?;
            Ok(())
        }
        StmtKind::Finish { body } => {
            push_block(scope, false, body, found)?;
            Ok(())
        }
        StmtKind::Rescue { body, handler, .. } => {
            push_block(scope, false, body, found)?;
            push_block(scope, false, handler, found)?;
            Ok(())
        }
    }
}

/// Adds the warnings of a statement, without those inside.
fn push_own(
    scope: Scope<'_>,
    label: Label,
    kind: &StmtKind,
    found: &mut Vec<Warning>,
) -> Result<(), AllocError>
    requires { HasRoots scope.procedure.now scope.roots.now }
    ensures { OnOk result (found.new.items ≡ found.old.items
        ++ own_warnings (procedure_of scope.entry.procedure.now) label (plain_code kind.now)) }
{
    match kind {
        StmtKind::Do(primitive) => push_step(scope, label, primitive, found),
        StmtKind::Finish { body } => push_finish(label, body, found),
        StmtKind::If { .. } => Ok(()),
        StmtKind::While { .. } => Ok(()),
        StmtKind::Split { .. } => Ok(()),
        StmtKind::Parts { .. } => Ok(()),
        StmtKind::Call { .. } => Ok(()),
        StmtKind::Async { .. } => Ok(()),
        StmtKind::Rescue { .. } => Ok(()),
    }
}

/// Adds the warnings of a statement of one step.
fn push_step(
    scope: Scope<'_>,
    label: Label,
    primitive: &Primitive,
    found: &mut Vec<Warning>,
) -> Result<(), AllocError>
    requires { HasRoots scope.procedure.now scope.roots.now }
    ensures { OnOk result (found.new.items ≡ found.old.items
        ++ step_warnings (procedure_of scope.entry.procedure.now) label (primitive_of primitive.now)) }
{
    match primitive {
        Primitive::Assign { slot, .. } => {
            let thing = Thing::ScalarIn(slot.number);
            push_unused(
                thing,
                &scope.procedure.body,
                Warning::UnreadVariable(label),
                found,
            )
        }
        Primitive::Store { section, value, .. } => {
            let wrong = cannot_hold_there(scope, *section, value);
            push_if(wrong, Warning::NeverFits(label), found)
        }
        Primitive::Skip => Ok(()),
        Primitive::Print { .. } => Ok(()),
        Primitive::Fault { .. } => Ok(()),
    }
}

/// Returns whether a number is a constant that doesn't fit in an element of a section.
fn cannot_hold_there(scope: Scope<'_>, section: SectionId, number: &Number) -> bool
    requires { HasRoots scope.procedure.now scope.roots.now }
    ensures { result ≡ section_cannot_hold (procedure_of scope.entry.procedure.now) section.number
        (number_of number.now) }
{
    match scope
        .procedure
        .parameters
        .get(scope.roots.of(section).number)
    {
        None => false,
        Some(parameter) => cannot_hold(parameter.element, number),
    }
}

/// Returns whether a number is a constant that doesn't fit in an element of this type.
fn cannot_hold(element: ElementType, number: &Number) -> bool
    ensures { result ≡ holds_none element (number_of number.now) }
{
    match number {
        Number::Literal(value) => !holds(element, *value),
        Number::Negative(operand) => is_positive(operand) & !holds(element, -1),
        Number::Scalar { .. } => false,
        Number::Element { .. } => false,
        Number::Length { .. } => false,
        Number::Chain { .. } => false,
    }
}

/// Returns whether a number is written out and isn't 0.
fn is_positive(number: &Number) -> bool
    ensures { result ≡ positive (number_of number.now) }
{
    match number {
        Number::Literal(value) => 0 < *value,
        Number::Scalar { .. } => false,
        Number::Element { .. } => false,
        Number::Length { .. } => false,
        Number::Negative(_) => false,
        Number::Chain { .. } => false,
    }
}

/// Adds the warning of a finish: it waits at once for its only task, or there is no task that it
/// waits for.
fn push_finish(label: Label, body: &[Stmt], found: &mut Vec<Warning>) -> Result<(), AllocError>
    ensures { OnOk result (found.new.items
        ≡ found.old.items ++ finish_warnings label (codes_of body.now)) }
{
    if is_lone_task(body) {
        found.push(Warning::LoneTask(label))?;
        Ok(())
    } else {
        push_if(!block_may_leave(body), Warning::IdleFinish(label), found)
    }
}

/// Adds a warning if a thing isn't used in a block.
fn push_unused(
    thing: Thing,
    body: &[Stmt],
    warning: Warning,
    found: &mut Vec<Warning>,
) -> Result<(), AllocError>
    ensures { OnOk result (found.new.items
        ≡ found.old.items ++ unused thing (codes_of body.now) warning) }
{
    push_if(!block_uses(thing, body), warning, found)
}

/// Adds a warning if this holds.
fn push_if(holds: bool, warning: Warning, found: &mut Vec<Warning>) -> Result<(), AllocError>
    ensures { OnOk result (found.new.items ≡ found.old.items ++ warn_if holds warning) }
{
    if holds {
        found.push(warning)?;
    }
    Ok(())
}
