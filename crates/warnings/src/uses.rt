//! Where the scalars, the sections and the procedures of a program are used.

ghost use Rattle.std.specs.Prelude.{◌≡◌, map};
ghost use Rattle.sections.specs.Translation.{section as section_of};
ghost use Rattle.types.specs.Rows.{links as links_of, truths as truths_of};
ghost use Rattle.types.specs.Translation.{code as plain_code, codes as codes_of, number as number_of};
ghost use Rattle.types.specs.Translation.{primitive as primitive_of, truth as truth_of};
ghost use Rattle.warnings.specs.Uses.{code_uses, codes_use, is_procedure as names_procedure};
ghost use Rattle.warnings.specs.Uses.{is_scalar as names_scalar, is_section as names_section, links_use};
ghost use Rattle.warnings.specs.Uses.{number_uses as number_names, numbers_use as numbers_name, primitive_uses};
ghost use Rattle.warnings.specs.Uses.{sections_use, truth_uses, truths_use};

use sections::id::SectionId;
use types::code::{Link, Number, Primitive, Stmt, StmtKind, Truth};

/// What a procedure can use, by its number.
#[derive(Clone, Copy, PartialEq, Eq, Debug)]
pub enum Thing {
    /// The scalar in a slot.
    ScalarIn(usize),
    SectionOf(usize),
    ProcedureOf(usize),
}

/// Returns whether this is the scalar in a slot.
fn is_scalar(thing: Thing, slot: usize) -> bool
    ensures { result ≡ names_scalar thing slot }
{
    match thing {
        Thing::ScalarIn(number) => number == slot,
        Thing::SectionOf(_) => false,
        Thing::ProcedureOf(_) => false,
    }
}

/// Returns whether this is a section.
fn is_section(thing: Thing, section: usize) -> bool
    ensures { result ≡ names_section thing section }
{
    match thing {
        Thing::SectionOf(number) => number == section,
        Thing::ScalarIn(_) => false,
        Thing::ProcedureOf(_) => false,
    }
}

/// Returns whether this is a procedure.
fn is_procedure(thing: Thing, procedure: usize) -> bool
    ensures { result ≡ names_procedure thing procedure }
{
    match thing {
        Thing::ProcedureOf(number) => number == procedure,
        Thing::ScalarIn(_) => false,
        Thing::SectionOf(_) => false,
    }
}

/// Returns whether an expression reads the scalar, or names the section.
#[cycle(number)]
fn number_uses(thing: Thing, number: &Number) -> bool
    ensures { result ≡ number_names thing (number_of number.now) }
{
    match number {
        Number::Literal(_) => false,
        Number::Scalar { slot } => is_scalar(thing, slot.number),
        Number::Element { section, index } => {
            is_section(thing, section.number) | number_uses(thing, index)
        }
        Number::Length { section } => is_section(thing, section.number),
        Number::Negative(operand) => number_uses(thing, operand),
        Number::Chain { first, rest } => number_uses(thing, first) | rest_uses(thing, rest),
    }
}

/// Returns whether an operand after the first one of a chain does.
#[cycle(number)]
fn rest_uses(thing: Thing, rest: &[Link]) -> bool
    ensures { result ≡ links_use thing (links_of rest.now) }
{
    for link in rest {
        if number_uses(thing, &link.operand) {
            return true;
        }
    }
    false
}

/// Returns whether a condition reads the scalar, or names the section.
#[cycle(truth)]
fn condition_uses(thing: Thing, truth: &Truth) -> bool
    ensures { result ≡ truth_uses thing (truth_of truth.now) }
{
    match truth {
        Truth::Constant(_) => false,
        Truth::Compare { left, right, .. } => number_uses(thing, left) | number_uses(thing, right),
        Truth::Not(operand) => condition_uses(thing, operand),
        Truth::Both(operands) => conditions_use(thing, operands),
        Truth::Either(operands) => conditions_use(thing, operands),
    }
}

/// Returns whether one of several conditions does.
#[cycle(truth)]
fn conditions_use(thing: Thing, operands: &[Truth]) -> bool
    ensures { result ≡ truths_use thing (truths_of operands.now) }
{
    for operand in operands {
        if condition_uses(thing, operand) {
            return true;
        }
    }
    false
}

/// Returns whether one of several expressions does.
fn numbers_use(thing: Thing, numbers: &[Number]) -> bool
    ensures { result ≡ numbers_name thing (map number_of numbers.now) }
{
    for number in numbers {
        if number_uses(thing, number) {
            return true;
        }
    }
    false
}

/// Returns whether one of several sections is this.
fn are_among(thing: Thing, sections: &[SectionId]) -> bool
    ensures { result ≡ sections_use thing (map section_of sections.now) }
{
    for section in sections {
        if is_section(thing, section.number) {
            return true;
        }
    }
    false
}

/// Returns whether a statement of one step uses it. An assignment doesn't use the scalar that it
/// writes.
fn step_uses(thing: Thing, primitive: &Primitive) -> bool
    ensures { result ≡ primitive_uses thing (primitive_of primitive.now) }
{
    match primitive {
        Primitive::Skip => false,
        Primitive::Assign { value, .. } => number_uses(thing, value),
        Primitive::Store {
            section,
            index,
            value,
        } => {
            let within = number_uses(thing, index) | number_uses(thing, value);
            is_section(thing, section.number) | within
        }
        Primitive::Print { values } => numbers_use(thing, values),
        Primitive::Fault { value } => number_uses(thing, value),
    }
}

/// Returns whether a statement of a block uses it, or one inside.
#[cycle(statement)]
pub fn block_uses(thing: Thing, block: &[Stmt]) -> bool
    ensures { result ≡ codes_use thing (codes_of block.now) }
{
    for stmt in block {
        if statement_uses(thing, &stmt.kind) {
            return true;
        }
    }
    false
}

/// Returns whether a statement uses it, or one inside.
#[cycle(statement)]
fn statement_uses(thing: Thing, kind: &StmtKind) -> bool
    ensures { result ≡ code_uses thing (plain_code kind.now) }
{
    match kind {
        StmtKind::Do(primitive) => step_uses(thing, primitive),
        StmtKind::If { guard, body, other } => {
            let inside = block_uses(thing, body) | block_uses(thing, other);
            condition_uses(thing, guard) | inside
        }
        StmtKind::While { guard, body } => condition_uses(thing, guard) | block_uses(thing, body),
        StmtKind::Split { sides, body } => {
            let inside = number_uses(thing, &sides.at) | block_uses(thing, body);
            is_section(thing, sides.section.number) | inside
        }
        StmtKind::Parts { pieces, body } => {
            let inside = number_uses(thing, &pieces.size) | block_uses(thing, body);
            is_section(thing, pieces.section.number) | inside
        }
        StmtKind::Call {
            procedure,
            values,
            sections,
        } => {
            let inside = numbers_use(thing, values) | are_among(thing, sections);
            is_procedure(thing, procedure.number) | inside
        }
        StmtKind::Async { body } => block_uses(thing, body),
        StmtKind::Finish { body } => block_uses(thing, body),
        StmtKind::Rescue { body, handler, .. } => {
            block_uses(thing, body) | block_uses(thing, handler)
        }
    }
}
