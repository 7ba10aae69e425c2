//! What a statement does to sections by its own expressions.

ghost use Rattle.std.specs.Prelude.{◌≡◌, ◌++◌, flat_map, map, IfOk, OnOk};
ghost use Rattle.sections.specs.Translation.{section as section_of};
ghost use Rattle.types.specs.Indexed.{indexed, indexed_links, indexed_truth, indexed_truths};
ghost use Rattle.types.specs.Rows.{links as links_of, truths as truths_of};
ghost use Rattle.types.specs.Translation.{code as plain_code, number as number_of, truth as truth_of};
ghost use Rattle.types.specs.Translation.{primitive as primitive_of};
ghost use Rattle.effects.specs.Accesses.{own_accesses as own_by, own_primitive, reads as reads_of};
ghost use Rattle.effects.specs.Translation.{access as access_of};

use crate::access::Access;
use sections::id::SectionId;
use std::alloc::{AllocError, Global};
use types::code::{Label, Link, Number, Primitive, StmtKind, Truth};

/// Returns a statement's own accesses: those of its expressions, without those of its blocks.
pub fn own_accesses(alloc: Global, label: Label, kind: &StmtKind) -> Result<Vec<Access>, AllocError>
    ensures { IfOk result (λ found. map access_of found.items ≡ own_by label (plain_code kind.now)) }
{
    match kind {
        StmtKind::Do(primitive) => accesses_of(alloc, label, primitive),
        StmtKind::If { guard, .. } => guard_reads(alloc, label, guard),
        StmtKind::While { guard, .. } => guard_reads(alloc, label, guard),
        StmtKind::Split { sides, .. } => reads(alloc, label, &sides.at),
        StmtKind::Parts { pieces, .. } => reads(alloc, label, &pieces.size),
        StmtKind::Call { values, .. } => all_reads(alloc, label, values),
        StmtKind::Async { .. } => Ok(Vec::new(alloc)),
        StmtKind::Finish { .. } => Ok(Vec::new(alloc)),
        StmtKind::Rescue { .. } => Ok(Vec::new(alloc)),
    }
}

/// Returns the accesses of a statement of one step: a read of each section that its expressions
/// index, and the write of a store.
fn accesses_of(
    alloc: Global,
    label: Label,
    primitive: &Primitive,
) -> Result<Vec<Access>, AllocError>
    ensures { IfOk result (λ found. map access_of found.items
        ≡ own_primitive label (primitive_of primitive.now)) }
{
    match primitive {
        Primitive::Skip => Ok(Vec::new(alloc)),
        Primitive::Assign { value, .. } => reads(alloc, label, value),
        Primitive::Store {
            section,
            index,
            value,
        } => {
            let mut sections = Vec::new(alloc);
            add_indexed(index, &mut sections)?;
            add_indexed(value, &mut sections)?;
            let mut found = Vec::new(alloc);
            found.push(Access {
                label,
                section: *section,
                write: true,
            })?;
            add_reads(label, &sections, &mut found)?;
            Ok(found)
        }
        Primitive::Print { values } => all_reads(alloc, label, values),
        Primitive::Fault { value } => reads(alloc, label, value),
    }
}

/// Returns the reads of an expression.
fn reads(alloc: Global, label: Label, number: &Number) -> Result<Vec<Access>, AllocError>
    ensures { IfOk result (λ found. map access_of found.items
        ≡ reads_of label (indexed (number_of number.now))) }
{
    let mut sections = Vec::new(alloc);
    add_indexed(number, &mut sections)?;
    reads_each(alloc, label, &sections)
}

/// Returns the reads of several expressions.
fn all_reads(alloc: Global, label: Label, numbers: &[Number]) -> Result<Vec<Access>, AllocError>
    ensures { IfOk result (λ found. map access_of found.items
        ≡ reads_of label (flat_map indexed (map number_of numbers.now))) }
{
    let mut sections = Vec::new(alloc);
    for number in numbers {
        add_indexed(number, &mut sections)?;
    }
    reads_each(alloc, label, &sections)
}

/// Returns the reads of a condition.
fn guard_reads(alloc: Global, label: Label, guard: &Truth) -> Result<Vec<Access>, AllocError>
    ensures { IfOk result (λ found. map access_of found.items
        ≡ reads_of label (indexed_truth (truth_of guard.now))) }
{
    let mut sections = Vec::new(alloc);
    add_indexed_in(guard, &mut sections)?;
    reads_each(alloc, label, &sections)
}

/// Returns a read of each of these sections.
fn reads_each(
    alloc: Global,
    label: Label,
    sections: &[SectionId],
) -> Result<Vec<Access>, AllocError>
    ensures { IfOk result (λ found. map access_of found.items
        ≡ reads_of label (map section_of sections.now)) }
{
    let mut found = Vec::new(alloc);
    add_reads(label, sections, &mut found)?;
    Ok(found)
}

/// Adds a read of each of these sections.
fn add_reads(
    label: Label,
    sections: &[SectionId],
    found: &mut Vec<Access>,
) -> Result<(), AllocError>
    ensures { OnOk result (map access_of found.new.items
        ≡ map access_of found.old.items ++ reads_of label (map section_of sections.now)) }
{
    for section in sections {
        found.push(Access {
            label,
            section: *section,
            write: false,
        })?;
    }
    Ok(())
}

/// Adds the sections whose elements an expression may read.
#[cycle(indexed)]
fn add_indexed(number: &Number, found: &mut Vec<SectionId>) -> Result<(), AllocError>
    ensures { OnOk result (map section_of found.new.items
        ≡ map section_of found.old.items ++ indexed (number_of number.now)) }
{
    match number {
        Number::Literal(_) => Ok(()),
        Number::Scalar { .. } => Ok(()),
        Number::Element { section, index } => {
            found.push(*section)?;
            add_indexed(index, found)
        }
        Number::Length { .. } => Ok(()),
        Number::Negative(operand) => add_indexed(operand, found),
        Number::Chain { first, rest } => {
            add_indexed(first, found)?;
            add_indexed_behind(rest, found)
        }
    }
}

/// Adds the sections that the operands after the first one of a chain may read.
#[cycle(indexed)]
fn add_indexed_behind(rest: &[Link], found: &mut Vec<SectionId>) -> Result<(), AllocError>
    ensures { OnOk result (map section_of found.new.items
        ≡ map section_of found.old.items ++ indexed_links (links_of rest.now)) }
{
    for link in rest {
        add_indexed(&link.operand, found)?;
    }
    Ok(())
}

/// Adds the sections whose elements a condition may read.
#[cycle(indexed_in)]
fn add_indexed_in(truth: &Truth, found: &mut Vec<SectionId>) -> Result<(), AllocError>
    ensures { OnOk result (map section_of found.new.items
        ≡ map section_of found.old.items ++ indexed_truth (truth_of truth.now)) }
{
    match truth {
        Truth::Constant(_) => Ok(()),
        Truth::Compare { left, right, .. } => {
            add_indexed(left, found)?;
            add_indexed(right, found)
        }
        Truth::Not(operand) => add_indexed_in(operand, found),
        Truth::Both(operands) => add_indexed_in_all(operands, found),
        Truth::Either(operands) => add_indexed_in_all(operands, found),
    }
}

/// Adds the sections whose elements several conditions may read.
#[cycle(indexed_in)]
fn add_indexed_in_all(operands: &[Truth], found: &mut Vec<SectionId>) -> Result<(), AllocError>
    ensures { OnOk result (map section_of found.new.items
        ≡ map section_of found.old.items ++ indexed_truths (truths_of operands.now)) }
{
    for operand in operands {
        add_indexed_in(operand, found)?;
    }
    Ok(())
}
