//! Expressions as canonical text.

ghost use Rattle.std.specs.Prelude.{◌≡◌, ◌++◌, [], ◌∷◌, OnOk};
ghost use Rattle.std.specs.String.{string_bytes};
ghost use Rattle.syntax.specs.Canonical.{in_line};
ghost use Rattle.syntax.specs.Spelling.{expr_then, conj_then, neg_then, cmp_then, sum_then, prod_then};
ghost use Rattle.syntax.specs.Spelling.{unary_then, atom_then, exprs_then, more_then, relation_mark};
ghost use Rattle.syntax.specs.Spelling.{sign_mark, operator_mark};
ghost use Rattle.syntax_tree.specs.Tree.{expr as expr_tree, conj as conj_tree, neg as neg_tree};
ghost use Rattle.syntax_tree.specs.Tree.{cmp as cmp_tree, sum as sum_tree, prod as prod_tree};
ghost use Rattle.syntax_tree.specs.Tree.{unary as unary_tree, atom as atom_tree, exprs as expr_trees};
ghost use Rattle.syntax.specs.Lexical.{mark_text};

use std::alloc::AllocError;
use syntax_tree::tree::{Atom, Cmp, Conj, Expr, Neg, Operator, Prod, Relation, Sign, Sum, Unary};

/// Writes an expression.
#[cycle(expr)]
pub fn expr(e: &Expr, out: &mut String) -> Result<(), AllocError>
    ensures { OnOk result (string_bytes out.new
        ≡ string_bytes out.old ++ in_line (expr_then (expr_tree e.now) [])) }
{
    conj(&e.first, out)?;
    for operand in &e.rest {
        out.push_str(" or ")?;
        conj(operand, out)?;
    }
    Ok(())
}

#[cycle(expr)]
fn conj(e: &Conj, out: &mut String) -> Result<(), AllocError>
    ensures { OnOk result (string_bytes out.new
        ≡ string_bytes out.old ++ in_line (conj_then (conj_tree e.now) [])) }
{
    neg(&e.first, out)?;
    for operand in &e.rest {
        out.push_str(" and ")?;
        neg(operand, out)?;
    }
    Ok(())
}

#[cycle(expr)]
fn neg(e: &Neg, out: &mut String) -> Result<(), AllocError>
    ensures { OnOk result (string_bytes out.new
        ≡ string_bytes out.old ++ in_line (neg_then (neg_tree e.now) [])) }
{
    if e.negated {
        out.push_str("not ")?;
    }
    cmp(&e.comparison, out)
}

#[cycle(expr)]
fn cmp(e: &Cmp, out: &mut String) -> Result<(), AllocError>
    ensures { OnOk result (string_bytes out.new
        ≡ string_bytes out.old ++ in_line (cmp_then (cmp_tree e.now) [])) }
{
    sum(&e.left, out)?;
    match &e.right {
        None => Ok(()),
        Some(compared) => {
            out.push_str(relation(compared.relation))?;
            sum(&compared.right, out)
        }
    }
}

#[cycle(expr)]
fn sum(e: &Sum, out: &mut String) -> Result<(), AllocError>
    ensures { OnOk result (string_bytes out.new
        ≡ string_bytes out.old ++ in_line (sum_then (sum_tree e.now) [])) }
{
    prod(&e.first, out)?;
    for term in &e.rest {
        out.push_str(sign(term.sign))?;
        prod(&term.operand, out)?;
    }
    Ok(())
}

#[cycle(expr)]
fn prod(e: &Prod, out: &mut String) -> Result<(), AllocError>
    ensures { OnOk result (string_bytes out.new
        ≡ string_bytes out.old ++ in_line (prod_then (prod_tree e.now) [])) }
{
    unary(&e.first, out)?;
    for factor in &e.rest {
        out.push_str(operator(factor.operator))?;
        unary(&factor.operand, out)?;
    }
    Ok(())
}

#[cycle(expr)]
fn unary(e: &Unary, out: &mut String) -> Result<(), AllocError>
    ensures { OnOk result (string_bytes out.new
        ≡ string_bytes out.old ++ in_line (unary_then (unary_tree e.now) [])) }
{
    if e.negative {
        out.push('-')?;
    }
    atom(&e.atom, out)
}

#[cycle(expr)]
fn atom(e: &Atom, out: &mut String) -> Result<(), AllocError>
    ensures { OnOk result (string_bytes out.new
        ≡ string_bytes out.old ++ in_line (atom_then (atom_tree e.now) [])) }
{
    match e {
        Atom::Number(value) => write!(out, "{value}"),
        Atom::True => out.push_str("true"),
        Atom::False => out.push_str("false"),
        Atom::Name(name) => out.push_str(name.as_str()),
        Atom::Element { section, index } => {
            out.push_str(section.as_str())?;
            out.push('[')?;
            expr(index, out)?;
            out.push(']')
        }
        Atom::Length(section) => {
            out.push_str("len(")?;
            out.push_str(section.as_str())?;
            out.push(')')
        }
        Atom::Parens(inner) => {
            out.push('(')?;
            expr(inner, out)?;
            out.push(')')
        }
    }
}

/// Writes expressions, separated by commas.
pub fn listed(exprs: &[Expr], out: &mut String) -> Result<(), AllocError>
    ensures { OnOk result (string_bytes out.new
        ≡ string_bytes out.old ++ in_line (exprs_then (expr_trees exprs.now) [])) }
{
    let Some((first, rest)) = exprs.split_first() else {
        return Ok(());
    };
    expr(first, out)?;
    more(rest, out)
}

/// Writes expressions, each after a comma.
pub fn more(exprs: &[Expr], out: &mut String) -> Result<(), AllocError>
    ensures { OnOk result (string_bytes out.new
        ≡ string_bytes out.old ++ in_line (more_then (expr_trees exprs.now) [])) }
{
    for e in exprs {
        out.push_str(", ")?;
        expr(e, out)?;
    }
    Ok(())
}

fn relation(relation: Relation) -> &'static str
    ensures { result.now ≡ 32 ∷ (mark_text (relation_mark relation) ++ 32 ∷ []) }
{
    match relation {
        Relation::Less => " < ",
        Relation::AtMost => " <= ",
        Relation::Greater => " > ",
        Relation::AtLeast => " >= ",
        Relation::Equal => " == ",
        Relation::Differs => " != ",
    }
}

fn sign(sign: Sign) -> &'static str
    ensures { result.now ≡ 32 ∷ (mark_text (sign_mark sign) ++ 32 ∷ []) }
{
    match sign {
        Sign::Plus => " + ",
        Sign::Minus => " - ",
    }
}

fn operator(operator: Operator) -> &'static str
    ensures { result.now ≡ 32 ∷ (mark_text (operator_mark operator) ++ 32 ∷ []) }
{
    match operator {
        Operator::Times => " * ",
        Operator::Over => " / ",
        Operator::Modulo => " % ",
    }
}
