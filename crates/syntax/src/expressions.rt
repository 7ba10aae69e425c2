//! Expressions, one function for each production.

ghost use Rattle.std.specs.Prelude.{◌≡◌, ◌≢◌, ◌<◌, ◌≤◌, ℕ, List, ◌∷◌, length, IfOk, IfErr, IfSome, IfNone};
ghost use Rattle.syntax.specs.declared.token.Mark.{Mark as AnyMark};
ghost use Rattle.syntax_tree.specs.declared.tree.Relation.{Relation as AnyRelation};
ghost use Rattle.syntax_tree.specs.declared.tree.Sign.{Sign as AnySign};
ghost use Rattle.syntax_tree.specs.declared.tree.Operator.{Operator as AnyOperator};
ghost use Rattle.syntax.specs.Reading.{ReadsAs, AddsExprs, Refuses, Leaves, LeavesClosed, SpellsNone};
ghost use Rattle.syntax.specs.Reading.{SpellsNoneClosed, mark_binds, list_level, or_level, and_level};
ghost use Rattle.syntax.specs.Reading.{relation_level, sign_level, operator_level, bracket_level};
ghost use Rattle.syntax.specs.Spelling.{more_then, expr_then, conj_then, neg_then, cmp_then, sum_then};
ghost use Rattle.syntax.specs.Spelling.{prod_then, unary_then, atom_then, relation_mark, sign_mark};
ghost use Rattle.syntax.specs.Spelling.{operator_mark};
ghost use Rattle.syntax.specs.Token.{Token as PlainToken, NameToken, MarkToken, plain};
ghost use Rattle.syntax_tree.specs.Tree.{expr as expr_tree, conj as conj_tree, neg as neg_tree};
ghost use Rattle.syntax_tree.specs.Tree.{cmp as cmp_tree, sum as sum_tree, prod as prod_tree};
ghost use Rattle.syntax_tree.specs.Tree.{unary as unary_tree, atom as atom_tree};

use crate::cursor::Stuck;
use crate::token::{Mark, Spanned, Token, Word};
use crate::{cursor, lists};
use std::alloc::Global;
use syntax_tree::tree::{
    Atom, Cmp, Compared, Conj, Expr, Factor, Neg, Operator, Prod, Relation, Sign, Sum, Term, Unary,
};

/// Reads an expression.
#[cycle(expr)]
pub fn expr(alloc: Global, tokens: &[Spanned]) -> Result<(Expr, &[Spanned]), Stuck>
    ensures shorter { IfOk result (λ read. length read.1.now < length tokens.now) }
    ensures read { IfOk result (ReadsAs expr_tree expr_then or_level (plain tokens.now)) }
    ensures refused { IfErr result (Refuses expr_then or_level (plain tokens.now)) }
{
    // expr = conj { "or" conj }
    let (first, mut left) = conj(alloc, tokens)?;
    let mut rest = Vec::new(alloc);
    while let Some(after) = cursor::after_word(left, Word::Or) {
        let (operand, behind) = conj(alloc, after)?;
        lists::push(&mut rest, operand)?;
        left = behind;
    }
    Ok((Expr { first, rest }, left))
}

#[cycle(expr)]
fn conj(alloc: Global, tokens: &[Spanned]) -> Result<(Conj, &[Spanned]), Stuck>
    ensures shorter { IfOk result (λ read. length read.1.now < length tokens.now) }
    ensures read { IfOk result (ReadsAs conj_tree conj_then and_level (plain tokens.now)) }
    ensures refused { IfErr result (Refuses conj_then and_level (plain tokens.now)) }
{
    // conj = neg { "and" neg }
    let (first, mut left) = neg(alloc, tokens)?;
    let mut rest = Vec::new(alloc);
    while let Some(after) = cursor::after_word(left, Word::And) {
        let (operand, behind) = neg(alloc, after)?;
        lists::push(&mut rest, operand)?;
        left = behind;
    }
    Ok((Conj { first, rest }, left))
}

#[cycle(expr)]
fn neg(alloc: Global, tokens: &[Spanned]) -> Result<(Neg, &[Spanned]), Stuck>
    ensures shorter { IfOk result (λ read. length read.1.now < length tokens.now) }
    ensures read { IfOk result (ReadsAs neg_tree neg_then relation_level (plain tokens.now)) }
    ensures refused { IfErr result (Refuses neg_then relation_level (plain tokens.now)) }
{
    // neg = [ "not" ] cmp
    match cursor::after_word(tokens, Word::Not) {
        None => {
            let (comparison, left) = cmp(alloc, tokens)?;
            Ok((
                Neg {
                    negated: false,
                    comparison,
                },
                left,
            ))
        }
        Some(after) => {
            let (comparison, left) = cmp(alloc, after)?;
            Ok((
                Neg {
                    negated: true,
                    comparison,
                },
                left,
            ))
        }
    }
}

#[cycle(expr)]
fn cmp(alloc: Global, tokens: &[Spanned]) -> Result<(Cmp, &[Spanned]), Stuck>
    ensures shorter { IfOk result (λ read. length read.1.now < length tokens.now) }
    ensures read { IfOk result (ReadsAs cmp_tree cmp_then relation_level (plain tokens.now)) }
    ensures refused { IfErr result (Refuses cmp_then relation_level (plain tokens.now)) }
{
    // cmp = sum [ ( "<" | "<=" | ">" | ">=" | "==" | "!=" ) sum ]
    let (left, rest) = sum(alloc, tokens)?;
    match relation(rest) {
        None => Ok((Cmp { left, right: None }, rest)),
        Some((relation, after)) => {
            let (right, rest) = sum(alloc, after)?;
            let operand = Box::new(alloc, right)?;
            let right = Some(Compared {
                relation,
                right: operand,
            });
            Ok((Cmp { left, right }, rest))
        }
    }
}

#[cycle(expr)]
fn sum(alloc: Global, tokens: &[Spanned]) -> Result<(Sum, &[Spanned]), Stuck>
    ensures shorter { IfOk result (λ read. length read.1.now < length tokens.now) }
    ensures read { IfOk result (ReadsAs sum_tree sum_then sign_level (plain tokens.now)) }
    ensures refused { IfErr result (Refuses sum_then sign_level (plain tokens.now)) }
{
    // sum = prod { ( "+" | "-" ) prod }
    let (first, mut left) = prod(alloc, tokens)?;
    let mut rest = Vec::new(alloc);
    while let Some((sign, after)) = sign(left) {
        let (operand, behind) = prod(alloc, after)?;
        lists::push(&mut rest, Term { sign, operand })?;
        left = behind;
    }
    Ok((Sum { first, rest }, left))
}

#[cycle(expr)]
fn prod(alloc: Global, tokens: &[Spanned]) -> Result<(Prod, &[Spanned]), Stuck>
    ensures shorter { IfOk result (λ read. length read.1.now < length tokens.now) }
    ensures read { IfOk result (ReadsAs prod_tree prod_then operator_level (plain tokens.now)) }
    ensures refused { IfErr result (Refuses prod_then operator_level (plain tokens.now)) }
{
    // prod = unary { ( "*" | "/" | "%" ) unary }
    let (first, mut left) = unary(alloc, tokens)?;
    let mut rest = Vec::new(alloc);
    while let Some((operator, after)) = operator(left) {
        let (operand, behind) = unary(alloc, after)?;
        lists::push(&mut rest, Factor { operator, operand })?;
        left = behind;
    }
    Ok((Prod { first, rest }, left))
}

#[cycle(expr)]
fn unary(alloc: Global, tokens: &[Spanned]) -> Result<(Unary, &[Spanned]), Stuck>
    ensures shorter { IfOk result (λ read. length read.1.now < length tokens.now) }
    ensures read { IfOk result (ReadsAs unary_tree unary_then bracket_level (plain tokens.now)) }
    ensures refused { IfErr result (Refuses unary_then bracket_level (plain tokens.now)) }
{
    // unary = [ "-" ] atom
    match cursor::after_mark(tokens, Mark::Minus) {
        None => {
            let (atom, left) = atom(alloc, tokens)?;
            Ok((
                Unary {
                    negative: false,
                    atom,
                },
                left,
            ))
        }
        Some(after) => {
            let (atom, left) = atom(alloc, after)?;
            Ok((
                Unary {
                    negative: true,
                    atom,
                },
                left,
            ))
        }
    }
}

#[cycle(expr)]
fn atom(alloc: Global, tokens: &[Spanned]) -> Result<(Atom, &[Spanned]), Stuck>
    ensures shorter { IfOk result (λ read. length read.1.now < length tokens.now) }
    ensures read { IfOk result (ReadsAs atom_tree atom_then bracket_level (plain tokens.now)) }
    ensures refused { IfErr result (Refuses atom_then bracket_level (plain tokens.now)) }
{
    // atom = number | "true" | "false" | name | name "[" expr "]"
    //      | "len" "(" name ")" | "(" expr ")"
    match cursor::peek(tokens) {
        Some(Token::Name(_)) => named(alloc, tokens),
        Some(Token::Mark(_)) => {
            let after = cursor::mark(tokens, Mark::LeftParen)?;
            let (inner, left) = enclosed(alloc, after, Mark::RightParen)?;
            Ok((Atom::Parens(inner), left))
        }
        Some(Token::Number(_)) | Some(Token::Word(_)) | None => constant(tokens),
    }
}

/// Reads an atom that starts with a name.
#[cycle(expr)]
fn named(alloc: Global, tokens: &[Spanned]) -> Result<(Atom, &[Spanned]), Stuck>
    ensures shorter { IfOk result (λ read. length read.1.now < length tokens.now) }
    ensures read { IfOk result (ReadsAs atom_tree atom_then bracket_level (plain tokens.now)) }
    ensures refused { IfErr result (λ stuck. stuck ≢ Stuck.OutOfMemory
        → (name : List ℕ) (rest : List PlainToken) → plain tokens.now ≡ NameToken name ∷ rest
        → SpellsNone atom_then bracket_level (plain tokens.now)) }
{
    // name | name "[" expr "]"
    let (name, rest) = cursor::name(tokens)?;
    match cursor::after_mark(rest, Mark::LeftBracket) {
        None => Ok((Atom::Name(name), rest)),
        Some(after) => {
            let (index, left) = enclosed(alloc, after, Mark::RightBracket)?;
            Ok((
                Atom::Element {
                    section: name,
                    index,
                },
                left,
            ))
        }
    }
}

/// Reads an expression and the bracket that closes it.
#[cycle(expr)]
fn enclosed(
    alloc: Global,
    tokens: &[Spanned],
    closing: Mark,
) -> Result<(Box<Expr>, &[Spanned]), Stuck>
    ensures shorter { IfOk result (λ read. length read.1.now < length tokens.now) }
    ensures spelled { IfOk result (λ read.
        plain tokens.now
        ≡ expr_then (expr_tree read.0.value) (MarkToken closing ∷ plain read.1.now)) }
    ensures whole { IfOk result (λ read. mark_binds closing < or_level
        → LeavesClosed (λ inner rest. expr_then inner (MarkToken closing ∷ rest))
        (plain tokens.now) (plain read.1.now)) }
    ensures refused { IfErr result (λ stuck. stuck ≢ Stuck.OutOfMemory
        → mark_binds closing < or_level
        → SpellsNoneClosed (λ inner rest. expr_then inner (MarkToken closing ∷ rest))
        (plain tokens.now)) }
{
    // expr ")" | expr "]"
    let (inner, left) = expr(alloc, tokens)?;
    let rest = cursor::mark(left, closing)?;
    Ok((Box::new(alloc, inner)?, rest))
}

/// Reads an atom that contains no expression and doesn't start with a name.
fn constant(tokens: &[Spanned]) -> Result<(Atom, &[Spanned]), Stuck>
    ensures shorter { IfOk result (λ read. length read.1.now < length tokens.now) }
    ensures read { IfOk result (ReadsAs atom_tree atom_then bracket_level (plain tokens.now)) }
    ensures refused { IfErr result (λ stuck. stuck ≢ Stuck.OutOfMemory
        → ((name : List ℕ) (rest : List PlainToken) → plain tokens.now ≢ NameToken name ∷ rest)
        → ((mark : AnyMark) (rest : List PlainToken) → plain tokens.now ≢ MarkToken mark ∷ rest)
        → SpellsNone atom_then bracket_level (plain tokens.now)) }
{
    // number | "true" | "false" | "len" "(" name ")"
    if let Some(rest) = cursor::after_word(tokens, Word::True) {
        return Ok((Atom::True, rest));
    }
    if let Some(rest) = cursor::after_word(tokens, Word::False) {
        return Ok((Atom::False, rest));
    }
    if let Some(rest) = cursor::after_word(tokens, Word::Len) {
        let rest = cursor::mark(rest, Mark::LeftParen)?;
        let (name, rest) = cursor::name(rest)?;
        let rest = cursor::mark(rest, Mark::RightParen)?;
        return Ok((Atom::Length(name), rest));
    }
    let (value, rest) = cursor::number(tokens)?;
    Ok((Atom::Number(value), rest))
}

/// Reads a relation, if one comes first. Returns it with the tokens after it.
fn relation(tokens: &[Spanned]) -> Option<(Relation, &[Spanned])>
    ensures shorter { IfSome result (λ read. length read.1.now < length tokens.now) }
    ensures found { IfSome result (λ read.
        plain tokens.now ≡ MarkToken (relation_mark read.0) ∷ plain read.1.now) }
    ensures absent { IfNone result ((relation : AnyRelation) (rest : List PlainToken)
        → plain tokens.now ≢ MarkToken (relation_mark relation) ∷ rest) }
{
    let (first, rest) = tokens.split_first()?;
    let Token::Mark(mark) = &first.token else {
        return None;
    };
    match mark {
        Mark::Less => Some((Relation::Less, rest)),
        Mark::AtMost => Some((Relation::AtMost, rest)),
        Mark::Greater => Some((Relation::Greater, rest)),
        Mark::AtLeast => Some((Relation::AtLeast, rest)),
        Mark::Equal => Some((Relation::Equal, rest)),
        Mark::Differs => Some((Relation::Differs, rest)),
        _ => None,
    }
}

/// Reads a sign, if one comes first. Returns it with the tokens after it.
fn sign(tokens: &[Spanned]) -> Option<(Sign, &[Spanned])>
    ensures shorter { IfSome result (λ read. length read.1.now < length tokens.now) }
    ensures found { IfSome result (λ read.
        plain tokens.now ≡ MarkToken (sign_mark read.0) ∷ plain read.1.now) }
    ensures absent { IfNone result ((sign : AnySign) (rest : List PlainToken)
        → plain tokens.now ≢ MarkToken (sign_mark sign) ∷ rest) }
{
    let (first, rest) = tokens.split_first()?;
    let Token::Mark(mark) = &first.token else {
        return None;
    };
    match mark {
        Mark::Plus => Some((Sign::Plus, rest)),
        Mark::Minus => Some((Sign::Minus, rest)),
        _ => None,
    }
}

/// Reads an operator of a product, if one comes first. Returns it with the tokens after it.
fn operator(tokens: &[Spanned]) -> Option<(Operator, &[Spanned])>
    ensures shorter { IfSome result (λ read. length read.1.now < length tokens.now) }
    ensures found { IfSome result (λ read.
        plain tokens.now ≡ MarkToken (operator_mark read.0) ∷ plain read.1.now) }
    ensures absent { IfNone result ((operator : AnyOperator) (rest : List PlainToken)
        → plain tokens.now ≢ MarkToken (operator_mark operator) ∷ rest) }
{
    let (first, rest) = tokens.split_first()?;
    let Token::Mark(mark) = &first.token else {
        return None;
    };
    match mark {
        Mark::Star => Some((Operator::Times, rest)),
        Mark::Slash => Some((Operator::Over, rest)),
        Mark::Percent => Some((Operator::Modulo, rest)),
        _ => None,
    }
}

/// Reads expressions after commas, and adds them to those that were read earlier.
pub fn more(
    alloc: Global,
    tokens: &[Spanned],
    earlier: Vec<Expr>,
) -> Result<(Vec<Expr>, &[Spanned]), Stuck>
    ensures shorter { IfOk result (λ read. length read.1.now ≤ length tokens.now) }
    ensures spelled { IfOk result (λ read.
        AddsExprs earlier.items read.0.items (plain tokens.now) (plain read.1.now)) }
    ensures whole { IfOk result (λ read.
        Leaves more_then list_level (plain tokens.now) (plain read.1.now)) }
    ensures refused { IfErr result (λ stuck. stuck ≢ Stuck.OutOfMemory
        → SpellsNone more_then list_level (plain tokens.now)) }
{
    // { "," expr }
    let mut exprs = earlier;
    let mut left = tokens;
    while let Some(after) = cursor::after_mark(left, Mark::Comma) {
        let (next, behind) = expr(alloc, after)?;
        lists::push(&mut exprs, next)?;
        left = behind;
    }
    Ok((exprs, left))
}
