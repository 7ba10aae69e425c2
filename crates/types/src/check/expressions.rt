//! Expressions: looks up each name, and checks that each part has the expected kind.

#![tactic(auto, using(crate::proofs::Telling::telling))]

ghost use Rattle.std.specs.Prelude.{◌≡◌, [], ◌∷◌, map, OnOk, IfOk, IfErr, Some, pos};
ghost use Rattle.std.specs.String.{string_bytes};
ghost use Rattle.syntax_tree.specs.Tree.{expr as expr_of, conj as conj_of, neg as neg_of, cmp as cmp_of};
ghost use Rattle.syntax_tree.specs.Tree.{sum as sum_of, prod as prod_of, unary as unary_of, atom as atom_of};
ghost use Rattle.types.specs.Code.{Literal};
ghost use Rattle.types.specs.ExpressionErrors as errors;
ghost use Rattle.types.specs.NameErrors.{naming_section, naming_scalar};
ghost use Rattle.types.specs.Resolution as resolution;
ghost use Rattle.types.specs.Resolving.{names_of};
ghost use Rattle.types.specs.Scope.{ASection, AScalar, meant};
ghost use Rattle.types.specs.Told.{Told};
ghost use Rattle.types.specs.Translation.{number, truth};

use crate::check::names::{Meaning, Names};
use crate::code::{Label, Link, Number, Operator, Truth};
use crate::error::TypeError;
use crate::ids::Slot;
use sections::id::SectionId;
use std::alloc::Global;
use syntax_tree::tree;
use syntax_tree::tree::{Atom, Cmp, Conj, Expr, Neg, Prod, Sign, Sum, Unary};

/// The expressions of the statement with the label.
#[derive(Clone, Copy)]
pub struct Expressions<'n> {
    pub alloc: Global,
    pub label: Label,
    pub names: &'n Names,
}

impl Expressions<'_> {
    /// Resolves several number expressions.
    pub fn numbers(&self, first: &Expr, rest: &[Expr]) -> Result<Vec<Number>, TypeError>
        ensures right { OnOk result (errors.numbers self.now.label (names_of self.now.names.now)
            (expr_of first.now ∷ map expr_of rest.now) ≡ []) }
        ensures code { IfOk result (λ v. map (resolution.number (names_of self.now.names.now))
            (expr_of first.now ∷ map expr_of rest.now) ≡ map number v.items) }
        ensures error { IfErr result (Told (errors.numbers self.now.label
            (names_of self.now.names.now) (expr_of first.now ∷ map expr_of rest.now))) }
    {
        let mut values = Vec::new(self.alloc);
        let value = self.number(first)?;
        values.push(value)?;
        for expr in rest {
            let value = self.number(expr)?;
            values.push(value)?;
        }
        Ok(values)
    }

    /// Resolves an expression where a number is expected.
    #[cycle(number)]
    pub fn number(&self, e: &Expr) -> Result<Number, TypeError>
        ensures right { OnOk result (errors.number self.now.label (names_of self.now.names.now)
            (expr_of e.now) ≡ []) }
        ensures code { IfOk result (λ n.
            resolution.number (names_of self.now.names.now) (expr_of e.now) ≡ number n) }
        ensures error { IfErr result (Told (errors.number self.now.label
            (names_of self.now.names.now) (expr_of e.now))) }
    {
        if e.rest.is_empty() {
            self.number_conj(&e.first)
        } else {
            Err(TypeError::WrongKind { label: self.label })
        }
    }

    #[cycle(number)]
    fn number_conj(&self, e: &Conj) -> Result<Number, TypeError>
        ensures right { OnOk result (errors.number_conj self.now.label
            (names_of self.now.names.now) (conj_of e.now) ≡ []) }
        ensures code { IfOk result (λ n.
            resolution.number_conj (names_of self.now.names.now) (conj_of e.now) ≡ number n) }
        ensures error { IfErr result (Told (errors.number_conj self.now.label
            (names_of self.now.names.now) (conj_of e.now))) }
    {
        if e.rest.is_empty() {
            self.number_neg(&e.first)
        } else {
            Err(TypeError::WrongKind { label: self.label })
        }
    }

    #[cycle(number)]
    fn number_neg(&self, e: &Neg) -> Result<Number, TypeError>
        ensures right { OnOk result (errors.number_neg self.now.label
            (names_of self.now.names.now) (neg_of e.now) ≡ []) }
        ensures code { IfOk result (λ n.
            resolution.number_neg (names_of self.now.names.now) (neg_of e.now) ≡ number n) }
        ensures error { IfErr result (Told (errors.number_neg self.now.label
            (names_of self.now.names.now) (neg_of e.now))) }
    {
        if e.negated {
            Err(TypeError::WrongKind { label: self.label })
        } else {
            self.number_cmp(&e.comparison)
        }
    }

    #[cycle(number)]
    fn number_cmp(&self, e: &Cmp) -> Result<Number, TypeError>
        ensures right { OnOk result (errors.number_cmp self.now.label
            (names_of self.now.names.now) (cmp_of e.now) ≡ []) }
        ensures code { IfOk result (λ n.
            resolution.number_cmp (names_of self.now.names.now) (cmp_of e.now) ≡ number n) }
        ensures error { IfErr result (Told (errors.number_cmp self.now.label
            (names_of self.now.names.now) (cmp_of e.now))) }
    {
        match &e.right {
            None => self.number_sum(&e.left),
            Some(_) => Err(TypeError::WrongKind { label: self.label }),
        }
    }

    #[cycle(number)]
    fn number_sum(&self, e: &Sum) -> Result<Number, TypeError>
        ensures right { OnOk result (errors.number_sum self.now.label
            (names_of self.now.names.now) (sum_of e.now) ≡ []) }
        ensures code { IfOk result (λ n.
            resolution.number_sum (names_of self.now.names.now) (sum_of e.now) ≡ number n) }
        ensures error { IfErr result (Told (errors.number_sum self.now.label
            (names_of self.now.names.now) (sum_of e.now))) }
    {
        let first = self.number_prod(&e.first)?;
        if e.rest.is_empty() {
            return Ok(first);
        }
        let mut rest = Vec::new(self.alloc);
        for term in &e.rest {
            let operand = self.number_prod(&term.operand)?;
            let operator = of_sign(term.sign);
            rest.push(Link { operator, operand })?;
        }
        let first = Box::new(self.alloc, first)?;
        Ok(Number::Chain { first, rest })
    }

    #[cycle(number)]
    fn number_prod(&self, e: &Prod) -> Result<Number, TypeError>
        ensures right { OnOk result (errors.number_prod self.now.label
            (names_of self.now.names.now) (prod_of e.now) ≡ []) }
        ensures code { IfOk result (λ n.
            resolution.number_prod (names_of self.now.names.now) (prod_of e.now) ≡ number n) }
        ensures error { IfErr result (Told (errors.number_prod self.now.label
            (names_of self.now.names.now) (prod_of e.now))) }
    {
        let first = self.number_unary(&e.first)?;
        if e.rest.is_empty() {
            return Ok(first);
        }
        let mut rest = Vec::new(self.alloc);
        for factor in &e.rest {
            let operand = self.number_unary(&factor.operand)?;
            let operator = of_operator(factor.operator);
            rest.push(Link { operator, operand })?;
        }
        let first = Box::new(self.alloc, first)?;
        Ok(Number::Chain { first, rest })
    }

    #[cycle(number)]
    fn number_unary(&self, e: &Unary) -> Result<Number, TypeError>
        ensures right { OnOk result (errors.number_unary self.now.label
            (names_of self.now.names.now) (unary_of e.now) ≡ []) }
        ensures code { IfOk result (λ n.
            resolution.number_unary (names_of self.now.names.now) (unary_of e.now) ≡ number n) }
        ensures error { IfErr result (Told (errors.number_unary self.now.label
            (names_of self.now.names.now) (unary_of e.now))) }
    {
        let value = self.number_atom(&e.atom)?;
        if e.negative {
            let value = Box::new(self.alloc, value)?;
            Ok(Number::Negative(value))
        } else {
            Ok(value)
        }
    }

    #[cycle(number)]
    fn number_atom(&self, e: &Atom) -> Result<Number, TypeError>
        ensures right { OnOk result (errors.number_atom self.now.label
            (names_of self.now.names.now) (atom_of e.now) ≡ []) }
        ensures code { IfOk result (λ n.
            resolution.number_atom (names_of self.now.names.now) (atom_of e.now) ≡ number n) }
        ensures error { IfErr result (Told (errors.number_atom self.now.label
            (names_of self.now.names.now) (atom_of e.now))) }
    {
        match e {
            Atom::Number(value) => literal(*value),
            Atom::True | Atom::False => Err(TypeError::WrongKind { label: self.label }),
            Atom::Name(name) => {
                let slot = self.scalar(name)?;
                Ok(Number::Scalar { slot })
            }
            Atom::Element { section, index } => {
                let section = self.section(section)?;
                let index = self.number(index)?;
                let index = Box::new(self.alloc, index)?;
                Ok(Number::Element { section, index })
            }
            Atom::Length(section) => {
                let section = self.section(section)?;
                Ok(Number::Length { section })
            }
            Atom::Parens(inner) => self.number(inner),
        }
    }

    /// Resolves an expression where a boolean is expected.
    #[cycle(truth)]
    pub fn truth(&self, e: &Expr) -> Result<Truth, TypeError>
        ensures right { OnOk result (errors.truth self.now.label (names_of self.now.names.now)
            (expr_of e.now) ≡ []) }
        ensures code { IfOk result (λ t.
            resolution.truth (names_of self.now.names.now) (expr_of e.now) ≡ truth t) }
        ensures error { IfErr result (Told (errors.truth self.now.label
            (names_of self.now.names.now) (expr_of e.now))) }
    {
        let first = self.truth_conj(&e.first)?;
        if e.rest.is_empty() {
            return Ok(first);
        }
        let mut parts = Vec::new(self.alloc);
        parts.push(first)?;
        for conj in &e.rest {
            let part = self.truth_conj(conj)?;
            parts.push(part)?;
        }
        Ok(Truth::Either(parts))
    }

    #[cycle(truth)]
    fn truth_conj(&self, e: &Conj) -> Result<Truth, TypeError>
        ensures right { OnOk result (errors.truth_conj self.now.label
            (names_of self.now.names.now) (conj_of e.now) ≡ []) }
        ensures code { IfOk result (λ t.
            resolution.truth_conj (names_of self.now.names.now) (conj_of e.now) ≡ truth t) }
        ensures error { IfErr result (Told (errors.truth_conj self.now.label
            (names_of self.now.names.now) (conj_of e.now))) }
    {
        let first = self.truth_neg(&e.first)?;
        if e.rest.is_empty() {
            return Ok(first);
        }
        let mut parts = Vec::new(self.alloc);
        parts.push(first)?;
        for neg in &e.rest {
            let part = self.truth_neg(neg)?;
            parts.push(part)?;
        }
        Ok(Truth::Both(parts))
    }

    #[cycle(truth)]
    fn truth_neg(&self, e: &Neg) -> Result<Truth, TypeError>
        ensures right { OnOk result (errors.truth_neg self.now.label
            (names_of self.now.names.now) (neg_of e.now) ≡ []) }
        ensures code { IfOk result (λ t.
            resolution.truth_neg (names_of self.now.names.now) (neg_of e.now) ≡ truth t) }
        ensures error { IfErr result (Told (errors.truth_neg self.now.label
            (names_of self.now.names.now) (neg_of e.now))) }
    {
        let value = self.truth_cmp(&e.comparison)?;
        if e.negated {
            let value = Box::new(self.alloc, value)?;
            Ok(Truth::Not(value))
        } else {
            Ok(value)
        }
    }

    #[cycle(truth)]
    fn truth_cmp(&self, e: &Cmp) -> Result<Truth, TypeError>
        ensures right { OnOk result (errors.truth_cmp self.now.label
            (names_of self.now.names.now) (cmp_of e.now) ≡ []) }
        ensures code { IfOk result (λ t.
            resolution.truth_cmp (names_of self.now.names.now) (cmp_of e.now) ≡ truth t) }
        ensures error { IfErr result (Told (errors.truth_cmp self.now.label
            (names_of self.now.names.now) (cmp_of e.now))) }
    {
        match &e.right {
            None => self.truth_sum(&e.left),
            Some(compared) => {
                let left = self.number_sum(&e.left)?;
                let right = self.number_sum(&compared.right)?;
                Ok(Truth::Compare {
                    relation: compared.relation,
                    left,
                    right,
                })
            }
        }
    }

    #[cycle(truth)]
    fn truth_sum(&self, e: &Sum) -> Result<Truth, TypeError>
        ensures right { OnOk result (errors.truth_sum self.now.label
            (names_of self.now.names.now) (sum_of e.now) ≡ []) }
        ensures code { IfOk result (λ t.
            resolution.truth_sum (names_of self.now.names.now) (sum_of e.now) ≡ truth t) }
        ensures error { IfErr result (Told (errors.truth_sum self.now.label
            (names_of self.now.names.now) (sum_of e.now))) }
    {
        if e.rest.is_empty() {
            self.truth_prod(&e.first)
        } else {
            Err(TypeError::WrongKind { label: self.label })
        }
    }

    #[cycle(truth)]
    fn truth_prod(&self, e: &Prod) -> Result<Truth, TypeError>
        ensures right { OnOk result (errors.truth_prod self.now.label
            (names_of self.now.names.now) (prod_of e.now) ≡ []) }
        ensures code { IfOk result (λ t.
            resolution.truth_prod (names_of self.now.names.now) (prod_of e.now) ≡ truth t) }
        ensures error { IfErr result (Told (errors.truth_prod self.now.label
            (names_of self.now.names.now) (prod_of e.now))) }
    {
        if e.rest.is_empty() {
            self.truth_unary(&e.first)
        } else {
            Err(TypeError::WrongKind { label: self.label })
        }
    }

    #[cycle(truth)]
    fn truth_unary(&self, e: &Unary) -> Result<Truth, TypeError>
        ensures right { OnOk result (errors.truth_unary self.now.label
            (names_of self.now.names.now) (unary_of e.now) ≡ []) }
        ensures code { IfOk result (λ t.
            resolution.truth_unary (names_of self.now.names.now) (unary_of e.now) ≡ truth t) }
        ensures error { IfErr result (Told (errors.truth_unary self.now.label
            (names_of self.now.names.now) (unary_of e.now))) }
    {
        if e.negative {
            Err(TypeError::WrongKind { label: self.label })
        } else {
            self.truth_atom(&e.atom)
        }
    }

    #[cycle(truth)]
    fn truth_atom(&self, e: &Atom) -> Result<Truth, TypeError>
        ensures right { OnOk result (errors.truth_atom self.now.label
            (names_of self.now.names.now) (atom_of e.now) ≡ []) }
        ensures code { IfOk result (λ t.
            resolution.truth_atom (names_of self.now.names.now) (atom_of e.now) ≡ truth t) }
        ensures error { IfErr result (Told (errors.truth_atom self.now.label
            (names_of self.now.names.now) (atom_of e.now))) }
    {
        match e {
            Atom::True => Ok(Truth::Constant(true)),
            Atom::False => Ok(Truth::Constant(false)),
            Atom::Parens(inner) => self.truth(inner),
            Atom::Number(_) => Err(TypeError::WrongKind { label: self.label }),
            Atom::Name(_) => Err(TypeError::WrongKind { label: self.label }),
            Atom::Element { .. } => Err(TypeError::WrongKind { label: self.label }),
            Atom::Length(_) => Err(TypeError::WrongKind { label: self.label }),
        }
    }

    /// Returns the section with a name.
    pub fn section(&self, name: &String) -> Result<SectionId, TypeError>
        ensures right { OnOk result (naming_section self.now.label
            (meant (string_bytes name.now) (names_of self.now.names.now)) ≡ []) }
        ensures meaning { IfOk result (λ s.
            meant (string_bytes name.now) (names_of self.now.names.now) ≡ Some (ASection s.number)) }
        ensures error { IfErr result (Told (naming_section self.now.label
            (meant (string_bytes name.now) (names_of self.now.names.now)))) }
    {
        match self.names.meaning(name) {
            Some(Meaning::Section(section)) => Ok(section),
            Some(Meaning::Scalar(_)) => Err(TypeError::WrongKind { label: self.label }),
            None => Err(TypeError::NotInScope { label: self.label }),
        }
    }

    /// Returns the slot of the scalar with a name.
    pub fn scalar(&self, name: &String) -> Result<Slot, TypeError>
        ensures right { OnOk result (naming_scalar self.now.label
            (meant (string_bytes name.now) (names_of self.now.names.now)) ≡ []) }
        ensures meaning { IfOk result (λ k.
            meant (string_bytes name.now) (names_of self.now.names.now) ≡ Some (AScalar k.number)) }
        ensures error { IfErr result (Told (naming_scalar self.now.label
            (meant (string_bytes name.now) (names_of self.now.names.now)))) }
    {
        match self.names.meaning(name) {
            Some(Meaning::Scalar(slot)) => Ok(slot),
            Some(Meaning::Section(_)) => Err(TypeError::WrongKind { label: self.label }),
            None => Err(TypeError::NotInScope { label: self.label }),
        }
    }
}

/// Returns a literal, if the number fits in a signed 64-bit integer. Each number that a text spells
/// does.
fn literal(value: u64) -> Result<Number, TypeError>
    ensures right { OnOk result (errors.literal value ≡ []) }
    ensures code { IfOk result (λ n. Literal (pos value) ≡ number n) }
    ensures error { IfErr result (Told (errors.literal value)) }
{
    match i64::try_from(value) {
        Ok(value) => Ok(Number::Literal(value)),
        Err(_) => Err(TypeError::OverLimit),
    }
}

/// Returns the operator of a sign.
fn of_sign(sign: Sign) -> Operator
    ensures { result ≡ resolution.sign sign }
{
    match sign {
        Sign::Plus => Operator::Plus,
        Sign::Minus => Operator::Minus,
    }
}

/// Returns the operator of a product.
fn of_operator(operator: tree::Operator) -> Operator
    ensures { result ≡ resolution.factor operator }
{
    match operator {
        tree::Operator::Times => Operator::Times,
        tree::Operator::Over => Operator::Over,
        tree::Operator::Modulo => Operator::Modulo,
    }
}
