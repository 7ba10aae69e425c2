//! Calls: finding the procedure by its name, and checking the arguments.

#![tactic(auto, using(crate::proofs::Telling::telling))]

ghost use Rattle.std.specs.Prelude.{◌≡◌, [], ◌∷◌, ◌++◌, map, OnOk, IfOk, IfErr, Some, ◌<◌, length, All};
ghost use Rattle.std.specs.List.{list_any};
ghost use Rattle.std.specs.String.{string_bytes};
ghost use Rattle.sections.specs.Translation.{section as section_as};
ghost use Rattle.sections.specs.Tree.{origins_of};
ghost use Rattle.syntax_tree.specs.Tree.{expr as expr_of, parameter as parameter_of};
ghost use Rattle.syntax_tree.specs.Tree.{atom as atom_of, lone_atom};
ghost use Rattle.types.specs.CallErrors as errors;
ghost use Rattle.types.specs.Resolution as resolution;
ghost use Rattle.types.specs.Resolving.{names_of, scope_of, passed_by, procedures_of, IsWellScoped};
ghost use Rattle.types.specs.Scope.{ASection, meant};
ghost use Rattle.types.specs.Told.{Told};
ghost use Rattle.types.specs.Translation.{number, code, parameter as parameter_in};

use crate::check::expressions::Expressions;
use crate::check::names::Meaning;
use crate::check::procedures::Procedures;
use crate::check::scope::NameScope;
use crate::code::{Number, SectionParameter, StmtKind};
use crate::error::TypeError;
use sections::id::SectionId;
use sections::tree::SectionTree;
use std::alloc::Global;
use syntax_tree::tree;
use syntax_tree::tree::{Atom, Expr};

/// Resolves a call in the statement that starts here.
pub fn call(
    alloc: Global,
    procedures: &Procedures<'_>,
    scope: &NameScope,
    name: &String,
    arguments: &[Expr],
) -> Result<StmtKind, TypeError>
    requires { IsWellScoped (scope_of scope.now) }
    ensures right { OnOk result (errors.calling scope.now.label (scope_of scope.now)
        (resolution.procedure_of 0 (string_bytes name.now) (procedures_of procedures.now))
        (map expr_of arguments.now) ≡ []) }
    ensures code { IfOk result (λ k. resolution.call (procedures_of procedures.now)
        (names_of scope.now.names)
        (resolution.procedure_of 0 (string_bytes name.now) (procedures_of procedures.now))
        (map expr_of arguments.now) ≡ code k) }
    ensures error { IfErr result (Told (errors.calling scope.now.label (scope_of scope.now)
        (resolution.procedure_of 0 (string_bytes name.now) (procedures_of procedures.now))
        (map expr_of arguments.now))) }
{
    let label = scope.label;
    let Some((procedure, parameters)) = procedures.find(name) else {
        return Err(TypeError::NotInScope { label });
    };
    let given = gathered(alloc, scope, parameters, arguments)?;
    if overlapping(&scope.sections, given.passed.as_slice()) {
        return Err(TypeError::Overlapping { label });
    }
    Ok(StmtKind::Call {
        procedure,
        values: given.values,
        sections: given.sections,
    })
}

/// A section argument.
#[derive(Clone, Copy)]
pub struct Passed {
    pub section: SectionId,
    pub may_write: bool,
}

/// The arguments of a call.
#[derive(Drop)]
struct Given {
    values: Vec<Number>,
    sections: Vec<SectionId>,
    passed: Vec<Passed>,
}

/// Resolves the arguments of a call. There must be as many as parameters.
fn gathered(
    alloc: Global,
    scope: &NameScope,
    parameters: &[tree::Parameter],
    arguments: &[Expr],
) -> Result<Given, TypeError>
    ensures right { OnOk result (errors.arguments scope.now.label (scope_of scope.now)
        (map parameter_of parameters.now) (map expr_of arguments.now) ≡ []) }
    ensures values { IfOk result (λ g. resolution.values_for (names_of scope.now.names)
        (map parameter_of parameters.now) (map expr_of arguments.now) ≡ map number g.values.items) }
    ensures sections { IfOk result (λ g. resolution.sections_for (names_of scope.now.names)
        (map parameter_of parameters.now) (map expr_of arguments.now)
        ≡ map section_as g.sections.items) }
    ensures passed { IfOk result (λ g. errors.passed (names_of scope.now.names)
        (map parameter_of parameters.now) (map expr_of arguments.now)
        ≡ map passed_by g.passed.items) }
    ensures error { IfErr result (Told (errors.arguments scope.now.label (scope_of scope.now)
        (map parameter_of parameters.now) (map expr_of arguments.now))) }
{
    let label = scope.label;
    let mut given = Given {
        values: Vec::new(alloc),
        sections: Vec::new(alloc),
        passed: Vec::new(alloc),
    };
    let mut rest = arguments;
    for parameter in parameters {
        match rest.split_first() {
            None => return Err(TypeError::WrongArguments { label }),
            Some((argument, others)) => {
                given.take(alloc, scope, parameter, argument)?;
                rest = others;
            }
        }
    }
    if !rest.is_empty() {
        return Err(TypeError::WrongArguments { label });
    }
    Ok(given)
}

impl Given {
    /// Adds one more argument.
    fn take(
        &mut self,
        alloc: Global,
        scope: &NameScope,
        parameter: &tree::Parameter,
        argument: &Expr,
    ) -> Result<(), TypeError>
        ensures right { OnOk result (errors.argument scope.now.label (scope_of scope.now)
            (parameter_of parameter.now) (expr_of argument.now) ≡ []) }
        ensures values { OnOk result (map number self.new.values.items
            ≡ map number self.old.values.items ++ resolution.values_for (names_of scope.now.names)
            (parameter_of parameter.now ∷ []) (expr_of argument.now ∷ [])) }
        ensures sections { OnOk result (map section_as self.new.sections.items
            ≡ map section_as self.old.sections.items
            ++ resolution.sections_for (names_of scope.now.names)
            (parameter_of parameter.now ∷ []) (expr_of argument.now ∷ [])) }
        ensures passed { OnOk result (map passed_by self.new.passed.items
            ≡ map passed_by self.old.passed.items ++ errors.passed (names_of scope.now.names)
            (parameter_of parameter.now ∷ []) (expr_of argument.now ∷ [])) }
        ensures error { IfErr result (Told (errors.argument scope.now.label (scope_of scope.now)
            (parameter_of parameter.now) (expr_of argument.now))) }
    {
        match parameter {
            tree::Parameter::Written { element, .. } => {
                let kind = SectionParameter {
                    may_write: true,
                    element: *element,
                };
                self.pass(scope, kind, argument)
            }
            tree::Parameter::Read { element, .. } => {
                let kind = SectionParameter {
                    may_write: false,
                    element: *element,
                };
                self.pass(scope, kind, argument)
            }
            tree::Parameter::Scalar { .. } => {
                let expressions = Expressions {
                    alloc,
                    label: scope.label,
                    names: &scope.names,
                };
                let value = expressions.number(argument)?;
                self.values.push(value)?;
                Ok(())
            }
        }
    }

    /// Adds one more section argument.
    fn pass(
        &mut self,
        scope: &NameScope,
        kind: SectionParameter,
        argument: &Expr,
    ) -> Result<(), TypeError>
        ensures right { OnOk result (errors.passing_atom scope.now.label (scope_of scope.now)
            (parameter_in kind) (lone_atom (expr_of argument.now)) ≡ []) }
        ensures values { self.new.values ≡ self.old.values }
        ensures sections { OnOk result (map section_as self.new.sections.items
            ≡ map section_as self.old.sections.items
            ++ resolution.named_by (names_of scope.now.names)
            (lone_atom (expr_of argument.now)) ∷ []) }
        ensures passed { OnOk result (map passed_by self.new.passed.items
            ≡ map passed_by self.old.passed.items ++ errors.and_named (names_of scope.now.names)
            (lone_atom (expr_of argument.now)) kind.may_write []) }
        ensures error { IfErr result (Told (errors.passing_atom scope.now.label
            (scope_of scope.now) (parameter_in kind) (lone_atom (expr_of argument.now)))) }
    {
        let section = argument_section(scope, kind, argument)?;
        self.sections.push(section)?;
        self.passed.push(Passed {
            section,
            may_write: kind.may_write,
        })?;
        Ok(())
    }
}

/// Returns the section that is passed for a parameter of this kind.
fn argument_section(
    scope: &NameScope,
    kind: SectionParameter,
    argument: &Expr,
) -> Result<SectionId, TypeError>
    ensures right { OnOk result (errors.passing_atom scope.now.label (scope_of scope.now)
        (parameter_in kind) (lone_atom (expr_of argument.now)) ≡ []) }
    ensures named { IfOk result (λ s. errors.and_named (names_of scope.now.names)
        (lone_atom (expr_of argument.now)) kind.may_write []
        ≡ (s.number, kind.may_write) ∷ []) }
    ensures section { IfOk result (λ s. resolution.named_by (names_of scope.now.names)
        (lone_atom (expr_of argument.now)) ≡ s.number) }
    ensures error { IfErr result (Told (errors.passing_atom scope.now.label (scope_of scope.now)
        (parameter_in kind) (lone_atom (expr_of argument.now)))) }
{
    match argument.as_atom() {
        Some(atom) => atom_section(scope, kind, atom),
        None => Err(TypeError::WrongArguments { label: scope.label }),
    }
}

#[tactic(auto, using(crate::proofs::Telling::told_alone), unfolding(syntax_tree::specs::Tree::atom))]
fn atom_section(
    scope: &NameScope,
    kind: SectionParameter,
    atom: &Atom,
) -> Result<SectionId, TypeError>
    ensures right { OnOk result (errors.passing_atom scope.now.label (scope_of scope.now)
        (parameter_in kind) (Some (atom_of atom.now)) ≡ []) }
    ensures named { IfOk result (λ s. errors.and_named (names_of scope.now.names)
        (Some (atom_of atom.now)) kind.may_write [] ≡ (s.number, kind.may_write) ∷ []) }
    ensures section { IfOk result (λ s. resolution.named_by (names_of scope.now.names)
        (Some (atom_of atom.now)) ≡ s.number) }
    ensures error { IfErr result (Told (errors.passing_atom scope.now.label (scope_of scope.now)
        (parameter_in kind) (Some (atom_of atom.now)))) }
{
    let label = scope.label;
    match atom {
        Atom::Name(name) => named_section(scope, kind, name),
        Atom::Number(_) => Err(TypeError::WrongArguments { label }),
        Atom::True => Err(TypeError::WrongArguments { label }),
        Atom::False => Err(TypeError::WrongArguments { label }),
        Atom::Element { .. } => Err(TypeError::WrongArguments { label }),
        Atom::Length(_) => Err(TypeError::WrongArguments { label }),
        Atom::Parens(_) => Err(TypeError::WrongArguments { label }),
    }
}

fn named_section(
    scope: &NameScope,
    kind: SectionParameter,
    name: &String,
) -> Result<SectionId, TypeError>
    ensures right { OnOk result (errors.passing_named scope.now.label (scope_of scope.now)
        (parameter_in kind) (meant (string_bytes name.now) (names_of scope.now.names)) ≡ []) }
    ensures meaning { IfOk result (λ s. meant (string_bytes name.now) (names_of scope.now.names)
        ≡ Some (ASection s.number)) }
    ensures error { IfErr result (Told (errors.passing_named scope.now.label
        (scope_of scope.now) (parameter_in kind)
        (meant (string_bytes name.now) (names_of scope.now.names)))) }
{
    let label = scope.label;
    match scope.names.meaning(name) {
        None => Err(TypeError::NotInScope { label }),
        Some(Meaning::Scalar(_)) => Err(TypeError::WrongArguments { label }),
        Some(Meaning::Section(section)) => {
            let there = scope.kind(section);
            if kind.element != there.element {
                return Err(TypeError::WrongArguments { label });
            }
            if kind.may_write && !there.may_write {
                return Err(TypeError::ReadOnly { label });
            }
            Ok(section)
        }
    }
}

/// Returns whether two arguments overlap of which at least one may be written.
fn overlapping(sections: &SectionTree, passed: &[Passed]) -> bool
    requires { All (λ p. p.0 < length (origins_of sections.now)) (map passed_by passed.now) }
    ensures { result ≡ errors.overlapping (origins_of sections.now) (map passed_by passed.now) }
{
    let mut rest = passed;
    while let Some((one, later)) = rest.split_first() {
        if clashes(sections, *one, later) {
            return true;
        }
        rest = later;
    }
    false
}

/// Returns whether an argument overlaps a later one, and at least one of the two may be written.
fn clashes(sections: &SectionTree, one: Passed, later: &[Passed]) -> bool
    requires one { one.section.number < length (origins_of sections.now) }
    requires later { All (λ p. p.0 < length (origins_of sections.now)) (map passed_by later.now) }
    ensures { result ≡ list_any (errors.clash (origins_of sections.now) (passed_by one))
        (map passed_by later.now) }
{
    for other in later {
        if clash(sections, one, *other) {
            return true;
        }
    }
    false
}

fn clash(sections: &SectionTree, one: Passed, other: Passed) -> bool
    requires one { one.section.number < length (origins_of sections.now) }
    requires other { other.section.number < length (origins_of sections.now) }
    ensures { result ≡ errors.clash (origins_of sections.now) (passed_by one) (passed_by other) }
{
    (one.may_write || other.may_write) && sections.overlap(one.section, other.section)
}
