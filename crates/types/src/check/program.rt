//! Procedures and `main`.

#![tactic(auto, using(crate::proofs::Telling::telling))]

ghost use Rattle.std.specs.Prelude.{◌≡◌, [], ◌≤◌, ◌+◌, map, OnOk, IfOk, IfErr, length};
ghost use Rattle.std.specs.Prelude.{sum_by, Some, None, codes};
ghost use Rattle.std.specs.String.{string_bytes};
ghost use Rattle.syntax_tree.specs.Tree.{block as block_of, procedure as procedure_as};
ghost use Rattle.syntax_tree.specs.Tree.{parameter as parameter_of, array as array_of, main as main_of};
ghost use Rattle.types.specs.NameErrors.{declaring};
ghost use Rattle.types.specs.Resolution.{array as array_at, resolved as resolved_at};
ghost use Rattle.types.specs.Resolution.{procedures as procedures_at, label_behind, label_behind_all};
ghost use Rattle.types.specs.Resolving.{scope_of, procedures_of, IsWellScoped};
ghost use Rattle.types.specs.Rules.{errors, limit as over, parameter_errors, array_errors, procedure_errors};
ghost use Rattle.types.specs.Rules.{procedures_errors, main_errors, name_of};
ghost use Rattle.types.specs.Scope.{meant, after, empty_scope, in_procedure, in_main, with_parameter};
ghost use Rattle.types.specs.Told.{Told};
ghost use Rattle.types.specs.Translation.{array, procedure};

use crate::check::limits::{MOST_ARRAYS, MOST_PARAMETERS, limit};
use crate::check::scope::NameScope;
use crate::check::statements::Statements;
use crate::code::{Array, Label, Procedure, SectionParameter};
use crate::error::TypeError;
use sections::window::MOST_ELEMENTS;
use std::alloc::Global;
use syntax_tree::tree;

/// Resolves procedures in the order of the text. The label is that of the next statement.
pub fn resolve_procedures(
    statements: &Statements<'_>,
    label: &mut Label,
    declared: &[tree::Procedure],
) -> Result<Vec<Procedure>, TypeError>
    requires { label.old ≤ 65536 }
    ensures within { label.new ≤ 65536 }
    ensures label { OnOk result
        (label.new ≡ label_behind_all label.old (map procedure_as declared.now)) }
    ensures right { OnOk result (procedures_errors (procedures_of statements.now.procedures)
        label.old (map procedure_as declared.now) ≡ []) }
    ensures code { IfOk result (λ v. procedures_at (procedures_of statements.now.procedures)
        label.old (map procedure_as declared.now) ≡ map procedure v.items) }
    ensures error { IfErr result (Told (procedures_errors
        (procedures_of statements.now.procedures) label.old (map procedure_as declared.now))) }
{
    let mut procedures = Vec::new(statements.alloc);
    for procedure in declared {
        let procedure = resolve_procedure(statements, label, procedure)?;
        procedures.push(procedure)?;
    }
    Ok(procedures)
}

/// Resolves a procedure: its parameters, then its statements.
fn resolve_procedure(
    statements: &Statements<'_>,
    label: &mut Label,
    declared: &tree::Procedure,
) -> Result<Procedure, TypeError>
    requires { label.old ≤ 65536 }
    ensures within { label.new ≤ 65536 }
    ensures label { OnOk result (label.new ≡ label_behind label.old (procedure_as declared.now)) }
    ensures right { OnOk result (procedure_errors (procedures_of statements.now.procedures)
        label.old (procedure_as declared.now) ≡ []) }
    ensures code { IfOk result (λ p. resolved_at (procedures_of statements.now.procedures)
        (string_bytes declared.now.name)
        (in_procedure label.old (map parameter_of declared.now.parameters.items))
        (block_of declared.now.body.items) ≡ procedure p) }
    ensures error { IfErr result (Told (procedure_errors
        (procedures_of statements.now.procedures) label.old (procedure_as declared.now))) }
{
    let parameters = declared.parameters.as_slice();
    limit(MOST_PARAMETERS, parameters.len())?;
    let scope = at_procedure(statements.alloc, *label, parameters)?;
    let name = declared.name.clone()?;
    resolved(statements, label, scope, name, declared.body.as_slice())
}

/// Returns the scope in which the body of a procedure with these parameters starts.
fn at_procedure(
    alloc: Global,
    label: Label,
    parameters: &[tree::Parameter],
) -> Result<NameScope, TypeError>
    requires { length parameters.now ≤ 16 }
    ensures place { IfOk result
        (λ s. scope_of s ≡ in_procedure label (map parameter_of parameters.now)) }
    ensures right { OnOk result
        (parameter_errors (empty_scope label) (map parameter_of parameters.now) ≡ []) }
    ensures error { IfErr result
        (Told (parameter_errors (empty_scope label) (map parameter_of parameters.now))) }
{
    let mut scope = NameScope::new(alloc, label);
    for parameter in parameters {
        declare(&mut scope, parameter)?;
    }
    Ok(scope)
}

/// Declares a parameter.
fn declare(scope: &mut NameScope, parameter: &tree::Parameter) -> Result<(), TypeError>
    requires { scope.old.slots ≤ 16 + scope.old.label }
    ensures place { OnOk result
        (scope_of scope.new ≡ with_parameter (parameter_of parameter.now) (scope_of scope.old)) }
    ensures right { OnOk result (declaring None
        (meant (name_of (parameter_of parameter.now)) (scope_of scope.old).names) ≡ []) }
    ensures slots { OnOk result (scope.new.slots ≤ scope.old.slots + 1) }
    ensures error { IfErr result (Told (declaring None
        (meant (name_of (parameter_of parameter.now)) (scope_of scope.old).names))) }
{
    match parameter {
        tree::Parameter::Written { name, element } => {
            let kind = SectionParameter {
                may_write: true,
                element: *element,
            };
            scope.root(name, kind)
        }
        tree::Parameter::Read { name, element } => {
            let kind = SectionParameter {
                may_write: false,
                element: *element,
            };
            scope.root(name, kind)
        }
        tree::Parameter::Scalar { name } => scope.scalar(None, name),
    }
}

/// Resolves the procedure with this name, or `main`, whose body starts in this scope. Advances the
/// label past its statements.
fn resolved(
    statements: &Statements<'_>,
    label: &mut Label,
    scope: NameScope,
    name: String,
    body: &[tree::Stmt],
) -> Result<Procedure, TypeError>
    requires scoped { IsWellScoped (scope_of scope) }
    requires label { label.old ≤ 65536 }
    requires same { scope.label ≡ label.old }
    ensures within { label.new ≤ 65536 }
    ensures label { OnOk result (label.new ≡ (after (block_of body.now) (scope_of scope)).label) }
    ensures right { OnOk result (errors (procedures_of statements.now.procedures)
        (scope_of scope) (block_of body.now) ≡ []) }
    ensures code { IfOk result (λ p. resolved_at (procedures_of statements.now.procedures)
        (string_bytes name) (scope_of scope) (block_of body.now) ≡ procedure p) }
    ensures error { IfErr result (Told (errors (procedures_of statements.now.procedures)
        (scope_of scope) (block_of body.now))) }
{
    let mut scope = scope;
    let parameters = scope.kinds.clone()?;
    let scalars = scope.slots;
    let body = statements.block(&mut scope, body)?;
    *label = scope.label;
    Ok(Procedure {
        name,
        parameters,
        scalars,
        slots: scope.slots,
        sections: scope.sections,
        section_names: scope.section_names,
        body,
    })
}

/// Resolves `main`, whose first statement has the label: its arrays, then its statements.
pub fn resolve_main(
    statements: &Statements<'_>,
    label: Label,
    main: &tree::Main,
) -> Result<(Vec<Array>, Procedure), TypeError>
    requires { label ≤ 65536 }
    ensures right { OnOk result (main_errors (procedures_of statements.now.procedures) label
        (Some (main_of main.now)) ≡ []) }
    ensures arrays { IfOk result
        (λ p. map array_at (map array_of main.now.arrays.items) ≡ map array p.0.items) }
    ensures code { IfOk result (λ p. resolved_at (procedures_of statements.now.procedures)
        (codes "main") (in_main label (map array_of main.now.arrays.items))
        (block_of main.now.body.items) ≡ procedure p.1) }
    ensures error { IfErr result (Told (main_errors (procedures_of statements.now.procedures)
        label (Some (main_of main.now)))) }
{
    let declared = main.arrays.as_slice();
    limit(MOST_ARRAYS, declared.len())?;
    let arrays = resolve_arrays(statements.alloc, declared)?;
    let scope = at_main(statements.alloc, label, declared)?;
    let name = "main".to_string(statements.alloc)?;
    let mut behind = label;
    let main = resolved(statements, &mut behind, scope, name, main.body.as_slice())?;
    Ok((arrays, main))
}

/// Resolves the declared arrays, which together must not be too large.
fn resolve_arrays(alloc: Global, arrays: &[tree::Array]) -> Result<Vec<Array>, TypeError>
    ensures arrays { IfOk result
        (λ v. map array_at (map array_of arrays.now) ≡ map array v.items) }
    ensures right { OnOk result
        (over 4194304 (sum_by (λ a. a.length) (map array_of arrays.now)) ≡ []) }
    ensures error { IfErr result
        (Told (over 4194304 (sum_by (λ a. a.length) (map array_of arrays.now)))) }
{
    let mut resolved = Vec::new(alloc);
    let mut left = MOST_ELEMENTS;
    for array in arrays {
        let length = match usize::try_from(array.length) {
            Ok(length) if length <= left => length,
            _ => return Err(TypeError::OverLimit),
        };
        left -= length;
        let name = array.name.clone()?;
        resolved.push(Array {
            name,
            element: array.element,
            length,
        })?;
    }
    Ok(resolved)
}

/// Returns the scope in which the body of `main` starts.
fn at_main(alloc: Global, label: Label, arrays: &[tree::Array]) -> Result<NameScope, TypeError>
    ensures place { IfOk result (λ s. scope_of s ≡ in_main label (map array_of arrays.now)) }
    ensures right { OnOk result
        (array_errors (empty_scope label) (map array_of arrays.now) ≡ []) }
    ensures error { IfErr result
        (Told (array_errors (empty_scope label) (map array_of arrays.now))) }
{
    let mut scope = NameScope::new(alloc, label);
    for array in arrays {
        let kind = SectionParameter {
            may_write: true,
            element: array.element,
        };
        scope.root(&array.name, kind)?;
    }
    Ok(scope)
}
