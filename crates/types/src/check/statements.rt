//! Statements and blocks.

#![tactic(auto, using(crate::proofs::Telling::telling))]

ghost use Rattle.std.specs.Prelude.{◌≡◌, [], ◌∷◌, ◌++◌, ◌≤◌, map, OnOk, IfOk, IfErr, Some};
ghost use Rattle.std.specs.String.{string_bytes};
ghost use Rattle.syntax_tree.specs.Tree.{block as block_of, stmt as stmt_of, expr as expr_of, Var, Assign};
ghost use Rattle.syntax_tree.specs.Tree.{Store, Print, Fault, If, IfElse, While, Split, Parts, Call, Async};
ghost use Rattle.syntax_tree.specs.Tree.{Finish, Rescue};
ghost use Rattle.types.specs.Resolution.{code as code_at, codes as codes_at, number as number_at};
ghost use Rattle.types.specs.Resolution.{truth as truth_at};
ghost use Rattle.types.specs.ExpressionErrors.{number as number_errors, numbers as numbers_errors};
ghost use Rattle.types.specs.ExpressionErrors.{truth as truth_errors};
ghost use Rattle.types.specs.NameErrors.{naming_section, naming_written, naming_assigned};
ghost use Rattle.types.specs.Resolving.{scope_of, names_of, procedures_of, left as left_by};
ghost use Rattle.types.specs.Resolving.{IsWellScoped, Resolves};
ghost use Rattle.types.specs.Rules.{errors, errors_in, limit as over};
ghost use Rattle.types.specs.Scope.{ASection, AScalar, meant, behind, after};
ghost use Rattle.types.specs.Told.{Told};
ghost use Rattle.types.specs.Translation.{number, truth, code, codes};

use crate::check::calls;
use crate::check::expressions::Expressions;
use crate::check::limits::MOST_LABELS;
use crate::check::names::Meaning;
use crate::check::procedures::Procedures;
use crate::check::scope::{BlockMark, NameScope};
use crate::code::{Number, Pieces, Primitive, Sides, Stmt, StmtKind, Truth};
use crate::error::TypeError;
use crate::ids::Slot;
use sections::id::SectionId;
use std::alloc::Global;
use syntax_tree::tree;
use syntax_tree::tree::Expr;

/// The resolver of statements, which can call these procedures.
#[derive(Drop)]
pub struct Statements<'p> {
    pub alloc: Global,
    pub procedures: Procedures<'p>,
}

impl Statements<'_> {
    /// Resolves the statements of a block. The names that they declare stay in scope.
    #[cycle(statement)]
    pub fn block(&self, scope: &mut NameScope, block: &[tree::Stmt]) -> Result<Vec<Stmt>, TypeError>
        requires { IsWellScoped (scope_of scope.old) }
        ensures place { OnOk result
            (scope_of scope.new ≡ after (block_of block.now) (scope_of scope.old)) }
        ensures right { OnOk result (errors (procedures_of self.now.procedures)
            (scope_of scope.old) (block_of block.now) ≡ []) }
        ensures code { IfOk result (λ v. codes_at (procedures_of self.now.procedures)
            (scope_of scope.old) (block_of block.now) ≡ codes v.items) }
        ensures error { IfErr result (Told (errors (procedures_of self.now.procedures)
            (scope_of scope.old) (block_of block.now))) }
    {
        let mut resolved = Vec::new(self.alloc);
        for stmt in block {
            let stmt = self.statement(scope, stmt)?;
            resolved.push(stmt)?;
        }
        Ok(resolved)
    }

    /// Resolves the statements of a block, then restores the scope of the mark.
    #[cycle(statement)]
    fn inside(
        &self,
        scope: &mut NameScope,
        mark: BlockMark,
        block: &[tree::Stmt],
    ) -> Result<Vec<Stmt>, TypeError>
        requires { IsWellScoped (scope_of scope.old) }
        ensures place { OnOk result (scope_of scope.new
            ≡ left_by mark.names mark.outside (after (block_of block.now) (scope_of scope.old))) }
        ensures right { OnOk result (errors (procedures_of self.now.procedures)
            (scope_of scope.old) (block_of block.now) ≡ []) }
        ensures code { IfOk result (λ v. codes_at (procedures_of self.now.procedures)
            (scope_of scope.old) (block_of block.now) ≡ codes v.items) }
        ensures error { IfErr result (Told (errors (procedures_of self.now.procedures)
            (scope_of scope.old) (block_of block.now))) }
    {
        let resolved = self.block(scope, block)?;
        scope.leave(mark);
        Ok(resolved)
    }

    /// Resolves a statement, which gets the next label.
    #[cycle(statement)]
    fn statement(&self, scope: &mut NameScope, stmt: &tree::Stmt) -> Result<Stmt, TypeError>
        requires { IsWellScoped (scope_of scope.old) }
        ensures place { OnOk result
            (scope_of scope.new ≡ behind (stmt_of stmt.now) (scope_of scope.old)) }
        ensures right { OnOk result (over 65535 scope.old.label
            ++ errors_in (procedures_of self.now.procedures) (scope_of scope.old)
            (stmt_of stmt.now) ≡ []) }
        ensures label { IfOk result (λ s. s.label ≡ scope.old.label) }
        ensures code { IfOk result (λ s. code_at (procedures_of self.now.procedures)
            (scope_of scope.old) (stmt_of stmt.now) ≡ code s.kind) }
        ensures error { IfErr result (Told (over 65535 scope.old.label
            ++ errors_in (procedures_of self.now.procedures) (scope_of scope.old)
            (stmt_of stmt.now))) }
    {
        let label = scope.label;
        if label > MOST_LABELS {
            return Err(TypeError::OverLimit);
        }
        let kind = self.kind(scope, stmt)?;
        Ok(Stmt { label, kind })
    }

    /// Resolves what a statement does.
    #[cycle(statement)]
    fn kind(&self, scope: &mut NameScope, stmt: &tree::Stmt) -> Result<StmtKind, TypeError>
        requires scoped { IsWellScoped (scope_of scope.old) }
        requires label { scope.old.label ≤ 65535 }
        ensures ok { IfOk result (λ k. Resolves (procedures_of self.now.procedures)
            (scope_of scope.old) (stmt_of stmt.now) k (scope_of scope.new)) }
        ensures error { IfErr result (Told (errors_in (procedures_of self.now.procedures)
            (scope_of scope.old) (stmt_of stmt.now))) }
    {
        match stmt {
            tree::Stmt::Skip => {
                scope.step();
                Ok(StmtKind::Do(Primitive::Skip))
            }
            tree::Stmt::Var { name, value } => self.var(scope, name, value),
            tree::Stmt::Assign { name, value } => self.assign(scope, name, value),
            tree::Stmt::Store {
                section,
                index,
                value,
            } => self.store(scope, section, index, value),
            tree::Stmt::Print { first, rest } => self.print(scope, first, rest),
            tree::Stmt::Fault { value } => self.fault(scope, value),
            tree::Stmt::If { guard, body, other } => match other {
                None => self.if_alone(scope, guard, body),
                Some(other) => self.if_else(scope, guard, body, other),
            },
            tree::Stmt::While { guard, body } => self.while_loop(scope, guard, body),
            tree::Stmt::Split {
                section,
                at,
                left,
                right,
                body,
            } => self.split(scope, section, at, left, right, body),
            tree::Stmt::Parts {
                section,
                size,
                piece,
                turn,
                body,
            } => self.parts(scope, section, size, piece, turn, body),
            tree::Stmt::Call {
                procedure,
                arguments,
            } => self.call(scope, procedure, arguments),
            tree::Stmt::Async { body } => self.async_body(scope, body),
            tree::Stmt::Finish { body } => self.finish(scope, body),
            tree::Stmt::Rescue {
                body,
                faults,
                handler,
            } => self.rescue(scope, body, faults, handler),
        }
    }

    /// Resolves `if x < 2 { .. }`.
    #[cycle(statement)]
    fn if_alone(
        &self,
        scope: &mut NameScope,
        guard: &Expr,
        body: &[tree::Stmt],
    ) -> Result<StmtKind, TypeError>
        requires scoped { IsWellScoped (scope_of scope.old) }
        requires label { scope.old.label ≤ 65535 }
        ensures ok { IfOk result (λ k. Resolves (procedures_of self.now.procedures)
            (scope_of scope.old) (If (expr_of guard.now) (block_of body.now)) k
            (scope_of scope.new)) }
        ensures error { IfErr result (Told (errors_in (procedures_of self.now.procedures)
            (scope_of scope.old) (If (expr_of guard.now) (block_of body.now)))) }
    {
        let mark = scope.mark();
        let guard = self.truth(scope, guard)?;
        scope.step();
        let body = self.inside(scope, mark, body)?;
        let other = Vec::new(self.alloc);
        Ok(StmtKind::If { guard, body, other })
    }

    /// Resolves `if x < 2 { .. } else { .. }`.
    #[cycle(statement)]
    fn if_else(
        &self,
        scope: &mut NameScope,
        guard: &Expr,
        body: &[tree::Stmt],
        other: &[tree::Stmt],
    ) -> Result<StmtKind, TypeError>
        requires scoped { IsWellScoped (scope_of scope.old) }
        requires label { scope.old.label ≤ 65535 }
        ensures ok { IfOk result (λ k. Resolves (procedures_of self.now.procedures)
            (scope_of scope.old)
            (IfElse (expr_of guard.now) (block_of body.now) (block_of other.now)) k
            (scope_of scope.new)) }
        ensures error { IfErr result (Told (errors_in (procedures_of self.now.procedures)
            (scope_of scope.old)
            (IfElse (expr_of guard.now) (block_of body.now) (block_of other.now)))) }
    {
        let mark = scope.mark();
        let guard = self.truth(scope, guard)?;
        scope.step();
        let body = self.inside(scope, mark, body)?;
        let other = self.inside(scope, mark, other)?;
        Ok(StmtKind::If { guard, body, other })
    }

    /// Resolves `while x < 2 { .. }`.
    #[cycle(statement)]
    fn while_loop(
        &self,
        scope: &mut NameScope,
        guard: &Expr,
        body: &[tree::Stmt],
    ) -> Result<StmtKind, TypeError>
        requires scoped { IsWellScoped (scope_of scope.old) }
        requires label { scope.old.label ≤ 65535 }
        ensures ok { IfOk result (λ k. Resolves (procedures_of self.now.procedures)
            (scope_of scope.old) (While (expr_of guard.now) (block_of body.now)) k
            (scope_of scope.new)) }
        ensures error { IfErr result (Told (errors_in (procedures_of self.now.procedures)
            (scope_of scope.old) (While (expr_of guard.now) (block_of body.now)))) }
    {
        let mark = scope.mark();
        let guard = self.truth(scope, guard)?;
        scope.step();
        let body = self.inside(scope, mark, body)?;
        Ok(StmtKind::While { guard, body })
    }

    /// Resolves `split s at 2 as l, r { .. }`.
    #[cycle(statement)]
    fn split(
        &self,
        scope: &mut NameScope,
        section: &String,
        at: &Expr,
        left: &String,
        right: &String,
        body: &[tree::Stmt],
    ) -> Result<StmtKind, TypeError>
        requires scoped { IsWellScoped (scope_of scope.old) }
        requires label { scope.old.label ≤ 65535 }
        ensures ok { IfOk result (λ k. Resolves (procedures_of self.now.procedures)
            (scope_of scope.old) (Split (string_bytes section.now) (expr_of at.now)
            (string_bytes left.now) (string_bytes right.now) (block_of body.now)) k
            (scope_of scope.new)) }
        ensures error { IfErr result (Told (errors_in (procedures_of self.now.procedures)
            (scope_of scope.old) (Split (string_bytes section.now) (expr_of at.now)
            (string_bytes left.now) (string_bytes right.now) (block_of body.now)))) }
    {
        let label = scope.label;
        let mark = scope.mark();
        let section = self.section(scope, section)?;
        let at = self.number(scope, at)?;
        scope.step();
        let (left, right) = scope.sides(label, section, left, right)?;
        let body = self.inside(scope, mark, body)?;
        Ok(StmtKind::Split {
            sides: Sides {
                section,
                at,
                left,
                right,
            },
            body,
        })
    }

    /// Resolves `parts s by 4 as p, i { .. }`.
    #[cycle(statement)]
    fn parts(
        &self,
        scope: &mut NameScope,
        section: &String,
        size: &Expr,
        piece: &String,
        turn: &String,
        body: &[tree::Stmt],
    ) -> Result<StmtKind, TypeError>
        requires scoped { IsWellScoped (scope_of scope.old) }
        requires label { scope.old.label ≤ 65535 }
        ensures ok { IfOk result (λ k. Resolves (procedures_of self.now.procedures)
            (scope_of scope.old) (Parts (string_bytes section.now) (expr_of size.now)
            (string_bytes piece.now) (string_bytes turn.now) (block_of body.now)) k
            (scope_of scope.new)) }
        ensures error { IfErr result (Told (errors_in (procedures_of self.now.procedures)
            (scope_of scope.old) (Parts (string_bytes section.now) (expr_of size.now)
            (string_bytes piece.now) (string_bytes turn.now) (block_of body.now)))) }
    {
        let label = scope.label;
        let mark = scope.mark();
        let section = self.section(scope, section)?;
        let size = self.number(scope, size)?;
        scope.step();
        let (piece, turn) = scope.turn(label, section, piece, turn)?;
        let body = self.inside(scope, mark, body)?;
        Ok(StmtKind::Parts {
            pieces: Pieces {
                section,
                size,
                piece,
                turn,
            },
            body,
        })
    }

    /// Resolves `async { .. }`.
    #[cycle(statement)]
    fn async_body(&self, scope: &mut NameScope, body: &[tree::Stmt]) -> Result<StmtKind, TypeError>
        requires scoped { IsWellScoped (scope_of scope.old) }
        requires label { scope.old.label ≤ 65535 }
        ensures ok { IfOk result (λ k. Resolves (procedures_of self.now.procedures)
            (scope_of scope.old) (Async (block_of body.now)) k (scope_of scope.new)) }
        ensures error { IfErr result (Told (errors_in (procedures_of self.now.procedures)
            (scope_of scope.old) (Async (block_of body.now)))) }
    {
        let mark = scope.mark();
        scope.step();
        scope.enter_async();
        let body = self.inside(scope, mark, body)?;
        Ok(StmtKind::Async { body })
    }

    /// Resolves `finish { .. }`.
    #[cycle(statement)]
    fn finish(&self, scope: &mut NameScope, body: &[tree::Stmt]) -> Result<StmtKind, TypeError>
        requires scoped { IsWellScoped (scope_of scope.old) }
        requires label { scope.old.label ≤ 65535 }
        ensures ok { IfOk result (λ k. Resolves (procedures_of self.now.procedures)
            (scope_of scope.old) (Finish (block_of body.now)) k (scope_of scope.new)) }
        ensures error { IfErr result (Told (errors_in (procedures_of self.now.procedures)
            (scope_of scope.old) (Finish (block_of body.now)))) }
    {
        let mark = scope.mark();
        scope.step();
        let body = self.inside(scope, mark, body)?;
        Ok(StmtKind::Finish { body })
    }

    /// Resolves `finish { .. } rescue n { .. }`. The name is in scope only in the handler.
    #[cycle(statement)]
    fn rescue(
        &self,
        scope: &mut NameScope,
        body: &[tree::Stmt],
        faults: &String,
        handler: &[tree::Stmt],
    ) -> Result<StmtKind, TypeError>
        requires scoped { IsWellScoped (scope_of scope.old) }
        requires label { scope.old.label ≤ 65535 }
        ensures ok { IfOk result (λ k. Resolves (procedures_of self.now.procedures)
            (scope_of scope.old)
            (Rescue (block_of body.now) (string_bytes faults.now) (block_of handler.now)) k
            (scope_of scope.new)) }
        ensures error { IfErr result (Told (errors_in (procedures_of self.now.procedures)
            (scope_of scope.old)
            (Rescue (block_of body.now) (string_bytes faults.now) (block_of handler.now)))) }
    {
        let label = scope.label;
        let mark = scope.mark();
        scope.step();
        let body = self.inside(scope, mark, body)?;
        let slot = Slot {
            number: scope.slots,
        };
        scope.scalar(Some(label), faults)?;
        let handler = self.inside(scope, mark, handler)?;
        Ok(StmtKind::Rescue {
            body,
            faults: slot,
            handler,
        })
    }

    /// Resolves `var x = 1;`. The name is in scope only after the statement.
    fn var(&self, scope: &mut NameScope, name: &String, value: &Expr) -> Result<StmtKind, TypeError>
        requires scoped { IsWellScoped (scope_of scope.old) }
        requires label { scope.old.label ≤ 65535 }
        ensures ok { IfOk result (λ k. Resolves (procedures_of self.now.procedures)
            (scope_of scope.old) (Var (string_bytes name.now) (expr_of value.now)) k
            (scope_of scope.new)) }
        ensures error { IfErr result (Told (errors_in (procedures_of self.now.procedures)
            (scope_of scope.old) (Var (string_bytes name.now) (expr_of value.now)))) }
    {
        let label = scope.label;
        let initial = self.number(scope, value)?;
        let slot = Slot {
            number: scope.slots,
        };
        scope.step();
        scope.scalar(Some(label), name)?;
        Ok(StmtKind::Do(Primitive::Assign {
            slot,
            value: initial,
        }))
    }

    /// Resolves `x = 1;`.
    fn assign(
        &self,
        scope: &mut NameScope,
        name: &String,
        value: &Expr,
    ) -> Result<StmtKind, TypeError>
        requires { scope.old.label ≤ 65535 }
        ensures ok { IfOk result (λ k. Resolves (procedures_of self.now.procedures)
            (scope_of scope.old) (Assign (string_bytes name.now) (expr_of value.now)) k
            (scope_of scope.new)) }
        ensures error { IfErr result (Told (errors_in (procedures_of self.now.procedures)
            (scope_of scope.old) (Assign (string_bytes name.now) (expr_of value.now)))) }
    {
        let slot = assigned(scope, name)?;
        let value = self.number(scope, value)?;
        scope.step();
        Ok(StmtKind::Do(Primitive::Assign { slot, value }))
    }

    /// Resolves `a[0] = 7;`.
    fn store(
        &self,
        scope: &mut NameScope,
        section: &String,
        index: &Expr,
        value: &Expr,
    ) -> Result<StmtKind, TypeError>
        requires { scope.old.label ≤ 65535 }
        ensures ok { IfOk result (λ k. Resolves (procedures_of self.now.procedures)
            (scope_of scope.old)
            (Store (string_bytes section.now) (expr_of index.now) (expr_of value.now)) k
            (scope_of scope.new)) }
        ensures error { IfErr result (Told (errors_in (procedures_of self.now.procedures)
            (scope_of scope.old)
            (Store (string_bytes section.now) (expr_of index.now) (expr_of value.now)))) }
    {
        let section = written(scope, section)?;
        let index = self.number(scope, index)?;
        let value = self.number(scope, value)?;
        scope.step();
        Ok(StmtKind::Do(Primitive::Store {
            section,
            index,
            value,
        }))
    }

    /// Resolves `print a[0], 2;`.
    fn print(
        &self,
        scope: &mut NameScope,
        first: &Expr,
        rest: &[Expr],
    ) -> Result<StmtKind, TypeError>
        requires { scope.old.label ≤ 65535 }
        ensures ok { IfOk result (λ k. Resolves (procedures_of self.now.procedures)
            (scope_of scope.old) (Print (expr_of first.now) (map expr_of rest.now)) k
            (scope_of scope.new)) }
        ensures error { IfErr result (Told (errors_in (procedures_of self.now.procedures)
            (scope_of scope.old) (Print (expr_of first.now) (map expr_of rest.now)))) }
    {
        let values = self.numbers(scope, first, rest)?;
        scope.step();
        Ok(StmtKind::Do(Primitive::Print { values }))
    }

    /// Resolves `fault 3;`.
    fn fault(&self, scope: &mut NameScope, value: &Expr) -> Result<StmtKind, TypeError>
        requires { scope.old.label ≤ 65535 }
        ensures ok { IfOk result (λ k. Resolves (procedures_of self.now.procedures)
            (scope_of scope.old) (Fault (expr_of value.now)) k (scope_of scope.new)) }
        ensures error { IfErr result (Told (errors_in (procedures_of self.now.procedures)
            (scope_of scope.old) (Fault (expr_of value.now)))) }
    {
        let value = self.number(scope, value)?;
        scope.step();
        Ok(StmtKind::Do(Primitive::Fault { value }))
    }

    /// Resolves `f(a, 1);`.
    fn call(
        &self,
        scope: &mut NameScope,
        procedure: &String,
        arguments: &[Expr],
    ) -> Result<StmtKind, TypeError>
        requires scoped { IsWellScoped (scope_of scope.old) }
        requires label { scope.old.label ≤ 65535 }
        ensures ok { IfOk result (λ k. Resolves (procedures_of self.now.procedures)
            (scope_of scope.old) (Call (string_bytes procedure.now) (map expr_of arguments.now)) k
            (scope_of scope.new)) }
        ensures error { IfErr result (Told (errors_in (procedures_of self.now.procedures)
            (scope_of scope.old)
            (Call (string_bytes procedure.now) (map expr_of arguments.now)))) }
    {
        let call = calls::call(self.alloc, &self.procedures, scope, procedure, arguments)?;
        scope.step();
        Ok(call)
    }

    /// Resolves a number expression in the statement that starts here.
    fn number(&self, scope: &NameScope, e: &Expr) -> Result<Number, TypeError>
        ensures right { OnOk result
            (number_errors scope.now.label (names_of scope.now.names) (expr_of e.now) ≡ []) }
        ensures code { IfOk result (λ r. number_at (names_of scope.now.names) (expr_of e.now) ≡ number r) }
        ensures error { IfErr result
            (Told (number_errors scope.now.label (names_of scope.now.names) (expr_of e.now))) }
    {
        let expressions = Expressions {
            alloc: self.alloc,
            label: scope.label,
            names: &scope.names,
        };
        expressions.number(e)
    }

    /// Resolves several number expressions in the statement that starts here.
    fn numbers(
        &self,
        scope: &NameScope,
        first: &Expr,
        rest: &[Expr],
    ) -> Result<Vec<Number>, TypeError>
        ensures right { OnOk result
            (numbers_errors scope.now.label (names_of scope.now.names)
            (expr_of first.now ∷ map expr_of rest.now) ≡ []) }
        ensures code { IfOk result
            (λ r. map (number_at (names_of scope.now.names))
            (expr_of first.now ∷ map expr_of rest.now) ≡ map number r.items) }
        ensures error { IfErr result
            (Told (numbers_errors scope.now.label (names_of scope.now.names)
            (expr_of first.now ∷ map expr_of rest.now))) }
    {
        let expressions = Expressions {
            alloc: self.alloc,
            label: scope.label,
            names: &scope.names,
        };
        expressions.numbers(first, rest)
    }

    /// Resolves a boolean expression in the statement that starts here.
    fn truth(&self, scope: &NameScope, e: &Expr) -> Result<Truth, TypeError>
        ensures right { OnOk result
            (truth_errors scope.now.label (names_of scope.now.names) (expr_of e.now) ≡ []) }
        ensures code { IfOk result (λ r. truth_at (names_of scope.now.names) (expr_of e.now) ≡ truth r) }
        ensures error { IfErr result
            (Told (truth_errors scope.now.label (names_of scope.now.names) (expr_of e.now))) }
    {
        let expressions = Expressions {
            alloc: self.alloc,
            label: scope.label,
            names: &scope.names,
        };
        expressions.truth(e)
    }

    /// Resolves the name of a section in the statement that starts here.
    fn section(&self, scope: &NameScope, name: &String) -> Result<SectionId, TypeError>
        ensures right { OnOk result
            (naming_section scope.now.label (meant (string_bytes name.now)
            (names_of scope.now.names)) ≡ []) }
        ensures meaning { IfOk result
            (λ r. meant (string_bytes name.now) (names_of scope.now.names)
            ≡ Some (ASection r.number)) }
        ensures error { IfErr result
            (Told (naming_section scope.now.label (meant (string_bytes name.now)
            (names_of scope.now.names)))) }
    {
        let expressions = Expressions {
            alloc: self.alloc,
            label: scope.label,
            names: &scope.names,
        };
        expressions.section(name)
    }
}

/// Returns the slot of a scalar that is assigned. It must be declared inside the innermost async
/// body.
fn assigned(scope: &NameScope, name: &String) -> Result<Slot, TypeError>
    ensures right { OnOk result (naming_assigned scope.now.label (scope_of scope.now)
        (meant (string_bytes name.now) (names_of scope.now.names)) ≡ []) }
    ensures meaning { IfOk result (λ k.
        meant (string_bytes name.now) (names_of scope.now.names) ≡ Some (AScalar k.number)) }
    ensures error { IfErr result (Told (naming_assigned scope.now.label (scope_of scope.now)
        (meant (string_bytes name.now) (names_of scope.now.names)))) }
{
    let label = scope.label;
    match scope.names.meaning(name) {
        None => Err(TypeError::NotInScope { label }),
        Some(Meaning::Section(_)) => Err(TypeError::WrongKind { label }),
        Some(Meaning::Scalar(slot)) if slot.number < scope.outside => {
            Err(TypeError::AssignedOutsideAsync { label })
        }
        Some(Meaning::Scalar(slot)) => Ok(slot),
    }
}

/// Returns a section that is written, which must be allowed.
fn written(scope: &NameScope, name: &String) -> Result<SectionId, TypeError>
    ensures right { OnOk result (naming_written scope.now.label (scope_of scope.now)
        (meant (string_bytes name.now) (names_of scope.now.names)) ≡ []) }
    ensures meaning { IfOk result (λ s.
        meant (string_bytes name.now) (names_of scope.now.names) ≡ Some (ASection s.number)) }
    ensures error { IfErr result (Told (naming_written scope.now.label (scope_of scope.now)
        (meant (string_bytes name.now) (names_of scope.now.names)))) }
{
    let label = scope.label;
    match scope.names.meaning(name) {
        None => Err(TypeError::NotInScope { label }),
        Some(Meaning::Scalar(_)) => Err(TypeError::WrongKind { label }),
        Some(Meaning::Section(section)) if scope.kind(section).may_write => Ok(section),
        Some(Meaning::Section(_)) => Err(TypeError::ReadOnly { label }),
    }
}
