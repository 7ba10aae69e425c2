//! Programs as canonical text, with one line for each declaration and each statement.

ghost use Rattle.std.specs.Prelude.{◌≡◌, ℕ, ◌+◌, ◌-◌, [], ◌∷◌, ◌++◌, codes, if◌then◌else◌, List, Option};
ghost use Rattle.std.specs.Prelude.{IfOk, OnOk, IsTrue, map};
ghost use Rattle.std.specs.Option.{option_map};
ghost use Rattle.std.specs.Str.{chars};
ghost use Rattle.std.specs.String.{string_bytes};
ghost use Rattle.syntax.specs.Canonical.{canonical};
ghost use Rattle.syntax.specs.declared.token.Left.TheVariants.{Margin, Opening, Operand, Ended, Other};
ghost use Rattle.syntax.specs.Canonical.{listed, in_line, indent, plain_margin, statement_margin};
ghost use Rattle.syntax.specs.Lexical.{word_text, AreTokensOf};
ghost use Rattle.syntax.specs.Spelling.{expr_then, more_then, stmt_then, block_then, parameter_then};
ghost use Rattle.syntax.specs.Spelling.{parameters_then, arrays_then, procedures_then, main_tokens, spelling};
ghost use Rattle.syntax.specs.Spelling.{element_word};
ghost use Rattle.syntax.specs.Token.{Token, NameToken, WordToken, MarkToken};
ghost use Rattle.syntax_tree.specs.Tree.{Array as ArrayTree, Block as BlockTree, Procedure as ProcedureTree};
ghost use Rattle.syntax_tree.specs.Tree.{Main as MainTree, expr as expr_tree, stmt as stmt_tree};
ghost use Rattle.syntax_tree.specs.Tree.{block as block_tree, array as array_tree};
ghost use Rattle.syntax_tree.specs.Tree.{parameter as parameter_tree, procedure as procedure_tree};
ghost use Rattle.syntax_tree.specs.Tree.{program as program_tree};
ghost use Rattle.syntax.specs.Writing.{with_rest, Adds, IsCounted, is_simple};
ghost use Rattle.syntax.specs.declared.token.Mark.TheVariants.{Becomes, Comma, LeftBrace, LeftBracket};
ghost use Rattle.syntax.specs.declared.token.Mark.TheVariants.{RightBrace, RightBracket, Semicolon};
ghost use Rattle.syntax.specs.declared.token.Word.TheVariants.{As, At, By, Parts, Print, Split};

use crate::expression_text as expressions;
use std::alloc::{AllocError, Global};
use syntax_tree::tree::{Array, ElementType, Expr, Parameter, Procedure, Program, Stmt};

/// Returns the canonical text of a program. Its tokens are those of any text that spells the
/// program.
pub fn format(alloc: Global, program: &Program) -> Result<String, AllocError>
    ensures text { IfOk result (λ text. string_bytes text ≡ canonical (program_tree program.now)) }
    ensures tokens { IfOk result (λ text. (source : List ℕ)
        → AreTokensOf source (spelling (program_tree program.now))
        → AreTokensOf (chars (string_bytes text)) (spelling (program_tree program.now))) }
{
    let mut lines = Lines::new(alloc, false);
    lines.program(program)?;
    Ok(lines.text)
}

/// Returns the canonical lines of a program. A line on which a statement starts has its label in
/// front.
pub fn listing(alloc: Global, program: &Program) -> Result<String, AllocError>
    ensures { IfOk result (λ text. string_bytes text ≡ listed (program_tree program.now)) }
{
    let mut lines = Lines::new(alloc, true);
    lines.program(program)?;
    Ok(lines.text)
}

/// The lines written so far.
#[derive(Drop)]
struct Lines {
    text: String,
    /// The number of open blocks.
    depth: usize,
    /// The label of the last statement, if labels are written.
    label: Option<u64>,
}

impl Lines {
    fn new(alloc: Global, labelled: bool) -> Lines
        ensures text { string_bytes result.text ≡ [] }
        ensures depth { result.depth ≡ 0 }
        ensures label { result.label ≡ (if labelled then Some 0 else None) }
    {
        Lines {
            text: String::new(alloc),
            depth: 0,
            label: if labelled { Some(0) } else { None },
        }
    }

    /// Starts a line on which no statement starts.
    fn begin(&mut self) -> Result<(), AllocError>
        ensures { OnOk result (Adds self.old self.new
            (plain_margin self.old.label ++ indent self.old.depth)) }
    {
        if self.label.is_some() {
            self.text.push_str("      ")?;
        }
        self.indent()
    }

    /// Starts the line of the next statement.
    fn begin_statement(&mut self) -> Result<(), AllocError>
        requires { IsCounted self.old }
        ensures counted { OnOk result (IsCounted self.new) }
        ensures text { OnOk result (string_bytes self.new.text ≡ string_bytes self.old.text
            ++ (statement_margin self.old.label ++ indent self.old.depth)) }
        ensures depth { OnOk result (self.new.depth ≡ self.old.depth) }
        ensures label { OnOk result (self.new.label ≡ option_map (λ n. n + 1) self.old.label) }
    {
        if let Some(label) = self.label {
            let label = label + 1;
            write!(self.text, "{label:>5} ")?;
            self.label = Some(label);
        }
        self.indent()
    }

    fn indent(&mut self) -> Result<(), AllocError>
        ensures { OnOk result (Adds self.old self.new (indent self.old.depth)) }
    {
        for _block in 0..self.depth {
            self.text.push_str("  ")?;
        }
        Ok(())
    }

    /// Ends the line of a header and opens its block.
    fn open(&mut self) -> Result<(), AllocError>
        requires { IsCounted self.old }
        ensures counted { OnOk result (IsCounted self.new) }
        ensures text { OnOk result
            (string_bytes self.new.text ≡ string_bytes self.old.text ++ codes " {\n") }
        ensures depth { OnOk result (self.new.depth ≡ self.old.depth + 1) }
        ensures label { OnOk result (self.new.label ≡ self.old.label) }
    {
        self.text.push_str(" {\n")?;
        self.depth += 1;
        Ok(())
    }

    /// Writes the line that closes a block, except its end.
    fn close(&mut self) -> Result<(), AllocError>
        requires { IsCounted self.old }
        ensures counted { OnOk result (IsCounted self.new) }
        ensures text { OnOk result (string_bytes self.new.text ≡ string_bytes self.old.text
            ++ ((plain_margin self.old.label ++ indent (self.old.depth - 1)) ++ codes "}")) }
        ensures depth { OnOk result (self.new.depth ≡ self.old.depth - 1) }
        ensures label { OnOk result (self.new.label ≡ self.old.label) }
    {
        self.depth = self.depth.saturating_sub(1);
        self.begin()?;
        self.text.push('}')
    }

    fn end(&mut self) -> Result<(), AllocError>
        ensures { OnOk result (Adds self.old self.new (codes "\n")) }
    {
        self.text.push('\n')
    }

    fn program(&mut self, program: &Program) -> Result<(), AllocError>
        requires { IsCounted self.old }
        ensures { OnOk result (with_rest self.old Margin (spelling (program_tree program.now))
            ≡ string_bytes self.new.text) }
    {
        for procedure in &program.procedures {
            self.procedure(procedure)?;
        }
        let Some(main) = &program.main else {
            return Ok(());
        };
        self.begin()?;
        self.text.push_str("main")?;
        self.open()?;
        for array in &main.arrays {
            self.array(array)?;
        }
        statements(&main.body, self)?;
        self.close()?;
        self.end()
    }

    fn array(&mut self, array: &Array) -> Result<(), AllocError>
        requires { IsCounted self.old }
        ensures counted { OnOk result (IsCounted self.new) }
        ensures written { OnOk result ((rest : List ArrayTree) (b : BlockTree) (r : List Token)
            → with_rest self.old Margin (arrays_then (array_tree array.now ∷ rest) (block_then b r))
            ≡ with_rest self.new Margin (arrays_then rest (block_then b r))) }
    {
        self.begin()?;
        let name = array.name.as_str();
        let element = element_type(array.element);
        let length = array.length;
        write!(self.text, "array {name}: {element}[{length}];")?;
        self.end()
    }

    fn procedure(&mut self, procedure: &Procedure) -> Result<(), AllocError>
        requires { IsCounted self.old }
        ensures counted { OnOk result (IsCounted self.new) }
        ensures written { OnOk result ((rest : List ProcedureTree) (m : Option MainTree)
            → with_rest self.old Margin
            (procedures_then (procedure_tree procedure.now ∷ rest) (main_tokens m))
            ≡ with_rest self.new Margin (procedures_then rest (main_tokens m))) }
    {
        self.begin()?;
        self.text.push_str("proc ")?;
        self.text.push_str(procedure.name.as_str())?;
        self.text.push('(')?;
        parameters(&procedure.parameters, &mut self.text)?;
        self.text.push(')')?;
        block(&procedure.body, self)?;
        self.end()
    }
}

/// Writes parameters, separated by commas.
fn parameters(parameters: &[Parameter], out: &mut String) -> Result<(), AllocError>
    ensures { OnOk result (string_bytes out.new ≡ string_bytes out.old
        ++ in_line (parameters_then (map parameter_tree parameters.now) [])) }
{
    let mut first = true;
    for next in parameters {
        if !first {
            out.push_str(", ")?;
        }
        first = false;
        parameter(next, out)?;
    }
    Ok(())
}

fn parameter(parameter: &Parameter, out: &mut String) -> Result<(), AllocError>
    ensures { OnOk result (string_bytes out.new ≡ string_bytes out.old
        ++ in_line (parameter_then (parameter_tree parameter.now) [])) }
{
    match parameter {
        Parameter::Written { name, element } => {
            out.push_str("mut ")?;
            out.push_str(name.as_str())?;
            out.push_str(": ")?;
            out.push_str(element_type(*element))
        }
        Parameter::Read { name, element } => {
            out.push_str("read ")?;
            out.push_str(name.as_str())?;
            out.push_str(": ")?;
            out.push_str(element_type(*element))
        }
        Parameter::Scalar { name } => {
            out.push_str(name.as_str())?;
            out.push_str(": int")
        }
    }
}

fn element_type(element: ElementType) -> &'static str
    ensures { result.now ≡ word_text (element_word element) }
{
    match element {
        ElementType::Int => "int",
        ElementType::Byte => "byte",
    }
}

/// Writes the lines of the statements of a block.
#[cycle(stmt)]
fn statements(body: &[Stmt], lines: &mut Lines) -> Result<(), AllocError>
    requires { IsCounted lines.old }
    ensures counted { OnOk result (IsCounted lines.new) }
    ensures written { OnOk result ((r : List Token)
        → with_rest lines.old Margin (block_then (block_tree body.now) r)
        ≡ with_rest lines.new Margin (MarkToken RightBrace ∷ r)) }
{
    for statement in body {
        lines.begin_statement()?;
        line(statement, lines)?;
        lines.end()?;
    }
    Ok(())
}

/// Writes the block of a header, with its braces.
#[cycle(stmt)]
fn block(body: &[Stmt], lines: &mut Lines) -> Result<(), AllocError>
    requires { IsCounted lines.old }
    ensures counted { OnOk result (IsCounted lines.new) }
    ensures written { OnOk result ((r : List Token)
        → with_rest lines.old Other (MarkToken LeftBrace ∷ block_then (block_tree body.now) r)
        ≡ with_rest lines.new Ended r) }
{
    lines.open()?;
    statements(body, lines)?;
    lines.close()
}

/// Writes a statement from its first token to its last.
#[cycle(stmt)]
fn line(statement: &Stmt, lines: &mut Lines) -> Result<(), AllocError>
    requires { IsCounted lines.old }
    ensures counted { OnOk result (IsCounted lines.new) }
    ensures written { OnOk result ((r : List Token)
        → with_rest lines.old Opening (stmt_then (stmt_tree statement.now) r)
        ≡ with_rest lines.new Ended r) }
{
    match statement {
        Stmt::If { guard, body, other } => conditional(guard, body, other, lines),
        Stmt::While { guard, body } => {
            header("while ", guard, lines)?;
            block(body, lines)
        }
        Stmt::Split {
            section,
            at,
            left,
            right,
            body,
        } => {
            split(section, at, left, right, &mut lines.text)?;
            block(body, lines)
        }
        Stmt::Parts {
            section,
            size,
            piece,
            turn,
            body,
        } => {
            parts(section, size, piece, turn, &mut lines.text)?;
            block(body, lines)
        }
        Stmt::Async { body } => {
            lines.text.push_str("async")?;
            block(body, lines)
        }
        Stmt::Finish { body } => {
            lines.text.push_str("finish")?;
            block(body, lines)
        }
        Stmt::Rescue {
            body,
            faults,
            handler,
        } => rescue(body, faults, handler, lines),
        Stmt::Skip
        | Stmt::Var { .. }
        | Stmt::Assign { .. }
        | Stmt::Store { .. }
        | Stmt::Print { .. }
        | Stmt::Fault { .. }
        | Stmt::Call { .. } => {
            simple(statement, lines)?;
            lines.text.push(';')
        }
    }
}

/// Writes a conditional, with the block of its `else` if it has one.
#[cycle(stmt)]
fn conditional(
    guard: &Expr,
    body: &Vec<Stmt>,
    other: &Option<Vec<Stmt>>,
    lines: &mut Lines,
) -> Result<(), AllocError>
    requires { IsCounted lines.old }
    ensures counted { OnOk result (IsCounted lines.new) }
    ensures written { OnOk result ((r : List Token)
        → with_rest lines.old Opening
        (stmt_then (stmt_tree (Stmt.If guard.now body.now other.now)) r)
        ≡ with_rest lines.new Ended r) }
{
    header("if ", guard, lines)?;
    block(body, lines)?;
    match other {
        None => Ok(()),
        Some(other) => {
            lines.text.push_str(" else")?;
            block(other, lines)
        }
    }
}

/// Writes a finish with its rescue.
#[cycle(stmt)]
fn rescue(
    body: &Vec<Stmt>,
    faults: &String,
    handler: &Vec<Stmt>,
    lines: &mut Lines,
) -> Result<(), AllocError>
    requires { IsCounted lines.old }
    ensures counted { OnOk result (IsCounted lines.new) }
    ensures written { OnOk result ((r : List Token)
        → with_rest lines.old Opening
        (stmt_then (stmt_tree (Stmt.Rescue body.now faults.now handler.now)) r)
        ≡ with_rest lines.new Ended r) }
{
    lines.text.push_str("finish")?;
    block(body, lines)?;
    lines.text.push_str(" rescue ")?;
    lines.text.push_str(faults.as_str())?;
    block(handler, lines)
}

fn header(word: &str, guard: &Expr, lines: &mut Lines) -> Result<(), AllocError>
    ensures { OnOk result
        (Adds lines.old lines.new (word.now ++ in_line (expr_then (expr_tree guard.now) []))) }
{
    lines.text.push_str(word)?;
    expressions::expr(guard, &mut lines.text)
}

fn split(
    section: &String,
    at: &Expr,
    left: &String,
    right: &String,
    out: &mut String,
) -> Result<(), AllocError>
    ensures { OnOk result (string_bytes out.new ≡ string_bytes out.old
        ++ in_line (WordToken Split ∷ NameToken (string_bytes section.now) ∷ WordToken At
        ∷ expr_then (expr_tree at.now) (WordToken As ∷ NameToken (string_bytes left.now)
        ∷ MarkToken Comma ∷ NameToken (string_bytes right.now) ∷ []))) }
{
    out.push_str("split ")?;
    out.push_str(section.as_str())?;
    out.push_str(" at ")?;
    expressions::expr(at, out)?;
    out.push_str(" as ")?;
    out.push_str(left.as_str())?;
    out.push_str(", ")?;
    out.push_str(right.as_str())
}

fn parts(
    section: &String,
    size: &Expr,
    piece: &String,
    turn: &String,
    out: &mut String,
) -> Result<(), AllocError>
    ensures { OnOk result (string_bytes out.new ≡ string_bytes out.old
        ++ in_line (WordToken Parts ∷ NameToken (string_bytes section.now) ∷ WordToken By
        ∷ expr_then (expr_tree size.now) (WordToken As ∷ NameToken (string_bytes piece.now)
        ∷ MarkToken Comma ∷ NameToken (string_bytes turn.now) ∷ []))) }
{
    out.push_str("parts ")?;
    out.push_str(section.as_str())?;
    out.push_str(" by ")?;
    expressions::expr(size, out)?;
    out.push_str(" as ")?;
    out.push_str(piece.as_str())?;
    out.push_str(", ")?;
    out.push_str(turn.as_str())
}

/// Writes a statement without a block, up to its semicolon.
fn simple(statement: &Stmt, lines: &mut Lines) -> Result<(), AllocError>
    requires simple { IsTrue (is_simple (stmt_tree statement.now)) }
    requires counted { IsCounted lines.old }
    ensures counted { OnOk result (IsCounted lines.new) }
    ensures written { OnOk result ((r : List Token)
        → with_rest lines.old Opening (stmt_then (stmt_tree statement.now) r)
        ≡ with_rest lines.new Operand (MarkToken Semicolon ∷ r)) }
{
    let out = &mut lines.text;
    match statement {
        Stmt::Skip => out.push_str("skip"),
        Stmt::Var { name, value } => {
            out.push_str("var ")?;
            assignment(name, value, out)
        }
        Stmt::Assign { name, value } => assignment(name, value, out),
        Stmt::Store {
            section,
            index,
            value,
        } => store(section, index, value, out),
        Stmt::Print { first, rest } => print(first, rest, out),
        Stmt::Fault { value } => {
            out.push_str("fault ")?;
            expressions::expr(value, out)
        }
        Stmt::Call {
            procedure,
            arguments,
        } => {
            out.push_str(procedure.as_str())?;
            out.push('(')?;
            expressions::listed(arguments, out)?;
            out.push(')')
        }
        // `line` writes these.
        Stmt::If { .. }
        | Stmt::While { .. }
        | Stmt::Split { .. }
        | Stmt::Parts { .. }
        | Stmt::Async { .. }
        | Stmt::Finish { .. }
        | Stmt::Rescue { .. } => Ok(()),
    }
}

fn assignment(name: &String, value: &Expr, out: &mut String) -> Result<(), AllocError>
    ensures { OnOk result (string_bytes out.new ≡ string_bytes out.old
        ++ in_line (NameToken (string_bytes name.now) ∷ MarkToken Becomes
        ∷ expr_then (expr_tree value.now) [])) }
{
    out.push_str(name.as_str())?;
    out.push_str(" = ")?;
    expressions::expr(value, out)
}

fn store(section: &String, index: &Expr, value: &Expr, out: &mut String) -> Result<(), AllocError>
    ensures { OnOk result (string_bytes out.new ≡ string_bytes out.old
        ++ in_line (NameToken (string_bytes section.now) ∷ MarkToken LeftBracket
        ∷ expr_then (expr_tree index.now) (MarkToken RightBracket ∷ MarkToken Becomes
        ∷ expr_then (expr_tree value.now) []))) }
{
    out.push_str(section.as_str())?;
    out.push('[')?;
    expressions::expr(index, out)?;
    out.push_str("] = ")?;
    expressions::expr(value, out)
}

fn print(first: &Expr, rest: &[Expr], out: &mut String) -> Result<(), AllocError>
    ensures { OnOk result (string_bytes out.new ≡ string_bytes out.old
        ++ in_line (WordToken Print
        ∷ expr_then (expr_tree first.now) (more_then (map expr_tree rest.now) []))) }
{
    out.push_str("print ")?;
    expressions::expr(first, out)?;
    expressions::more(rest, out)
}
