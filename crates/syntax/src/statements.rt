//! Statements and blocks, one function for each production.

ghost use Rattle.std.specs.Prelude.{◌≡◌, ◌≢◌, ◌<◌, List, ◌∷◌, length, IfOk, IfErr};
ghost use Rattle.syntax.specs.declared.token.Word.{Word as AnyWord};
ghost use Rattle.syntax.specs.Reading.{ReadsAs, ReadsClosed, IsReadClosed, Refuses, RefusesClosed};
ghost use Rattle.syntax.specs.Reading.{SpellsNone, else_level};
ghost use Rattle.syntax.specs.Spelling.{expr_then, exprs_then, stmt_then, block_then};
ghost use Rattle.syntax.specs.Token.{Token as PlainToken, WordToken, MarkToken, plain};
ghost use Rattle.syntax_tree.specs.Tree.{expr as expr_tree, exprs, stmt, block as block_tree};

use crate::cursor::Stuck;
use crate::token::{Mark, Spanned, Word};
use crate::{cursor, expressions, lists};
use std::alloc::Global;
use syntax_tree::tree::{Expr, Stmt};

/// Reads statements up to the brace that closes their block, and that brace.
#[cycle(stmt)]
pub fn statements(alloc: Global, tokens: &[Spanned]) -> Result<(Vec<Stmt>, &[Spanned]), Stuck>
    ensures shorter { IfOk result (λ read. length read.1.now < length tokens.now) }
    ensures read { IfOk result (λ read.
        IsReadClosed block_then (plain tokens.now) (block_tree read.0.items) (plain read.1.now)) }
    ensures refused { IfErr result (RefusesClosed block_then (plain tokens.now)) }
{
    // { stmt } "}"
    let mut body = Vec::new(alloc);
    let mut left = tokens;
    loop {
        if let Some(rest) = cursor::after_mark(left, Mark::RightBrace) {
            return Ok((body, rest));
        }
        let (statement, behind) = statement(alloc, left)?;
        lists::push(&mut body, statement)?;
        left = behind;
    }
}

/// Reads a block with its braces.
#[cycle(stmt)]
pub fn block(alloc: Global, tokens: &[Spanned]) -> Result<(Vec<Stmt>, &[Spanned]), Stuck>
    ensures shorter { IfOk result (λ read. length read.1.now < length tokens.now) }
    ensures read { IfOk result (λ read.
        IsReadClosed (λ body rest. MarkToken Mark.LeftBrace ∷ block_then body rest)
        (plain tokens.now) (block_tree read.0.items) (plain read.1.now)) }
    ensures refused { IfErr result (RefusesClosed
        (λ body rest. MarkToken Mark.LeftBrace ∷ block_then body rest)
        (plain tokens.now)) }
{
    // block = "{" { stmt } "}"
    let rest = cursor::mark(tokens, Mark::LeftBrace)?;
    statements(alloc, rest)
}

// The functions for single kinds of statements stay out of this function. Inside, they would add
// their results to what each nested block keeps on the stack.
#[cycle(stmt)]
fn statement(alloc: Global, tokens: &[Spanned]) -> Result<(Stmt, &[Spanned]), Stuck>
    ensures shorter { IfOk result (λ read. length read.1.now < length tokens.now) }
    ensures read { IfOk result (ReadsAs stmt stmt_then else_level (plain tokens.now)) }
    ensures refused { IfErr result (Refuses stmt_then else_level (plain tokens.now)) }
{
    let Some((word, rest)) = cursor::first_word(tokens) else {
        return named(alloc, tokens);
    };
    match word {
        Word::If => conditional(alloc, rest),
        Word::While => repeated(alloc, rest),
        Word::Split => split(alloc, rest),
        Word::Parts => parts(alloc, rest),
        Word::Async => {
            // stmt = "async" block
            let (body, left) = block(alloc, rest)?;
            Ok((Stmt::Async { body }, left))
        }
        Word::Finish => finish(alloc, rest),
        _ => simple(alloc, tokens),
    }
}

#[inline(never)]
#[cycle(stmt)]
fn conditional(alloc: Global, tokens: &[Spanned]) -> Result<(Stmt, &[Spanned]), Stuck>
    ensures shorter { IfOk result (λ read. length read.1.now < length tokens.now) }
    ensures read { IfOk result
        (ReadsAs stmt stmt_then else_level (WordToken Word.If ∷ plain tokens.now)) }
    ensures refused { IfErr result
        (Refuses stmt_then else_level (WordToken Word.If ∷ plain tokens.now)) }
{
    // "if" expr block [ "else" block ], its first word read
    let (guard, rest) = expressions::expr(alloc, tokens)?;
    let (body, rest) = block(alloc, rest)?;
    match cursor::after_word(rest, Word::Else) {
        None => Ok((
            Stmt::If {
                guard,
                body,
                other: None,
            },
            rest,
        )),
        Some(after) => {
            let (other, rest) = block(alloc, after)?;
            Ok((
                Stmt::If {
                    guard,
                    body,
                    other: Some(other),
                },
                rest,
            ))
        }
    }
}

#[inline(never)]
#[cycle(stmt)]
fn repeated(alloc: Global, tokens: &[Spanned]) -> Result<(Stmt, &[Spanned]), Stuck>
    ensures shorter { IfOk result (λ read. length read.1.now < length tokens.now) }
    ensures read { IfOk result
        (ReadsAs stmt stmt_then else_level (WordToken Word.While ∷ plain tokens.now)) }
    ensures refused { IfErr result
        (Refuses stmt_then else_level (WordToken Word.While ∷ plain tokens.now)) }
{
    // "while" expr block, its first word read
    let (guard, rest) = expressions::expr(alloc, tokens)?;
    let (body, rest) = block(alloc, rest)?;
    Ok((Stmt::While { guard, body }, rest))
}

#[inline(never)]
#[cycle(stmt)]
fn split(alloc: Global, tokens: &[Spanned]) -> Result<(Stmt, &[Spanned]), Stuck>
    ensures shorter { IfOk result (λ read. length read.1.now < length tokens.now) }
    ensures read { IfOk result
        (ReadsAs stmt stmt_then else_level (WordToken Word.Split ∷ plain tokens.now)) }
    ensures refused { IfErr result
        (Refuses stmt_then else_level (WordToken Word.Split ∷ plain tokens.now)) }
{
    // "split" name "at" expr "as" name "," name block, its first word read
    let (section, rest) = cursor::name(tokens)?;
    let rest = cursor::word(rest, Word::At)?;
    let (at, rest) = expressions::expr(alloc, rest)?;
    let rest = cursor::word(rest, Word::As)?;
    let (left, rest) = cursor::name(rest)?;
    let rest = cursor::mark(rest, Mark::Comma)?;
    let (right, rest) = cursor::name(rest)?;
    let (body, rest) = block(alloc, rest)?;
    Ok((
        Stmt::Split {
            section,
            at,
            left,
            right,
            body,
        },
        rest,
    ))
}

#[inline(never)]
#[cycle(stmt)]
fn parts(alloc: Global, tokens: &[Spanned]) -> Result<(Stmt, &[Spanned]), Stuck>
    ensures shorter { IfOk result (λ read. length read.1.now < length tokens.now) }
    ensures read { IfOk result
        (ReadsAs stmt stmt_then else_level (WordToken Word.Parts ∷ plain tokens.now)) }
    ensures refused { IfErr result
        (Refuses stmt_then else_level (WordToken Word.Parts ∷ plain tokens.now)) }
{
    // "parts" name "by" expr "as" name "," name block, its first word read
    let (section, rest) = cursor::name(tokens)?;
    let rest = cursor::word(rest, Word::By)?;
    let (size, rest) = expressions::expr(alloc, rest)?;
    let rest = cursor::word(rest, Word::As)?;
    let (piece, rest) = cursor::name(rest)?;
    let rest = cursor::mark(rest, Mark::Comma)?;
    let (turn, rest) = cursor::name(rest)?;
    let (body, rest) = block(alloc, rest)?;
    Ok((
        Stmt::Parts {
            section,
            size,
            piece,
            turn,
            body,
        },
        rest,
    ))
}

#[inline(never)]
#[cycle(stmt)]
fn finish(alloc: Global, tokens: &[Spanned]) -> Result<(Stmt, &[Spanned]), Stuck>
    ensures shorter { IfOk result (λ read. length read.1.now < length tokens.now) }
    ensures read { IfOk result
        (ReadsAs stmt stmt_then else_level (WordToken Word.Finish ∷ plain tokens.now)) }
    ensures refused { IfErr result
        (Refuses stmt_then else_level (WordToken Word.Finish ∷ plain tokens.now)) }
{
    // "finish" block [ "rescue" name block ], its first word read
    let (body, rest) = block(alloc, tokens)?;
    match cursor::after_word(rest, Word::Rescue) {
        None => Ok((Stmt::Finish { body }, rest)),
        Some(after) => {
            let (faults, rest) = cursor::name(after)?;
            let (handler, rest) = block(alloc, rest)?;
            Ok((
                Stmt::Rescue {
                    body,
                    faults,
                    handler,
                },
                rest,
            ))
        }
    }
}

/// Reads a statement without a block that starts with a word.
#[inline(never)]
fn simple(alloc: Global, tokens: &[Spanned]) -> Result<(Stmt, &[Spanned]), Stuck>
    ensures shorter { IfOk result (λ read. length read.1.now < length tokens.now) }
    ensures read { IfOk result (ReadsAs stmt stmt_then else_level (plain tokens.now)) }
    ensures refused { IfErr result (λ stuck. stuck ≢ Stuck.OutOfMemory
        → (word : AnyWord) (rest : List PlainToken) → plain tokens.now ≡ WordToken word ∷ rest
        → word ≢ Word.If → word ≢ Word.While → word ≢ Word.Split → word ≢ Word.Parts
        → word ≢ Word.Async → word ≢ Word.Finish
        → SpellsNone stmt_then else_level (plain tokens.now)) }
{
    if let Some(rest) = cursor::after_word(tokens, Word::Skip) {
        // stmt = "skip" ";"
        let rest = cursor::mark(rest, Mark::Semicolon)?;
        return Ok((Stmt::Skip, rest));
    }
    if let Some(rest) = cursor::after_word(tokens, Word::Var) {
        return declared(alloc, rest);
    }
    if let Some(rest) = cursor::after_word(tokens, Word::Print) {
        return printed(alloc, rest);
    }
    // stmt = "fault" expr ";"
    let rest = cursor::word(tokens, Word::Fault)?;
    let (value, rest) = ended(alloc, rest)?;
    Ok((Stmt::Fault { value }, rest))
}

/// Reads an expression and the semicolon that ends its statement.
fn ended(alloc: Global, tokens: &[Spanned]) -> Result<(Expr, &[Spanned]), Stuck>
    ensures shorter { IfOk result (λ read. length read.1.now < length tokens.now) }
    ensures read { IfOk result
        (ReadsClosed expr_tree (λ value rest. expr_then value (MarkToken Mark.Semicolon ∷ rest))
        (plain tokens.now)) }
    ensures refused { IfErr result (RefusesClosed
        (λ value rest. expr_then value (MarkToken Mark.Semicolon ∷ rest))
        (plain tokens.now)) }
{
    // expr ";"
    let (value, rest) = expressions::expr(alloc, tokens)?;
    let rest = cursor::mark(rest, Mark::Semicolon)?;
    Ok((value, rest))
}

fn declared(alloc: Global, tokens: &[Spanned]) -> Result<(Stmt, &[Spanned]), Stuck>
    ensures shorter { IfOk result (λ read. length read.1.now < length tokens.now) }
    ensures read { IfOk result
        (ReadsAs stmt stmt_then else_level (WordToken Word.Var ∷ plain tokens.now)) }
    ensures refused { IfErr result
        (Refuses stmt_then else_level (WordToken Word.Var ∷ plain tokens.now)) }
{
    // "var" name "=" expr ";", its first word read
    let (name, rest) = cursor::name(tokens)?;
    let rest = cursor::mark(rest, Mark::Becomes)?;
    let (value, rest) = ended(alloc, rest)?;
    Ok((Stmt::Var { name, value }, rest))
}

fn printed(alloc: Global, tokens: &[Spanned]) -> Result<(Stmt, &[Spanned]), Stuck>
    ensures shorter { IfOk result (λ read. length read.1.now < length tokens.now) }
    ensures read { IfOk result
        (ReadsAs stmt stmt_then else_level (WordToken Word.Print ∷ plain tokens.now)) }
    ensures refused { IfErr result
        (Refuses stmt_then else_level (WordToken Word.Print ∷ plain tokens.now)) }
{
    // "print" expr { "," expr } ";", its first word read
    let (first, rest) = expressions::expr(alloc, tokens)?;
    let (others, rest) = expressions::more(alloc, rest, Vec::new(alloc))?;
    let rest = cursor::mark(rest, Mark::Semicolon)?;
    Ok((
        Stmt::Print {
            first,
            rest: others,
        },
        rest,
    ))
}

/// Reads a statement that starts with a name.
#[inline(never)]
fn named(alloc: Global, tokens: &[Spanned]) -> Result<(Stmt, &[Spanned]), Stuck>
    ensures shorter { IfOk result (λ read. length read.1.now < length tokens.now) }
    ensures read { IfOk result (ReadsAs stmt stmt_then else_level (plain tokens.now)) }
    ensures refused { IfErr result (λ stuck. stuck ≢ Stuck.OutOfMemory
        → ((word : AnyWord) (rest : List PlainToken) → plain tokens.now ≢ WordToken word ∷ rest)
        → SpellsNone stmt_then else_level (plain tokens.now)) }
{
    let (name, rest) = cursor::name(tokens)?;
    if let Some(rest) = cursor::after_mark(rest, Mark::LeftBracket) {
        // stmt = name "[" expr "]" "=" expr ";"
        let (index, rest) = expressions::expr(alloc, rest)?;
        let rest = cursor::mark(rest, Mark::RightBracket)?;
        let rest = cursor::mark(rest, Mark::Becomes)?;
        let (value, rest) = ended(alloc, rest)?;
        return Ok((
            Stmt::Store {
                section: name,
                index,
                value,
            },
            rest,
        ));
    }
    if let Some(rest) = cursor::after_mark(rest, Mark::LeftParen) {
        // stmt = name "(" [ expr { "," expr } ] ")" ";"
        let (arguments, rest) = arguments(alloc, rest)?;
        let rest = cursor::mark(rest, Mark::Semicolon)?;
        return Ok((
            Stmt::Call {
                procedure: name,
                arguments,
            },
            rest,
        ));
    }
    // stmt = name "=" expr ";"
    let rest = cursor::mark(rest, Mark::Becomes)?;
    let (value, rest) = ended(alloc, rest)?;
    Ok((Stmt::Assign { name, value }, rest))
}

/// Reads the arguments of a call and the parenthesis that closes them.
fn arguments(alloc: Global, tokens: &[Spanned]) -> Result<(Vec<Expr>, &[Spanned]), Stuck>
    ensures shorter { IfOk result (λ read. length read.1.now < length tokens.now) }
    ensures read { IfOk result (λ read.
        IsReadClosed (λ all rest. exprs_then all (MarkToken Mark.RightParen ∷ rest))
        (plain tokens.now) (exprs read.0.items) (plain read.1.now)) }
    ensures refused { IfErr result (RefusesClosed
        (λ all rest. exprs_then all (MarkToken Mark.RightParen ∷ rest))
        (plain tokens.now)) }
{
    // [ expr { "," expr } ] ")"
    let mut arguments = Vec::new(alloc);
    if let Some(rest) = cursor::after_mark(tokens, Mark::RightParen) {
        return Ok((arguments, rest));
    }
    let (first, rest) = expressions::expr(alloc, tokens)?;
    lists::push(&mut arguments, first)?;
    let (arguments, rest) = expressions::more(alloc, rest, arguments)?;
    let rest = cursor::mark(rest, Mark::RightParen)?;
    Ok((arguments, rest))
}
