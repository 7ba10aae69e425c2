//! Programs, procedures and declarations, one function for each production.

ghost use Rattle.std.specs.Prelude.{◌≡◌, ◌≢◌, ◌<◌, ◌≤◌, ℕ, List, ◌∷◌, length, map, IfOk, IfErr};
ghost use Rattle.std.specs.String.{string_bytes};
ghost use Rattle.syntax_tree.specs.declared.tree.ElementType.{ElementType as AnyElement};
ghost use Rattle.syntax.specs.Reading.{IsRead, IsReadClosed, ReadsClosed, Refuses, RefusesClosed, list_level};
ghost use Rattle.syntax.specs.Spelling.{array_then, arrays_then, block_then, element_word, parameter_then};
ghost use Rattle.syntax.specs.Spelling.{parameters_then, procedure_then, spelling};
ghost use Rattle.syntax.specs.Token.{Token as PlainToken, NameToken, WordToken, MarkToken, plain};
ghost use Rattle.syntax_tree.specs.Tree.{Main as MainTree, Program as ProgramTree, array as array_tree};
ghost use Rattle.syntax_tree.specs.Tree.{block, parameter as parameter_tree, procedure as procedure_tree};
ghost use Rattle.syntax_tree.specs.Tree.{program as program_tree};

use crate::cursor::Stuck;
use crate::token::{Mark, Spanned, Word};
use crate::{cursor, statements};
use std::alloc::Global;
use syntax_tree::tree::{Array, ElementType, Main, Parameter, Procedure, Program};

/// Reads a whole program.
pub fn program(alloc: Global, tokens: &[Spanned]) -> Result<Program, Stuck>
    ensures spelled { IfOk result (λ read. plain tokens.now ≡ spelling (program_tree read)) }
    ensures refused { IfErr result (λ stuck. stuck ≢ Stuck.OutOfMemory
        → (program : ProgramTree) → plain tokens.now ≢ spelling program) }
{
    // program = { proc } [ "main" "{" { array } { stmt } "}" ]
    let mut procedures = Vec::new(alloc);
    let mut left = tokens;
    while let Some(after) = cursor::after_word(left, Word::Proc) {
        let (next, behind) = procedure(alloc, after)?;
        procedures.push(next)?;
        left = behind;
    }
    if left.is_empty() {
        return Ok(Program {
            procedures,
            main: None,
        });
    }
    let (body, rest) = main(alloc, left)?;
    if !rest.is_empty() {
        return Err(cursor::unexpected(rest));
    }
    Ok(Program {
        procedures,
        main: Some(body),
    })
}

fn main(alloc: Global, tokens: &[Spanned]) -> Result<(Main, &[Spanned]), Stuck>
    ensures shorter { IfOk result (λ read. length read.1.now < length tokens.now) }
    ensures spelled { IfOk result (λ read.
        plain tokens.now ≡ WordToken Word.Main ∷ MarkToken Mark.LeftBrace
        ∷ arrays_then (map array_tree read.0.arrays.items)
        (block_then (block read.0.body.items) (plain read.1.now))) }
    ensures whole { IfOk result (λ read.
        (main : MainTree) (rest : List PlainToken)
        → plain tokens.now ≡ WordToken Word.Main ∷ MarkToken Mark.LeftBrace
        ∷ arrays_then main.arrays (block_then main.body rest)
        → plain read.1.now ≡ rest) }
    ensures refused { IfErr result (λ stuck. stuck ≢ Stuck.OutOfMemory
        → (main : MainTree) (rest : List PlainToken)
        → plain tokens.now ≢ WordToken Word.Main ∷ MarkToken Mark.LeftBrace
        ∷ arrays_then main.arrays (block_then main.body rest)) }
{
    // "main" "{" { array } { stmt } "}"
    let rest = cursor::word(tokens, Word::Main)?;
    let rest = cursor::mark(rest, Mark::LeftBrace)?;
    let (arrays, rest) = arrays(alloc, rest)?;
    let (body, rest) = statements::statements(alloc, rest)?;
    Ok((Main { arrays, body }, rest))
}

fn arrays(alloc: Global, tokens: &[Spanned]) -> Result<(Vec<Array>, &[Spanned]), Stuck>
    ensures shorter { IfOk result (λ read. length read.1.now ≤ length tokens.now) }
    ensures read { IfOk result (λ read.
        IsRead arrays_then list_level (plain tokens.now)
        (map array_tree read.0.items) (plain read.1.now)) }
    ensures refused { IfErr result (Refuses arrays_then list_level (plain tokens.now)) }
{
    // { array }
    let mut arrays = Vec::new(alloc);
    let mut left = tokens;
    while let Some(after) = cursor::after_word(left, Word::Array) {
        let (next, behind) = array(after)?;
        arrays.push(next)?;
        left = behind;
    }
    Ok((arrays, left))
}

fn array(tokens: &[Spanned]) -> Result<(Array, &[Spanned]), Stuck>
    ensures shorter { IfOk result (λ read. length read.1.now < length tokens.now) }
    ensures read { IfOk result
        (ReadsClosed array_tree array_then (WordToken Word.Array ∷ plain tokens.now)) }
    ensures refused { IfErr result
        (RefusesClosed array_then (WordToken Word.Array ∷ plain tokens.now)) }
{
    // array = "array" name ":" elem "[" number "]" ";", its first word read
    let (name, element, rest) = section(tokens)?;
    let rest = cursor::mark(rest, Mark::LeftBracket)?;
    let (length, rest) = cursor::number(rest)?;
    let rest = cursor::mark(rest, Mark::RightBracket)?;
    let rest = cursor::mark(rest, Mark::Semicolon)?;
    Ok((
        Array {
            name,
            element,
            length,
        },
        rest,
    ))
}

fn element_type(tokens: &[Spanned]) -> Result<(ElementType, &[Spanned]), Stuck>
    ensures shorter { IfOk result (λ read. length read.1.now < length tokens.now) }
    ensures read { IfOk result (λ read.
        IsReadClosed (λ element rest. WordToken (element_word element) ∷ rest) (plain tokens.now)
        read.0 (plain read.1.now)) }
    ensures refused { IfErr result (RefusesClosed
        (λ element rest. WordToken (element_word element) ∷ rest)
        (plain tokens.now)) }
    ensures place { IfErr result (λ stuck. stuck ≡ Stuck.Unexpected (length tokens.now)) }
{
    // elem = "int" | "byte"
    if let Some(rest) = cursor::after_word(tokens, Word::Int) {
        return Ok((ElementType::Int, rest));
    }
    let rest = cursor::word(tokens, Word::Byte)?;
    Ok((ElementType::Byte, rest))
}

fn procedure(alloc: Global, tokens: &[Spanned]) -> Result<(Procedure, &[Spanned]), Stuck>
    ensures shorter { IfOk result (λ read. length read.1.now < length tokens.now) }
    ensures read { IfOk result
        (ReadsClosed procedure_tree procedure_then (WordToken Word.Proc ∷ plain tokens.now)) }
    ensures refused { IfErr result
        (RefusesClosed procedure_then (WordToken Word.Proc ∷ plain tokens.now)) }
{
    // proc = "proc" name "(" [ param { "," param } ] ")" block, its first word read
    let (name, rest) = cursor::name(tokens)?;
    let rest = cursor::mark(rest, Mark::LeftParen)?;
    let (parameters, rest) = parameters(alloc, rest)?;
    let (body, rest) = statements::block(alloc, rest)?;
    Ok((
        Procedure {
            name,
            parameters,
            body,
        },
        rest,
    ))
}

/// Reads the parameters of a procedure and the parenthesis that closes them.
fn parameters(alloc: Global, tokens: &[Spanned]) -> Result<(Vec<Parameter>, &[Spanned]), Stuck>
    ensures shorter { IfOk result (λ read. length read.1.now < length tokens.now) }
    ensures read { IfOk result (λ read.
        IsReadClosed (λ all rest. parameters_then all (MarkToken Mark.RightParen ∷ rest))
        (plain tokens.now) (map parameter_tree read.0.items) (plain read.1.now)) }
    ensures refused { IfErr result (RefusesClosed
        (λ all rest. parameters_then all (MarkToken Mark.RightParen ∷ rest))
        (plain tokens.now)) }
{
    // [ param { "," param } ] ")"
    if let Some(rest) = cursor::after_mark(tokens, Mark::RightParen) {
        return Ok((Vec::new(alloc), rest));
    }
    let mut parameters = Vec::new(alloc);
    let (first, mut left) = parameter(tokens)?;
    parameters.push(first)?;
    while let Some(after) = cursor::after_mark(left, Mark::Comma) {
        let (next, behind) = parameter(after)?;
        parameters.push(next)?;
        left = behind;
    }
    let rest = cursor::mark(left, Mark::RightParen)?;
    Ok((parameters, rest))
}

fn parameter(tokens: &[Spanned]) -> Result<(Parameter, &[Spanned]), Stuck>
    ensures shorter { IfOk result (λ read. length read.1.now < length tokens.now) }
    ensures read { IfOk result (ReadsClosed parameter_tree parameter_then (plain tokens.now)) }
    ensures refused { IfErr result (RefusesClosed parameter_then (plain tokens.now)) }
{
    // param = ( "mut" | "read" ) name ":" elem | name ":" "int"
    if let Some(rest) = cursor::after_word(tokens, Word::Mut) {
        let (name, element, rest) = section(rest)?;
        return Ok((Parameter::Written { name, element }, rest));
    }
    if let Some(rest) = cursor::after_word(tokens, Word::Read) {
        let (name, element, rest) = section(rest)?;
        return Ok((Parameter::Read { name, element }, rest));
    }
    let (name, rest) = cursor::name(tokens)?;
    let rest = cursor::mark(rest, Mark::Colon)?;
    let rest = cursor::word(rest, Word::Int)?;
    Ok((Parameter::Scalar { name }, rest))
}

/// Reads the name and the element type of an array or a section.
fn section(tokens: &[Spanned]) -> Result<(String, ElementType, &[Spanned]), Stuck>
    ensures shorter { IfOk result (λ read. length read.2.now < length tokens.now) }
    ensures spelled { IfOk result (λ read.
        plain tokens.now ≡ NameToken (string_bytes read.0) ∷ MarkToken Mark.Colon
        ∷ WordToken (element_word read.1) ∷ plain read.2.now) }
    ensures whole { IfOk result (λ read.
        (name : List ℕ) (element : AnyElement) (rest : List PlainToken)
        → plain tokens.now ≡ NameToken name ∷ MarkToken Mark.Colon
        ∷ WordToken (element_word element) ∷ rest → plain read.2.now ≡ rest) }
    ensures refused { IfErr result (λ stuck. stuck ≢ Stuck.OutOfMemory
        → (name : List ℕ) (element : AnyElement) (rest : List PlainToken)
        → plain tokens.now ≢ NameToken name ∷ MarkToken Mark.Colon
        ∷ WordToken (element_word element) ∷ rest) }
{
    // name ":" elem
    let (name, rest) = cursor::name(tokens)?;
    let rest = cursor::mark(rest, Mark::Colon)?;
    let (element, rest) = element_type(rest)?;
    Ok((name, element, rest))
}
