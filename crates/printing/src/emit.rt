//! The text of an outcome, and of pairs of labels.

ghost use Rattle.std.specs.Prelude.{◌++◌, codes, map};
ghost use Rattle.std.specs.Fmt.{decimal, signed_decimal};
ghost use Rattle.std.specs.List.{flat_map, zip};
ghost use Rattle.types.specs.Translation.{array, fault as fault_of, outcome as outcome_of};
ghost use Rattle.printing.specs.Appending.{Writes};
ghost use Rattle.printing.specs.OutcomeText.{outcome_text, line_text, joined_text, spaced_text, fault_text};
ghost use Rattle.printing.specs.OutcomeText.{array_text};
ghost use Rattle.printing.specs.ExploredText.{open_text};
ghost use Rattle.printing.specs.Labels.{pair_text};
ghost use Rattle.parallel_relation.specs.Pairs.{pairs_left};
ghost use Rattle.types.specs.Names.{path_text, kind_text};

use itoa::Buffer;
use parallel_relation::pairs::PairList;
use std::io::Write;
use types::child_number::ChildNumber;
use types::code::{Array, Label};
use types::fault::{Fault, FaultKind};
use types::outcome::Outcome;
use types::path::Path;

/// The writer failed or accepted no bytes, for example because a disk is full.
#[derive(Clone, Copy, PartialEq, Eq, Debug)]
pub struct EmitError;

/// Writes an outcome, one item per line: the printed lines, then the faults, then, if requested,
/// the arrays; or the one line `stopped`. `declared` are the arrays of the program. Doesn't
/// allocate.
pub fn emit<W: Write>(
    out: &mut W,
    outcome: &Outcome,
    declared: &[Array],
    arrays: bool,
) -> Result<(), EmitError>
    ensures { Writes (W.contents out.old) (W.contents out.new) result
        (outcome_text (map array declared.now) arrays (outcome_of outcome.now)) }
{
    match outcome {
        Outcome::Stopped => append(out, b"stopped\n"),
        Outcome::Ended {
            arrays: contents,
            lines,
            faults,
        } => {
            emit_lines(out, lines)?;
            emit_faults(out, faults)?;
            if arrays {
                emit_arrays(out, declared, contents)?;
            }
            Ok(())
        }
    }
}

/// Writes the printed lines.
fn emit_lines<W: Write>(out: &mut W, lines: &[Vec<i64>]) -> Result<(), EmitError>
    ensures { Writes (W.contents out.old) (W.contents out.new) result
        (flat_map (λ line. line_text line.items) lines.now) }
{
    for line in lines {
        emit_line(out, line)?;
    }
    Ok(())
}

/// Writes a printed line: its values in decimal, separated by one space.
fn emit_line<W: Write>(out: &mut W, line: &[i64]) -> Result<(), EmitError>
    ensures { Writes (W.contents out.old) (W.contents out.new) result (line_text line.now) }
{
    emit_joined(out, line)?;
    append(out, b"\n")
}

/// Writes the values in decimal, separated by one space.
fn emit_joined<W: Write>(out: &mut W, values: &[i64]) -> Result<(), EmitError>
    ensures { Writes (W.contents out.old) (W.contents out.new) result (joined_text values.now) }
{
    match values.split_first() {
        None => Ok(()),
        Some((first, rest)) => {
            emit_number(out, first)?;
            emit_spaced(out, rest)
        }
    }
}

/// Writes the values in decimal, with a space before each.
fn emit_spaced<W: Write>(out: &mut W, values: &[i64]) -> Result<(), EmitError>
    ensures { Writes (W.contents out.old) (W.contents out.new) result (spaced_text values.now) }
{
    for value in values {
        emit_behind_space(out, value)?;
    }
    Ok(())
}

/// Writes a space and a number.
fn emit_behind_space<W: Write>(out: &mut W, number: &i64) -> Result<(), EmitError>
    ensures { Writes (W.contents out.old) (W.contents out.new) result
        (codes " " ++ signed_decimal number.now) }
{
    append(out, b" ")?;
    emit_number(out, number)
}

/// Writes the faults.
fn emit_faults<W: Write>(out: &mut W, faults: &[Fault]) -> Result<(), EmitError>
    ensures { Writes (W.contents out.old) (W.contents out.new) result
        (flat_map (λ fault. fault_text (fault_of fault)) faults.now) }
{
    for fault in faults {
        emit_fault(out, fault)?;
    }
    Ok(())
}

/// Writes `fault PATH at LABEL: CODE`.
fn emit_fault<W: Write>(out: &mut W, fault: &Fault) -> Result<(), EmitError>
    ensures { Writes (W.contents out.old) (W.contents out.new) result
        (fault_text (fault_of fault.now)) }
{
    append(out, b"fault ")?;
    emit_path(out, &fault.path)?;
    append(out, b" at ")?;
    emit_label(out, fault.label)?;
    append(out, b": ")?;
    emit_kind(out, &fault.kind)?;
    append(out, b"\n")
}

/// Writes `0.1.2`.
fn emit_path<W: Write>(out: &mut W, path: &Path) -> Result<(), EmitError>
    ensures { Writes (W.contents out.old) (W.contents out.new) result
        (path_text path.now.turns.items) }
{
    append(out, b"0")?;
    emit_turns(out, &path.turns)
}

/// Writes `.1.2`.
fn emit_turns<W: Write>(out: &mut W, turns: &[ChildNumber]) -> Result<(), EmitError>
    ensures { Writes (W.contents out.old) (W.contents out.new) result
        (flat_map (λ turn. codes "." ++ decimal turn) turns.now) }
{
    for turn in turns {
        emit_turn(out, *turn)?;
    }
    Ok(())
}

/// Writes `.1`.
fn emit_turn<W: Write>(out: &mut W, turn: ChildNumber) -> Result<(), EmitError>
    ensures { Writes (W.contents out.old) (W.contents out.new) result (codes "." ++ decimal turn) }
{
    append(out, b".")?;
    emit_label(out, turn.get())
}

/// Writes the code of a fault, `F1` to `F7`, and the number of `F6`.
fn emit_kind<W: Write>(out: &mut W, kind: &FaultKind) -> Result<(), EmitError>
    ensures { Writes (W.contents out.old) (W.contents out.new) result (kind_text kind.now) }
{
    match kind {
        FaultKind::Index => append(out, b"F1"),
        FaultKind::Overflow => append(out, b"F2"),
        FaultKind::ZeroDivisor => append(out, b"F3"),
        FaultKind::OutOfElement => append(out, b"F4"),
        FaultKind::SplitPoint => append(out, b"F5"),
        FaultKind::Raised(number) => {
            append(out, b"F6 ")?;
            emit_number(out, number)
        }
        FaultKind::PieceSize => append(out, b"F7"),
    }
}

/// Writes the arrays that are declared and have elements.
fn emit_arrays<W: Write>(
    out: &mut W,
    declared: &[Array],
    contents: &[Vec<i64>],
) -> Result<(), EmitError>
    ensures { Writes (W.contents out.old) (W.contents out.new) result
        (flat_map (λ (a, elements). array_text (array a, elements.items))
        (zip declared.now contents.now)) }
{
    for (array, elements) in declared.iter().zip(contents) {
        emit_array(out, array, elements)?;
    }
    Ok(())
}

/// Writes `array NAME` and the elements, with a space before each.
fn emit_array<W: Write>(out: &mut W, declared: &Array, elements: &[i64]) -> Result<(), EmitError>
    ensures { Writes (W.contents out.old) (W.contents out.new) result
        (array_text (array declared.now, elements.now)) }
{
    append(out, b"array ")?;
    append(out, declared.name.as_bytes())?;
    emit_spaced(out, elements)?;
    append(out, b"\n")
}

/// Writes a number in decimal.
fn emit_number<W: Write>(out: &mut W, number: &i64) -> Result<(), EmitError>
    ensures { Writes (W.contents out.old) (W.contents out.new) result (signed_decimal number.now) }
{
    let mut buffer = Buffer::new();
    append(out, buffer.format(*number).as_bytes())
}

/// Writes pairs of labels, one per line.
pub fn emit_pairs<W: Write>(out: &mut W, pairs: PairList<'_>) -> Result<(), EmitError>
    ensures { Writes (W.contents out.old) (W.contents out.new) result
        (flat_map pair_text (pairs_left pairs.entry)) }
{
    for (one, other) in pairs {
        emit_pair(out, one, other)?;
    }
    Ok(())
}

/// Writes `3 6`.
fn emit_pair<W: Write>(out: &mut W, one: Label, other: Label) -> Result<(), EmitError>
    ensures { Writes (W.contents out.old) (W.contents out.new) result (pair_text (one, other)) }
{
    emit_label(out, one)?;
    append(out, b" ")?;
    emit_label(out, other)?;
    append(out, b"\n")
}

/// Writes a label, a part of a path or of a place, or a number of leaves in decimal.
pub fn emit_label<W: Write>(out: &mut W, number: Label) -> Result<(), EmitError>
    ensures { Writes (W.contents out.old) (W.contents out.new) result (decimal number) }
{
    let mut buffer = Buffer::new();
    append(out, buffer.format(number).as_bytes())
}

/// Writes the number of a choice in decimal.
pub fn emit_count<W: Write>(out: &mut W, number: usize) -> Result<(), EmitError>
    ensures { Writes (W.contents out.old) (W.contents out.new) result (decimal number) }
{
    let mut digits = Buffer::new();
    append(out, digits.format(number).as_bytes())
}

/// Writes `open 2`: the number of leaves that can take a step.
pub fn emit_open<W: Write>(out: &mut W, leaves: u32) -> Result<(), EmitError>
    ensures { Writes (W.contents out.old) (W.contents out.new) result (open_text leaves) }
{
    append(out, b"open ")?;
    emit_label(out, leaves)?;
    append(out, b"\n")
}

/// Writes all bytes, in as many calls as the writer needs.
pub fn append<W: Write>(out: &mut W, bytes: &[u8]) -> Result<(), EmitError>
    ensures { Writes (W.contents out.old) (W.contents out.new) result bytes.now }
{
    let mut rest = bytes;
    'writes: while !rest.is_empty() {
        match out.write(rest) {
            Ok(0) => return Err(EmitError),
            Ok(taken) => rest = &rest[taken..],
            Err(_) => return Err(EmitError),
        }
    }
    Ok(())
}
