//! The causes of faults.

use crate::cause::Cause;
use excerpts::named::Named;
use excerpts::statements::PlacedStatements;
use sections::id::ArrayId;
use sections::window::Window;
use std::alloc::AllocError;
use types::code::{Label, Operator, Program};

/// Where a fault is in its statement.
#[derive(Clone, Copy)]
pub struct FaultSpot<'t> {
    /// The number of the character, if it isn't the statement's first.
    pub at: Option<usize>,
    /// The name of the section that has no such element or no such split point.
    name: &'t str,
}

/// Returns where a fault is in its statement.
pub fn spot_of<'s>(
    statements: &'s PlacedStatements<'_>,
    label: Label,
    cause: Option<Cause>,
) -> Result<FaultSpot<'s>, AllocError> {
    let Some(cause) = cause else {
        return Ok(FaultSpot { at: None, name: "" });
    };
    match cause {
        Cause::Index { nth, .. } => Ok(named_spot(statements.element(label, nth)?)),
        Cause::SplitPoint { .. } | Cause::PieceSize { .. } => {
            Ok(named_spot(statements.cut(label)?))
        }
        Cause::Overflow { nth, .. } | Cause::Negative { nth } | Cause::ZeroDivisor { nth, .. } => {
            Ok(FaultSpot {
                at: statements.operator(label, nth),
                name: "",
            })
        }
        Cause::OutOfElement { .. } | Cause::Raised(_) => Ok(FaultSpot { at: None, name: "" }),
    }
}

/// Returns the spot of a name.
fn named_spot(named: Option<Named<'_>>) -> FaultSpot<'_> {
    match named {
        Some(named) => FaultSpot {
            at: Some(named.at),
            name: named.name,
        },
        None => FaultSpot { at: None, name: "" },
    }
}

/// Adds the values that caused a fault.
pub fn push_cause(
    told: &mut String,
    code: &Program,
    spot: FaultSpot<'_>,
    cause: Cause,
) -> Result<(), AllocError> {
    let name = spot.name;
    match cause {
        Cause::Index { index, window, .. } => push_index(told, code, name, index, window),
        Cause::Overflow {
            left,
            operator,
            right,
            ..
        } => push_overflow(told, left, operator, right),
        Cause::Negative { .. } => told.push_str("9223372036854775808 doesn't fit in an int.\n"),
        Cause::ZeroDivisor { left, operator, .. } => {
            let sign = sign_of(operator);
            write!(told, "{left} {sign} 0: the divisor is 0.\n")
        }
        Cause::OutOfElement { array, value } => push_value(told, code, array, value),
        Cause::SplitPoint { point, length } => write!(
            told,
            "Split point {point}, length {length}: `{name}` can be split at 0 to {length}.\n"
        ),
        Cause::PieceSize { size } => write!(
            told,
            "Size {size}: `{name}` can be cut into pieces of 1 element or more.\n"
        ),
        Cause::Raised(number) => {
            write!(told, "The statement raised this fault with {number}.\n")
        }
    }
}

/// Adds why an operator has no result for two numbers. `%` faults if `/` has no result, though its
/// own result would be 0.
fn push_overflow(
    told: &mut String,
    left: i64,
    operator: Operator,
    right: i64,
) -> Result<(), AllocError> {
    if operator == Operator::Modulo {
        return write!(
            told,
            "{left} % {right}: `%` overflows where `/` does, for the smallest int and -1.\n"
        );
    }
    let sign = sign_of(operator);
    write!(
        told,
        "The result of {left} {sign} {right} doesn't fit in an int.\n"
    )
}

/// Explains an index out of bounds.
fn push_index(
    told: &mut String,
    code: &Program,
    name: &str,
    index: i64,
    window: Window,
) -> Result<(), AllocError> {
    let length = window.len;
    write!(told, "Index {index}, length {length}: `{name}` has ")?;
    if length == 0 {
        return told.push_str("no elements here.\n");
    }
    let last = length - 1;
    if last == 0 {
        told.push_str("only the element 0")?;
    } else {
        write!(told, "the elements 0 to {last}")?;
    }
    push_origin(told, code, window, last)?;
    told.push_str(".\n")
}

/// Adds which elements of its array a section has, if it isn't all of it. `last` is the index of the
/// section's last element.
fn push_origin(
    told: &mut String,
    code: &Program,
    window: Window,
    last: usize,
) -> Result<(), AllocError> {
    let Some(array) = code.arrays.get(window.array.number) else {
        return Ok(());
    };
    if array.length == window.len {
        return Ok(());
    }
    let whole = array.name.as_str();
    let from = window.at;
    if last == 0 {
        return write!(told, ", which is element {from} of the array `{whole}`");
    }
    let to = from.saturating_add(last);
    write!(told, ", which are {from} to {to} of the array `{whole}`")
}

/// Explains a number that doesn't fit in an array.
fn push_value(
    told: &mut String,
    code: &Program,
    array: ArrayId,
    value: i64,
) -> Result<(), AllocError> {
    write!(told, "The value is {value}")?;
    if let Some(array) = code.arrays.get(array.number) {
        let name = array.name.as_str();
        write!(told, ", and the array `{name}` holds bytes, 0 to 255")?;
    }
    told.push_str(".\n")
}

/// Adds how to fix it.
pub fn push_mend(told: &mut String, spot: FaultSpot<'_>, cause: Cause) -> Result<(), AllocError> {
    let name = spot.name;
    told.push_str("help: ")?;
    match cause {
        Cause::Index { .. } => write!(
            told,
            "test the index first, as in `if 0 <= i and i < len({name}) {{ .. }}`, or make the array larger.\n"
        ),
        Cause::Overflow {
            operator: Operator::Modulo,
            ..
        } => told.push_str("test the divisor first, as in `if d != -1 { .. }`.\n"),
        Cause::Overflow { .. } | Cause::Negative { .. } => told.push_str(SMALLER),
        Cause::ZeroDivisor { .. } => {
            told.push_str("test the divisor first, as in `if d != 0 { .. }`.\n")
        }
        Cause::OutOfElement { .. } => told.push_str(
            "store a number from 0 to 255, or declare the array as `int`.\n",
        ),
        Cause::SplitPoint { .. } => write!(
            told,
            "split at a number from 0 to the length, such as `len({name}) / 2`.\n"
        ),
        Cause::PieceSize { .. } => told.push_str(
            "test the size first, as in `if n >= 1 { .. }`, or use 1 for a piece per element.\n",
        ),
        Cause::Raised(_) => told.push_str(
            "the program raised this fault on purpose; check how the run got here.\n",
        ),
    }
}

const SMALLER: &str =
    "keep the numbers in the range -9223372036854775808 to 9223372036854775807, with a test or with `%`.\n";

/// Returns an operator as it is written.
fn sign_of(operator: Operator) -> char {
    match operator {
        Operator::Plus => '+',
        Operator::Minus => '-',
        Operator::Times => '*',
        Operator::Over => '/',
        Operator::Modulo => '%',
    }
}
