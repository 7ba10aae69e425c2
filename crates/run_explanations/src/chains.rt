//! The calls that led to a statement.

use crate::seen::{CallChain, EqualCalls};
use excerpts::statements::PlacedStatements;
use std::alloc::{AllocError, Global};
use types::code::Label;

/// The maximum number of calls that are reported in addition to the first one, with equal ones in a
/// row as one.
const MOST_CALLS: usize = 6;

/// Returns the calls that haven't ended yet, given their labels, with the last call last.
pub fn chain_of(alloc: Global, calls: &[Label]) -> Result<CallChain, AllocError> {
    let mut chain = CallChain {
        depth: 0,
        last: Vec::new(alloc),
        first: None,
        skips: false,
    };
    for label in calls.iter().rev() {
        add_call(&mut chain, *label)?;
    }
    Ok(chain)
}

/// Adds the call from which the first call so far was reached.
fn add_call(chain: &mut CallChain, label: Label) -> Result<(), AllocError> {
    chain.depth = chain.depth.saturating_add(1);
    if chain.first.is_none() {
        if let Some(calls) = chain.last.last_mut() {
            if calls.label == label {
                calls.times = calls.times.saturating_add(1);
                return Ok(());
            }
        }
    }
    if chain.last.len() < MOST_CALLS {
        chain.last.push(EqualCalls { label, times: 1 })?;
    } else {
        chain.skips = chain.first.is_some();
        chain.first = Some(label);
    }
    Ok(())
}

/// Adds the call that a statement was executed in, and those that led to it.
pub fn push_calls(
    told: &mut String,
    statements: &PlacedStatements<'_>,
    chain: &CallChain,
) -> Result<(), AllocError> {
    let Some(last) = chain.last.first() else {
        return Ok(());
    };
    if let Some(place) = statements.place(last.label) {
        let label = last.label;
        write!(told, "It was called at {place}, label {label}.\n")?;
    }
    if chain.depth > 1 {
        push_chain(told, statements, chain)?;
    }
    Ok(())
}

/// Adds all calls on one line, with equal ones in a row as one.
fn push_chain(
    told: &mut String,
    statements: &PlacedStatements<'_>,
    chain: &CallChain,
) -> Result<(), AllocError> {
    let depth = chain.depth;
    write!(told, "The {depth} calls that led here, the last one first:")?;
    let mut before = " ";
    for calls in &chain.last {
        told.push_str(before)?;
        push_call(told, statements, *calls)?;
        before = ", ";
    }
    if let Some(label) = chain.first {
        told.push_str(if chain.skips { ", .., " } else { ", " })?;
        push_call(told, statements, EqualCalls { label, times: 1 })?;
    }
    told.push_str(".\n")
}

/// Adds the position and the label of equal calls, and how many they are.
fn push_call(
    told: &mut String,
    statements: &PlacedStatements<'_>,
    calls: EqualCalls,
) -> Result<(), AllocError> {
    let EqualCalls { label, times } = calls;
    if let Some(place) = statements.place(label) {
        write!(told, "{place} ")?;
    }
    write!(told, "label {label}")?;
    if times > 1 {
        write!(told, " ({times} times)")?;
    }
    Ok(())
}
