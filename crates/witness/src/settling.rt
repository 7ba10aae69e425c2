//! The shortest ways from the bodies of all procedures to an access, found by rounds.

ghost use Rattle.std.specs.Prelude.{◌<◌, ℕ, IfOk, OnOk, length};
ghost use Rattle.types.specs.Translation.{program as program_of};
ghost use Rattle.effects.specs.Translation.{access as access_of};
ghost use Rattle.witness.specs.Known.{AreShortest, AreWays};
ghost use Rattle.witness.specs.Settled.{AreAdded, HasPut, Improves, ListsAll, Rounded};

use crate::known::{Entry, Known};
use crate::search::{Sought, way_in};
use crate::step::WayStep;
use effects::access::Access;
use sections::id::SectionId;
use std::alloc::{AllocError, Global};
use types::code::Program;
use types::ids::ProcedureId;

/// Finds the shortest ways to an access, in rounds, until no round finds a shorter one. Each round
/// covers ways with one more step: no such way is shorter than what is known.
pub(crate) fn settled(alloc: Global, code: &Program, access: Access) -> Result<Known, AllocError>
    ensures ways { IfOk result (AreWays (program_of code.now) (access_of access)) }
    ensures shortest { IfOk result (λ known. (n : ℕ)
        → AreShortest (program_of code.now) (access_of access) known n) }
{
    let entries = entries_of(alloc, code)?;
    let mut known = Known::nothing(alloc);
    loop {
        if !round(alloc, code, access, &entries, &mut known)? {
            return Ok(known);
        }
    }
}

/// Returns the entries of all procedures, from the last one to the first and back. So one round
/// covers calls of procedures that come before their callers, and of procedures that come after
/// them.
fn entries_of(alloc: Global, code: &Program) -> Result<Vec<Entry>, AllocError>
    ensures { IfOk result (λ entries. ListsAll (program_of code.now) 0 entries.items) }
{
    let mut entries = Vec::new(alloc);
    for number in (0..code.procedures.len()).rev() {
        add_entries(
            ProcedureId { number },
            code.procedures[number].parameters.len(),
            &mut entries,
        )?;
    }
    for again in 0..code.procedures.len() {
        add_entries(
            ProcedureId { number: again },
            code.procedures[again].parameters.len(),
            &mut entries,
        )?;
    }
    Ok(entries)
}

/// Adds the entries of a procedure with this number of parameters.
fn add_entries(
    procedure: ProcedureId,
    parameters: usize,
    entries: &mut Vec<Entry>,
) -> Result<(), AllocError>
    ensures { OnOk result (AreAdded procedure.number parameters entries.old.items
        entries.new.items) }
{
    for number in 0..parameters {
        let parameter = SectionId { number };
        entries.push(Entry {
            procedure,
            parameter,
            pending: false,
        })?;
        entries.push(Entry {
            procedure,
            parameter,
            pending: true,
        })?;
    }
    Ok(())
}

/// Looks for a shorter way at each entry. Returns false if there was none.
fn round(
    alloc: Global,
    code: &Program,
    access: Access,
    entries: &[Entry],
    known: &mut Known,
) -> Result<bool, AllocError>
    requires ways { AreWays (program_of code.now) (access_of access) known.old }
    ensures { IfOk result (λ better. Rounded (program_of code.now) (access_of access) entries.now
        (length entries.now) better known.old known.new) }
{
    let mut better = false;
    for entry in entries {
        better |= improve(alloc, code, access, *entry, known)?;
    }
    Ok(better)
}

/// Looks for a shorter way at an entry. Returns false if there was none.
fn improve(
    alloc: Global,
    code: &Program,
    access: Access,
    entry: Entry,
    known: &mut Known,
) -> Result<bool, AllocError>
    requires ways { AreWays (program_of code.now) (access_of access) known.old }
    ensures { IfOk result (λ better. Improves (program_of code.now) (access_of access) entry better
        known.old known.new) }
{
    let Some(procedure) = code.procedures.get(entry.procedure.number) else {
        return Ok(false);
    };
    if entry.parameter.number >= procedure.parameters.len() {
        return Ok(false);
    }
    let sought = Sought {
        access: Access {
            section: entry.parameter,
            ..access
        },
        pending: entry.pending,
    };
    match way_in(alloc, code, known, sought, &procedure.body)? {
        None => Ok(false),
        Some(way) => put_if_shorter(entry, way, known),
    }
}

/// Stores a way if none as short is known. Returns false if one is.
fn put_if_shorter(entry: Entry, way: Vec<WayStep>, known: &mut Known) -> Result<bool, AllocError>
    ensures { IfOk result (λ better. HasPut entry way.items better known.old known.new) }
{
    let steps = way.len();
    if known.has_within(entry, steps) {
        return Ok(false);
    }
    known.put(entry, way)?;
    Ok(true)
}
