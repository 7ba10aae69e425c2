//! What the bodies of asyncs need.

ghost use Rattle.std.specs.Prelude.{◌≡◌, ◌≤◌, ◌<◌, ℕ, IfOk, OnOk, map, length, slice_index_or};
ghost use Rattle.sections.specs.Translation.{section as section_of};
ghost use Rattle.effects.specs.Needs.{also, needs_by, others_by, written_by, among as is_among};
ghost use Rattle.effects.specs.Translation.{access as access_of, needs as needs_in};

use crate::access::Access;
use sections::id::SectionId;
use std::alloc::{AllocError, Global};

/// What a body may do to the sections in scope at its async. Both lists are in ascending order.
#[derive(Drop)]
pub struct Needs {
    /// The sections that the body may write.
    pub writes: Vec<SectionId>,
    /// The sections that the body may only read.
    pub reads: Vec<SectionId>,
}

impl Needs {
    /// Returns the needs of a body that makes these accesses.
    pub fn of(alloc: Global, accesses: &[Access]) -> Result<Needs, AllocError>
        ensures { IfOk result (λ n. needs_in n ≡ needs_by (map access_of accesses.now)) }
    {
        let writes = written(alloc, accesses)?;
        let reads = only_read(alloc, &writes, accesses)?;
        Ok(Needs { writes, reads })
    }
}

/// Returns the sections that accesses write.
fn written(alloc: Global, accesses: &[Access]) -> Result<Vec<SectionId>, AllocError>
    ensures { IfOk result (λ found. map section_of found.items
        ≡ written_by (map access_of accesses.now)) }
{
    let mut found = Vec::new(alloc);
    for place in (0..accesses.len()).rev() {
        let access = accesses[place];
        if access.write {
            add(access.section, &mut found)?;
        }
    }
    Ok(found)
}

/// Returns the sections of accesses that are not among the written ones.
fn only_read(
    alloc: Global,
    writes: &[SectionId],
    accesses: &[Access],
) -> Result<Vec<SectionId>, AllocError>
    ensures { IfOk result (λ found. map section_of found.items
        ≡ others_by (map section_of writes.now) (map access_of accesses.now)) }
{
    let mut found = Vec::new(alloc);
    for place in (0..accesses.len()).rev() {
        let access = accesses[place];
        if !among(writes, access.section) {
            add(access.section, &mut found)?;
        }
    }
    Ok(found)
}

/// Returns whether a section is in a list.
fn among(sections: &[SectionId], section: SectionId) -> bool
    ensures { result ≡ is_among (map section_of sections.now) section.number }
{
    for other in sections {
        if *other == section {
            return true;
        }
    }
    false
}

/// Inserts a section into an ascending list, unless it is already there.
fn add(section: SectionId, into: &mut Vec<SectionId>) -> Result<(), AllocError>
    ensures { OnOk result (map section_of into.new.items
        ≡ also section.number (map section_of into.old.items)) }
{
    let place = place_of(into, section);
    match into.get(place) {
        Some(other) if other.number == section.number => Ok(()),
        Some(_) => {
            into.insert(place, section)?;
            Ok(())
        }
        None => {
            into.push(section)?;
            Ok(())
        }
    }
}

/// Returns the number of leading sections that are numbered below another.
fn place_of(sections: &[SectionId], section: SectionId) -> usize
    ensures within { result ≤ length sections.now }
    ensures below { (k : ℕ) → k < result
        → (slice_index_or sections.now k section).number < section.number }
    ensures behind { section.number ≤ (slice_index_or sections.now result section).number }
{
    for (place, other) in sections.iter().enumerate() {
        if section.number <= other.number {
            return place;
        }
    }
    sections.len()
}
