//! The programs of a folder, by the names of its files.

ghost use Rattle.std.specs.Prelude.{◌≡◌, ◌∷◌, [], map, IfErr, IfOk, IsPermutation, IsSorted, MatchOption};
ghost use Rattle.std.specs.List.{flat_map};
ghost use Rattle.std.specs.String.{string_bytes, string_cmp};
ghost use Rattle.test_and_bench.specs.Listing.{has_name as has_name_of, stem};

use failures::failure::Failure;
use std::alloc::{AllocError, Global};

/// Returns the programs of a folder with these files, in sorted order: the part of each name before
/// `.afx`.
pub fn stems_in(alloc: Global, names: &[String]) -> Result<Vec<String>, Failure>
    ensures all { IfOk result (λ v. IsPermutation
        (flat_map stem (map string_bytes names.now)) (map string_bytes v.items)) }
    ensures ordered { IfOk result (λ v. IsSorted string_cmp v.items) }
    ensures why { IfErr result (λ f. f ≡ Failure.NoMemory) }
{
    match sorted(alloc, names) {
        Ok(stems) => Ok(stems),
        Err(AllocError) => Err(Failure::NoMemory),
    }
}

/// Returns the programs in sorted order, if there is enough memory.
fn sorted(alloc: Global, names: &[String]) -> Result<Vec<String>, AllocError>
    ensures all { IfOk result (λ v. IsPermutation
        (flat_map stem (map string_bytes names.now)) (map string_bytes v.items)) }
    ensures ordered { IfOk result (λ v. IsSorted string_cmp v.items) }
{
    let mut stems = unordered(alloc, names)?;
    stems.sort()?;
    Ok(stems)
}

/// Returns the programs in the order of the files.
fn unordered(alloc: Global, names: &[String]) -> Result<Vec<String>, AllocError>
    ensures { IfOk result
        (λ v. map string_bytes v.items ≡ flat_map stem (map string_bytes names.now)) }
{
    let mut stems = Vec::new(alloc);
    for name in names {
        if let Some(stem) = stem_of(name.as_str()) {
            stems.push(String::from_str(alloc, stem)?)?;
        }
    }
    Ok(stems)
}

/// Returns the part of a name before `.afx`, if it ends with that.
fn stem_of(name: &str) -> Option<&str>
    ensures { MatchOption result (stem name.now ≡ []) (λ s. stem name.now ≡ s.now ∷ []) }
{
    name.strip_suffix(".afx")
}

/// Returns whether a folder with these files has one with this name.
pub fn has_name(names: &[String], name: &str) -> bool
    ensures { result ≡ has_name_of (map string_bytes names.now) name.now }
{
    for one in names {
        if one.as_str() == name {
            return true;
        }
    }
    false
}
