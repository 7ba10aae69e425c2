//! Names that are spelled like a mistyped one.

use std::alloc::{AllocError, Global};
use strsim::osa_distance;

/// The minimum length of a name that is compared: short names are all alike.
const SHORTEST: usize = 3;

/// The maximum length of a name that is compared.
const LONGEST: usize = 64;

/// Returns the name among others that differs least from a name, in at most a third of its letters.
/// A letter that is missing, added or changed is one difference, and so are two that are swapped.
pub fn similar<'t>(
    alloc: Global,
    name: &str,
    others: &[&'t str],
) -> Result<Option<&'t str>, AllocError> {
    let length = name.len();
    if length < SHORTEST || length > LONGEST {
        return Ok(None);
    }
    let mut most = length / 3;
    let mut found = None;
    for other in others {
        if other.len().abs_diff(length) <= most {
            let differences = osa_distance(alloc, name, *other)?;
            if differences <= most {
                most = differences.saturating_sub(1);
                found = Some(*other);
            }
        }
    }
    Ok(found)
}
