//! The number of tasks in hands.

ghost use Rattle.std.specs.Prelude.{ℕ, ◌≡◌, ◌+◌, ◌<◌, ◌&&◌, IfOk, if◌then◌else◌, length, nat_le, slice_index};
ghost use Rattle.trace_layout.specs.Busy.{AreInHands};

use crate::spells::Spell;
use std::alloc::{AllocError, Global};

/// Returns the number of tasks in workers' hands for each of this many events.
pub fn in_hands(alloc: Global, spells: &[Spell], events: usize) -> Result<Vec<usize>, AllocError>
    ensures { IfOk result (λ counts. AreInHands spells.now events counts.items) }
{
    let mut counts = vec![in alloc; 0usize; events]?;
    for spell in spells {
        count_one(&mut counts, spell.first, spell.last);
    }
    Ok(counts)
}

/// Adds one to each count from `first` to `last`, inclusive.
fn count_one(counts: &mut [usize], first: usize, last: usize)
    requires { (n : ℕ) → slice_index counts.old n < 18446744073709551615 }
    ensures { (n : ℕ) → n < length counts.old → slice_index counts.new n
        ≡ slice_index counts.old n + (if nat_le first n && nat_le n last then 1 else 0) }
{
    for number in first..last.saturating_add(1).min(counts.len()) {
        counts[number] += 1;
    }
}
