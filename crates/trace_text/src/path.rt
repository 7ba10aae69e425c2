//! Parsing the path of a task.

ghost use Rattle.std.specs.Prelude.{◌≡◌, ℕ, List, Some, IfOk, IfSome, option_map};
ghost use Rattle.types.specs.Names.{path_text};
ghost use Rattle.trace_text.specs.Spelled.{IsCut, IsPath};

use crate::cut::cut_at;
use std::alloc::{AllocError, Global};
use types::budget::MOST_NEST;
use types::child_number::ChildNumber;
use types::path::Path;

/// Parses a path, if its numbers are in range. Returns None if the text isn't a path. It accepts
/// leading zeros and plus signs, because the caller formats the path again.
pub fn read_path(alloc: Global, text: &str) -> Result<Option<Path>, AllocError>
    ensures path { IfOk result (λ o. IfSome o (λ p. IsPath p.turns.items)) }
    ensures spelled { IfOk result (λ o. (p : List ℕ) → IsPath p → text.now ≡ path_text p
        → option_map (λ q. q.turns.items) o ≡ Some p) }
{
    let (root, mut rest) = cut_at_dot(text);
    if root != "0" {
        return Ok(None);
    }
    let mut turns = Vec::new(alloc);
    'turns: while let Some(more) = rest {
        let (piece, behind) = cut_at_dot(more);
        let Ok(number) = piece.parse::<u32>() else {
            return Ok(None);
        };
        let Some(turn) = ChildNumber::new(number) else {
            return Ok(None);
        };
        if turns.len() >= MOST_NEST as usize {
            return Ok(None);
        }
        turns.push(turn)?;
        rest = behind;
    }
    Ok(Some(Path { turns }))
}

/// Returns the text before the first dot, or the whole text, and the text after that dot.
fn cut_at_dot(text: &str) -> (&str, Option<&str>)
    ensures { IsCut result.0.now (option_map (λ b. b.now) result.1) text.now }
{
    match cut_at(text, '.') {
        Some((before, behind)) => (before, Some(behind)),
        None => (text, None),
    }
}
