//! Cuts of a text.

ghost use Rattle.std.specs.Prelude.{◌≡◌, ◌<◌, ◌∷◌, ◌++◌, ℕ, List, IsSomeAnd, MatchOption};
ghost use Rattle.trace_text.specs.Spelled.{IsCutAt, Lacks};

/// Returns the text before the first occurrence of an ASCII character, and the text after it.
pub fn cut_at(text: &str, mark: char) -> Option<(&str, &str)>
    requires { mark < 128 }
    ensures { MatchOption result (Lacks mark text.now)
        (λ r. IsCutAt mark r.0.now r.1.now text.now) }
{
    text.split_once(mark)
}

/// Returns the text between a front and the next occurrence of an ASCII character, and the text
/// after that. Example: `0` and `}` of `,"path":"0"}`, if the front is `,"path":"` and the
/// character `"`.
pub fn between<'a>(text: &'a str, front: &str, mark: char) -> Option<(&'a str, &'a str)>
    requires { mark < 128 }
    ensures { (piece behind : List ℕ) → Lacks mark piece
        → text.now ≡ front.now ++ (piece ++ mark ∷ behind)
        → IsSomeAnd result (λ r. (r.0.now ≡ piece) × (r.1.now ≡ behind)) }
{
    cut_at(text.strip_prefix(front)?, mark)
}
