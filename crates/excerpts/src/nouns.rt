//! Singular and plural.

/// Returns the singular of a noun if the count is 1, and otherwise the plural.
pub fn noun(count: usize, one: &'static str, more: &'static str) -> &'static str {
    if count == 1 { one } else { more }
}
