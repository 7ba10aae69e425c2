//! The explanation after a line or an answer.

use excerpts::paint::{Paint, painted};
use std::alloc::{AllocError, Global};

/// Returns the explanation in these colors, or an empty text if memory runs out.
pub(crate) fn said(alloc: Global, more: Result<String, AllocError>, paint: Paint) -> String {
    let Ok(more) = more else {
        return String::new(alloc);
    };
    match painted(alloc, more, paint) {
        Ok(more) => more,
        Err(AllocError) => String::new(alloc),
    }
}
