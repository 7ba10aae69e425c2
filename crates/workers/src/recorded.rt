//! Whether a run records its events, told by a type.

use finish_scope::running::Running;
use std::marker::PhantomData;

/// A run's type that says whether its events are recorded. The code of a run that records nothing
/// has no test for a log.
pub trait Recording {
    /// Returns whether events are recorded.
    fn is_recorded() -> bool;
}

/// The run `J`, with a log.
pub struct Recorded<J: Running> {
    of: PhantomData<J>,
}

impl<J: Running> Running for Recorded<J> {
    ghost job = { J.job };

    ghost w0 = { J.w0 };

    ghost word = { J.word };
}

impl<J: Running> Recording for Recorded<J> {
    fn is_recorded() -> bool {
        true
    }
}

/// The run `J`, without a log.
pub struct Unrecorded<J: Running> {
    of: PhantomData<J>,
}

impl<J: Running> Running for Unrecorded<J> {
    ghost job = { J.job };

    ghost w0 = { J.w0 };

    ghost word = { J.word };
}

impl<J: Running> Recording for Unrecorded<J> {
    fn is_recorded() -> bool {
        false
    }
}
