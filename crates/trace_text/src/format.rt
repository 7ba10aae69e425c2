//! The two formats of a trace.

ghost use Rattle.std.specs.Prelude.{◌≡◌};
ghost use Rattle.trace_text.specs.Headers.{format_number};

/// The format of a trace.
#[derive(Clone, Copy, PartialEq, Eq, Debug)]
pub enum Format {
    /// `{"format":1,..}`
    One,
    /// `{"format":2,..}`: each resume has the number of faults that its finish has gathered.
    Two,
}

impl Format {
    /// Returns its number in a header.
    pub fn number(self) -> u32
        ensures { result ≡ format_number self }
    {
        match self {
            Format::One => 1,
            Format::Two => 2,
        }
    }
}
