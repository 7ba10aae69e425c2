//! Theorems about the definitions, each the contract of an empty function.

ghost use Rattle.trace_text.specs.Reading.{SpellsOneTrace};

/// A text is the trace of at most one header and one list of events.
pub fn one_trace()
    ensures { SpellsOneTrace }
{}
