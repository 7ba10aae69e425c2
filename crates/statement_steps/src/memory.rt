//! The memory of a run.

ghost use Rattle.std.specs.Prelude.{◌≡◌, OnOk};
ghost use Rattle.sections.specs.Translation.{place as place_of};
ghost use Rattle.types.specs.Contents.{Contents, read as read_of, write as written};

use sections::window::Place;
use std::alloc::AllocError;
use types::value::Places;

/// The numbers that a run reads and writes: all arrays on one thread, or the places that a task of
/// its own holds.
pub trait Memory: Places {
    ghost use Rattle.sections.specs.Place.{Place as PlainPlace};

    /// The number at each existing place.
    ghost contents: { Self → Contents };

    /// The places that can be written.
    ghost Writable: { Self → PlainPlace → Type 0 };

    /// What a write leaves unchanged.
    ghost Shape: { Type 0 };

    ghost shape: { Self → Shape };

    /// Writes the number at a place. A shared memory may need to allocate for it.
    fn write(&mut self, place: Place, value: i64) -> Result<(), AllocError>
        requires { Writable self.old (place_of place) }
        ensures written { OnOk result
            (contents self.new ≡ written (place_of place) value (contents self.old)) }
        ensures shape { OnOk result (shape self.new ≡ shape self.old) };

    /// An existing place is read; elsewhere the value is 0.
    ghost reads: { (s : Self) → Self.numbers s ≡ read_of (contents s) };
}
