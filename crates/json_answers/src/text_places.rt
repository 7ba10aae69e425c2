//! The positions at which statements start, by their labels.

ghost use Rattle.std.specs.Prelude.{◌≡◌};
ghost use Rattle.json_answers.specs.Places.{column_of, line_of, place_at as place_of_label};

use syntax::TextPlace;
use types::code::Label;

/// Returns the position at which the statement with a label starts, if it is known.
pub fn place_at(places: &[TextPlace], label: Label) -> Option<TextPlace>
    ensures { result ≡ place_of_label places.now label }
{
    places.get((label as usize).saturating_sub(1)).copied()
}

/// Returns the line of a position.
pub fn line_in(place: Option<TextPlace>) -> Option<u32>
    ensures { result ≡ line_of place }
{
    match place {
        Some(place) => Some(place.line),
        None => None,
    }
}

/// Returns the column of a position.
pub fn column_in(place: Option<TextPlace>) -> Option<u32>
    ensures { result ≡ column_of place }
{
    match place {
        Some(place) => Some(place.column),
        None => None,
    }
}
