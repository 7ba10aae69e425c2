//! The values of elements.

ghost use Rattle.std.specs.Prelude.{◌≡◌};
ghost use Rattle.types.specs.Value.{holds_number};

use syntax_tree::tree::ElementType;

/// Returns whether a number fits in an element type. A `byte` stores 0 to 255, an `int` any signed
/// 64-bit integer.
pub fn holds(element: ElementType, number: i64) -> bool
    ensures { result ≡ holds_number element number }
{
    match element {
        ElementType::Int => true,
        ElementType::Byte => 0 <= number && number < 256,
    }
}
