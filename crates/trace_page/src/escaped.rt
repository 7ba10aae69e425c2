//! A text inside an element of a page.

ghost use Rattle.std.specs.Prelude.{◌≡◌, ◌++◌, IfOk, OnOk};
ghost use Rattle.std.specs.String.{string_bytes};
ghost use Rattle.trace_page.specs.Escaped.{escaped as escaped_text, escaped_character};

use std::alloc::{AllocError, Global};

/// Returns a JSON text with each `<` by its number, `\u003c`: it contains no `</script>` and no
/// `<!--`.
pub fn escaped(alloc: Global, text: &str) -> Result<String, AllocError>
    ensures { IfOk result (λ s. string_bytes s ≡ escaped_text text.now) }
{
    let mut told = String::new(alloc);
    for character in text.chars() {
        push_escaped(&mut told, character)?;
    }
    Ok(told)
}

/// Adds a character, or its number.
fn push_escaped(told: &mut String, character: char) -> Result<(), AllocError>
    ensures { OnOk result (string_bytes told.new ≡ string_bytes told.old ++ escaped_character character) }
{
    if character == '<' {
        told.push_str("\\u003c")
    } else {
        told.push(character)
    }
}
