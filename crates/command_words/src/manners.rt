//! The reporting options, which follow a command.

ghost use Rattle.std.specs.Prelude.{◌≡◌, map, option_map};
ghost use Rattle.std.specs.String.{string_bytes};
ghost use Rattle.command_words.specs.Reading.{read_color, read_manner};

use crate::taking::{take, take_flag};
use command_line::manner::Manner;
use command_line::request::Color;

/// Returns the reporting options, and the arguments after them. The options are `--explain --color
/// WHEN`, each of which is optional. Returns None if no color has this name.
pub fn manner_in<'w>(words: &'w [String]) -> Option<(Manner, &'w [String])>
    ensures { option_map (λ r. (r.0, map string_bytes r.1.now)) result
        ≡ read_manner (map string_bytes words.now) }
{
    let (explain, words) = take_flag("--explain", words);
    let (color, words) = take("--color", words);
    let color = color_named(color)?;
    Some((Manner { explain, color }, words))
}

/// Returns the color that an argument names, if it names one.
fn color_named(word: Option<&str>) -> Option<Option<Color>>
    ensures { result ≡ read_color (option_map (λ w. w.now) word.entry) }
{
    let Some(word) = word else {
        return Some(None);
    };
    if word == "auto" {
        Some(Some(Color::Auto))
    } else if word == "always" {
        Some(Some(Color::Always))
    } else if word == "never" {
        Some(Some(Color::Never))
    } else {
        None
    }
}
