//! The options of a program that is tested, in its `.args` file.

ghost use Rattle.std.specs.Prelude.{◌≡◌, ◌∷◌, codes, map, IfOk, IsSomeAnd};
ghost use Rattle.std.specs.Str.Lines.{lines};
ghost use Rattle.std.specs.String.{string_bytes};
ghost use Rattle.command_line.specs.Requests.{Asked};
ghost use Rattle.command_words.specs.Orders.{AreLimitsOf};
ghost use Rattle.test_and_bench.specs.Trials.{AsksLines};

use command_words::limits::{Limits, limits_in};
use std::alloc::{AllocError, Global};

/// Returns the limits that the lines of a text ask for, or None if they aren't options of `test`.
pub fn limits_of(alloc: Global, text: &str) -> Result<Option<Limits>, AllocError>
    ensures { IfOk result
        (λ found. (a : Asked) → AsksLines text.now a → IsSomeAnd found (λ l. AreLimitsOf l a)) }
{
    let words = words_of(alloc, text)?;
    Ok(limits_in(&words))
}

/// Returns the lines of a text, after a name of a program.
fn words_of(alloc: Global, text: &str) -> Result<Vec<String>, AllocError>
    ensures { IfOk result
        (λ words. map string_bytes words.items ≡ codes "-" ∷ lines text.now) }
{
    let lines = lines_of(alloc, text)?;
    let mut words = Vec::new(alloc);
    words.push(String::from_str(alloc, "-")?)?;
    for line in &lines {
        words.push(String::from_str(alloc, line)?)?;
    }
    Ok(words)
}

/// Returns the lines of a text.
fn lines_of(alloc: Global, text: &str) -> Result<Vec<&str>, AllocError>
    ensures { IfOk result (λ found. map (λ l. l.now) found.items ≡ lines text.now) }
{
    text.lines().collect(alloc)
}
