//! The settings that option values specify.

ghost use Rattle.std.specs.Prelude.{◌≡◌, ◌<◌, ◌^◌, ℕ, Option, IfSome, IsSomeAnd, Some};
ghost use Rattle.std.specs.Prelude.{option_map, true, unwrap_or};
ghost use Rattle.std.specs.Fmt.{decimal};
ghost use Rattle.command_words.specs.Reading.{texts_of};
ghost use Rattle.command_line.specs.Requests.{AreRight, Options, is_file_name as names_file};
ghost use Rattle.command_line.specs.Requests.{Choosing as ChoosingOf, IsRightChoosing, file_of, list_of};
ghost use Rattle.command_line.specs.Requests.{choosing as choosing_of, seed_of, settings as settings_of};
ghost use Rattle.command_line.specs.Requests.{FromFile, settings_by, source as source_of, texts_by};
ghost use Rattle.command_line.specs.Requests.{spread as spread_of};

use crate::plain::{Texts, is_file_name};
use command_line::request::{Choosing, InputSource, RunOptions, Spread};
use types::budget::Budget;

/// Returns the settings that option values specify, if the values are correct.
pub fn settings_in<'w>(texts: Texts<'w>) -> Option<RunOptions<'w>>
    ensures { (o : Options) → AreRight o → texts_of texts.entry ≡ texts_by o
        → IsSomeAnd result (λ s. settings_of s ≡ settings_by o) }
{
    let input = source_in(file_or_none(texts.input)?);
    let steps = number_or(texts.steps, 1_000_000)?;
    let nest = number_or(texts.nest, 100)?;
    let budget = Budget::new(steps, nest)?;
    let spread = spread_in(texts)?;
    let choices = choosing_in(texts.choices, texts.choices_from, texts.random)?;
    let trace = file_or_none(texts.trace)?;
    let picture = file_or_none(texts.picture)?;
    Some(RunOptions {
        input,
        budget,
        spread,
        choices,
        trace,
        picture,
        arrays: texts.arrays,
        progress: texts.progress,
    })
}

/// Returns the file as the source of an input, if one is named.
fn source_in<'w>(file: Option<&'w str>) -> Option<InputSource<'w>>
    ensures { option_map source_of result ≡ option_map FromFile (option_map (λ n. n.now) file.entry) }
{
    match file {
        Some(name) => Some(InputSource::File(name)),
        None => None,
    }
}

/// Returns the tasks, weight and workers, if these numbers are correct.
fn spread_in(texts: Texts<'_>) -> Option<Spread>
    ensures { (o : Options) → AreRight o → texts_of texts.entry ≡ texts_by o
        → option_map spread_of result ≡ Some (settings_by o).spread }
{
    let tasks = number_or(texts.tasks, 65_536)?;
    let w0 = number_or(texts.w0, 1_048_576)?;
    let workers = number_or(texts.workers, 4)?;
    Spread::new(tasks, w0, workers)
}

/// Returns the source of choices, if at most one of these values is given.
fn choosing_in<'w>(
    list: Option<&'w str>,
    file: Option<&'w str>,
    seed: Option<&'w str>,
) -> Option<Option<Choosing<'w>>>
    ensures { (c : Option ChoosingOf) → IfSome c IsRightChoosing
        → option_map (λ t. t.now) list.entry ≡ list_of c
        → option_map (λ t. t.now) file.entry ≡ file_of c
        → option_map (λ t. t.now) seed.entry ≡ option_map decimal (seed_of c)
        → option_map (option_map choosing_of) result ≡ Some c }
{
    match (list, file, seed) {
        (None, None, None) => Some(None),
        (Some(list), None, None) => Some(Some(Choosing::Listed(list))),
        (None, Some(file), None) if is_file_name(file) => Some(Some(Choosing::InFile(file))),
        (None, None, Some(seed)) => match u64::from_str_radix(seed, 10) {
            Ok(seed) => Some(Some(Choosing::Random(seed))),
            Err(_) => None,
        },
        _ => None,
    }
}

/// Returns the name of a file, if it is one; or that no file is named.
fn file_or_none<'w>(name: Option<&'w str>) -> Option<Option<&'w str>>
    ensures { let named = option_map (λ n. n.now) name.entry in
        IfSome named (λ n. names_file n ≡ true) → option_map (option_map (λ n. n.now)) result ≡ Some named }
{
    match name {
        Some(name) if !is_file_name(name) => None,
        _ => Some(name),
    }
}

/// Parses a number in decimal. Returns the default if there is no text.
fn number_or(text: Option<&str>, usual: u64) -> Option<u64>
    ensures { (n : Option ℕ) → IfSome n (λ m. m < 2 ^ 64)
        → option_map (λ t. t.now) text.entry ≡ option_map decimal n
        → result ≡ Some (unwrap_or n usual) }
{
    match text {
        None => Some(usual),
        Some(text) => u64::from_str_radix(text, 10).ok(),
    }
}
