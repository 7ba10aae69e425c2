//! The file names in a request.

ghost use Rattle.std.specs.Prelude.{◌≡◌, map, option_map};
ghost use Rattle.command_line.specs.Requests.{asked_of, choosing, file_of, source, source_file};
ghost use Rattle.std.specs.Str.{bytes_eq};
ghost use Rattle.command_words.specs.Files.{all_differ as all_differ_in, is_among as is_among_in};
ghost use Rattle.command_words.specs.Files.{names_once as is_named_once, plain_name as plain_name_in};

use command_line::request::{Choosing, InputSource, Request};

/// Returns whether a request gives no name twice, including `-`. Then no file is both read and
/// written, and the standard input is read once. `run a.afx --trace ./a.afx` would overwrite the
/// program. No file is looked up, so links and names through another folder, such as `x/../a.afx`,
/// are accepted.
pub fn names_once(request: &Request<'_>) -> bool
    ensures { result ≡ is_named_once (asked_of request.now) }
{
    let settings = &request.settings;
    all_differ(&[
        Some(request.file),
        file_of_input(settings.input),
        file_of_choices(settings.choices),
        settings.trace,
        settings.picture,
    ])
}

/// Returns the file from which an input is read, if one is named.
fn file_of_input<'w>(input: Option<InputSource<'w>>) -> Option<&'w str>
    ensures { option_map (λ name. name.now) result ≡ source_file (option_map source input.entry) }
{
    match input? {
        InputSource::File(name) => Some(name),
        InputSource::Lists(_) => None,
        InputSource::Bytes { file, .. } => Some(file),
    }
}

/// Returns the file from which choices are read, if one is named.
fn file_of_choices<'w>(choices: Option<Choosing<'w>>) -> Option<&'w str>
    ensures { option_map (λ name. name.now) result ≡ file_of (option_map choosing choices.entry) }
{
    match choices? {
        Choosing::InFile(name) => Some(name),
        Choosing::Listed(_) | Choosing::Random(_) => None,
    }
}

/// Returns whether no name occurs twice among these.
fn all_differ(names: &[Option<&str>]) -> bool
    ensures { result ≡ all_differ_in (map (option_map (λ name. name.now)) names.now) }
{
    match names {
        [] => true,
        [None, others @ ..] => all_differ(others),
        [Some(name), others @ ..] => !is_among(name, others) && all_differ(others),
    }
}

/// Returns whether a name occurs among others.
fn is_among(name: &str, others: &[Option<&str>]) -> bool
    ensures { result ≡ is_among_in name.now (map (option_map (λ name. name.now)) others.now) }
{
    match others {
        [] => false,
        [None, behind @ ..] => is_among(name, behind),
        [Some(other), behind @ ..] => names_same(name, other) || is_among(name, behind),
    }
}

/// Returns whether two names are of one file, as far as the names show it.
fn names_same(name: &str, other: &str) -> bool
    ensures { result ≡ bytes_eq (plain_name_in name.now) (plain_name_in other.now) }
{
    plain_name(name.as_bytes()) == plain_name(other.as_bytes())
}

/// Returns a name without all `./` in front.
fn plain_name(name: &[u8]) -> &[u8]
    ensures { result.now ≡ plain_name_in name.now }
{
    match name {
        [b'.', b'/', after, ..] if *after != b'/' => plain_name(&name[2..]),
        _ => name,
    }
}
