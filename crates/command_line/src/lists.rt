//! The lists that `--set` gives among the arguments of a command line.

ghost use Rattle.std.specs.Prelude.{◌≡◌, option_map};
ghost use Rattle.command_line.specs.Lists.{awaits as awaits_after, list_in};

/// Returns the list that an argument gives, if it gives one: all of it if it is `awaited`, or what
/// follows `--set=`.
pub fn list_of<'w>(awaited: bool, word: &'w str) -> Option<&'w str>
    ensures { option_map (λ l. l.now) result ≡ list_in awaited word.now }
{
    if awaited {
        Some(word)
    } else {
        word.strip_prefix("--set=")
    }
}

/// Returns whether the argument after this one is a list, as after `--set`.
pub fn awaits(awaited: bool, word: &str) -> bool
    ensures { result ≡ awaits_after awaited word.now }
{
    if awaited { false } else { word == "--set" }
}
