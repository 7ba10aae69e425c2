//! Taking options from the front of arguments.

ghost use Rattle.std.specs.Prelude.{◌≡◌, map, option_map};
ghost use Rattle.std.specs.String.{string_bytes};
ghost use Rattle.command_words.specs.Reading.{flag_taken, taken};

/// Returns the value of an option that comes first, and the arguments after it.
pub fn take<'w>(option: &str, words: &'w [String]) -> (Option<&'w str>, &'w [String])
    ensures value { option_map (λ v. v.now) result.0
        ≡ (taken option.now (map string_bytes words.now)).0 }
    ensures behind { map string_bytes result.1.now
        ≡ (taken option.now (map string_bytes words.now)).1 }
{
    match words {
        [] => (None, words),
        [_] => (None, words),
        [first, value, behind @ ..] => {
            if first.as_str() == option {
                (Some(value.as_str()), behind)
            } else {
                (None, words)
            }
        }
    }
}

/// Returns whether an option without a value comes first, and the arguments after it.
pub fn take_flag<'w>(option: &str, words: &'w [String]) -> (bool, &'w [String])
    ensures stands { result.0 ≡ (flag_taken option.now (map string_bytes words.now)).0 }
    ensures behind { map string_bytes result.1.now
        ≡ (flag_taken option.now (map string_bytes words.now)).1 }
{
    match words {
        [] => (false, words),
        [first, behind @ ..] => {
            if first.as_str() == option {
                (true, behind)
            } else {
                (false, words)
            }
        }
    }
}
