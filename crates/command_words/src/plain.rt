//! Plain arguments: a command, a file and options, in order.

ghost use Rattle.std.specs.Prelude.{◌≡◌, ◌∷◌, [], map, option_map, Some};
ghost use Rattle.std.specs.String.{string_bytes};
ghost use Rattle.command_words.specs.Reading.{bare as bare_line, line_of, read, told_line, read_behind};
ghost use Rattle.command_words.specs.Reading.{read_choosing, read_explore, read_rest, read_cost, read_format};
ghost use Rattle.command_words.specs.Reading.{no_texts, read_file, read_flaggable, read_flagged};
ghost use Rattle.command_words.specs.Reading.{read_optioned, read_serial_texts, read_texts, read_whole};
ghost use Rattle.command_words.specs.Reading.{read_pairs, read_parts, read_showing, read_view, shown_by_one};
ghost use Rattle.command_words.specs.Reading.{shown_by_two, shown_of, texts_of};
ghost use Rattle.command_line.specs.Requests.{is_file_name as names_file};

use crate::manners::manner_in;
use crate::taking::{take, take_flag};
use command_line::manner::Manner;
use command_line::request::Action::{self, Answer};
use command_line::request::Command;

/// A command line with a command, a file and options.
#[derive(Clone, Copy)]
pub struct PlainLine<'w> {
    pub action: Action,
    pub file: &'w str,
    pub texts: Texts<'w>,
}

/// The values of the options of a command line, as they are written.
#[derive(Clone, Copy)]
pub struct Texts<'w> {
    pub input: Option<&'w str>,
    pub steps: Option<&'w str>,
    pub nest: Option<&'w str>,
    pub tasks: Option<&'w str>,
    pub w0: Option<&'w str>,
    pub workers: Option<&'w str>,
    pub choices: Option<&'w str>,
    pub choices_from: Option<&'w str>,
    pub random: Option<&'w str>,
    pub trace: Option<&'w str>,
    pub picture: Option<&'w str>,
    pub arrays: bool,
    pub progress: bool,
}

impl<'w> Texts<'w> {
    /// Returns the values for no options.
    pub fn none() -> Texts<'w>
        ensures { texts_of result ≡ no_texts }
    {
        Texts {
            input: None,
            steps: None,
            nest: None,
            tasks: None,
            w0: None,
            workers: None,
            choices: None,
            choices_from: None,
            random: None,
            trace: None,
            picture: None,
            arrays: false,
            progress: false,
        }
    }
}

/// Returns the line for no arguments, which is `run -`, and its reporting options.
pub fn line_of_none<'w>() -> (PlainLine<'w>, Manner)
    ensures { Some (told_line result) ≡ read [] }
{
    (bare(Answer(Command::Run), "-"), Manner::none())
}

/// Returns the line of a command and the arguments after it, and its reporting options.
pub fn line_in<'w>(command: &str, behind: &'w [String]) -> Option<(PlainLine<'w>, Manner)>
    ensures { option_map told_line result ≡ read (command.now ∷ map string_bytes behind.now) }
{
    let (manner, behind) = manner_in(behind)?;
    let line = line_of_words(command, behind)?;
    Some((line, manner))
}

/// Returns the line of a command and the arguments after it, without the reporting options.
fn line_of_words<'w>(command: &str, words: &'w [String]) -> Option<PlainLine<'w>>
    ensures { option_map line_of result ≡ read_rest command.now (map string_bytes words.now) }
{
    match words {
        [] => None,
        [file, behind @ ..] => line_behind(command, file.as_str(), behind),
    }
}

/// Returns the line of a command, a file and the arguments after it.
fn line_behind<'w>(command: &str, file: &'w str, behind: &'w [String]) -> Option<PlainLine<'w>>
    ensures { option_map line_of result
        ≡ read_behind command.now file.now (map string_bytes behind.now) }
{
    if command == "run" {
        optioned_line(Answer(Command::Run), file, texts_in(behind))
    } else if command == "serial" {
        optioned_line(Answer(Command::Serial), file, serial_texts_in(behind))
    } else if command == "check" {
        flagged_line(
            Answer(Command::Check),
            "--list",
            Answer(Command::Listing),
            file,
            behind,
        )
    } else if command == "list" {
        flagged_line(
            Answer(Command::Labels),
            "--lines",
            Answer(Command::Places),
            file,
            behind,
        )
    } else if command == "mhp" {
        pairs_line(file, behind)
    } else if command == "fmt" {
        format_line(file, behind)
    } else if command == "explore" {
        explore_line(file, behind)
    } else if command == "view" {
        view_line(file, behind)
    } else if command == "cost" {
        cost_line(file, behind)
    } else {
        None
    }
}

/// Returns the line of a command that takes options.
fn optioned_line<'w>(
    action: Action,
    file: &'w str,
    texts: Option<Texts<'w>>,
) -> Option<PlainLine<'w>>
    ensures { option_map line_of result
        ≡ read_optioned action file.now (option_map texts_of texts.entry) }
{
    if is_file_name(file) {
        let texts = texts?;
        Some(PlainLine {
            action,
            file,
            texts,
        })
    } else {
        None
    }
}

/// Returns a line of `view`. After the file of the program come the file of the trace, `--input
/// FILE`, which is optional, and how to show the trace.
fn view_line<'w>(file: &'w str, behind: &'w [String]) -> Option<PlainLine<'w>>
    ensures { option_map line_of result ≡ read_view file.now (map string_bytes behind.now) }
{
    match behind {
        [] => None,
        [trace, options @ ..] => {
            let (input, options) = take("--input", options);
            let (action, picture) = showing(options)?;
            let texts = Texts {
                input,
                trace: Some(trace.as_str()),
                picture,
                ..Texts::none()
            };
            optioned_line(action, file, Some(texts))
        }
    }
}

/// Returns how to show a trace, and the file for its picture, its page or the trace in format 2: no
/// argument, `--by-line`, `--summary`, `--summary --by-line`, `--svg OUT`, `--chrome OUT`,
/// `--html OUT` or `--upgrade OUT`.
fn showing<'w>(words: &'w [String]) -> Option<(Action, Option<&'w str>)>
    ensures { option_map shown_of result ≡ read_showing (map string_bytes words.now) }
{
    match words {
        [] => Some((Answer(Command::View), None)),
        [one] => shown_by_one(one.as_str()),
        [option, out] => shown_by_two(option.as_str(), out.as_str()),
        [_, _, _, ..] => None,
    }
}

/// Returns how one argument shows a trace, if it does.
fn shown_by_one<'w>(one: &str) -> Option<(Action, Option<&'w str>)>
    ensures { option_map shown_of result ≡ shown_by_one one.now }
{
    if one == "--summary" {
        Some((Answer(Command::Summary), None))
    } else if one == "--by-line" {
        Some((Answer(Command::ViewByLine), None))
    } else {
        None
    }
}

/// Returns how two arguments show a trace, if they do.
fn shown_by_two<'w>(option: &str, out: &'w str) -> Option<(Action, Option<&'w str>)>
    ensures { option_map shown_of result ≡ shown_by_two option.now out.now }
{
    if option == "--svg" {
        Some((Answer(Command::Draw), Some(out)))
    } else if option == "--chrome" {
        Some((Answer(Command::Chrome), Some(out)))
    } else if option == "--html" {
        Some((Answer(Command::Page), Some(out)))
    } else if option == "--upgrade" {
        Some((Answer(Command::Upgrade), Some(out)))
    } else if option == "--summary" && out == "--by-line" {
        Some((Answer(Command::SummaryByLine), None))
    } else {
        None
    }
}

/// Returns the values of the options `--input FILE --steps N --nest N --tasks N --w0 N --workers N
/// --trace FILE --arrays`, each of which is optional.
fn texts_in<'w>(words: &'w [String]) -> Option<Texts<'w>>
    ensures { option_map texts_of result ≡ read_texts (map string_bytes words.now) }
{
    let (input, words) = take("--input", words);
    let (steps, words) = take("--steps", words);
    let (nest, words) = take("--nest", words);
    let (tasks, words) = take("--tasks", words);
    let (w0, words) = take("--w0", words);
    let (workers, words) = take("--workers", words);
    let (trace, words) = take("--trace", words);
    let (arrays, words) = take_flag("--arrays", words);
    let texts = Texts {
        input,
        steps,
        nest,
        tasks,
        w0,
        workers,
        trace,
        arrays,
        ..Texts::none()
    };
    whole(texts, words)
}

/// Returns the values of the options `--input FILE --steps N --nest N --arrays --progress`, each of
/// which is optional.
fn serial_texts_in<'w>(words: &'w [String]) -> Option<Texts<'w>>
    ensures { option_map texts_of result ≡ read_serial_texts (map string_bytes words.now) }
{
    let (input, words) = take("--input", words);
    let (steps, words) = take("--steps", words);
    let (nest, words) = take("--nest", words);
    let (arrays, words) = take_flag("--arrays", words);
    let (progress, words) = take_flag("--progress", words);
    let texts = Texts {
        input,
        steps,
        nest,
        arrays,
        progress,
        ..Texts::none()
    };
    whole(texts, words)
}

/// Returns a line of `explore`. After the file come `--input FILE`, which is optional, and `--html
/// OUT`; or options for choices.
fn explore_line<'w>(file: &'w str, behind: &'w [String]) -> Option<PlainLine<'w>>
    ensures { option_map line_of result ≡ read_explore file.now (map string_bytes behind.now) }
{
    let (input, words) = take("--input", behind);
    let (picture, words) = take("--html", words);
    match picture {
        Some(_) => {
            let texts = Texts {
                input,
                picture,
                ..Texts::none()
            };
            optioned_line(Answer(Command::Schedules), file, whole(texts, words))
        }
        None => optioned_line(Answer(Command::Explore), file, choosing_texts_in(behind)),
    }
}

/// Returns the values of the options `--input FILE --choices LIST --choices-from FILE --random SEED
/// --arrays`, each of which is optional.
fn choosing_texts_in<'w>(words: &'w [String]) -> Option<Texts<'w>>
    ensures { option_map texts_of result ≡ read_choosing (map string_bytes words.now) }
{
    let (input, words) = take("--input", words);
    let (choices, words) = take("--choices", words);
    let (choices_from, words) = take("--choices-from", words);
    let (random, words) = take("--random", words);
    let (arrays, words) = take_flag("--arrays", words);
    let texts = Texts {
        input,
        choices,
        choices_from,
        random,
        arrays,
        ..Texts::none()
    };
    whole(texts, words)
}

/// Returns a line of `cost`. After the file come `--input FILE --steps N --nest N`, each of which
/// is optional, and the option for shares.
fn cost_line<'w>(file: &'w str, behind: &'w [String]) -> Option<PlainLine<'w>>
    ensures { option_map line_of result ≡ read_cost file.now (map string_bytes behind.now) }
{
    let (input, words) = take("--input", behind);
    let (steps, words) = take("--steps", words);
    let (nest, words) = take("--nest", words);
    let action = parts_in(words)?;
    let texts = Texts {
        input,
        steps,
        nest,
        ..Texts::none()
    };
    optioned_line(action, file, Some(texts))
}

/// Returns which shares of a cost to show: none without an argument, or those of `--by-line` or
/// `--by-procedure`.
fn parts_in(words: &[String]) -> Option<Action>
    ensures { result ≡ read_parts (map string_bytes words.now) }
{
    match words {
        [] => Some(Answer(Command::Cost)),
        [one] => {
            if one.as_str() == "--by-line" {
                Some(Answer(Command::CostByLabel))
            } else if one.as_str() == "--by-procedure" {
                Some(Answer(Command::CostByProcedure))
            } else {
                None
            }
        }
        [_, _, ..] => None,
    }
}

/// Returns these values, if no argument is left.
fn whole<'w>(texts: Texts<'w>, left: &[String]) -> Option<Texts<'w>>
    ensures { option_map texts_of result
        ≡ read_whole (texts_of texts.entry) (map string_bytes left.now) }
{
    match left {
        [] => Some(texts),
        [_, ..] => None,
    }
}

/// Returns the line of a command with one option, which can come before or after the file.
fn flagged_line<'w>(
    action: Action,
    flag: &str,
    flagged: Action,
    one: &'w str,
    others: &'w [String],
) -> Option<PlainLine<'w>>
    ensures { option_map line_of result
        ≡ read_flaggable action flag.now flagged one.now (map string_bytes others.now) }
{
    match others {
        [] => file_line(action, one),
        [other] => flag_line(flag, flagged, one, other.as_str()),
        [_, _, ..] => None,
    }
}

/// Returns the line of a command with its option.
fn flag_line<'w>(flag: &str, flagged: Action, one: &'w str, other: &'w str) -> Option<PlainLine<'w>>
    ensures { option_map line_of result ≡ read_flagged flag.now flagged one.now other.now }
{
    if one == flag && is_file_name(other) {
        Some(bare(flagged, other))
    } else if other == flag {
        file_line(flagged, one)
    } else {
        None
    }
}

/// Returns a line of `fmt`, with one of its options or with none.
fn format_line<'w>(one: &'w str, others: &'w [String]) -> Option<PlainLine<'w>>
    ensures { option_map line_of result ≡ read_format one.now (map string_bytes others.now) }
{
    match others {
        [] => file_line(Answer(Command::Format), one),
        [other] => match flag_line("--check", Answer(Command::CheckFormat), one, other.as_str()) {
            Some(line) => Some(line),
            None => flag_line("--write", Action::Rewrite, one, other.as_str()),
        },
        [_, _, ..] => None,
    }
}

/// Returns a line of `mhp`, with one of its options or with none.
fn pairs_line<'w>(one: &'w str, others: &'w [String]) -> Option<PlainLine<'w>>
    ensures { option_map line_of result ≡ read_pairs one.now (map string_bytes others.now) }
{
    match others {
        [] => file_line(Answer(Command::Pairs), one),
        [other] => match flag_line("--accesses", Answer(Command::Meetings), one, other.as_str()) {
            Some(line) => Some(line),
            None => flag_line(
                "--by-line",
                Answer(Command::PairsByLine),
                one,
                other.as_str(),
            ),
        },
        [_, _, ..] => None,
    }
}

/// Returns the line of a command and a file.
fn file_line<'w>(action: Action, file: &'w str) -> Option<PlainLine<'w>>
    ensures { option_map line_of result ≡ read_file action file.now }
{
    if is_file_name(file) {
        Some(bare(action, file))
    } else {
        None
    }
}

/// Returns a command and a file, without options.
fn bare<'w>(action: Action, file: &'w str) -> PlainLine<'w>
    ensures { line_of result ≡ bare_line action file.now }
{
    PlainLine {
        action,
        file,
        texts: Texts::none(),
    }
}

/// Returns whether an argument names a file: it doesn't start with `-`, or it is `-` alone.
pub fn is_file_name(word: &str) -> bool
    ensures { result ≡ names_file word.now }
{
    match word.as_bytes() {
        [] => true,
        [_] => true,
        [first, _, ..] => *first != b'-',
    }
}
