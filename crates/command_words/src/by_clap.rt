//! Arguments of a command line that `clap` parses.

use crate::inputs::source_among;
use crate::order::{Order, Schedules, SeveralTests, Subject};
use clap::error::ErrorKind;
use clap::{ArgMatches, Error};
use command_line::request::{
    Action, Choosing, Color, Command, Explain, InputSource, Request, RunOptions, Spread, Telling,
};
use options::reply::{self, Reply};
use options::table::{CLOSING, commands};
use std::alloc::{AllocError, Global};
use types::budget::Budget;

/// Returns the order that `clap` finds in the arguments, or the reply to them.
pub fn order_by_clap<'w>(alloc: Global, words: &'w [String]) -> Result<Order<'w>, Reply> {
    let matches = reply::matched(alloc, words)?;
    let asked = matches.subcommand();
    match replied(alloc, asked)? {
        Some(reply) => Err(reply),
        None => Ok(tested_so(words, asked, ordered(alloc, words, asked)?)),
    }
}

/// Returns an order, with `test --write` that of writing, and with `test --format json` that of an
/// object.
fn tested_so<'w>(
    words: &'w [String],
    asked: Option<(&str, &ArgMatches<'w>)>,
    order: Order<'w>,
) -> Order<'w> {
    let Order::Tests(request) = order else {
        return order;
    };
    let Some((_, given)) = asked else {
        return order;
    };
    let tests = SeveralTests {
        names: name_among(words, request.file),
        settings: request.settings,
        writes: given.get_flag("write"),
    };
    match given.get_str("format") {
        Some("json") => Order::TestsAsObject(tests),
        _ if tests.writes => Order::TestsEach(tests),
        _ => order,
    }
}

/// Returns the argument that is a name, as a list of one.
fn name_among<'w>(words: &'w [String], name: &str) -> &'w [String] {
    for index in 0..words.len() {
        if words[index].as_str() == name {
            return &words[index..index + 1];
        }
    }
    &[]
}

/// Returns the reply to a command without an order, if this is one.
fn replied(
    alloc: Global,
    asked: Option<(&str, &ArgMatches<'_>)>,
) -> Result<Option<Reply>, AllocError> {
    match asked {
        Some(("explain", given)) => Ok(Some(reply::explained(alloc, given)?)),
        Some(("completions", given)) => Ok(Some(described(alloc, Some(given))?)),
        Some(("man", _)) => Ok(Some(described(alloc, None)?)),
        _ => Ok(None),
    }
}

/// Returns a text about all commands: the completions of the given shell, or the manual page.
fn described(alloc: Global, given: Option<&ArgMatches<'_>>) -> Result<Reply, AllocError> {
    let program = commands(alloc)?;
    match given {
        Some(given) => reply::completions(alloc, given, &program),
        None => reply::manual(alloc, &program, CLOSING),
    }
}

/// Returns the order of another command.
fn ordered<'w>(
    alloc: Global,
    words: &'w [String],
    asked: Option<(&str, &ArgMatches<'w>)>,
) -> Result<Order<'w>, Error> {
    let run = Action::Answer(Command::Run);
    let serial = Action::Answer(Command::Serial);
    match asked {
        Some(("bench", given)) => Ok(timing(given, asking(alloc, words, run, given)?)),
        Some(("test", given)) => Ok(Order::Tests(asking(alloc, words, run, given)?)),
        Some(("walk", given)) => Ok(walking(given, asking(alloc, words, run, given)?)),
        Some(("inspect", given)) => Ok(Order::Inspects(asking(alloc, words, serial, given)?)),
        Some(("explore", given)) => { Ok(exploring(given, request_asked(alloc, words, asked)?)) }
        asked => Ok(told(asked, request_asked(alloc, words, asked)?)),
    }
}

/// Returns the order to time the runs of a request, in the requested format.
fn timing<'w>(given: &ArgMatches<'w>, request: Request<'w>) -> Order<'w> {
    match given.get_str("format") {
        Some("json") => Order::TimesAsObject(request),
        _ => Order::Times(request),
    }
}

/// Returns the order of `walk`.
fn walking<'w>(given: &ArgMatches<'w>, request: Request<'w>) -> Order<'w> {
    Order::Walks(given.get_one("seed").unwrap_or(0), request)
}

/// Returns the order of `explore`, in the requested format. `clap` has checked the number of lists.
fn exploring<'w>(given: &ArgMatches<'w>, request: Request<'w>) -> Order<'w> {
    if let Some(most) = given.get_one("all") {
        return Order::Explores(Schedules::All(most), request);
    }
    match given.get_str("format") {
        Some("json") => Order::Explores(Schedules::Chosen, request),
        _ => Order::AsText(request),
    }
}

/// Returns the order of a request, in the requested format. `clap` has checked that only commands
/// that can be answered as an object have a format.
fn told<'w>(asked: Option<(&str, &ArgMatches<'w>)>, request: Request<'w>) -> Order<'w> {
    let form = match asked {
        Some((_, given)) => given.get_str("format"),
        None => None,
    };
    match (form, Subject::of(request.action)) {
        (Some("json"), Some(subject)) => Order::AsObject(subject, request),
        _ => Order::AsText(request),
    }
}

/// Returns the request of a command for a program.
fn request_asked<'w>(
    alloc: Global,
    words: &'w [String],
    asked: Option<(&str, &ArgMatches<'w>)>,
) -> Result<Request<'w>, Error> {
    let Some((word, given)) = asked else {
        return Err(mistake(alloc, ErrorKind::MissingSubcommand, "no command")?);
    };
    match action_asked(word, given) {
        Some(action) => asking(alloc, words, action, given),
        None => Err(mistake(alloc, ErrorKind::MissingSubcommand, "no command")?),
    }
}

/// Returns the action of a command for a program, if this is one.
fn action_asked(word: &str, given: &ArgMatches<'_>) -> Option<Action> {
    Some(match word {
        "fmt" => formatting(given),
        "run" => Action::Answer(Command::Run),
        "serial" => Action::Answer(Command::Serial),
        "check" => Action::Answer(checking(given)),
        "list" => Action::Answer(listing(given)),
        "mhp" => Action::Answer(pairing(given)),
        "cost" => Action::Answer(costing(given)),
        "explore" => Action::Answer(explored(given)),
        "view" => Action::Answer(viewing(given)),
        _ => return None,
    })
}

/// Returns which command `check` is.
fn checking(given: &ArgMatches<'_>) -> Command {
    if given.get_flag("list") {
        Command::Listing
    } else {
        Command::Check
    }
}

/// Returns which command `list` is.
fn listing(given: &ArgMatches<'_>) -> Command {
    if given.get_flag("lines") {
        Command::Places
    } else {
        Command::Labels
    }
}

/// Returns which command `mhp` is.
fn pairing(given: &ArgMatches<'_>) -> Command {
    if given.get_flag("accesses") {
        Command::Meetings
    } else if given.get_flag("by-line") {
        Command::PairsByLine
    } else {
        Command::Pairs
    }
}

/// Returns the action of `fmt`. `clap` has checked that at most one option selects it.
fn formatting(given: &ArgMatches<'_>) -> Action {
    if given.get_flag("check") {
        Action::Answer(Command::CheckFormat)
    } else if given.get_flag("write") {
        Action::Rewrite
    } else {
        Action::Answer(Command::Format)
    }
}

/// Returns which command `cost` is. `clap` has checked that at most one option selects it.
fn costing(given: &ArgMatches<'_>) -> Command {
    if given.get_flag("by-line") {
        Command::CostByLabel
    } else if given.get_flag("by-procedure") {
        Command::CostByProcedure
    } else {
        Command::Cost
    }
}

/// Returns which command `explore` is.
fn explored(given: &ArgMatches<'_>) -> Command {
    if given.get_str("html").is_some() {
        Command::Schedules
    } else {
        Command::Explore
    }
}

/// Returns which command `view` is. `clap` has checked that at most one option selects it.
fn viewing(given: &ArgMatches<'_>) -> Command {
    let by_line = given.get_flag("by-line");
    if given.get_flag("summary") {
        if by_line {
            Command::SummaryByLine
        } else {
            Command::Summary
        }
    } else if given.get_str("svg").is_some() {
        Command::Draw
    } else if given.get_str("chrome").is_some() {
        Command::Chrome
    } else if given.get_str("html").is_some() {
        Command::Page
    } else if given.get_str("upgrade").is_some() {
        Command::Upgrade
    } else if by_line {
        Command::ViewByLine
    } else {
        Command::View
    }
}

/// Returns the request with an action.
fn asking<'w>(
    alloc: Global,
    words: &'w [String],
    action: Action,
    given: &ArgMatches<'w>,
) -> Result<Request<'w>, Error> {
    Ok(Request {
        action,
        file: file(given),
        settings: RunOptions {
            input: source(alloc, words, given)?,
            budget: budget(alloc, given)?,
            spread: spread(alloc, given)?,
            choices: choosing(given),
            trace: trace(given),
            picture: picture(given),
            arrays: given.get_flag("arrays"),
            progress: given.get_flag("progress"),
        },
        telling: telling(given),
    })
}

/// Returns the source of an input.
fn source<'w>(
    alloc: Global,
    words: &'w [String],
    given: &ArgMatches<'w>,
) -> Result<Option<InputSource<'w>>, Error> {
    match source_among(words, given) {
        Ok(source) => Ok(source),
        Err(wrong) => Err(mistake(alloc, ErrorKind::ValueValidation, wrong)?),
    }
}

/// Returns the file of a program, or the name of what is tested.
fn file<'w>(given: &ArgMatches<'w>) -> &'w str {
    given.get_str("FILE").unwrap_or("-")
}

/// Returns the reporting options. `clap` has checked that their values are possible ones. A list of
/// all races follows an explanation.
fn telling(given: &ArgMatches<'_>) -> Telling {
    let all = given.get_flag("all");
    Telling {
        explain: if all {
            Explain::Always
        } else {
            when(given.get_str("explain"))
        },
        all,
        warn: when(given.get_str("warn")),
        color: match given.get_str("color") {
            Some("always") => Color::Always,
            Some("never") => Color::Never,
            _ => Color::Auto,
        },
    }
}

/// Returns when something is reported.
fn when(word: Option<&str>) -> Explain {
    match word {
        Some("always") => Explain::Always,
        Some("never") => Explain::Never,
        _ => Explain::AtTerminal,
    }
}

/// Returns the source of choices. `clap` has checked that at most one option names it.
fn choosing<'w>(given: &ArgMatches<'w>) -> Option<Choosing<'w>> {
    if let Some(list) = given.get_str("choices") {
        return Some(Choosing::Listed(list));
    }
    if let Some(file) = given.get_str("choices-from") {
        return Some(Choosing::InFile(file));
    }
    given.get_one("random").map(|seed| Choosing::Random(seed))
}

/// Returns the file of the trace: that of an option of `run`, or the second file of `view`.
fn trace<'w>(given: &ArgMatches<'w>) -> Option<&'w str> {
    match given.get_str("trace") {
        Some(file) => Some(file),
        None => given.get_str("TRACE"),
    }
}

/// Returns the file of a picture, or of a trace in format 2. `clap` has checked that at most one
/// option names it.
fn picture<'w>(given: &ArgMatches<'w>) -> Option<&'w str> {
    if let Some(file) = given.get_str("svg") {
        return Some(file);
    }
    if let Some(file) = given.get_str("chrome") {
        return Some(file);
    }
    match given.get_str("html") {
        Some(file) => Some(file),
        None => given.get_str("upgrade"),
    }
}

/// Returns the given budget. `clap` has checked that its numbers are in range.
fn budget(alloc: Global, given: &ArgMatches<'_>) -> Result<Budget, Error> {
    let usual = Budget::usual();
    let steps = given.get_one("steps").unwrap_or(u64::from(usual.steps));
    let nest = given.get_one("nest").unwrap_or(u64::from(usual.nest));
    match Budget::new(steps, nest) {
        Some(budget) => Ok(budget),
        None => Err(mistake(alloc, ErrorKind::ValueValidation, "no budget")?),
    }
}

/// Returns the tasks, weight and workers. `clap` has checked that these numbers are in range.
fn spread(alloc: Global, given: &ArgMatches<'_>) -> Result<Spread, Error> {
    let usual = Spread::usual();
    let tasks = given.get_one("tasks").unwrap_or(usual.tasks);
    let w0 = given.get_one("w0").unwrap_or(usual.w0);
    let workers = given.get_one("workers").unwrap_or(usual.workers);
    match Spread::new(tasks, w0, workers) {
        Some(spread) => Ok(spread),
        None => Err(mistake(alloc, ErrorKind::ValueValidation, "no workers")?),
    }
}

/// Returns a mistake in the arguments.
fn mistake(alloc: Global, kind: ErrorKind, text: &'static str) -> Result<Error, AllocError> {
    commands(alloc)?.error(kind, text)
}
