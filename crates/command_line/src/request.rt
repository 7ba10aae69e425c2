//! Requests of a command line.

ghost use Rattle.std.specs.Prelude.{◌≡◌, ◌<◌, ◌≤◌, ◌⊎◌, ◌↔◌, IfSome, IsNone};

use types::budget::Budget;

/// What to report or draw for a program.
#[derive(Clone, Copy, PartialEq, Eq, Debug)]
pub enum Command {
    /// `run`: run it in parallel.
    Run,
    /// `serial`: run it on one thread.
    Serial,
    /// `check`: report whether it is accepted.
    Check,
    /// `check --list`: write its listing.
    Listing,
    /// `list`: write the listing of any program.
    Labels,
    /// `list --lines`: write the listing, with the positions of its statements.
    Places,
    /// `mhp`: write the pairs of its labels that may run together.
    Pairs,
    /// `mhp --accesses`: write the pairs of accesses of each procedure that may run together.
    Meetings,
    /// `mhp --by-line`: write the pairs of its labels, each with its position and its statement.
    PairsByLine,
    /// `explore`: run it over one shared store by given choices.
    Explore,
    /// `fmt`: write its text in the canonical layout, with its comments.
    Format,
    /// `fmt --check`: report whether its text has the canonical layout.
    CheckFormat,
    /// `cost`: report work, span and parallelism of its run.
    Cost,
    /// `cost --by-line`: report also each label's share of the cost.
    CostByLabel,
    /// `cost --by-procedure`: report also each procedure's share of the cost.
    CostByProcedure,
    /// `view`: write the events of a trace as a table.
    View,
    /// `view --by-line`: write the events of a trace with the statements at which they happened.
    ViewByLine,
    /// `view --summary`: write the numbers of a trace.
    Summary,
    /// `view --summary --by-line`: write also the number of steps of each statement.
    SummaryByLine,
    /// `view --svg OUT`: draw a trace, as a picture in a file.
    Draw,
    /// `view --chrome OUT`: write a trace into a file for a trace viewer.
    Chrome,
    /// `view --html OUT`: write a page in which a trace can be explored.
    Page,
    /// `explore --html OUT`: write a page in which each step can be chosen.
    Schedules,
    /// `view --upgrade OUT`: write a trace into a file in format 2, and show it as a table.
    Upgrade,
}

/// When explanations have colors.
#[derive(Clone, Copy, PartialEq, Eq, Debug)]
pub enum Color {
    /// `--color auto`: at a terminal, unless `NO_COLOR` is set.
    Auto,
    /// `--color always`
    Always,
    /// `--color never`
    Never,
}

/// When something follows the line of a failure or an answer: where and why it occurred, or
/// warnings.
#[derive(Clone, Copy, PartialEq, Eq, Debug)]
pub enum Explain {
    /// `--explain=auto`, `--warn=auto`: if the standard error is a terminal.
    AtTerminal,
    /// `--explain` or `--explain=always`, `--warn` or `--warn=always`
    Always,
    /// `--explain=never`, `--warn=never`
    Never,
}

impl Explain {
    ghost use Rattle.command_line.specs.Requests.{is_explained};

    /// Returns whether this follows if the standard error is a terminal, or isn't.
    pub fn explains(self, at_terminal: bool) -> bool
        ensures { result ≡ is_explained self at_terminal }
    {
        match self {
            Explain::AtTerminal => at_terminal,
            Explain::Always => true,
            Explain::Never => false,
        }
    }
}

/// How a command reports.
#[derive(Clone, Copy, PartialEq, Eq, Debug)]
pub struct Telling {
    /// `--explain` or `--explain=WHEN`
    pub explain: Explain,
    /// `check --all`: the explanation of a race is followed by all races.
    pub all: bool,
    /// `check --warn` or `--warn=WHEN`: whether warnings follow the answer for an accepted program.
    pub warn: Explain,
    /// `--color WHEN`
    pub color: Color,
}

impl Telling {
    ghost use Rattle.command_line.specs.Requests.{usual_telling};

    /// Returns the default: explanations, warnings and colors at a terminal.
    pub fn usual() -> Telling
        ensures { result ≡ usual_telling }
    {
        Telling {
            explain: Explain::AtTerminal,
            all: false,
            warn: Explain::AtTerminal,
            color: Color::Auto,
        }
    }
}

/// What to do with the file of a program.
#[derive(Clone, Copy, PartialEq, Eq, Debug)]
pub enum Action {
    /// A command answers for its program.
    Answer(Command),
    /// `fmt --write`: its text is formatted in the file.
    Rewrite,
}

/// Where the initial contents of the arrays come from.
#[derive(Clone, Copy, PartialEq, Eq, Debug)]
pub enum InputSource<'w> {
    /// `--input FILE`: the JSON text in this file.
    File(&'w str),
    /// `--set NAME=1,2,3`, once or more often: the lists among these arguments are the elements of
    /// some arrays. The other arrays are zeros.
    Lists(&'w [String]),
    /// `--text NAME=FILE`: the bytes of this file are the elements of one array. The other arrays
    /// are zeros.
    Bytes { name: &'w str, file: &'w str },
}

/// The source of choices: which leaves step.
#[derive(Clone, Copy, PartialEq, Eq, Debug)]
pub enum Choosing<'w> {
    /// `--choices LIST`: their numbers, joined by commas.
    Listed(&'w str),
    /// `--choices-from FILE`: their numbers in a file, with commas or white space between them.
    InFile(&'w str),
    /// `--random SEED`: a generator with this seed draws them.
    Random(u64),
}

/// How a run uses worker threads.
#[derive(Clone, Copy, PartialEq, Eq, Debug)]
pub struct Spread {
    /// The maximum number of tasks, including the root, 1 to 1,048,576.
    pub tasks: u64,
    /// The amount of weight that a scope issues at a time, 1 to 4,294,967,296.
    pub w0: u64,
    /// The number of workers, 1 to 64.
    pub workers: u64,
    ghost tasks_in_range: { (1 ≤ tasks) × (tasks ≤ 1048576) },
    ghost w0_in_range: { (1 ≤ w0) × (w0 ≤ 4294967296) },
    ghost workers_in_range: { (1 ≤ workers) × (workers ≤ 64) },
}

impl Spread {
    ghost use Rattle.command_line.specs.Requests.{spread, usual_spread};

    /// Returns these numbers as one value, or None if one of them is out of range.
    pub fn new(tasks: u64, w0: u64, workers: u64) -> Option<Spread>
        ensures none { IsNone result ↔ ((tasks < 1) ⊎ (1048576 < tasks) ⊎ (w0 < 1)
            ⊎ (4294967296 < w0) ⊎ (workers < 1) ⊎ (64 < workers)) }
        ensures numbers { IfSome result (λ s. spread s
            ≡ (record { tasks = tasks; w0 = w0; workers = workers })) }
    {
        if tasks < 1 || tasks > MOST_TASKS || w0 < 1 || w0 > MOST_WEIGHT {
            return None;
        }
        if workers < 1 || workers > MOST_WORKERS {
            return None;
        }
        Some(Spread { tasks, w0, workers })
    }

    /// Returns the default: 65,536 tasks, a weight of 1,048,576, 4 workers.
    pub fn usual() -> Spread
        ensures { spread result ≡ usual_spread }
    {
        Spread {
            tasks: 65_536,
            w0: 1_048_576,
            workers: 4,
        }
    }
}

/// The maximum of the number of tasks.
const MOST_TASKS: u64 = 1_048_576;

/// The maximum of the weight that a scope issues at a time.
const MOST_WEIGHT: u64 = 4_294_967_296;

/// The maximum of the number of workers.
const MOST_WORKERS: u64 = 64;

/// The settings of a run.
#[derive(Clone, Copy, PartialEq, Eq, Debug)]
pub struct RunOptions<'w> {
    /// `--input FILE`, `--set NAME=LIST` or `--text NAME=FILE`: the source of the initial contents
    /// of the arrays. Without it they are zeros.
    pub input: Option<InputSource<'w>>,
    /// `--steps N` and `--nest N`
    pub budget: Budget,
    /// `--tasks N`, `--w0 N` and `--workers N`
    pub spread: Spread,
    /// `--choices LIST`, `--choices-from FILE` or `--random SEED`. Without any of them no leaf
    /// steps.
    pub choices: Option<Choosing<'w>>,
    /// `--trace FILE` of `run`: the file that the run's trace is written to. `TRACE` of `view`: the
    /// file that contains it, which these arguments always name.
    pub trace: Option<&'w str>,
    /// `--svg OUT`, `--chrome OUT` or `--html OUT`: the file that the picture or the page is written
    /// to. `--upgrade OUT`: the file that the trace is written to in format 2.
    pub picture: Option<&'w str>,
    /// `--arrays`: the arrays are shown after the outcome.
    pub arrays: bool,
    /// `--progress`: the progress of a one-thread run is reported while it runs.
    pub progress: bool,
}

impl<'w> RunOptions<'w> {
    ghost use Rattle.command_line.specs.Requests.{settings, usual};

    /// Returns the default: zeros, the default budget, 4 workers, and no arrays.
    pub fn usual() -> RunOptions<'w>
        ensures { settings result ≡ usual }
    {
        RunOptions {
            input: None,
            budget: Budget::usual(),
            spread: Spread::usual(),
            choices: None,
            trace: None,
            picture: None,
            arrays: false,
            progress: false,
        }
    }
}

/// A request of a command line.
#[derive(Clone, Copy, PartialEq, Eq, Debug)]
pub struct Request<'w> {
    pub action: Action,
    /// The file of the program; `-` is the standard input.
    pub file: &'w str,
    pub settings: RunOptions<'w>,
    pub telling: Telling,
}
