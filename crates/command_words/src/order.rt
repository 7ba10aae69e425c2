//! Orders.

ghost use Rattle.std.specs.Prelude.{◌≡◌};
ghost use Rattle.command_words.specs.Orders.{names_once as names_once_in, order as order_said};
ghost use Rattle.command_words.specs.Orders.{command_of, subject_of};

use crate::files::names_once;
use command_line::request::{Action, Command, Request, RunOptions, Telling};

/// The order that the arguments of a command line give.
#[derive(Clone, Copy, PartialEq, Eq, Debug)]
pub enum Order<'w> {
    /// A request, answered as lines of text.
    AsText(Request<'w>),
    /// `--format json`: a request, answered as one object.
    AsObject(Subject, Request<'w>),
    /// `bench`: a program whose runs are timed.
    Times(Request<'w>),
    /// `bench --format json`: the durations are written as one object.
    TimesAsObject(Request<'w>),
    /// `test`: a program, or a folder of programs, whose results are compared with the expected ones.
    Tests(Request<'w>),
    /// `test` of several programs and folders, or `test --write`.
    TestsEach(SeveralTests<'w>),
    /// `test --format json`: the results are written as one object.
    TestsAsObject(SeveralTests<'w>),
    /// `check` or `fmt` of several files, one after the other.
    Each(Several<'w>),
    /// `walk`: a program whose run is drawn from a seed, event by event.
    Walks(u64, Request<'w>),
    /// `explore` with one object as its answer.
    Explores(Schedules, Request<'w>),
    /// `inspect`: one object with the answers of `check`, `list` and `serial` for a program.
    Inspects(Request<'w>),
}

/// Which schedules of a program an object tells about.
#[derive(Clone, Copy, PartialEq, Eq, Debug)]
pub enum Schedules {
    /// `--format json`: the one of the choices that are given.
    Chosen,
    /// `--all N`: all that at most this number of lists of choices reach.
    All(u32),
}

/// One action for several files.
#[derive(Clone, Copy, PartialEq, Eq, Debug)]
pub struct Several<'w> {
    pub action: Action,
    pub files: &'w [String],
    pub telling: Telling,
}

/// Programs and folders of programs that are tested under the same settings.
#[derive(Clone, Copy, PartialEq, Eq, Debug)]
pub struct SeveralTests<'w> {
    pub names: &'w [String],
    pub settings: RunOptions<'w>,
    /// `--write`: the output of each program is written into its `.out` file.
    pub writes: bool,
}

impl Order<'_> {
    /// Returns whether it gives no two files the same name.
    pub fn names_once(&self) -> bool
        ensures { result ≡ names_once_in (order_said self.now) }
    {
        match self {
            Order::AsText(request)
            | Order::AsObject(_, request)
            | Order::Times(request)
            | Order::TimesAsObject(request)
            | Order::Tests(request)
            | Order::Walks(_, request)
            | Order::Explores(_, request)
            | Order::Inspects(request) => names_once(request),
            Order::TestsEach(_) | Order::TestsAsObject(_) | Order::Each(_) => true,
        }
    }
}

/// Answers that can be written as one object.
#[derive(Clone, Copy, PartialEq, Eq, Debug)]
pub enum Subject {
    /// The answer of `run`.
    Run,
    /// The answer of `serial`.
    Serial,
    /// The answer of `check`.
    Check,
    /// The answer of `cost`.
    Cost,
    /// The answer of `mhp`.
    Pairs,
    /// The answer of `list`.
    Labels,
    /// The answer of `fmt --check`.
    CheckFormat,
    /// The answer of `cost --by-line`.
    CostByLabel,
    /// The answer of `view --summary`.
    Summary,
}

impl Subject {
    /// Returns the answer of an action that can be written as one object, if it can.
    pub fn of(action: Action) -> Option<Subject>
        ensures { result ≡ subject_of action }
    {
        let Action::Answer(command) = action else {
            return None;
        };
        match command {
            Command::Run => Some(Subject::Run),
            Command::Serial => Some(Subject::Serial),
            Command::Check => Some(Subject::Check),
            Command::Cost => Some(Subject::Cost),
            Command::Pairs => Some(Subject::Pairs),
            Command::Labels => Some(Subject::Labels),
            Command::CheckFormat => Some(Subject::CheckFormat),
            Command::CostByLabel => Some(Subject::CostByLabel),
            Command::Summary => Some(Subject::Summary),
            _ => None,
        }
    }

    /// Returns the command with this answer.
    pub fn command(self) -> Command
        ensures { result ≡ command_of self }
    {
        match self {
            Subject::Run => Command::Run,
            Subject::Serial => Command::Serial,
            Subject::Check => Command::Check,
            Subject::Cost => Command::Cost,
            Subject::Pairs => Command::Pairs,
            Subject::Labels => Command::Labels,
            Subject::CheckFormat => Command::CheckFormat,
            Subject::CostByLabel => Command::CostByLabel,
            Subject::Summary => Command::Summary,
        }
    }
}
