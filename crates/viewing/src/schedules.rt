//! `explore --html`: a page in which each step of a program can be chosen.

ghost use Rattle.std.specs.Prelude.{◌≡◌, IfOk, MatchOption};
ghost use Rattle.std.specs.String.{string_bytes};
ghost use Rattle.types.specs.Translation.{input as lists_in};
ghost use Rattle.types.specs.Typed.{code_of};
ghost use Rattle.command_line.specs.Requests.{settings as settings_of};
ghost use Rattle.commands.specs.Answers.{Done};
ghost use Rattle.commands.specs.Outcomes.{Fits};
ghost use Rattle.event_worlds.specs.Shown.{scope_id};
ghost use Rattle.event_worlds.specs.World.{root_scope};
ghost use Rattle.trace_text.specs.Headers.{header_of};
ghost use Rattle.viewing.specs.Files.{WritesTo};
ghost use Rattle.viewing.specs.Views.{AnswersSchedules, AreShown, AreWhole, ExplainsSchedules};
ghost use Rattle.viewing.specs.Views.{IsSchedulesPage, IsTooLong, ShowsSchedules, runless_header};
ghost use Rattle.viewing.specs.Views.{picture_name as name_of_picture, schedule_header};

use crate::drawing::{page_of, picture_name};
use crate::statements::statements_of;
use crate::traces::{JudgedTrace, Trace};
use commands::memory::or_no_memory;
use commands::question::{Begun, Question};
use commands::showing::answer;
use event_worlds::job::WeightedJob;
use event_worlds::walk::random_walk;
use events::event::Event;
use failures::failure::Failure;
use files::file_source::{FileSource, write_file};
use race_checker::accepted::Accepted;
use std::alloc::{AllocError, Global};
use std::io::Write;
use std::thread::Threads;
use trace_text::format::Format;
use trace_text::header::Header;
use types::budget::Budget;
use types::input::Input;
use types::path::Path;
use types::scope_id::ScopeId;

/// The number of events after which a run is too long for a page. A run of one worker has at most
/// four events for each step, and three more: a spawn leads to a take, a replenishment and an end,
/// and the start of a finish to its end. A page shows the schedules of at most 2,000 steps.
const MOST_EVENTS: usize = 8_003;

/// The weight that a scope issues at a time.
const W0: u64 = 1_048_576;

/// Writes a page in which each step can be chosen into the file of the picture. Returns the exit
/// status.
pub fn write_schedules<R: Threads + Sync, F: FileSource, O: Write>(
    rt: &R,
    alloc: Global,
    program: &str,
    question: Question<'_>,
    files: &mut F,
    out: &mut O,
) -> Result<u8, Failure>
    ensures done { let s = settings_of question.entry.settings in
        Done (AnswersSchedules s (F.held files.old) question.entry.text.now)
        (ExplainsSchedules s (F.held files.old) question.entry.text.now)
        (O.contents out.old) (O.contents out.new) result }
    ensures page { let s = settings_of question.entry.settings in WritesTo (name_of_picture s)
        (IsSchedulesPage program.now s (F.held files.old) question.entry.text.now)
        (F.held files.old) (F.held files.new) result }
{
    let settings = question.settings;
    let given = question.begun(rt, alloc, files)?;
    let shown = or_no_memory(shown_of(alloc, given))?;
    let page = or_no_memory(page_of_shown(alloc, program, question.text, &shown))?;
    write_file(alloc, files, picture_name(settings), page.as_bytes())?;
    answer(out, "")
}

/// Returns what a page of a program's schedules shows, with the program and its input.
fn shown_of(alloc: Global, given: Begun) -> Result<JudgedTrace, AllocError>
    requires { Fits given.accepted.typed given.input }
    ensures given { IfOk result (λ t. t.given ≡ given) }
    ensures shown { IfOk result (λ t. AreShown (code_of given.accepted.typed) (lists_in given.input)
        t.trace.header t.trace.events.items) }
{
    let trace = trace_shown(alloc, &given.accepted, &given.input)?;
    Ok(JudgedTrace { given, trace })
}

/// Returns a whole run of a program on an input; or no events, if the run is too long.
fn trace_shown(alloc: Global, accepted: &Accepted, input: &Input) -> Result<Trace, AllocError>
    requires { Fits accepted.now.typed input.now }
    ensures { IfOk result (λ t. AreShown (code_of accepted.now.typed) (lists_in input.now)
        t.header t.events.items) }
{
    let found = whole_run(alloc, accepted, input)?;
    match found {
        Some(events) => {
            let header = header_of_run();
            Ok(Trace { header, events })
        }
        None => {
            let header = header_of_none();
            let events = Vec::new(alloc);
            Ok(Trace { header, events })
        }
    }
}

/// Returns the settings of the run that a page shows.
fn header_of_run() -> Header
    ensures { header_of result ≡ schedule_header }
{
    let budget = Budget {
        steps: 1_000_000,
        nest: 1_000,
    };
    Header {
        format: Format::One,
        budget,
        w0: W0,
        workers: 1,
    }
}

/// Returns the settings of a page that shows no run. The page has the cost of a run with this
/// budget, so the budget is the smallest one.
fn header_of_none() -> Header
    ensures { header_of result ≡ runless_header }
{
    let budget = Budget { steps: 1, nest: 0 };
    Header {
        format: Format::One,
        budget,
        w0: W0,
        workers: 1,
    }
}

/// Returns the events of a whole run of a program on an input, unless there are too many.
fn whole_run(
    alloc: Global,
    accepted: &Accepted,
    input: &Input,
) -> Result<Option<Vec<Event>>, AllocError>
    requires { Fits accepted.now.typed input.now }
    ensures { let p = code_of accepted.now.typed in let i = lists_in input.now in
        IfOk result (λ found. MatchOption found (IsTooLong p i schedule_header)
        (λ es. AreWhole p i schedule_header es.items)) }
{
    let header = header_of_run();
    let Some(job) = WeightedJob::new(alloc, accepted, input, header.budget, header.w0) else {
        unreachable!()
    };
    // The only possible error is out of memory.
    let Ok(walk) = random_walk(job, 1, 0, MOST_EVENTS) else {
        return Err(AllocError);
    };
    let outermost = scope_of_main(alloc);
    if walk.world.passed(&outermost) {
        Ok(Some(walk.events))
    } else {
        Ok(None)
    }
}

/// Returns the name of the scope around `main`.
fn scope_of_main(alloc: Global) -> ScopeId
    ensures { scope_id result ≡ root_scope }
{
    ScopeId {
        owner: Path::root(alloc),
        number: 0,
    }
}

/// Returns the page of these events, which are of no trace's file.
fn page_of_shown(
    alloc: Global,
    program: &str,
    text: &str,
    shown: &JudgedTrace,
) -> Result<String, AllocError>
    requires { Fits shown.now.given.accepted.typed shown.now.given.input }
    ensures { IfOk result (λ page. ShowsSchedules program.now text.now shown.now (string_bytes page)) }
{
    let statements = statements_of(alloc, text, shown)?;
    page_of(alloc, program, "", text, shown, statements.lent().labels)
}
