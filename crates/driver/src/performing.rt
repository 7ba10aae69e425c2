//! The functions of the commands.

ghost use Rattle.commands.specs.Answers.{Does};
ghost use Rattle.command_line.specs.Requests.{asked_of, settings as settings_of};
ghost use Rattle.driver.specs.Orders.{DoesWithLoaded};
ghost use Rattle.driver.specs.Traced.{TracesRun};
ghost use Rattle.driver.specs.Watching.{WatchesDoing};
ghost use Rattle.driver.specs.declared.doing.TextOrder.TheVariants.{Answering};

use crate::loaded::Loaded;
use crate::tracing::{Schedule, run_of};
use command_line::request::{Action, Command};
use commands::accesses::list_accesses;
use commands::costing::{Shares, tell_cost};
use commands::formatting::{check_format, format};
use commands::listing::{list_labels, list_places};
use commands::question::Question;
use commands::rewrite::rewrite;
use commands::running::{run_by_choices, run_serially};
use commands::showing::show;
use commands::telling::{About, check, pairs, pairs_by_line};
use failures::failure::Failure;
use files::file_source::FileSource;
use statement_steps::watch::Watch;
use std::alloc::Global;
use std::io::Write;
use std::sync::Wait;
use std::thread::Threads;
use viewing::drawing::{Form, draw};
use viewing::schedules::write_schedules;
use viewing::tables::{Look, view};
use viewing::upgrading::upgrade;

/// Carries out a command on the text of a program.
pub fn perform<R: Threads + Wait + Sync, F: FileSource, O: Write, W: Watch>(
    rt: &R,
    loaded: Loaded<'_>,
    files: &mut F,
    out: &mut O,
    watch: &mut W,
) -> Result<u8, Failure>
    ensures done { DoesWithLoaded Answering loaded.entry (F.held files.old) (F.held files.new)
        (O.contents out.old) (O.contents out.new) result }
    ensures watched { WatchesDoing W.Told Answering (asked_of loaded.entry.request)
        result watch.old watch.new }
{
    let Loaded {
        alloc,
        request,
        text,
    } = loaded;
    let question = Question {
        text,
        settings: request.settings,
    };
    match request.action {
        Action::Rewrite => rewrite(alloc, request.file, text, files, out),
        Action::Answer(command) => match command {
            Command::Run => run_as_tasks(rt, alloc, Schedule::OnThreads, question, files, out),
            Command::Serial => run_serially(alloc, question, files, out, watch),
            Command::Check => check(rt, alloc, About::Counts, text, out),
            Command::Listing => check(rt, alloc, About::Lines, text, out),
            Command::Labels => list_labels(alloc, text, out),
            Command::Places => list_places(alloc, text, out),
            Command::Format => format(alloc, text, out),
            Command::CheckFormat => check_format(alloc, text, out),
            Command::Cost => tell_cost(alloc, Shares::Untold, question, files, out),
            Command::CostByLabel => tell_cost(alloc, Shares::ByLabel, question, files, out),
            Command::CostByProcedure => tell_cost(alloc, Shares::ByProcedure, question, files, out),
            Command::Pairs => pairs(alloc, text, out),
            Command::Meetings => list_accesses(alloc, text, out),
            Command::PairsByLine => pairs_by_line(alloc, text, out),
            Command::Explore => run_by_choices(rt, alloc, question, files, out),
            Command::View => view(rt, alloc, Look::Table, question, files, out),
            Command::ViewByLine => view(rt, alloc, Look::TableByLine, question, files, out),
            Command::Summary => view(rt, alloc, Look::Numbers, question, files, out),
            Command::SummaryByLine => view(rt, alloc, Look::NumbersByLine, question, files, out),
            Command::Draw => draw(rt, alloc, Form::Picture, question, files, out),
            Command::Chrome => draw(rt, alloc, Form::Spans, question, files, out),
            Command::Page => {
                let program = request.file;
                draw(rt, alloc, Form::Html { program }, question, files, out)
            }
            Command::Schedules => write_schedules(rt, alloc, request.file, question, files, out),
            Command::Upgrade => upgrade(rt, alloc, question, files, out),
        },
    }
}

/// `run` and `walk`: runs the program as tasks, and writes its outcome, after its trace if that is
/// requested. Returns the exit status.
pub fn run_as_tasks<R: Threads + Wait + Sync, F: FileSource, O: Write>(
    rt: &R,
    alloc: Global,
    schedule: Schedule,
    question: Question<'_>,
    files: &mut F,
    out: &mut O,
) -> Result<u8, Failure>
    ensures done { Does Command.Run (settings_of question.entry.settings) (F.held files.old)
        question.entry.text.now (O.contents out.old) (O.contents out.new) result }
    ensures trace { TracesRun (settings_of question.entry.settings) question.entry.text.now
        (F.held files.old) (F.held files.new) result }
{
    let ran = run_of(rt, alloc, schedule, question, files)?;
    show(
        out,
        &ran.given.accepted.typed().code().arrays,
        &ran.outcome,
        question.settings.arrays,
    )
}
