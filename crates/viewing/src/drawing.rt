//! `view --svg`, `view --chrome` and `view --html`: drawing a trace into a file.

ghost use Rattle.std.specs.Prelude.{◌≡◌, IfOk};
ghost use Rattle.std.specs.String.{string_bytes};
ghost use Rattle.command_line.specs.Requests.{settings as settings_of};
ghost use Rattle.commands.specs.Outcomes.{Fits};
ghost use Rattle.viewing.specs.Files.{WritesTo};
ghost use Rattle.trace_page.specs.Pages.{IsPage};
ghost use Rattle.viewing.specs.Views.{IsDrawnAs, ShowsTrace, Views, command_of};
ghost use Rattle.viewing.specs.Views.{picture_name as name_of_picture, traced_of};

use crate::statements::statements_of;
use crate::traces::{JudgedTrace, trace_name, trace_of};
use command_line::request::RunOptions;
use commands::memory::or_no_memory;
use commands::question::Question;
use commands::showing::answer;
use failures::failure::Failure;
use files::file_source::{FileSource, write_file};
use std::alloc::{AllocError, Global};
use std::io::Write;
use std::thread::Threads;
use trace_page::page::{TracedRun, page};
use trace_pictures::{chrome, timeline};
use types::code::Label;

/// The form in which a trace is drawn.
#[derive(Clone, Copy)]
pub enum Form<'w> {
    /// A picture: `view --svg`.
    Picture,
    /// The input of a trace viewer: `view --chrome`.
    Spans,
    /// A page, with the name of the program's file: `view --html`.
    Html { program: &'w str },
}

/// Draws a trace in this form into the file of the picture. Returns the exit status.
pub fn draw<R: Threads + Sync, F: FileSource, O: Write>(
    rt: &R,
    alloc: Global,
    form: Form<'_>,
    question: Question<'_>,
    files: &mut F,
    out: &mut O,
) -> Result<u8, Failure>
    ensures done { Views (command_of form.entry) (settings_of question.entry.settings) (F.held files.old)
        question.entry.text.now (O.contents out.old) (O.contents out.new) result }
    ensures picture { let s = settings_of question.entry.settings in WritesTo (name_of_picture s)
        (IsDrawnAs form.entry s (F.held files.old) question.entry.text.now) (F.held files.old) (F.held files.new) result }
{
    let settings = question.settings;
    let judged = trace_of(rt, alloc, question, files)?;
    let picture = or_no_memory(drawn(alloc, form, question, &judged))?;
    write_file(alloc, files, picture_name(settings), picture.as_bytes())?;
    answer(out, "")
}

/// Returns the name of the file of the picture, the page, or the trace in format 2.
pub fn picture_name<'w>(settings: RunOptions<'w>) -> &'w str
    ensures { result.now ≡ name_of_picture (settings_of settings.entry) }
{
    match settings.picture {
        Some(name) => name,
        None => "-",
    }
}

/// Returns a trace drawn in this form, with the statements at its events.
fn drawn(
    alloc: Global,
    form: Form<'_>,
    question: Question<'_>,
    judged: &JudgedTrace,
) -> Result<String, AllocError>
    requires { Fits judged.now.given.accepted.typed judged.now.given.input }
    ensures { IfOk result (λ picture. ShowsTrace form.entry (settings_of question.entry.settings)
        question.entry.text.now judged.now (string_bytes picture)) }
{
    let statements = statements_of(alloc, question.text, judged)?;
    let trace = &judged.trace;
    match form {
        Form::Picture => timeline::draw(
            alloc,
            trace_name(question.settings),
            &trace.header,
            &trace.events,
            statements.lent(),
        ),
        Form::Spans => chrome::spans(alloc, &trace.events, statements.lent()),
        Form::Html { program } => page_of(
            alloc,
            program,
            trace_name(question.settings),
            question.text,
            judged,
            statements.lent().labels,
        ),
    }
}

/// Returns the page of a trace, by the names of both files, with the labels of the statements at its
/// events.
pub fn page_of(
    alloc: Global,
    program: &str,
    name: &str,
    text: &str,
    judged: &JudgedTrace,
    labels: &[Label],
) -> Result<String, AllocError>
    requires { Fits judged.now.given.accepted.typed judged.now.given.input }
    ensures { IfOk result (λ page. IsPage
        (traced_of judged.now program.now text.now name.now labels.now) (string_bytes page)) }
{
    let JudgedTrace { given, trace } = judged;
    let run = TracedRun {
        name: program,
        text,
        trace: name,
        accepted: &given.accepted,
        input: &given.input,
        header: &trace.header,
        events: &trace.events,
        labels,
    };
    match page(alloc, run) {
        Ok(page) => Ok(page),
        // Its events are legal, so the only possible error is out of memory.
        Err(_) => Err(AllocError),
    }
}
