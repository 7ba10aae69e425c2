//! Carrying out orders on the file of a program.

ghost use Rattle.std.specs.Prelude.{◌≡◌, []};
ghost use Rattle.command_line.specs.Requests.{asked_of};
ghost use Rattle.driver.specs.Acts.{IsSaid, in_short};
ghost use Rattle.driver.specs.Orders.{DoesWithLoaded, ReadsAnd, TellsUnread};
ghost use Rattle.driver.specs.Watching.{WatchesDoing};
ghost use Rattle.json_answers.specs.Failing.{IsToldAsObject, TellsFailure};

use crate::answered::Answered;
use crate::as_object::{schedules_told, told};
use crate::handing::handed_on;
use crate::inspecting::inspected_told;
use crate::loaded::Loaded;
use crate::more::More;
use crate::opening::source_of;
use crate::performed::Performed;
use crate::performing::{perform, run_as_tasks};
use crate::refusal::Refusal;
use crate::source::ProgramSource;
use crate::terminal::Terminal;
use crate::tracing::Schedule;
use crate::trying::{time, time_as_object};
use command_line::request::Request;
use command_words::order::{Schedules, Subject};
use commands::question::Question;
use commands::unread::unread_explanation;
use failures::failure::Failure;
use files::file_source::FileSource;
use json_answers::refused_program::RefusedProgram;
use json_answers::writing::tell_refusal;
use std::alloc::Global;
use std::io::Write;
use std::sync::Wait;
use std::thread::Threads;

/// An order for the text of a program.
#[derive(Clone, Copy)]
pub enum TextOrder {
    /// The command is answered as text.
    Answering,
    /// It is answered as one object.
    Describing(Subject),
    /// The runs of the program are timed.
    Timing,
    /// They are timed, and the durations are written as one object.
    TimingAsObject,
    /// The program is run by events that are drawn from this seed.
    Walking(u64),
    /// One object tells about these schedules of the program.
    Exploring(Schedules),
    /// Several answers are written as one object.
    Inspecting,
}

/// An order for the text of a program, its request, and what follows an answer or a failure.
#[derive(Clone, Copy)]
pub struct Ordered<'o> {
    pub doing: TextOrder,
    pub request: Request<'o>,
    pub more: More,
}

/// Reads a program, and carries out the order on its text.
pub fn read_and_do<R: Threads + Wait + Sync, F: FileSource, O: Write, T: Terminal>(
    rt: &R,
    alloc: Global,
    ordered: Ordered<'_>,
    files: &mut F,
    out: &mut O,
    terminal: &mut T,
) -> Result<Answered, Refusal>
    ensures done { ReadsAnd ordered.entry.doing (asked_of ordered.entry.request)
        (F.held files.old) (F.held files.new)
        (O.contents out.old) (O.contents out.new) (in_short result) }
    ensures said { IsSaid ordered.entry.more result }
    ensures watched { WatchesDoing T.Told ordered.entry.doing (asked_of ordered.entry.request)
        (in_short result) terminal.old terminal.new }
{
    let Ordered {
        doing,
        request,
        more,
    } = ordered;
    let source = match source_of(alloc, files, request, more, terminal) {
        Ok(source) => source,
        Err(refusal) => {
            tell_unread(alloc, ordered, files, &refusal.failure, out);
            return Err(refusal);
        }
    };
    let text = source.text.as_str();
    let loaded = Loaded {
        alloc,
        request,
        text,
    };
    let performed = do_with(rt, doing, loaded, files, out, terminal);
    explained(alloc, files, request, &source, performed)
}

/// Reports why the file of a program gives no text, if the answer should be an object.
fn tell_unread<F: FileSource, O: Write>(
    alloc: Global,
    ordered: Ordered<'_>,
    files: &mut F,
    failure: &Failure,
    out: &mut O,
)
    ensures told { TellsUnread ordered.entry.doing ordered.entry.request.file.now
        (O.contents out.old) (O.contents out.new) failure.now }
    ensures keeps { F.held files.new ≡ F.held files.old }
{
    let file = ordered.request.file;
    match ordered.doing {
        TextOrder::Answering => {}
        TextOrder::Describing(_) => tell_unread_file(alloc, file, files, failure, out),
        TextOrder::Timing => {}
        TextOrder::TimingAsObject => tell_unread_file(alloc, file, files, failure, out),
        TextOrder::Walking(_) => {}
        TextOrder::Exploring(_) => tell_unread_file(alloc, file, files, failure, out),
        TextOrder::Inspecting => tell_unread_file(alloc, file, files, failure, out),
    }
}

/// Writes the object that tells why a file gives no text, with its explanation, if there is memory
/// for both.
pub(crate) fn tell_unread_file<F: FileSource, O: Write>(
    alloc: Global,
    file: &str,
    files: &mut F,
    failure: &Failure,
    out: &mut O,
)
    ensures told { IsToldAsObject (TellsFailure file.now [] failure.now)
        (O.contents out.old) (O.contents out.new) }
    ensures keeps { F.held files.new ≡ F.held files.old }
{
    if let Ok(more) = unread_explanation(alloc, files, file, failure) {
        let refused = RefusedProgram {
            file,
            text: "",
            explanation: more.as_str(),
        };
        tell_refusal(alloc, refused, failure, out);
    }
}

/// Carries out an order on a text.
fn do_with<R: Threads + Wait + Sync, F: FileSource, O: Write, T: Terminal>(
    rt: &R,
    doing: TextOrder,
    loaded: Loaded<'_>,
    files: &mut F,
    out: &mut O,
    terminal: &mut T,
) -> Performed
    ensures done { DoesWithLoaded doing loaded.entry (F.held files.old) (F.held files.new)
        (O.contents out.old) (O.contents out.new) result.done }
    ensures watched { WatchesDoing T.Told doing (asked_of loaded.entry.request)
        result.done terminal.old terminal.new }
{
    match doing {
        TextOrder::Answering => {
            let done = perform(rt, loaded, files, out, terminal);
            Performed {
                done: handed_on(out, done),
                explanation: None,
            }
        }
        TextOrder::Describing(subject) => told(rt, subject, loaded, files, out, terminal),
        TextOrder::Timing => {
            let question = Question {
                text: loaded.text,
                settings: loaded.request.settings,
            };
            let done = time(rt, loaded.alloc, question, files, out, terminal);
            Performed {
                done: handed_on(out, done),
                explanation: None,
            }
        }
        TextOrder::TimingAsObject => time_as_object(rt, loaded, files, out, terminal),
        TextOrder::Walking(seed) => {
            let question = Question {
                text: loaded.text,
                settings: loaded.request.settings,
            };
            let schedule = Schedule::Drawn(seed);
            let done = run_as_tasks(rt, loaded.alloc, schedule, question, files, out);
            Performed {
                done: handed_on(out, done),
                explanation: None,
            }
        }
        TextOrder::Exploring(schedules) => schedules_told(schedules, loaded, files, out),
        TextOrder::Inspecting => inspected_told(rt, loaded, files, out),
    }
}

/// Adds the explanation to a result, if it should be explained.
fn explained<F: FileSource>(
    alloc: Global,
    files: &mut F,
    request: Request<'_>,
    source: &ProgramSource,
    performed: Performed,
) -> Result<Answered, Refusal>
    ensures same { in_short result ≡ performed.done }
    ensures said { IsSaid source.now.more result }
    ensures keeps { F.held files.new ≡ F.held files.old }
{
    let Performed { done, explanation } = performed;
    match done {
        Ok(status) => Ok(Answered::explained(alloc, files, request, source, status)),
        Err(failure) => {
            let told = Refusal::explained(alloc, files, request, source, failure, explanation);
            Err(told)
        }
    }
}
