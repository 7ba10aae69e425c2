//! Programs run in several ways: timed, and tested.

ghost use Rattle.std.specs.Prelude.{◌≡◌, ◌∷◌, [], false, map, IfOk};
ghost use Rattle.std.specs.String.{string_bytes};
ghost use Rattle.command_line.specs.Requests.{asked_of, settings as settings_of};
ghost use Rattle.driver.specs.Acts.{IsSaid, in_short};
ghost use Rattle.driver.specs.More.{nothing_more};
ghost use Rattle.driver.specs.Trying.{TellsTimes, TimesRuns};
ghost use Rattle.test_and_bench.specs.TestsObject.{TellsTests, failed_name};
ghost use Rattle.test_and_bench.specs.Trials.{DoesTest};

use crate::answered::Answered;
use crate::doing::tell_unread_file;
use crate::handing::handed_on;
use crate::loaded::Loaded;
use crate::performed::Performed;
use crate::refusal::Refusal;
use crate::tracing::run_settings;
use command_line::request::{Request, RunOptions};
use command_words::order::SeveralTests;
use commands::question::Question;
use failures::failure::Failure;
use files::file_source::FileSource;
use json_answers::writing::{answer_object, tell_explained};
use race_checker::accepted::Accepted;
use std::alloc::{AllocError, Global};
use std::io::Write;
use std::sync::Wait;
use std::thread::Threads;
use test_and_bench::clock::Stopwatch;
use test_and_bench::describing::times_told;
use test_and_bench::folders::FolderSource;
use test_and_bench::runs::Runs;
use test_and_bench::testing::{Testing, test_names, tests_told};
use test_and_bench::timing::{Timing, bench};
use types::input::Input;
use types::outcome::Outcome;
use workers::gate::NoGate;
use workers::run::run;

/// Parallel runs on worker threads.
#[derive(Clone, Copy)]
struct OnThreads;

impl Runs for OnThreads {
    fn outcome<R: Threads + Wait + Sync>(
        &self,
        rt: &R,
        alloc: Global,
        accepted: &Accepted,
        input: &Input,
        settings: RunOptions<'_>,
    ) -> Result<Outcome, Failure> {
        let on = run_settings(settings);
        match run(rt, alloc, accepted, input, on, &NoGate, None) {
            Ok((finished, _)) => Ok(finished.outcome),
            Err(error) => Err(Failure::Run(error)),
        }
    }
}

/// Times the runs of a program.
pub fn time<R: Threads + Wait + Sync, F: FileSource, O: Write, C: Stopwatch>(
    rt: &R,
    alloc: Global,
    question: Question<'_>,
    files: &mut F,
    out: &mut O,
    clock: &mut C,
) -> Result<u8, Failure>
    ensures { TimesRuns (settings_of question.entry.settings) question.entry.text.now
        (F.held files.old) (F.held files.new) (O.contents out.old) (O.contents out.new) result }
{
    let timing = Timing {
        alloc,
        runs: &OnThreads,
        clock,
    };
    bench(rt, timing, question, files, out)
}

/// Times the runs of a program. Writes the durations as one object, or the reason why there are
/// none.
pub fn time_as_object<R: Threads + Wait + Sync, F: FileSource, O: Write, C: Stopwatch>(
    rt: &R,
    loaded: Loaded<'_>,
    files: &mut F,
    out: &mut O,
    clock: &mut C,
) -> Performed
    ensures { let a = asked_of loaded.entry.request in TellsTimes a.file a.settings loaded.entry.text.now
        (F.held files.old) (F.held files.new) (O.contents out.old) (O.contents out.new)
        result.done }
{
    let Loaded {
        alloc,
        request,
        text,
    } = loaded;
    let question = Question {
        text,
        settings: request.settings,
    };
    let timing = Timing {
        alloc,
        runs: &OnThreads,
        clock,
    };
    match times_told(rt, timing, question, files) {
        Ok(told) => Performed {
            done: answer_object(out, &told),
            explanation: None,
        },
        Err(failure) => {
            let explanation = tell_explained(alloc, files, request, text, &failure, out);
            Performed {
                done: Err(failure),
                explanation,
            }
        }
    }
}

/// Tests a program, or the programs of a folder: the file of the request.
pub fn test_one<R: Threads + Wait + Sync, F: FolderSource, O: Write>(
    rt: &R,
    alloc: Global,
    request: Request<'_>,
    files: &mut F,
    out: &mut O,
) -> Result<Answered, Refusal>
    ensures done { let a = asked_of request.entry in DoesTest (F.named files.old) (F.held files.old)
        (a.file ∷ []) false a.settings (F.held files.new)
        (O.contents out.old) (O.contents out.new) (in_short result) }
    ensures said { IsSaid nothing_more result }
{
    let Ok(names) = list_of_one(alloc, request.file) else {
        return Err(Refusal::bare(alloc, Failure::NoMemory));
    };
    let tests = SeveralTests {
        names: &names,
        settings: request.settings,
        writes: false,
    };
    test_each(rt, alloc, tests, files, out)
}

/// Returns a list with one name.
fn list_of_one(alloc: Global, name: &str) -> Result<Vec<String>, AllocError>
    ensures { IfOk result (λ names. map string_bytes names.items ≡ name.now ∷ []) }
{
    let mut names = Vec::new(alloc);
    names.push(String::from_str(alloc, name)?)?;
    Ok(names)
}

/// Tests programs, and the programs of folders.
pub fn test_each<R: Threads + Wait + Sync, F: FolderSource, O: Write>(
    rt: &R,
    alloc: Global,
    tests: SeveralTests<'_>,
    files: &mut F,
    out: &mut O,
) -> Result<Answered, Refusal>
    ensures done { DoesTest (F.named files.old) (F.held files.old)
        (map string_bytes tests.entry.names.now) tests.entry.writes (settings_of tests.entry.settings)
        (F.held files.new) (O.contents out.old) (O.contents out.new) (in_short result) }
    ensures said { IsSaid nothing_more result }
{
    let testing = Testing {
        alloc,
        runs: &OnThreads,
        settings: tests.settings,
        writes: tests.writes,
    };
    let done = test_names(rt, &testing, tests.names, files, out);
    let done = handed_on(out, done);
    without_more(alloc, done)
}

/// Tests programs, and the programs of folders. Writes the results as one object, or the reason why
/// there are none.
pub fn test_as_object<R: Threads + Wait + Sync, F: FolderSource, O: Write>(
    rt: &R,
    alloc: Global,
    tests: SeveralTests<'_>,
    files: &mut F,
    out: &mut O,
) -> Result<Answered, Refusal>
    ensures done { TellsTests (F.named files.old) (F.held files.old)
        (map string_bytes tests.entry.names.now) tests.entry.writes (settings_of tests.entry.settings)
        (F.held files.new) (O.contents out.old) (O.contents out.new) (in_short result) }
    ensures said { IsSaid nothing_more result }
{
    let done = tell_tests(rt, alloc, tests, files, out);
    without_more(alloc, done)
}

/// Tests programs, and writes the object of the results, or of the reason why there are none.
fn tell_tests<R: Threads + Wait + Sync, F: FolderSource, O: Write>(
    rt: &R,
    alloc: Global,
    tests: SeveralTests<'_>,
    files: &mut F,
    out: &mut O,
) -> Result<u8, Failure>
    ensures { TellsTests (F.named files.old) (F.held files.old)
        (map string_bytes tests.entry.names.now) tests.entry.writes (settings_of tests.entry.settings)
        (F.held files.new) (O.contents out.old) (O.contents out.new) result }
{
    let testing = Testing {
        alloc,
        runs: &OnThreads,
        settings: tests.settings,
        writes: tests.writes,
    };
    match tests_told(rt, &testing, tests.names, files) {
        Ok(told) => answer_object(out, &told),
        Err(failure) => {
            tell_unread_file(alloc, name_in(&failure), files, &failure, out);
            Err(failure)
        }
    }
}

/// Returns the name in a failure, if it is that of a folder that can't be read.
fn name_in(failure: &Failure) -> &str
    ensures { result.now ≡ failed_name failure.now }
{
    match failure {
        Failure::CannotRead { name } => name.as_str(),
        _ => "",
    }
}

/// Returns a result that nothing follows.
fn without_more(alloc: Global, done: Result<u8, Failure>) -> Result<Answered, Refusal>
    ensures same { in_short result ≡ done }
    ensures said { IsSaid nothing_more result }
{
    match done {
        Ok(status) => Ok(Answered {
            status,
            more: String::new(alloc),
        }),
        Err(failure) => Err(Refusal::bare(alloc, failure)),
    }
}
