//! One action for several files, one after the other.

ghost use Rattle.std.specs.Prelude.{◌≡◌, ◌++◌, codes, map};
ghost use Rattle.std.specs.String.{string_bytes};
ghost use Rattle.command_line.specs.Requests.{asked_of};
ghost use Rattle.driver.specs.Acts.{in_short};
ghost use Rattle.driver.specs.More.{more_of};
ghost use Rattle.driver.specs.Orders.{ActsOnEach, ActsOnOne, Names, asked_for, larger as larger_of};
ghost use Rattle.driver.specs.declared.doing.TextOrder.TheVariants.{Answering};
ghost use Rattle.printing.specs.Appending.{Writes};
ghost use Rattle.printing.specs.Reasons.{escaped};

use crate::answered::Answered;
use crate::doing::{Ordered, TextOrder, read_and_do};
use crate::more::More;
use crate::refusal::Refusal;
use crate::reporting::report;
use crate::terminal::{Terminal, more_on};
use command_line::request::{Request, RunOptions};
use command_words::order::Several;
use files::file_source::FileSource;
use printing::emit::EmitError;
use printing::reasons::{emit_file, emit_text};
use std::alloc::Global;
use std::io::Write;
use std::sync::Wait;
use std::thread::Threads;

/// Does an action with each of several files, and returns the largest exit status. The message of a
/// failure comes after the name of its file.
pub fn do_with_each<R: Threads + Wait + Sync, F: FileSource, O: Write, E: Write, T: Terminal>(
    rt: &R,
    alloc: Global,
    several: Several<'_>,
    files: &mut F,
    out: &mut O,
    err: &mut E,
    terminal: &mut T,
) -> u8
    ensures { ActsOnEach (more_of several.entry.action several.entry.telling (T.seen terminal.old))
        several.entry.action several.entry.telling (F.held files.old)
        (O.contents out.old) (E.contents err.old) (map string_bytes several.entry.files.now)
        (F.held files.new) (O.contents out.new) (E.contents err.new) result }
{
    let more = more_on(several.action, several.telling, terminal);
    let mut worst = 0;
    for file in several.files {
        let ordered = ordered_for(several, file.as_str(), more);
        let status = do_with_one(rt, alloc, ordered, files, out, err, terminal);
        worst = larger(worst, status);
    }
    worst
}

/// Returns the order for one of several files.
fn ordered_for<'w>(several: Several<'w>, file: &'w str, more: More) -> Ordered<'w>
    ensures answers { result.doing ≡ Answering }
    ensures asks { asked_of result.request
        ≡ asked_for several.entry.action several.entry.telling file.now }
    ensures more { result.more ≡ more }
{
    let request = Request {
        action: several.action,
        file,
        settings: RunOptions::usual(),
        telling: several.telling,
    };
    Ordered {
        doing: TextOrder::Answering,
        request,
        more,
    }
}

/// Carries out the order for one of several files, and reports what was done.
fn do_with_one<R: Threads + Wait + Sync, F: FileSource, O: Write, E: Write, T: Terminal>(
    rt: &R,
    alloc: Global,
    ordered: Ordered<'_>,
    files: &mut F,
    out: &mut O,
    err: &mut E,
    terminal: &mut T,
) -> u8
    ensures { ActsOnOne ordered.entry.more ordered.entry.doing (asked_of ordered.entry.request)
        (F.held files.old) (F.held files.new)
        (O.contents out.old) (O.contents out.new)
        (E.contents err.old) (E.contents err.new) result }
{
    let done = read_and_do(rt, alloc, ordered, files, out, terminal);
    name_failure(ordered.request.file, &done, err);
    report(done, ordered.more, err)
}

/// Writes the name of a file if there is a failure, as far as it is accepted.
fn name_failure<E: Write>(file: &str, done: &Result<Answered, Refusal>, err: &mut E)
    ensures { Names file.now (in_short done.now) (E.contents err.old) (E.contents err.new) }
{
    match done {
        Ok(_) => {}
        Err(_) => {
            let _ = emit_name(err, file);
        }
    }
}

/// Writes the name of a file and a colon.
fn emit_name<E: Write>(err: &mut E, file: &str) -> Result<(), EmitError>
    ensures { Writes (E.contents err.old) (E.contents err.new) result
        (escaped file.now ++ codes ": ") }
{
    emit_file(err, "", file)?;
    emit_text(err, ": ")
}

/// Returns the larger of two exit statuses.
fn larger(one: u8, other: u8) -> u8
    ensures { result ≡ larger_of one other }
{
    if one < other { other } else { one }
}
