//! The whole program, over borrowed files and writers.

ghost use Rattle.std.specs.Prelude.{◌≡◌, ◌≤◌, ◌⊎◌, codes, true, false, map, Err};
ghost use Rattle.std.specs.String.{string_bytes};
ghost use Rattle.driver.specs.Acts.{Reports, TellsMistake};
ghost use Rattle.driver.specs.More.{nothing_more};
ghost use Rattle.failures.specs.Failures.{TellsNotUtf8};
ghost use Rattle.failures.specs.declared.failure.Failure.{Failure as FailureOf};
ghost use Rattle.command_line.specs.Requests.{Asked, Asks};
ghost use Rattle.command_words.specs.Files.{names_once};
ghost use Rattle.command_words.specs.Orders.{AsksForObject, AsksToTest, AsksToTime, AsksToTimeAsObject};
ghost use Rattle.command_words.specs.Orders.{Order as OrderIn, Orders, order as order_said};
ghost use Rattle.command_words.specs.Orders.{names_once as order_names_once};
ghost use Rattle.command_words.specs.declared.order.Subject.{Subject};
ghost use Rattle.driver.specs.Orders.{Acts, ActsOn, TellsAs, TellsTimesAs, TestsAs, TimesAs};
ghost use Rattle.driver.specs.Watching.{WatchesOrder};
ghost use Rattle.options.specs.Replies.{IsMistake};
ghost use Rattle.printing.specs.Appending.{AppendsBeginning};

use crate::doing::{Ordered, TextOrder, read_and_do};
use crate::more::More;
use crate::refusal::Refusal;
use crate::reporting::report;
use crate::several::do_with_each;
use crate::terminal::{Terminal, more_on};
use crate::trying::{test_as_object, test_each, test_one};
use command_words::order::Order;
use command_words::words::order_of;
use failures::failure::Failure;
use options::reply::Reply;
use printing::emit::append;
use std::alloc::{AllocError, Global};
use std::io;
use std::io::{ErrorKind, Write};
use std::sync::Wait;
use std::thread::Threads;
use test_and_bench::folders::FolderSource;

/// Carries out the arguments after the program's name, and returns the exit status. It is a mistake
/// if they give the same name to two files: no file is both read and written. `--progress` reports
/// the progress of a run to `terminal`, and `bench` reads the time from it. By default explanations
/// are written if it is a terminal.
pub fn act<R: Threads + Wait + Sync, F: FolderSource, O: Write, E: Write, T: Terminal>(
    rt: &R,
    alloc: Global,
    words: &[String],
    files: &mut F,
    out: &mut O,
    err: &mut E,
    terminal: &mut T,
) -> u8
    ensures asked { (a : Asked) → Asks (map string_bytes words.now) a → names_once a ≡ true
        → Acts (T.seen terminal.old) a (F.held files.old) (F.held files.new) (O.contents out.old) (O.contents out.new)
        (E.contents err.old) (E.contents err.new) result }
    ensures as_object { (x : Subject) (a : Asked) → AsksForObject (map string_bytes words.now) x a
        → names_once a ≡ true → TellsAs (T.seen terminal.old) x a (F.held files.old) (F.held files.new)
        (O.contents out.old) (O.contents out.new)
        (E.contents err.old) (E.contents err.new) result }
    ensures timed { (a : Asked) → AsksToTime (map string_bytes words.now) a → names_once a ≡ true
        → TimesAs (T.seen terminal.old) a (F.held files.old) (F.held files.new) (O.contents out.old) (O.contents out.new)
        (E.contents err.old) (E.contents err.new) result }
    ensures timed_as_object { (a : Asked) → AsksToTimeAsObject (map string_bytes words.now) a
        → names_once a ≡ true → TellsTimesAs (T.seen terminal.old) a (F.held files.old) (F.held files.new)
        (O.contents out.old) (O.contents out.new)
        (E.contents err.old) (E.contents err.new) result }
    ensures tested { (a : Asked) → AsksToTest (map string_bytes words.now) a → names_once a ≡ true
        → TestsAs a (F.named files.old) (F.held files.old) (F.held files.new)
        (O.contents out.old) (O.contents out.new) (E.contents err.old) (E.contents err.new) result }
    ensures twice { (o : OrderIn) → Orders (map string_bytes words.now) o → order_names_once o ≡ false
        → (F.held files.new ≡ F.held files.old) × TellsMistake (O.contents out.old) (O.contents out.new)
        (E.contents err.old) (E.contents err.new) result }
    ensures watched { (o : OrderIn) → Orders (map string_bytes words.now) o → order_names_once o ≡ true
        → WatchesOrder T.Told o result terminal.old terminal.new }
    ensures always { ((result ≤ 1) × (F.held files.new ≡ F.held files.old)) ⊎ ((o : OrderIn)
        × ActsOn (T.seen terminal.old) o (F.named files.old) (F.held files.old) (F.held files.new)
        (O.contents out.old) (O.contents out.new) (E.contents err.old) (E.contents err.new) result) }
{
    match order_of(alloc, words) {
        Err(reply) => tell_command_line(alloc, &reply, out, err),
        Ok(order) => carry_out(rt, alloc, order, files, out, err, terminal),
    }
}

/// Carries out an order, and returns the exit status.
fn carry_out<R: Threads + Wait + Sync, F: FolderSource, O: Write, E: Write, T: Terminal>(
    rt: &R,
    alloc: Global,
    order: Order<'_>,
    files: &mut F,
    out: &mut O,
    err: &mut E,
    terminal: &mut T,
) -> u8
    ensures acts { ActsOn (T.seen terminal.old) (order_said order.entry) (F.named files.old)
        (F.held files.old) (F.held files.new)
        (O.contents out.old) (O.contents out.new) (E.contents err.old) (E.contents err.new) result }
    ensures watched { WatchesOrder T.Told (order_said order.entry) result terminal.old terminal.new }
{
    match order {
        Order::AsText(request) => {
            let doing = TextOrder::Answering;
            let more = more_on(request.action, request.telling, terminal);
            let ordered = Ordered {
                doing,
                request,
                more,
            };
            let done = read_and_do(rt, alloc, ordered, files, out, terminal);
            report(done, more, err)
        }
        Order::AsObject(subject, request) => {
            let doing = TextOrder::Describing(subject);
            let more = more_on(request.action, request.telling, terminal);
            let ordered = Ordered {
                doing,
                request,
                more,
            };
            let done = read_and_do(rt, alloc, ordered, files, out, terminal);
            report(done, more, err)
        }
        Order::Times(request) => {
            let doing = TextOrder::Timing;
            let more = more_on(request.action, request.telling, terminal);
            let ordered = Ordered {
                doing,
                request,
                more,
            };
            let done = read_and_do(rt, alloc, ordered, files, out, terminal);
            report(done, more, err)
        }
        Order::TimesAsObject(request) => {
            let doing = TextOrder::TimingAsObject;
            let more = more_on(request.action, request.telling, terminal);
            let ordered = Ordered {
                doing,
                request,
                more,
            };
            let done = read_and_do(rt, alloc, ordered, files, out, terminal);
            report(done, more, err)
        }
        Order::Tests(request) => {
            let done = test_one(rt, alloc, request, files, out);
            report(done, More::nothing(), err)
        }
        Order::TestsEach(tests) => {
            let done = test_each(rt, alloc, tests, files, out);
            report(done, More::nothing(), err)
        }
        Order::TestsAsObject(tests) => {
            let done = test_as_object(rt, alloc, tests, files, out);
            report(done, More::nothing(), err)
        }
        Order::Each(several) => do_with_each(rt, alloc, several, files, out, err, terminal),
        Order::Walks(seed, request) => {
            let doing = TextOrder::Walking(seed);
            let more = more_on(request.action, request.telling, terminal);
            let ordered = Ordered {
                doing,
                request,
                more,
            };
            let done = read_and_do(rt, alloc, ordered, files, out, terminal);
            report(done, more, err)
        }
        Order::Explores(schedules, request) => {
            let doing = TextOrder::Exploring(schedules);
            let more = more_on(request.action, request.telling, terminal);
            let ordered = Ordered {
                doing,
                request,
                more,
            };
            let done = read_and_do(rt, alloc, ordered, files, out, terminal);
            report(done, more, err)
        }
        Order::Inspects(request) => {
            let doing = TextOrder::Inspecting;
            let more = More::nothing();
            let ordered = Ordered {
                doing,
                request,
                more,
            };
            let done = read_and_do(rt, alloc, ordered, files, out, terminal);
            report(done, more, err)
        }
    }
}

/// Reports why the arguments after the program's name can't be read: one of them isn't text, or
/// memory ran out.
pub fn refuse_words<E: Write>(alloc: Global, error: &io::Error, err: &mut E) -> u8
    ensures { (f : FailureOf) × TellsNotUtf8 (codes "command line") f
        × Reports nothing_more (E.contents err.old) (E.contents err.new) (Err f) result }
{
    let failure = match error.kind() {
        ErrorKind::OutOfMemory => Failure::NoMemory,
        _ => Failure::not_utf8(alloc, "command line"),
    };
    Refusal::bare(alloc, failure).tell(err)
}

/// Prints the reply to arguments without an order: help and pages to the output with status 0, a
/// mistake to the error output with status 1.
fn tell_command_line<O: Write, E: Write>(
    alloc: Global,
    reply: &Reply,
    out: &mut O,
    err: &mut E,
) -> u8
    ensures always { result ≤ 1 }
    ensures mistake { IsMistake reply.now → TellsMistake (O.contents out.old) (O.contents out.new)
        (E.contents err.old) (E.contents err.new) result }
{
    match reply {
        Reply::Said(error) => match format!(in alloc; "{error}") {
            Ok(text) if error.use_stderr() => refuse(err, &text),
            Ok(text) => hand_out(out, err, &text),
            Err(AllocError) => refuse(err, "error: out of memory\n"),
        },
        Reply::Page(text) => hand_out(out, err, text),
        Reply::NoPage(line) => refuse(err, line),
    }
}

/// Writes a text to the output.
fn hand_out<O: Write, E: Write>(out: &mut O, err: &mut E, text: &str) -> u8
    ensures { result ≤ 1 }
{
    if append(out, text.as_bytes()).is_ok() && out.flush().is_ok() {
        0
    } else {
        refuse(err, "cannot write output\n")
    }
}

/// Writes a mistake in the arguments to the error output, as far as it is accepted.
fn refuse<E: Write>(err: &mut E, line: &str) -> u8
    ensures status { result ≡ 1 }
    ensures told { AppendsBeginning (E.contents err.old) (E.contents err.new) line.now }
{
    let _ = append(err, line.as_bytes());
    1
}
