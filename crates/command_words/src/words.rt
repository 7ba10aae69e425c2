//! The arguments of a command line.

ghost use Rattle.std.specs.Prelude.{◌≡◌, ◌∷◌, [], map, Some, true, false, codes};
ghost use Rattle.std.specs.Prelude.{IfOk, IsErrAnd, IsOkAnd, IsSomeAnd};
ghost use Rattle.std.specs.String.{string_bytes};
ghost use Rattle.command_words.specs.Orders.{AsText, AsObject, Times, TimesAsObject, Tests};
ghost use Rattle.command_words.specs.Orders.{Order as OrderIn, Orders};
ghost use Rattle.command_words.specs.Orders.{AsksForObject, AsksToTimeAsObject, IsTested, IsTimed};
ghost use Rattle.command_words.specs.Orders.{names_once, order as order_said, subject_of};
ghost use Rattle.command_words.specs.declared.order.Subject.{Subject as SubjectOf};
ghost use Rattle.command_words.specs.Reading.{line_of};
ghost use Rattle.command_line.specs.Requests.{AreRight, Asked, Asks, Options, asked_of};
ghost use Rattle.command_line.specs.Requests.{acting, texts_by, usual_telling};
ghost use Rattle.options.specs.Replies.{IsConflict};

use crate::by_clap::order_by_clap;
use crate::order::{Order, Subject};
use crate::plain::{PlainLine, line_in, line_of_none};
use crate::settings::settings_in;
use crate::several::each_in;
use crate::taking::take;
use command_line::request::{Color, Explain, Request, Telling};
use options::reply::{self, Reply};
use std::alloc::Global;

/// Parses the arguments after the program's name. It parses a command, its reporting options, a
/// file and other options in this order itself, and several files of one action. `clap` parses all
/// other arguments: other orders, help, pages and mistakes. It is a mistake to give two files the
/// same name: `run a.afx --trace a.afx`.
pub fn order_of<'w>(alloc: Global, words: &'w [String]) -> Result<Order<'w>, Reply>
    ensures read { (o : OrderIn) → Orders (map string_bytes words.now) o → names_once o ≡ true
        → IsOkAnd result (λ r. order_said r ≡ o) }
    ensures once { IfOk result (λ r. names_once (order_said r) ≡ true) }
    ensures twice { (o : OrderIn) → Orders (map string_bytes words.now) o → names_once o ≡ false
        → IsErrAnd result IsConflict }
{
    let order = match order_in(words) {
        Some(order) => order,
        None => match each_in(words) {
            Some(order) => order,
            None => order_by_clap(alloc, words)?,
        },
    };
    if order.names_once() {
        Ok(order)
    } else {
        Err(reply::named_twice(alloc)?)
    }
}

/// Returns the order of plain arguments.
fn order_in<'w>(words: &'w [String]) -> Option<Order<'w>>
    ensures { (o : OrderIn) → Orders (map string_bytes words.now) o
        → IsSomeAnd result (λ r. order_said r ≡ o) }
{
    match words {
        [] => Some(Order::AsText(asked_by_none()?)),
        [command, behind @ ..] => order_behind(command.as_str(), behind),
    }
}

/// Returns the order of a command and the arguments after it.
fn order_behind<'w>(command: &str, behind: &'w [String]) -> Option<Order<'w>>
    ensures { (o : OrderIn) → Orders (command.now ∷ map string_bytes behind.now) o
        → IsSomeAnd result (λ r. order_said r ≡ o) }
{
    if command == "test" {
        tests_in(behind)
    } else if command == "bench" {
        bench_in(behind)
    } else {
        told_in(command, behind)
    }
}

/// Returns the order of arguments for one program, answered as text or as one object.
fn told_in<'w>(command: &str, behind: &'w [String]) -> Option<Order<'w>>
    ensures text { (a : Asked) → Asks (command.now ∷ map string_bytes behind.now) a
        → IsSomeAnd result (λ r. order_said r ≡ AsText a) }
    ensures object { (x : SubjectOf) (a : Asked)
        → AsksForObject (command.now ∷ map string_bytes behind.now) x a
        → IsSomeAnd result (λ r. order_said r ≡ AsObject x a) }
{
    let (form, rest) = take("--format", behind);
    match form {
        None => Some(Order::AsText(asked_in(command, behind)?)),
        Some(form) => {
            if form == "json" {
                object_in(command, rest)
            } else {
                None
            }
        }
    }
}

/// Returns the order of arguments for one program, answered as one object.
fn object_in<'w>(command: &str, behind: &'w [String]) -> Option<Order<'w>>
    ensures { (x : SubjectOf) (a : Asked) → Asks (command.now ∷ map string_bytes behind.now) a
        → subject_of a.action ≡ Some x → IsSomeAnd result (λ r. order_said r ≡ AsObject x a) }
{
    let request = asked_in(command, behind)?;
    let subject = Subject::of(request.action)?;
    Some(Order::AsObject(subject, request))
}

/// Returns the order of the arguments after `bench`: what can follow `run`, except a trace and
/// arrays, and `--format json` in front of it.
fn bench_in<'w>(behind: &'w [String]) -> Option<Order<'w>>
    ensures text { (a : Asked) → Asks (codes "run" ∷ map string_bytes behind.now) a
        → IsTimed a → IsSomeAnd result (λ r. order_said r ≡ Times a) }
    ensures object { (a : Asked) → AsksToTimeAsObject (codes "bench" ∷ map string_bytes behind.now) a
        → IsSomeAnd result (λ r. order_said r ≡ TimesAsObject a) }
{
    let (form, rest) = take("--format", behind);
    match form {
        None => times_in(behind),
        Some(form) => {
            if form == "json" {
                times_as_object_in(rest)
            } else {
                None
            }
        }
    }
}

/// Returns the order of the arguments after `bench`, without a format.
fn times_in<'w>(behind: &'w [String]) -> Option<Order<'w>>
    ensures { (a : Asked) → Asks (codes "run" ∷ map string_bytes behind.now) a
        → IsTimed a → IsSomeAnd result (λ r. order_said r ≡ Times a) }
{
    let request = timed_in(behind)?;
    Some(Order::Times(request))
}

/// Returns the order of the arguments after `bench --format json`.
fn times_as_object_in<'w>(behind: &'w [String]) -> Option<Order<'w>>
    ensures { (a : Asked) → Asks (codes "run" ∷ map string_bytes behind.now) a
        → IsTimed a → IsSomeAnd result (λ r. order_said r ≡ TimesAsObject a) }
{
    let request = timed_in(behind)?;
    Some(Order::TimesAsObject(request))
}

/// Returns the request of the arguments after `run`, if it can be timed.
fn timed_in<'w>(behind: &'w [String]) -> Option<Request<'w>>
    ensures { (a : Asked) → Asks (codes "run" ∷ map string_bytes behind.now) a
        → IsTimed a → IsSomeAnd result (λ r. asked_of r ≡ a) }
{
    let request = asked_in("run", behind)?;
    match Subject::of(request.action)? {
        Subject::Run => timed(request),
        _ => None,
    }
}

/// Returns a request, if it has no trace and shows no arrays.
fn timed<'w>(request: Request<'w>) -> Option<Request<'w>>
    ensures { IsTimed (asked_of request.entry)
        → IsSomeAnd result (λ r. asked_of r ≡ asked_of request.entry) }
{
    match request.settings.trace {
        Some(_) => None,
        None => {
            if request.settings.arrays {
                None
            } else {
                Some(request)
            }
        }
    }
}

/// Returns the order of the arguments after `test`: what can follow `run`, except an input, a
/// trace, arrays and reporting options.
fn tests_in<'w>(behind: &'w [String]) -> Option<Order<'w>>
    ensures { (a : Asked) → Asks (codes "run" ∷ map string_bytes behind.now) a
        → IsTested a → IsSomeAnd result (λ r. order_said r ≡ Tests a) }
{
    let request = tested_in(behind)?;
    Some(Order::Tests(request))
}

/// Returns the request of the arguments after `run`, if it can be one of `test`.
pub fn tested_in<'w>(behind: &'w [String]) -> Option<Request<'w>>
    ensures { (a : Asked) → Asks (codes "run" ∷ map string_bytes behind.now) a
        → IsTested a → IsSomeAnd result (λ r. asked_of r ≡ a) }
{
    let request = timed_in(behind)?;
    tested(request)
}

/// Returns a request, if it has no input and is reported by default.
fn tested<'w>(request: Request<'w>) -> Option<Request<'w>>
    ensures { IsTested (asked_of request.entry)
        → IsSomeAnd result (λ r. asked_of r ≡ asked_of request.entry) }
{
    match request.settings.input {
        Some(_) => None,
        None => reported_usually(request),
    }
}

/// Returns a request, if it is reported by default.
fn reported_usually<'w>(request: Request<'w>) -> Option<Request<'w>>
    ensures { request.entry.telling ≡ usual_telling
        → IsSomeAnd result (λ r. asked_of r ≡ asked_of request.entry) }
{
    if is_usual(request.telling) {
        Some(request)
    } else {
        None
    }
}

/// Returns whether these are the default reporting options.
fn is_usual(telling: Telling) -> bool
    ensures { telling ≡ usual_telling → result ≡ true }
{
    match telling.explain {
        Explain::AtTerminal => match telling.color {
            Color::Auto => !telling.all,
            _ => false,
        },
        _ => false,
    }
}

/// Returns the request of no arguments.
fn asked_by_none<'w>() -> Option<Request<'w>>
    ensures { (a : Asked) → Asks [] a → IsSomeAnd result (λ r. asked_of r ≡ a) }
{
    let (line, manner) = line_of_none();
    request_in(line, manner.telling())
}

/// Returns the request of a command and the plain arguments after it.
fn asked_in<'w>(command: &str, behind: &'w [String]) -> Option<Request<'w>>
    ensures { (a : Asked) → Asks (command.now ∷ map string_bytes behind.now) a
        → IsSomeAnd result (λ r. asked_of r ≡ a) }
{
    let (line, manner) = line_in(command, behind)?;
    request_in(line, manner.telling())
}

/// Returns the request of a line with these reporting options.
fn request_in<'w>(line: PlainLine<'w>, telling: Telling) -> Option<Request<'w>>
    ensures { (o : Options) → AreRight o → (line_of line.entry).texts ≡ texts_by o → IsSomeAnd result
        (λ r. asked_of r ≡ record (acting line.entry.action line.entry.file.now o) { telling = telling }) }
{
    let settings = settings_in(line.texts)?;
    Some(Request {
        action: line.action,
        file: line.file,
        settings,
        telling,
    })
}
